//! The root of a pair, in memory.
ghost use Rattle.std.specs.Prelude.{◌≡◌, ℕ, ◌≤◌, List, [], IfOk, OnOk, length};
ghost use Rattle.std.specs.List.{All};
ghost use Rattle.hp_syntax.specs.declared.limits.TheConstants.{GREATEST_DEPTH};
ghost use Rattle.hp_syntax.specs.Changes.{added};
ghost use Rattle.hp_syntax.specs.GroundPatterns.{IsGroundAtom, IsGroundPair, atoms_said};
ghost use Rattle.hp_syntax.specs.Terms.{Term};
ghost use Rattle.hp_syntax.specs.Views.{atoms_of, pair_of};
ghost use Rattle.hp_syntax.specs.Walk.{root};
ghost use Rattle.hp_eval.specs.Growth.{Grows};
ghost use Rattle.hp_world.specs.Keyed.{parts_of};
ghost use Rattle.hp_world.specs.Pasts.{PastsBelow};
ghost use Rattle.hp_world.specs.Recorded.{IndexesStood, Knows, history_in};
ghost use Rattle.hp_world.specs.Stages.{AllBelow, StageBelow, state_of, terms_at};
ghost use Rattle.hp_tree.specs.Roots.{IsRoot, held_root, untouched};
ghost use Rattle.hp_tree.specs.SearchNodes.{node_of, IsHeldNode};

use hp_cells::{Cell, Cells};
use hp_eval::{ground_atom, ground_tasks};
use hp_net::Net;
use hp_syntax::{AtomPat, Pair};
use hp_world::World;
use std::alloc::{AllocError, Global};

/// The root of the tree of a pair: the world in which the pair's atoms hold, and the network of its tasks.
#[derive(Drop)]
pub struct Root {
    pub world: World,
    pub net: Net,
}

// The cells of the terms that atoms say.
fn cells_of(alloc: Global, atoms: &[AtomPat], cells: &mut Cells) -> Result<Vec<Cell>, AllocError>
    requires ground { All IsGroundAtom (atoms_of atoms.now) }
    ensures terms { IfOk result (λ v. terms_at cells.new v.items ≡ atoms_said (atoms_of atoms.now)) }
    ensures below { IfOk result (λ v. AllBelow (length cells.new) v.items) }
    ensures cells { Grows cells.old cells.new }
{
    let mut found = Vec::with_capacity(alloc, atoms.len())?;
    for atom in atoms {
        let cell = ground_atom(alloc, atom, cells)?;
        found.push_reserved(cell);
    }
    Ok(found)
}

// Adds these atoms, each once, to a world where nothing stands.
fn fill(world: &mut World, atoms: &[Cell], cells: &Cells) -> Result<(), AllocError>
    requires empty { history_in world.old ≡ untouched }
    requires below { AllBelow (length cells.now) atoms.now }
    ensures state { OnOk result (state_of cells.now world.new.now ≡ added [] (terms_at cells.now atoms.now)) }
    ensures guards { OnOk result (world.new.now.guards ≡ []) }
    ensures below { StageBelow (length cells.now) world.new.now }
    ensures indexes { parts_of world.new.parts ≡ parts_of world.old.parts }
    ensures knows { Knows cells.now world.old → Knows cells.now world.new }
    ensures stood { IndexesStood world.new }
    ensures pasts { PastsBelow (length cells.now) (history_in world.new) }
{
    prove!(cells.len() > 0);
    world.apply_in(cells, &[], &[], atoms, &[])?;
    Ok(())
}

impl Root {
    /// The root of a pair.
    pub fn new(alloc: Global, pair: &Pair, cells: &mut Cells) -> Result<Root, AllocError>
        requires pair { IsGroundPair (pair_of pair.now) }
        ensures node { IfOk result (λ r. (depth : ℕ)
            → node_of cells.new (held_root r depth) ≡ root (pair_of pair.now) depth) }
        ensures below { IfOk result (λ r. (depth : ℕ) → depth ≤ GREATEST_DEPTH
            → IsHeldNode (length cells.new) (held_root r depth)) }
        ensures cells { Grows cells.old cells.new }
    {
        Root::of_pair(alloc, World::new(alloc), pair, cells)
    }

    /// The root of a pair, whose world keeps indexes by these parts of atoms.
    pub fn indexed(
        alloc: Global,
        parts: &[usize],
        pair: &Pair,
        cells: &mut Cells,
    ) -> Result<Root, AllocError>
        requires pair { IsGroundPair (pair_of pair.now) }
        ensures node { IfOk result (λ r. (depth : ℕ)
            → node_of cells.new (held_root r depth) ≡ root (pair_of pair.now) depth) }
        ensures below { IfOk result (λ r. (depth : ℕ) → depth ≤ GREATEST_DEPTH
            → IsHeldNode (length cells.new) (held_root r depth)) }
        ensures indexes { IfOk result (λ r. parts_of r.world.parts ≡ parts.now) }
        ensures knows { IfOk result (λ r. Knows cells.new r.world) }
        ensures stood { IfOk result (λ r. IndexesStood r.world) }
        ensures pasts { IfOk result (λ r. PastsBelow (length cells.new) (history_in r.world)) }
        ensures cells { Grows cells.old cells.new }
    {
        let world = World::indexed(alloc, parts)?;
        Root::of_pair(alloc, world, pair, cells)
    }

    // The root of a pair, from a world where nothing stands.
    fn of_pair(
        alloc: Global,
        mut world: World,
        pair: &Pair,
        cells: &mut Cells,
    ) -> Result<Root, AllocError>
        requires empty { history_in world ≡ untouched }
        requires knows { (terms : List Term) → Knows terms world }
        requires pair { IsGroundPair (pair_of pair.now) }
        ensures is { IfOk result (λ r. IsRoot cells.new (root (pair_of pair.now)) r) }
        ensures indexes { IfOk result (λ r. parts_of r.world.parts ≡ parts_of world.parts) }
        ensures cells { Grows cells.old cells.new }
    {
        let atoms = cells_of(alloc, pair.state.as_slice(), cells)?;
        let tree = ground_tasks(alloc, &pair.tasks, cells)?;
        let net = Net::new(alloc, &tree)?;
        fill(&mut world, atoms.as_slice(), cells)?;
        Ok(Root { world, net })
    }
}
