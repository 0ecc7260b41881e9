//! What a step changes, by what holds before it and after it.
ghost use Rattle.std.specs.Prelude.{◌≡◌, ◌++◌, ◌∷◌, [], true, IfOk, MatchOption, OnOk, length, map};
ghost use Rattle.hp_net.specs.Standings.{node_reached};
ghost use Rattle.hp_syntax.specs.GroundViews.{ground_of};
ghost use Rattle.hp_syntax.specs.Walk.{Node};
ghost use Rattle.hp_world.specs.Stages.{StageBelow, guards_of, live_atoms, state_of};
ghost use Rattle.hp_changes.specs.Changes.{apart, between, changed_of, once};
ghost use Rattle.hp_changes.specs.Changing.{Holds};

use crate::terms::{apart, once};
use hp_best::to_grounds;
use hp_cells::{Cell, Cells};
use hp_net::Walk;
use hp_syntax::Ground;
use hp_world::World;
use std::alloc::{AllocError, Global};

/// What a step changes.
pub struct Changed {
    /// The atoms that hold only before it, in the order of the state before.
    pub taken: Vec<Ground>,
    /// The atoms that hold only after it, in the order of the state after.
    pub added: Vec<Ground>,
    /// The atoms that are protected only after it, each once.
    pub protected: Vec<Ground>,
    /// The atoms that are protected only before it, each once.
    pub freed: Vec<Ground>,
}

// A derived drop would do the same, but be proved anew wherever changes are let go.
impl Drop for Changed {
    fn drop(self) {
        let Changed {
            taken,
            added,
            protected,
            freed,
        } = self;
        drop(taken);
        drop(added);
        drop(protected);
        drop(freed);
    }
}

/// What holds and is protected at a node.
pub(crate) struct Holding {
    pub(crate) atoms: Vec<Ground>,
    pub(crate) guards: Vec<Ground>,
}

impl Drop for Holding {
    fn drop(self) {
        let Holding { atoms, guards } = self;
        drop(atoms);
        drop(guards);
    }
}

/// Adds what stands at a place, if an atom does.
fn push_place(atoms: &mut Vec<Cell>, place: Option<Cell>) -> Result<(), AllocError>
    ensures { OnOk result (atoms.new.items ≡ atoms.old.items ++ live_atoms (place ∷ [])) }
{
    match place {
        Some(atom) => {
            atoms.push(atom)?;
            Ok(())
        }
        None => Ok(()),
    }
}

/// The cells of the atoms of a world, in its order.
fn live_cells(alloc: Global, world: &World) -> Result<Vec<Cell>, AllocError>
    ensures { IfOk result (λ v. v.items ≡ live_atoms world.now.now.places) }
{
    let mut atoms = Vec::new(alloc);
    for place in 0..world.places() {
        push_place(&mut atoms, world.at(place))?;
    }
    Ok(atoms)
}

/// The atoms of a world, in its order.
pub fn atoms_of(alloc: Global, world: &World, cells: &Cells) -> Result<Vec<Ground>, AllocError>
    requires { StageBelow (length cells.now) world.now.now }
    ensures { IfOk result (λ v. map ground_of v.items ≡ state_of cells.now world.now.now) }
{
    let atoms = live_cells(alloc, world)?;
    to_grounds(alloc, cells, atoms.as_slice())
}

/// What holds and is protected at the node that a walk stands at.
pub(crate) fn held<W: Walk>(alloc: Global, walk: &W) -> Result<Holding, AllocError>
    requires live { W.is_live walk.now ≡ true }
    ensures { IfOk result (λ h. MatchOption (node_reached (W.tree walk.now) (W.stands walk.now)) ⊥ (Holds h)) }
{
    let atoms = atoms_of(alloc, walk.world(), walk.cells())?;
    let guards = to_grounds(alloc, walk.cells(), walk.world().guards())?;
    Ok(Holding { atoms, guards })
}

/// The terms that are only in the first list, each once.
fn once_apart(alloc: Global, terms: &[Ground], others: &[Ground]) -> Result<Vec<Ground>, AllocError>
    ensures { IfOk result (λ v. map ground_of v.items
        ≡ apart (once (map ground_of terms.now)) (map ground_of others.now)) }
{
    let each = once(alloc, terms)?;
    apart(alloc, each.as_slice(), others)
}

/// What a step changes.
pub(crate) fn compare(
    alloc: Global,
    before: &Holding,
    after: &Holding,
) -> Result<Changed, AllocError>
    ensures { IfOk result (λ c. (n m : Node) → Holds before.now n → Holds after.now m → changed_of c ≡ between n m) }
{
    let taken = apart(alloc, before.atoms.as_slice(), after.atoms.as_slice())?;
    let added = apart(alloc, after.atoms.as_slice(), before.atoms.as_slice())?;
    let protected = once_apart(alloc, after.guards.as_slice(), before.guards.as_slice())?;
    let freed = once_apart(alloc, before.guards.as_slice(), after.guards.as_slice())?;
    Ok(Changed {
        taken,
        added,
        protected,
        freed,
    })
}
