//! The atoms that nodes delete or add.
ghost use Rattle.std.specs.Prelude.{length};
ghost use Rattle.hp_eval.specs.Growth.{Grows};
ghost use Rattle.hp_eval.specs.Slotted.{AreBelow, bindings_of};
ghost use Rattle.hp_nodes.specs.NodeViews.{laid_of};
ghost use Rattle.hp_world.specs.Stages.{ChangesBelow, changes_of};
ghost use Rattle.hp_effect.specs.Gathering.{PutsAll};
ghost use Rattle.hp_operator.specs.Changed.{node_going};

use hp_cells::Cells;
use hp_code::{CodeNode, Op};
use hp_effect::{Changes, Obstacle, PutAtoms, put_atom};
use hp_eval::Slots;
use hp_syntax::Side;

// Puts the value of the atom that a node deletes or adds into changes.
fn put_changed(
    side: Side,
    node: &CodeNode,
    slots: &Slots,
    cells: &mut Cells,
    changes: &mut Changes,
) -> Result<(), Obstacle>
    requires slots { AreBelow (length cells.old) slots.now }
    requires below { ChangesBelow (length cells.old) changes.old }
    ensures puts { PutsAll side result (node_going (bindings_of cells.old slots.now) (laid_of node.now))
        cells.new (changes_of cells.old changes.old) changes.new }
    ensures cells { Grows cells.old cells.new }
{
    match &node.op {
        Op::Delete(atom) => put_atom(side, atom, slots, cells, changes),
        Op::Add(atom) => put_atom(side, atom, slots, cells, changes),
        _ => Ok(()),
    }
}

/// Nodes, each of which deletes or adds an atom.
#[derive(Drop)]
pub(crate) struct Changed<'s> {
    pub(crate) nodes: &'s [CodeNode],
}

impl PutAtoms for Changed<'_> {
    ghost use Rattle.std.specs.Prelude.{map};
    ghost use Rattle.hp_nodes.specs.NodeViews.{laid_of};
    ghost use Rattle.hp_operator.specs.Changed.{changed_atoms};

    ghost atoms = { λ s. changed_atoms (map laid_of s.nodes.now) };

    fn put_all(
        &self,
        side: Side,
        slots: &Slots,
        cells: &mut Cells,
        changes: &mut Changes,
    ) -> Result<(), Obstacle> {
        for node in self.nodes {
            put_changed(side, node, slots, cells, changes)?;
        }
        Ok(())
    }
}
