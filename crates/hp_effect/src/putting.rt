//! The effects of an operator are put into changes.
ghost use Rattle.std.specs.Prelude.{◌≡◌, ◌<◌, ◌≤◌, List, Ok, OnOk, true, length};
ghost use Rattle.hp_syntax.specs.Changes.{atom_values, values_for_each};
ghost use Rattle.hp_syntax.specs.Values.{atom_value};
ghost use Rattle.hp_syntax.specs.Views.{atom_of, atoms_of};
ghost use Rattle.hp_eval.specs.Events.{PlainEvent, event_of, left_after, AreOfFirst};
ghost use Rattle.hp_eval.specs.Growth.{Grows};
ghost use Rattle.hp_eval.specs.Slotted.{AreBelow, bindings_of, undone};
ghost use Rattle.hp_world.specs.Stages.{ChangesBelow, changes_of};
ghost use Rattle.hp_effect.specs.Gathering.{of_atom, of_guard, only_atoms, each_going, PutsAll, PutsNext};

use crate::changes::{Changes, Part};
use crate::obstacle::Obstacle;
use hp_cells::Cells;
use hp_eval::{Event, Sats, Slots};
use hp_syntax::{AtomPat, Side};

/// Puts the value of an atom into changes.
pub fn put_atom(
    side: Side,
    atom: &AtomPat,
    slots: &Slots,
    cells: &mut Cells,
    changes: &mut Changes,
) -> Result<(), Obstacle>
    requires slots { AreBelow (length cells.old) slots.now }
    requires below { ChangesBelow (length cells.old) changes.old }
    ensures puts { PutsAll side result (of_atom (atom_value (atom_of atom.now) (bindings_of cells.old slots.now)))
        cells.new (changes_of cells.old changes.old) changes.new }
    ensures cells { Grows cells.old cells.new }
{
    changes.put(Part::of_atoms(side), atom, slots, cells)?;
    Ok(())
}

/// Puts the value of a protection's atom into changes.
pub fn put_protection(
    side: Side,
    atom: &AtomPat,
    slots: &Slots,
    cells: &mut Cells,
    changes: &mut Changes,
) -> Result<(), Obstacle>
    requires slots { AreBelow (length cells.old) slots.now }
    requires below { ChangesBelow (length cells.old) changes.old }
    ensures puts { PutsAll side result (of_guard (atom_value (atom_of atom.now) (bindings_of cells.old slots.now)))
        cells.new (changes_of cells.old changes.old) changes.new }
    ensures cells { Grows cells.old cells.new }
{
    changes.put(Part::of_protections(side), atom, slots, cells)?;
    Ok(())
}

/// Puts the values of atoms into changes.
pub fn put_atoms(
    side: Side,
    atoms: &[AtomPat],
    slots: &Slots,
    cells: &mut Cells,
    changes: &mut Changes,
) -> Result<(), Obstacle>
    requires slots { AreBelow (length cells.old) slots.now }
    requires below { ChangesBelow (length cells.old) changes.old }
    ensures puts { PutsAll side result
        (only_atoms (atom_values (atoms_of atoms.now) (bindings_of cells.old slots.now)))
        cells.new (changes_of cells.old changes.old) changes.new }
    ensures cells { Grows cells.old cells.new }
{
    for atom in atoms {
        put_atom(side, atom, slots, cells, changes)?;
    }
    Ok(())
}

/// Atoms in order, however they are held, whose values can be put into changes.
pub trait PutAtoms {
    ghost use Rattle.std.specs.Prelude.{List, length};
    ghost use Rattle.hp_syntax.specs.Changes.{atom_values};
    ghost use Rattle.hp_syntax.specs.Syntax.{Atom};
    ghost use Rattle.hp_eval.specs.Growth.{Grows};
    ghost use Rattle.hp_eval.specs.Slotted.{AreBelow, bindings_of};
    ghost use Rattle.hp_world.specs.Stages.{ChangesBelow, changes_of};
    ghost use Rattle.hp_effect.specs.Gathering.{only_atoms, PutsAll};

    /// The atoms.
    ghost atoms: { Self → List Atom };

    /// Puts the values of the atoms into changes.
    fn put_all(
        &self,
        side: Side,
        slots: &Slots,
        cells: &mut Cells,
        changes: &mut Changes,
    ) -> Result<(), Obstacle>
        requires slots { AreBelow (length cells.old) slots.now }
        requires below { ChangesBelow (length cells.old) changes.old }
        ensures puts { PutsAll side result (only_atoms (atom_values (atoms self.now) (bindings_of cells.old slots.now)))
            cells.new (changes_of cells.old changes.old) changes.new }
        ensures cells { Grows cells.old cells.new };
}

impl PutAtoms for Vec<AtomPat> {
    ghost use Rattle.hp_syntax.specs.Views.{atoms_of};

    ghost atoms = { λ v. atoms_of v.items };

    fn put_all(
        &self,
        side: Side,
        slots: &Slots,
        cells: &mut Cells,
        changes: &mut Changes,
    ) -> Result<(), Obstacle> {
        put_atoms(side, self.as_slice(), slots, cells, changes)
    }
}

// Puts the values of atoms under the first event of a list into changes, whose bindings are in the slots if it is a
// Sat: true where more may come, false at the end.
fn put_event<A: PutAtoms>(
    side: Side,
    atoms: &A,
    event: Event,
    slots: &Slots,
    cells: &mut Cells,
    changes: &mut Changes,
) -> Result<bool, Obstacle>
    requires slots { AreBelow (length cells.old) slots.now }
    requires below { ChangesBelow (length cells.old) changes.old }
    ensures puts { (xs : List PlainEvent) → event ≡ event_of xs → AreOfFirst xs (bindings_of cells.old slots.now)
        → PutsNext side result (each_going (A.atoms atoms.now) xs) (each_going (A.atoms atoms.now) (left_after xs))
        cells.new (changes_of cells.old changes.old) changes.new }
    ensures fewer { (xs : List PlainEvent) → event ≡ event_of xs → result ≡ Ok true
        → length (left_after xs) < length xs }
    ensures cells { Grows cells.old cells.new }
{
    match event {
        Event::Sat => {
            atoms.put_all(side, slots, cells, changes)?;
            Ok(true)
        }
        Event::Cut => Err(Obstacle::Cut),
        Event::Fault(fault) => Err(Obstacle::Fault(fault)),
        Event::End => Ok(false),
    }
}

// Puts the values of atoms under the next event into changes: true where more may come, false at the end.
fn put_next<A: PutAtoms, B, S: Sats<B>>(
    side: Side,
    atoms: &A,
    sats: &mut S,
    base: &B,
    slots: &mut Slots,
    cells: &mut Cells,
    changes: &mut Changes,
) -> Result<bool, Obstacle>
    requires live { S.is_live sats.old ≡ true }
    requires open { S.is_open sats.old ≡ true }
    requires base { S.suits sats.old base.now cells.old }
    requires slots { S.fits sats.old slots.old }
    requires cells { S.kept sats.old ≤ length cells.old }
    requires below { ChangesBelow (length cells.old) changes.old }
    ensures puts { PutsNext side result
        (each_going (A.atoms atoms.now) (S.rest sats.old base.now cells.old slots.old))
        (each_going (A.atoms atoms.now) (S.rest sats.new base.now cells.new slots.new))
        cells.new (changes_of cells.old changes.old) changes.new }
    ensures fewer { result ≡ Ok true → length (S.rest sats.new base.now cells.new slots.new)
        < length (S.rest sats.old base.now cells.old slots.old) }
    ensures base { S.suits sats.new base.now cells.new }
    ensures slots { S.fits sats.new slots.new }
    ensures undone { undone (S.start sats.new) slots.new ≡ undone (S.start sats.old) slots.old }
    ensures start { S.start sats.new ≡ S.start sats.old }
    ensures kept { (S.kept sats.old ≤ S.kept sats.new) × (S.kept sats.new ≤ length cells.new) }
    ensures cells { Grows cells.old cells.new }
    ensures live { OnOk result (S.is_live sats.new ≡ true) }
    ensures open { S.is_open sats.new ≡ true }
{
    let event = sats.next(base, cells, slots)?;
    put_event(side, atoms, event, slots, cells, changes)
}

/// Puts the values of atoms under each Sat that is left in turn into changes; a Cut or a Fault stops here. The
/// satisfiers are to be closed then.
pub fn put_each<A: PutAtoms, B, S: Sats<B>>(
    side: Side,
    atoms: &A,
    sats: &mut S,
    base: &B,
    slots: &mut Slots,
    cells: &mut Cells,
    changes: &mut Changes,
) -> Result<(), Obstacle>
    requires live { S.is_live sats.old ≡ true }
    requires open { S.is_open sats.old ≡ true }
    requires base { S.suits sats.old base.now cells.old }
    requires slots { S.fits sats.old slots.old }
    requires cells { S.kept sats.old ≤ length cells.old }
    requires below { ChangesBelow (length cells.old) changes.old }
    ensures puts { PutsAll side result
        (only_atoms (values_for_each (A.atoms atoms.now) (S.rest sats.old base.now cells.old slots.old)))
        cells.new (changes_of cells.old changes.old) changes.new }
    ensures slots { S.fits sats.new slots.new }
    ensures undone { undone (S.start sats.new) slots.new ≡ undone (S.start sats.old) slots.old }
    ensures start { S.start sats.new ≡ S.start sats.old }
    ensures kept { (S.kept sats.old ≤ S.kept sats.new) × (S.kept sats.new ≤ length cells.new) }
    ensures cells { Grows cells.old cells.new }
    ensures live { OnOk result (S.is_live sats.new ≡ true) }
    ensures open { S.is_open sats.new ≡ true }
{
    while put_next(side, atoms, sats, base, slots, cells, changes)? {}
    Ok(())
}
