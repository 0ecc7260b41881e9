//! The atoms that an operator unguards, deletes, adds and guards.
ghost use Rattle.std.specs.Prelude.{◌≡◌, ℕ, [], ◌∷◌, ◌++◌, IfOk, OnOk, OnErr, List, length};
ghost use Rattle.hp_syntax.specs.Terms.{Term};
ghost use Rattle.hp_syntax.specs.Changes.{apply};
ghost use Rattle.hp_syntax.specs.Values as plain;
ghost use Rattle.hp_syntax.specs.Views.{atom_of};
ghost use Rattle.hp_cells.specs.Cells.{AreCells};
ghost use Rattle.hp_eval.specs.Growth.{Grows};
ghost use Rattle.hp_eval.specs.Slotted.{AreBelow, bindings_of};
ghost use Rattle.hp_world.specs.Answers.{Applies};
ghost use Rattle.hp_world.specs.Keyed.{parts_of};
ghost use Rattle.hp_world.specs.Pasts.{PastsBelow};
ghost use Rattle.hp_world.specs.Recorded.{history_in, Knows, IndexedBelow, IndexesStood};
ghost use Rattle.hp_world.specs.Stages.{PlacesKept, AllBelow, state_of, guards_of, changes_of, StageBelow};
ghost use Rattle.hp_world.specs.Stages.{ChangesBelow};
ghost use Rattle.hp_effect.specs.Gathering.{part_of_atoms, part_of_protections};
ghost use Rattle.hp_effect.specs.Puts.{Puts, Pushes, list_of, IsApplied};

use hp_cells::{Cell, Cells};
use hp_eval::{EvalStop, Slots, atom_value};
use hp_syntax::{AtomPat, Side};
use hp_world::{Applied, World};
use std::alloc::{AllocError, Global};
use std::marker::Model;

/// One of the four lists of changes.
#[derive(Clone, Copy, Debug, PartialEq, Eq)]
pub enum Part {
    Unguard,
    Delete,
    Add,
    Guard,
}

impl Part {
    /// The list for the atoms of an operator's list.
    pub fn of_atoms(side: Side) -> Part
        ensures { result ≡ part_of_atoms side }
    {
        match side {
            Side::Deletes => Part::Delete,
            Side::Adds => Part::Add,
        }
    }

    /// The list for the protections of an operator's list.
    pub fn of_protections(side: Side) -> Part
        ensures { result ≡ part_of_protections side }
    {
        match side {
            Side::Deletes => Part::Unguard,
            Side::Adds => Part::Guard,
        }
    }
}

/// Four lists of atoms, each in the order in which they were put there.
pub struct Changes {
    alloc: Global,
    unguard: Vec<Cell>,
    delete: Vec<Cell>,
    add: Vec<Cell>,
    guard: Vec<Cell>,
}

impl Drop for Changes {
    fn drop(self) {
        let Changes {
            alloc: _,
            unguard,
            delete,
            add,
            guard,
        } = self;
        drop(unguard);
        drop(delete);
        drop(add);
        drop(guard);
    }
}

impl Model for Changes {
    ghost use Rattle.std.specs.Prelude.{ℕ};
    ghost use Rattle.hp_syntax.specs.Applying.{ChangesOf};

    ghost Value = { ChangesOf ℕ };

    ghost view = { λ c. record {
      unguard = c.unguard.items;
      delete = c.delete.items;
      add = c.add.items;
      guard = c.guard.items;
    } };
}

// Puts a cell behind others. An error leaves them as they were.
fn push_to(cells: &mut Vec<Cell>, cell: Cell) -> Result<(), AllocError>
    ensures ok { OnOk result (cells.new.items ≡ cells.old.items ++ cell ∷ []) }
    ensures err { OnErr result (cells.new.items ≡ cells.old.items) }
{
    Ok(cells.push(cell)?)
}

impl Changes {
    /// No changes.
    pub fn new(alloc: Global) -> Changes
        ensures { result ≡ record { unguard = []; delete = []; add = []; guard = [] } }
    {
        Changes {
            alloc,
            unguard: Vec::new(alloc),
            delete: Vec::new(alloc),
            add: Vec::new(alloc),
            guard: Vec::new(alloc),
        }
    }

    /// Puts the value of an atom behind the others of a list. A stop leaves the lists as they were.
    pub fn put(
        &mut self,
        part: Part,
        atom: &AtomPat,
        slots: &Slots,
        cells: &mut Cells,
    ) -> Result<(), EvalStop>
        requires slots { AreBelow (length cells.old) slots.now }
        ensures puts { Puts part result (plain.atom_value (atom_of atom.now) (bindings_of cells.old slots.now))
            cells.new self.old self.new }
        ensures below { ChangesBelow (length cells.old) self.old → ChangesBelow (length cells.new) self.new }
        ensures cells { Grows cells.old cells.new }
    {
        let cell = atom_value(self.alloc, atom, slots, cells)?;
        self.push(part, cell)?;
        Ok(())
    }

    // Puts a cell behind the others of a list.
    fn push(&mut self, part: Part, cell: Cell) -> Result<(), AllocError>
        ensures { Pushes part result cell self.old self.new }
    {
        match part {
            Part::Unguard => push_to(&mut self.unguard, cell),
            Part::Delete => push_to(&mut self.delete, cell),
            Part::Add => push_to(&mut self.add, cell),
            Part::Guard => push_to(&mut self.guard, cell),
        }
    }

    /// One of the lists.
    pub fn list(&self, part: Part) -> &[Cell]
        ensures { result.now ≡ list_of part self.now }
    {
        match part {
            Part::Unguard => self.unguard.as_slice(),
            Part::Delete => self.delete.as_slice(),
            Part::Add => self.add.as_slice(),
            Part::Guard => self.guard.as_slice(),
        }
    }

    /// Applies the four lists to a world. Where an atom to delete is protected once the protections to cancel are, or
    /// memory is wanting, the world stays as it was. Its indexes go, as with `World::apply`.
    pub fn apply_to(&self, world: &mut World) -> Result<Applied, AllocError>
        ensures ok { IfOk result (λ a. Applies a self.now (history_in world.old) (history_in world.new)) }
        ensures terms { IfOk result (λ a. (terms : List Term) → AreCells terms
            → StageBelow (length terms) world.old.now → ChangesBelow (length terms) self.now
            → IsApplied a terms world.new.now (apply (state_of terms world.old.now) (guards_of terms world.old.now)
            (changes_of terms self.now))) }
        ensures below { (n : ℕ) → StageBelow n world.old.now → ChangesBelow n self.now → StageBelow n world.new.now }
        ensures pasts { (n : ℕ) → AllBelow n self.now.add → PastsBelow n (history_in world.old)
            → PastsBelow n (history_in world.new) }
        ensures kept { PlacesKept world.old.now.places world.new.now.places }
        ensures parts { world.new.parts ≡ [] }
        ensures err { OnErr result (history_in world.new ≡ history_in world.old) }
    {
        world.apply(
            self.unguard.as_slice(),
            self.delete.as_slice(),
            self.add.as_slice(),
            self.guard.as_slice(),
        )
    }

    /// As `apply_to`, and the indexes of the world follow, as with `World::apply_in`.
    pub fn apply_in(&self, cells: &Cells, world: &mut World) -> Result<Applied, AllocError>
        requires { AllBelow (length cells.now) self.now.add }
        ensures ok { IfOk result (λ a. Applies a self.now (history_in world.old) (history_in world.new)) }
        ensures terms { IfOk result (λ a. (terms : List Term) → AreCells terms
            → StageBelow (length terms) world.old.now → ChangesBelow (length terms) self.now
            → IsApplied a terms world.new.now (apply (state_of terms world.old.now) (guards_of terms world.old.now)
            (changes_of terms self.now))) }
        ensures indexes { parts_of world.new.parts ≡ parts_of world.old.parts }
        ensures knows { Knows cells.now world.old → Knows cells.now world.new }
        ensures stood { IndexesStood world.new }
        ensures entries { (n : ℕ) → AllBelow n self.now.add → IndexedBelow n world.old → IndexedBelow n world.new }
        ensures below { (n : ℕ) → StageBelow n world.old.now → ChangesBelow n self.now → StageBelow n world.new.now }
        ensures pasts { (n : ℕ) → AllBelow n self.now.add → PastsBelow n (history_in world.old)
            → PastsBelow n (history_in world.new) }
        ensures kept { PlacesKept world.old.now.places world.new.now.places }
        ensures err { OnErr result (history_in world.new ≡ history_in world.old) }
    {
        world.apply_in(
            cells,
            self.list(Part::Unguard),
            self.list(Part::Delete),
            self.list(Part::Add),
            self.list(Part::Guard),
        )
    }
}
