//! The world: the atoms that hold and the protections, and the pasts.
ghost use Rattle.std.specs.Prelude.{◌≡◌, ◌↔◌, ◌≤◌, ◌<◌, ℕ, List, Option, [], Some, MatchOption, IfOk, Contains, IsTrue, OnErr};
ghost use Rattle.std.specs.Prelude.{length, slice_get};
ghost use Rattle.hp_syntax.specs.Terms.{Term};
ghost use Rattle.hp_world.specs.Answers.{Applies};
ghost use Rattle.hp_world.specs.Histories.{mark_of, undone_to};
ghost use Rattle.hp_world.specs.Indexed.{IsAbsent, IsOnlyAt};
ghost use Rattle.hp_world.specs.Named.{IsNamedWithAt, IsNextNamed, IsNextNamedWith, IsNoLaterThan};
ghost use Rattle.hp_world.specs.Keyed.{parts_of};
ghost use Rattle.hp_world.specs.Recorded.{history_in, Knows, IndexedBelow, IndexesStood};
ghost use Rattle.hp_world.specs.Pasts.{PastsBelow};
ghost use Rattle.hp_world.specs.Stages.{live_atoms, PlacesKept, AllBelow, StageBelow, ChangesBelow};

use crate::part_index::{PartIndex, key_of};
use crate::store::{Applied, Store};
use hp_cells::{Cell, Cells};
use std::alloc::{AllocError, Global};
use std::marker::Model;

// So many atoms with an argument are looked at before one with the name is: an argument's chain is mostly short, and each
// step along the other one reads memory that was not read lately.
const LEAD: usize = 8;

/// Atoms in order of place, each once, and protections, with the trail of their changes. It may keep indexes of the
/// places by parts of their atoms: the name is part 0, and the arguments are those behind it.
pub struct World {
    store: Store,
}

impl Drop for World {
    fn drop(self) {
        let World { store } = self;
        drop(store);
    }
}

impl Model for World {
    ghost use Rattle.hp_world.specs.Recorded.{Recorded, recorded_of};

    ghost Value = { Recorded };

    ghost use Rattle.hp_world.specs.Undoing.{IsSound};

    ghost view = { λ w. recorded_of w.store };

    ghost invariant = { λ w. IsSound w.store };
}

impl World {
    /// No atoms and no protections.
    pub fn new(alloc: Global) -> World
        ensures { result ≡ record { past = []; now = record { places = []; guards = [] }; parts = [] } }
    {
        World {
            store: Store::new(alloc),
        }
    }

    /// No atoms and no protections, with an index of the places by each of these parts of their atoms.
    pub fn indexed(alloc: Global, parts: &[usize]) -> Result<World, AllocError>
        ensures empty { IfOk result (λ w. history_in w
            ≡ record { past = []; now = record { places = []; guards = [] } }) }
        ensures indexes { IfOk result (λ w. parts_of w.parts ≡ parts.now) }
        ensures knows { IfOk result (λ w. (terms : List Term) → Knows terms w) }
        ensures stood { IfOk result (λ w. IndexesStood w) }
        ensures entries { IfOk result (λ w. (n : ℕ) → IndexedBelow n w) }
    {
        let mut store = Store::new(alloc);
        for part in parts {
            store.add_part(*part)?;
        }
        Ok(World { store })
    }

    /// Cancels for each of `unguard` its first equal protection, deletes atoms, whose places stay and are empty then,
    /// adds atoms that are absent behind the others, and adds protections. Where an atom to delete is still protected
    /// after the cancelling, nothing is changed, and the first such atom is answered. All memory that is needed is
    /// taken before the first change, so an error leaves atoms, protections and pasts as they were. The parts of the
    /// atoms are not told, so the world keeps no indexes, whatever is answered.
    pub fn apply(
        &mut self,
        unguard: &[Cell],
        del: &[Cell],
        add: &[Cell],
        guard: &[Cell],
    ) -> Result<Applied, AllocError>
        ensures ok { IfOk result (λ a. Applies a
            (record { unguard = unguard.now; delete = del.now; add = add.now; guard = guard.now })
            (history_in self.old) (history_in self.new)) }
        ensures parts { self.new.parts ≡ [] }
        ensures below { (n : ℕ) → StageBelow n self.old.now → ChangesBelow n
            (record { unguard = unguard.now; delete = del.now; add = add.now; guard = guard.now })
            → StageBelow n self.new.now }
        ensures pasts { (n : ℕ) → AllBelow n add.now → PastsBelow n (history_in self.old)
            → PastsBelow n (history_in self.new) }
        ensures kept { PlacesKept self.old.now.places self.new.now.places }
        ensures err { OnErr result (history_in self.new ≡ history_in self.old) }
    {
        self.store.forget_parts();
        self.store.apply(unguard, del, add, guard)
    }

    /// As `apply`, and the indexes follow: the parts of the added atoms are those in the cells.
    pub fn apply_in(
        &mut self,
        cells: &Cells,
        unguard: &[Cell],
        del: &[Cell],
        add: &[Cell],
        guard: &[Cell],
    ) -> Result<Applied, AllocError>
        requires { AllBelow (length cells.now) add.now }
        ensures ok { IfOk result (λ a. Applies a
            (record { unguard = unguard.now; delete = del.now; add = add.now; guard = guard.now })
            (history_in self.old) (history_in self.new)) }
        ensures indexes { parts_of self.new.parts ≡ parts_of self.old.parts }
        ensures knows { Knows cells.now self.old → Knows cells.now self.new }
        ensures stood { IndexesStood self.new }
        ensures entries { (n : ℕ) → AllBelow n add.now → IndexedBelow n self.old → IndexedBelow n self.new }
        ensures below { (n : ℕ) → StageBelow n self.old.now → ChangesBelow n
            (record { unguard = unguard.now; delete = del.now; add = add.now; guard = guard.now })
            → StageBelow n self.new.now }
        ensures pasts { (n : ℕ) → AllBelow n add.now → PastsBelow n (history_in self.old)
            → PastsBelow n (history_in self.new) }
        ensures kept { PlacesKept self.old.now.places self.new.now.places }
        ensures err { OnErr result (history_in self.new ≡ history_in self.old) }
    {
        self.store.prepare(cells, add)?;
        self.store.apply(unguard, del, add, guard)
    }

    /// The same places and protections, with an empty trail and without indexes.
    pub fn copy(&self) -> Result<World, AllocError>
        ensures { IfOk result (λ w. w ≡ record { past = []; now = self.now.now; parts = [] }) }
    {
        Ok(World {
            store: self.store.copy()?,
        })
    }

    /// The number of places, empty ones too.
    pub fn places(&self) -> usize
        ensures { result ≡ length self.now.now.places }
    {
        self.store.places()
    }

    /// The atom at a place, if one stands there.
    pub fn at(&self, place: usize) -> Option<Cell>
        requires { place < length self.now.now.places }
        ensures { slice_get self.now.now.places place ≡ Some result }
    {
        self.store.at(place)
    }

    /// The place of an atom, found without a scan.
    pub fn place_of(&self, atom: Cell) -> Option<usize>
        ensures { MatchOption result (IsAbsent atom self.now.now.places) (IsOnlyAt atom self.now.now.places) }
    {
        self.store.place_of(atom)
    }

    /// The number of atoms.
    pub fn live(&self) -> usize
        ensures { result ≡ length (live_atoms self.now.now.places) }
    {
        self.store.live()
    }

    /// The least place not below one whose atom has a name, given by the cell of its symbol.
    pub fn next_of(&self, cells: &Cells, name: Cell, from: usize) -> Option<usize>
        requires atoms { AllBelow (length cells.now) (live_atoms self.now.now.places) }
        requires name { name < length cells.now }
        ensures { IsNextNamed cells.now name self.now.now.places from result }
    {
        self.store.next_of(cells, name, from)
    }

    /// As `next_of`, and found without a scan where the world has an index by names.
    pub fn next_named(&self, cells: &Cells, name: Cell, from: usize) -> Option<usize>
        requires atoms { AllBelow (length cells.now) (live_atoms self.now.now.places) }
        requires name { name < length cells.now }
        requires known { Knows cells.now self.now }
        ensures { IsNextNamed cells.now name self.now.now.places from result }
    {
        // No term stands at two cells.
        let _ = cells.len();
        match self.store.index(0) {
            Some(index) => index.next_of(name, from),
            None => self.store.next_of(cells, name, from),
        }
    }

    /// The least place not below one whose atom has this name and, as the part of this number, this term; the
    /// arguments are the parts from 1 on. Where the world has an index by that part, and one by names, it is found
    /// along the atoms with the part and along those with the name by turns, so that the fewer of them bound the turns.
    pub fn next_with(
        &self,
        cells: &Cells,
        name: Cell,
        part: usize,
        argument: Cell,
        from: usize,
    ) -> Option<usize>
        requires atoms { AllBelow (length cells.now) (live_atoms self.now.now.places) }
        requires name { name < length cells.now }
        requires argument { argument < length cells.now }
        requires known { Knows cells.now self.now }
        ensures { IsNextNamedWith cells.now name part argument self.now.now.places from result }
    {
        match self.store.index(part) {
            Some(index) => self.next_by_turns(cells, index, name, part, argument, from),
            None => self.next_among_named(cells, name, part, argument, from),
        }
    }

    // As `next_with`, with the index by that part. Both positions follow a place of their chain, so each look-up but
    // the first is one step. The chain of the argument has a lead, since most arguments are those of few atoms.
    fn next_by_turns(
        &self,
        cells: &Cells,
        index: &PartIndex,
        name: Cell,
        part: usize,
        argument: Cell,
        from: usize,
    ) -> Option<usize>
        requires atoms { AllBelow (length cells.now) (live_atoms self.now.now.places) }
        requires name { name < length cells.now }
        requires argument { argument < length cells.now }
        requires known { Knows cells.now self.now }
        requires part { index.now.part ≡ part }
        requires kept { Contains self.now.parts index.now }
        ensures { IsNextNamedWith cells.now name part argument self.now.now.places from result }
    {
        let end = self.places();
        let mut parted = from;
        let mut named = from;
        let mut lead = 0;
        while parted < end {
            let likely = self.next_parted(cells, index, name, part, argument, parted)?;
            if self.is_at(cells, name, part, argument, likely) {
                return Some(likely);
            }
            parted = likely + 1;
            if lead < LEAD {
                lead += 1;
                continue;
            }
            let other = self.next_named(cells, name, named)?;
            if self.is_at(cells, name, part, argument, other) {
                return Some(other);
            }
            named = other + 1;
        }
        None
    }

    // As `next_with`, along the atoms with the name alone.
    fn next_among_named(
        &self,
        cells: &Cells,
        name: Cell,
        part: usize,
        argument: Cell,
        from: usize,
    ) -> Option<usize>
        requires atoms { AllBelow (length cells.now) (live_atoms self.now.now.places) }
        requires name { name < length cells.now }
        requires argument { argument < length cells.now }
        requires known { Knows cells.now self.now }
        ensures { IsNextNamedWith cells.now name part argument self.now.now.places from result }
    {
        let end = self.places();
        let mut named = from;
        while named < end {
            let place = self.next_named(cells, name, named)?;
            if self.is_at(cells, name, part, argument, place) {
                return Some(place);
            }
            named = place + 1;
        }
        None
    }

    // A place not below one with this part, by its index; before it no atom has this name and this part.
    fn next_parted(
        &self,
        cells: &Cells,
        index: &PartIndex,
        name: Cell,
        part: usize,
        argument: Cell,
        from: usize,
    ) -> Option<usize>
        requires atoms { AllBelow (length cells.now) (live_atoms self.now.now.places) }
        requires argument { argument < length cells.now }
        requires known { Knows cells.now self.now }
        requires part { index.now.part ≡ part }
        requires kept { Contains self.now.parts index.now }
        ensures { IsNoLaterThan (IsNamedWithAt cells.now name part argument self.now.now.places)
            (length self.now.now.places) from result }
    {
        // No term stands at two cells, and the index follows the places.
        let _ = cells.len();
        let _ = &self.store;
        index.next_of(argument, from)
    }

    // Whether the atom of a place has this name and this part.
    fn is_at(&self, cells: &Cells, name: Cell, part: usize, argument: Cell, place: usize) -> bool
        requires place { place < length self.now.now.places }
        requires atoms { AllBelow (length cells.now) (live_atoms self.now.now.places) }
        requires argument { argument < length cells.now }
        ensures { IsTrue result ↔ IsNamedWithAt cells.now name part argument self.now.now.places place }
    {
        match self.store.at(place) {
            Some(atom) => has_parts(cells, atom, name, part, argument),
            None => false,
        }
    }

    /// The protections, in order.
    pub fn guards(&self) -> &[Cell]
        ensures { result.now ≡ self.now.now.guards }
    {
        self.store.guards()
    }

    /// The number of changes that can be undone.
    pub fn mark(&self) -> usize
        ensures { result ≡ mark_of (history_in self.now) }
    {
        self.store.mark()
    }

    /// Makes the past at a mark the present: places, atoms and protections. It takes no memory.
    pub fn undo_to(&mut self, mark: usize)
        requires { mark ≤ mark_of (history_in self.old) }
        ensures back { history_in self.new ≡ undone_to mark (history_in self.old) }
        ensures indexes { parts_of self.new.parts ≡ parts_of self.old.parts }
        ensures knows { (terms : List Term) → Knows terms self.old → Knows terms self.new }
        ensures stood { IndexesStood self.new }
        ensures entries { (n : ℕ) → IndexedBelow n self.old → IndexedBelow n self.new }
    {
        self.store.undo_to(mark);
    }
}

// Whether an atom has this name and this part.
fn has_parts(cells: &Cells, atom: Cell, name: Cell, part: usize, argument: Cell) -> bool
    requires { atom < length cells.now }
    ensures { (places : List (Option ℕ)) (i : ℕ) → slice_get places i ≡ Some (Some atom)
        → IsTrue result ↔ IsNamedWithAt cells.now name part argument places i }
{
    is_cell(key_of(cells, atom, 0), name) && is_cell(key_of(cells, atom, part), argument)
}

fn is_cell(key: Option<u32>, cell: Cell) -> bool
    ensures { IsTrue result ↔ (key ≡ Some cell) }
{
    match key {
        Some(place) => place as usize == cell.index(),
        None => false,
    }
}
