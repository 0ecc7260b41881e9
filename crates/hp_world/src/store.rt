//! Places, protections and the trail of their changes.
ghost use Rattle.std.specs.Prelude.{◌≡◌, ◌≢◌, ℕ, ◌↔◌, ◌+◌, ◌<◌, List, Option, Some, MatchOption, IfOk, IfSome, Contains, IsTrue, length, slice_get, slice_index};
ghost use Rattle.hp_world.specs.Deleting.{IsFirstAt};
ghost use Rattle.hp_world.specs.Named.{IsNamedAt};

use crate::part_index::{PartIndex, Step, follow_all, prepare_all};
use crate::places::Places;
use hp_cells::{Cell, Cells, View};
use std::alloc::{AllocError, Global};

/// A change as the trail has it, so that it can be undone.
#[derive(Clone, Copy)]
pub enum Change {
    Deleted(usize, Cell),
    Added,
    Cancelled(usize, Cell),
    Protected,
}

/// The answer of applying changes.
#[derive(Clone, Copy, Debug, PartialEq, Eq)]
pub enum Applied {
    Done,
    /// The first atom to delete that is protected.
    Guarded(Cell),
}

/// Places, protections and the trail of their changes, and indexes of the places by parts of their atoms.
pub struct Store {
    places: Places,
    guards: Vec<Cell>,
    trail: Vec<Change>,
    parts: Vec<PartIndex>,
}

impl Drop for Store {
    fn drop(self) {
        let Store {
            places,
            guards,
            trail,
            parts,
        } = self;
        drop(places);
        drop(guards);
        drop(trail);
        drop(parts);
    }
}

impl Store {
    ghost use Rattle.std.specs.Prelude.{◌≡◌, ◌+◌, ◌<◌, ◌≤◌, [], ◌∷◌, ◌++◌, Some, MatchOption, IfOk, OnOk, OnErr};
    ghost use Rattle.std.specs.Prelude.{length, slice_get, vec_len, vec_capacity};
    ghost use Rattle.hp_syntax.specs.Applying as plain;
    ghost use Rattle.hp_syntax.specs.Applying.{is_among, without_first, cancelled, with_added};
    ghost use Rattle.hp_world.specs.Answers.{Applies};
    ghost use Rattle.hp_world.specs.Deleting.{without, deleted};
    ghost use Rattle.hp_world.specs.Histories.{mark_of, undone_to};
    ghost use Rattle.hp_world.specs.Indexed.{IsAbsent, IsOnlyAt};
    ghost use Rattle.hp_world.specs.Keyed.{Allows, AtomsBelow, Awaits, HasWaiting, IsAsRoomy, KnowsParts, parts_of};
    ghost use Rattle.hp_world.specs.Keyed.{Learns, Nothing, RightAt, RightFor};
    ghost use Rattle.hp_world.specs.declared.part_index.Step.TheVariants.{More};
    ghost use Rattle.hp_syntax.specs.Terms.{Term};
    ghost use Rattle.std.specs.List.{All, AllZip};
    ghost use Rattle.hp_world.specs.Named.{IsNextNamed};
    ghost use Rattle.hp_world.specs.Pasts.{PastsBelow};
    ghost use Rattle.hp_world.specs.Stages.{live_atoms, same_cell, AllBelow, PlacesKept};
    ghost use Rattle.hp_world.specs.Undoing.{IsSound, Moves, Undoes, HasRoom, history_of, stage_of};

    /// No places and no protections.
    pub fn new(alloc: Global) -> Store
        ensures sound { IsSound result }
        ensures parts { result.parts.items ≡ [] }
        ensures empty { history_of result ≡ record { past = []; now = record { places = []; guards = [] } } }
    {
        Store {
            places: Places::new(alloc),
            guards: Vec::new(alloc),
            trail: Vec::new(alloc),
            parts: Vec::new(alloc),
        }
    }

    /// The same places and protections, with an empty trail and no indexes.
    pub fn copy(&self) -> Result<Store, AllocError>
        ensures sound { IfOk result (λ s. IsSound s) }
        ensures parts { IfOk result (λ s. s.parts.items ≡ []) }
        ensures same { IfOk result (λ s. history_of s ≡ record { past = []; now = stage_of self.now }) }
    {
        let alloc = *self.guards.allocator();
        Ok(Store {
            places: self.places.copy()?,
            guards: Vec::from_slice(alloc, &self.guards)?,
            trail: Vec::new(alloc),
            parts: Vec::new(alloc),
        })
    }

    /// The number of places.
    pub fn places(&self) -> usize
        ensures { result ≡ length (stage_of self.now).places }
    {
        self.places.len()
    }

    /// The atom of a place, if one stands there.
    pub fn at(&self, place: usize) -> Option<Cell>
        requires { place < length (stage_of self.now).places }
        ensures { slice_get (stage_of self.now).places place ≡ Some result }
    {
        self.places.at(place)
    }

    /// The place of an atom, found without a scan.
    pub fn place_of(&self, atom: Cell) -> Option<usize>
        ensures { MatchOption result (IsAbsent atom (stage_of self.now).places)
            (IsOnlyAt atom (stage_of self.now).places) }
    {
        self.places.place_of(atom)
    }

    /// The number of atoms.
    pub fn live(&self) -> usize
        ensures { result ≡ length (live_atoms (stage_of self.now).places) }
    {
        self.places.live()
    }

    /// The least place from one on whose atom has this name.
    pub fn next_of(&self, cells: &Cells, name: Cell, from: usize) -> Option<usize>
        requires atoms { AllBelow (length cells.now) (live_atoms (stage_of self.now).places) }
        requires name { name < length cells.now }
        ensures { IsNextNamed cells.now name (stage_of self.now).places from result }
    {
        for place in from..self.places.len() {
            if is_named(self.places.at(place), name, cells) {
                return Some(place);
            }
        }
        None
    }

    /// The protections.
    pub fn guards(&self) -> &[Cell]
        ensures { result.now ≡ (stage_of self.now).guards }
    {
        &self.guards
    }

    /// The number of changes on the trail.
    pub fn mark(&self) -> usize
        ensures { result ≡ mark_of (history_of self.now) }
    {
        self.trail.len()
    }

    /// Makes room in the indexes for atoms to add, whose keys wait then.
    pub fn prepare(&mut self, cells: &Cells, atoms: &[Cell]) -> Result<(), AllocError>
        requires sound { IsSound self.old }
        requires atoms { AllBelow (length cells.now) atoms.now }
        ensures sound { IsSound self.new }
        ensures same { history_of self.new ≡ history_of self.old }
        ensures roomier { AllZip IsAsRoomy self.old.parts.items self.new.parts.items }
        ensures awaits { OnOk result (All (Awaits cells.now atoms.now) self.new.parts.items) }
    {
        prepare_all(&mut self.parts, cells, atoms)
    }

    /// Lets the indexes go.
    pub fn forget_parts(&mut self)
        requires sound { IsSound self.old }
        ensures sound { IsSound self.new }
        ensures same { history_of self.new ≡ history_of self.old }
        ensures parts { self.new.parts.items ≡ [] }
    {
        self.parts.clear();
    }

    /// Adds an index of the places by a part, where there are no places yet and nothing can be undone.
    pub fn add_part(&mut self, part: usize) -> Result<(), AllocError>
        requires sound { IsSound self.old }
        requires empty { history_of self.old ≡ record { past = []; now = record { places = []; guards = [] } } }
        ensures sound { IsSound self.new }
        ensures same { history_of self.new ≡ history_of self.old }
        ensures indexes { OnOk result (parts_of self.new.parts.items ≡ parts_of self.old.parts.items ++ part ∷ []) }
        ensures knows { (terms : List Term) → All (KnowsParts terms) self.old.parts.items
            → All (KnowsParts terms) self.new.parts.items }
        ensures below { (n : ℕ) → All (AtomsBelow n) self.old.parts.items → All (AtomsBelow n) self.new.parts.items }
    {
        let alloc = *self.guards.allocator();
        self.parts.push(PartIndex::new(alloc, part))?;
        Ok(())
    }

    /// The index by a part, if there is one.
    pub fn index(&self, part: usize) -> Option<&PartIndex>
        requires sound { IsSound self.now }
        ensures { IfSome result (λ p. (p.now.part ≡ part) × Contains self.now.parts.items p.now) }
    {
        self.parts.iter().find(|index| index.part() == part)
    }

    /// Applies changes, unless an atom to delete is still protected after the cancelling. All memory is taken first, so
    /// that nothing fails once something is changed; that of the indexes was taken before.
    pub fn apply(
        &mut self,
        unguard: &[Cell],
        del: &[Cell],
        add: &[Cell],
        guard: &[Cell],
    ) -> Result<Applied, AllocError>
        requires sound { IsSound self.old }
        requires waits { All (HasWaiting (length add.now) (length add.now)) self.old.parts.items }
        ensures sound { IsSound self.new }
        ensures parts { AllZip (Learns (RightFor add.now) add.now (length add.now)) self.old.parts.items
            self.new.parts.items }
        ensures ok { IfOk result (λ a. Applies a
            (record { unguard = unguard.now; delete = del.now; add = add.now; guard = guard.now })
            (history_of self.old) (history_of self.new)) }
        ensures kept { PlacesKept (stage_of self.old).places (stage_of self.new).places }
        ensures pasts { (n : ℕ) → AllBelow n add.now → PastsBelow n (history_of self.old)
            → PastsBelow n (history_of self.new) }
        ensures err { OnErr result (history_of self.new ≡ history_of self.old) }
    {
        let changes = most_changes(unguard, del, add, guard)?;
        self.reserve(changes, add, guard.len())?;
        let before = self.mark();
        self.cancel_all(unguard);
        if let Some(atom) = self.first_guarded(del) {
            self.undo_to(before);
            return Ok(Applied::Guarded(atom));
        }
        self.delete_all(del);
        self.add_all(add);
        self.protect_all(guard);
        Ok(Applied::Done)
    }

    // Takes all memory that changes need. An error may leave more room than there was, and changes nothing else.
    fn reserve(&mut self, changes: usize, atoms: &[Cell], guards: usize) -> Result<(), AllocError>
        requires sound { IsSound self.old }
        ensures sound { IsSound self.new }
        ensures same { history_of self.new ≡ history_of self.old }
        ensures parts { self.new.parts ≡ self.old.parts }
        ensures room { OnOk result (HasRoom changes atoms.now guards self.new) }
    {
        self.trail.reserve(changes)?;
        self.guards.reserve(guards)?;
        self.places.reserve(atoms)
    }

    fn cancel(&mut self, atom: Cell)
        requires sound { IsSound self.old }
        requires room { vec_len self.old.trail < vec_capacity self.old.trail }
        ensures guards { self.new.guards.items ≡ without_first same_cell atom self.old.guards.items }
        ensures places { self.new.places ≡ self.old.places }
        ensures parts { self.new.parts ≡ self.old.parts }
        ensures fewer { vec_len self.new.guards ≤ vec_len self.old.guards }
        ensures moves { Moves 1 [] self.old self.new }
    {
        if let Some(index) = first_place(&self.guards, atom) {
            self.guards.remove(index);
            self.trail.push_reserved(Change::Cancelled(index, atom));
        }
    }

    fn delete(&mut self, atom: Cell)
        requires sound { IsSound self.old }
        requires room { vec_len self.old.trail < vec_capacity self.old.trail }
        ensures atoms { live_atoms self.new.places.places ≡ without atom (live_atoms self.old.places.places) }
        ensures guards { self.new.guards ≡ self.old.guards }
        ensures places { length self.new.places.places ≡ length self.old.places.places }
        ensures parts { AllZip (Learns Nothing [] 0) self.old.parts.items self.new.parts.items }
        ensures moves { Moves 1 [] self.old self.new }
    {
        if let Some(place) = self.places.place_of(atom) {
            self.places.clear(place, atom);
            follow_all(&mut self.parts, &Step::Out(place));
            self.trail.push_reserved(Change::Deleted(place, atom));
        }
    }

    // The key of the atom waits at the number.
    fn add(&mut self, atom: Cell, number: usize)
        requires sound { IsSound self.old }
        requires allowed { All (Allows (More atom number)) self.old.parts.items }
        requires room { vec_len self.old.trail < vec_capacity self.old.trail }
        requires place { length self.old.places.places < self.old.places.room }
        requires within { atom < self.old.places.width }
        ensures atoms { live_atoms self.new.places.places
            ≡ with_added same_cell (live_atoms self.old.places.places) (atom ∷ []) }
        ensures guards { self.new.guards ≡ self.old.guards }
        ensures places { length self.new.places.places ≤ length self.old.places.places + 1 }
        ensures parts { AllZip (Learns (RightAt atom number) (atom ∷ []) 1) self.old.parts.items self.new.parts.items }
        ensures moves { Moves 1 (atom ∷ []) self.old self.new }
    {
        if self.places.place_of(atom).is_none() {
            self.places.push(atom);
            follow_all(&mut self.parts, &Step::More(atom, number));
            self.trail.push_reserved(Change::Added);
        }
    }

    fn protect(&mut self, atom: Cell)
        requires sound { IsSound self.old }
        requires room { vec_len self.old.trail < vec_capacity self.old.trail }
        requires guard { vec_len self.old.guards < vec_capacity self.old.guards }
        ensures guards { self.new.guards.items ≡ self.old.guards.items ++ atom ∷ [] }
        ensures more { vec_len self.new.guards ≡ vec_len self.old.guards + 1 }
        ensures places { self.new.places ≡ self.old.places }
        ensures parts { self.new.parts ≡ self.old.parts }
        ensures moves { Moves 1 [] self.old self.new }
    {
        self.guards.push_reserved(atom);
        self.trail.push_reserved(Change::Protected);
    }

    fn cancel_all(&mut self, atoms: &[Cell])
        requires sound { IsSound self.old }
        requires room { vec_len self.old.trail + length atoms.now ≤ vec_capacity self.old.trail }
        ensures guards { self.new.guards.items ≡ cancelled same_cell self.old.guards.items atoms.now }
        ensures places { self.new.places ≡ self.old.places }
        ensures parts { self.new.parts ≡ self.old.parts }
        ensures fewer { vec_len self.new.guards ≤ vec_len self.old.guards }
        ensures moves { Moves (length atoms.now) [] self.old self.new }
    {
        for atom in atoms {
            self.cancel(*atom);
        }
    }

    fn delete_all(&mut self, atoms: &[Cell])
        requires sound { IsSound self.old }
        requires room { vec_len self.old.trail + length atoms.now ≤ vec_capacity self.old.trail }
        ensures atoms { live_atoms self.new.places.places
            ≡ deleted (live_atoms self.old.places.places) atoms.now }
        ensures guards { self.new.guards ≡ self.old.guards }
        ensures places { length self.new.places.places ≡ length self.old.places.places }
        ensures parts { AllZip (Learns Nothing [] 0) self.old.parts.items self.new.parts.items }
        ensures moves { Moves (length atoms.now) [] self.old self.new }
    {
        for atom in atoms {
            self.delete(*atom);
        }
    }

    fn add_all(&mut self, atoms: &[Cell])
        requires sound { IsSound self.old }
        requires room { vec_len self.old.trail + length atoms.now ≤ vec_capacity self.old.trail }
        requires places { length self.old.places.places + length atoms.now ≤ self.old.places.room }
        requires table { AllBelow self.old.places.width atoms.now }
        requires waits { All (HasWaiting (length atoms.now) (length atoms.now)) self.old.parts.items }
        ensures atoms { live_atoms self.new.places.places
            ≡ with_added same_cell (live_atoms self.old.places.places) atoms.now }
        ensures guards { self.new.guards ≡ self.old.guards }
        ensures parts { AllZip (Learns (RightFor atoms.now) atoms.now (length atoms.now)) self.old.parts.items
            self.new.parts.items }
        ensures moves { Moves (length atoms.now) atoms.now self.old self.new }
    {
        for (number, atom) in atoms.iter().enumerate() {
            self.add(*atom, number);
        }
    }

    fn protect_all(&mut self, atoms: &[Cell])
        requires sound { IsSound self.old }
        requires room { vec_len self.old.trail + length atoms.now ≤ vec_capacity self.old.trail }
        requires guards { vec_len self.old.guards + length atoms.now ≤ vec_capacity self.old.guards }
        ensures guards { self.new.guards.items ≡ self.old.guards.items ++ atoms.now }
        ensures places { self.new.places ≡ self.old.places }
        ensures parts { self.new.parts ≡ self.old.parts }
        ensures moves { Moves (length atoms.now) [] self.old self.new }
    {
        for atom in atoms {
            self.protect(*atom);
        }
    }

    fn is_guarded(&self, atom: Cell) -> bool
        ensures { result ≡ is_among same_cell atom self.now.guards.items }
    {
        self.guards.contains(&atom)
    }

    fn first_guarded(&self, atoms: &[Cell]) -> Option<Cell>
        ensures { result ≡ plain.first_guarded same_cell self.now.guards.items atoms.now }
    {
        for atom in atoms {
            if self.is_guarded(*atom) {
                return Some(*atom);
            }
        }
        None
    }

    /// Undoes all changes but so many of the first. It takes no memory.
    pub fn undo_to(&mut self, mark: usize)
        requires sound { IsSound self.old }
        requires mark { mark ≤ mark_of (history_of self.old) }
        ensures sound { IsSound self.new }
        ensures back { history_of self.new ≡ undone_to mark (history_of self.old) }
        ensures parts { AllZip (Learns Nothing [] 0) self.old.parts.items self.new.parts.items }
    {
        while self.trail.len() > mark {
            self.undo_last();
        }
    }

    fn undo_last(&mut self)
        requires sound { IsSound self.old }
        requires some { 0 < vec_len self.old.trail }
        ensures undoes { Undoes self.old self.new }
        ensures parts { AllZip (Learns Nothing [] 0) self.old.parts.items self.new.parts.items }
    {
        match self.trail.take_last() {
            Change::Deleted(place, atom) => {
                self.places.put_back(place, atom);
                follow_all(&mut self.parts, &Step::Back(place));
            }
            Change::Added => {
                self.places.pop();
                follow_all(&mut self.parts, &Step::Fewer);
            }
            Change::Cancelled(index, atom) => self.guards.insert(index, atom).unwrap(),
            Change::Protected => {
                let _ = self.guards.pop();
            }
        }
    }
}

// The first place of an atom among others.
fn first_place(atoms: &[Cell], atom: Cell) -> Option<usize>
    ensures { MatchOption result ((k : ℕ) → k < length atoms.now → slice_index atoms.now k ≢ atom)
        (IsFirstAt atom atoms.now) }
{
    atoms.iter().position(|other| *other == atom)
}

// Whether an atom stands at a place, and has this name.
fn is_named(atom: Option<Cell>, name: Cell, cells: &Cells) -> bool
    requires { (a : ℕ) → atom ≡ Some a → a < length cells.now }
    ensures { (places : List (Option ℕ)) (i : ℕ) → slice_get places i ≡ Some atom
        → IsTrue result ↔ IsNamedAt cells.now name places i }
{
    match atom {
        Some(cell) => match cells.get(cell) {
            View::Cons(head, _) => head == name,
            _ => false,
        },
        None => false,
    }
}

// The largest number of changes that are noted.
fn most_changes(
    unguard: &[Cell],
    del: &[Cell],
    add: &[Cell],
    guard: &[Cell],
) -> Result<usize, AllocError>
    ensures { IfOk result (λ n. n
        ≡ length unguard.now + length del.now + length add.now + length guard.now) }
{
    unguard
        .len()
        .checked_add(del.len())
        .and_then(|n| n.checked_add(add.len()))
        .and_then(|n| n.checked_add(guard.len()))
        .ok_or(AllocError)
}
