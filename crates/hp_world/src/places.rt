//! Places of atoms, with a table from an atom to its place.
ghost use Rattle.std.specs.Prelude.{◌≡◌, ◌+◌, ◌-◌, ◌<◌, ◌≤◌, [], ◌∷◌, ◌++◌, Some, None, MatchOption, IfOk, OnOk, length, take, slice_get, slice_index_or, slice_set};
ghost use Rattle.hp_world.specs.Indexed.{IsAbsent, IsOnlyAt};
ghost use Rattle.hp_world.specs.Stages.{live_atoms, AllBelow};

use hp_cells::Cell;
use std::alloc::{AllocError, Global};
use std::marker::Model;

// The most places that there may be.
const MOST: usize = 0xffff_ffff;

/// Places in a row, each with an atom or empty. No atom stands at two. Contracts see the places, how many can stand
/// there without more memory, and up to which cell the table reaches.
pub struct Places {
    places: Vec<Option<Cell>>,
    // By the number of an atom: its place.
    table: Vec<Option<u32>>,
}

impl Drop for Places {
    fn drop(self) {
        let Places { places, table } = self;
        drop(places);
        drop(table);
    }
}

impl Model for Places {
    ghost use Rattle.hp_world.specs.Indexed.{Row};

    ghost Value = { Row };

    ghost use Rattle.hp_world.specs.Indexed.{row_of, IsIndexed};

    ghost view = { row_of };

    ghost invariant = { IsIndexed };
}

impl Places {
    /// No places.
    pub fn new(alloc: Global) -> Places
        ensures { result.places ≡ [] }
    {
        Places {
            places: Vec::new(alloc),
            table: Vec::new(alloc),
        }
    }

    /// The same places.
    pub fn copy(&self) -> Result<Places, AllocError>
        ensures { IfOk result (λ p. p.places ≡ self.now.places) }
    {
        let alloc = *self.places.allocator();
        Ok(Places {
            places: Vec::from_slice(alloc, &self.places)?,
            table: Vec::from_slice(alloc, &self.table)?,
        })
    }

    /// The number of places.
    pub fn len(&self) -> usize
        ensures { result ≡ length self.now.places }
    {
        self.places.len()
    }

    /// The atom of a place, if one stands there.
    pub fn at(&self, place: usize) -> Option<Cell>
        requires { place < length self.now.places }
        ensures { slice_get self.now.places place ≡ Some result }
    {
        self.places[place]
    }

    /// The number of atoms.
    pub fn live(&self) -> usize
        ensures { result ≡ length (live_atoms self.now.places) }
    {
        let mut count = 0;
        for place in &self.places {
            if place.is_some() {
                count += 1;
            }
        }
        count
    }

    /// The place of an atom, found without a scan.
    pub fn place_of(&self, atom: Cell) -> Option<usize>
        ensures { MatchOption result (IsAbsent atom self.now.places) (IsOnlyAt atom self.now.places) }
    {
        let place = (*self.table.get(atom.index())?)?;
        Some(place as usize)
    }

    /// Makes room for so many more places, with these atoms. There is none where there would be 2^32 places or more.
    pub fn reserve(&mut self, atoms: &[Cell]) -> Result<(), AllocError>
        ensures places { self.new.places ≡ self.old.places }
        ensures wider { self.old.width ≤ self.new.width }
        ensures room { OnOk result (length self.new.places + length atoms.now ≤ self.new.room) }
        ensures width { OnOk result (AllBelow self.new.width atoms.now) }
    {
        if MOST - self.places.len() < atoms.len() {
            return Err(AllocError);
        }
        self.places.reserve(atoms.len())?;
        for atom in atoms {
            self.widen(*atom)?;
        }
        Ok(())
    }

    // Makes the table reach an atom.
    fn widen(&mut self, atom: Cell) -> Result<(), AllocError>
        ensures places { self.new.places ≡ self.old.places }
        ensures room { self.new.room ≡ self.old.room }
        ensures wider { self.old.width ≤ self.new.width }
        ensures width { OnOk result (atom < self.new.width) }
    {
        if self.table.len() <= atom.index() {
            self.table.resize(atom.index() + 1, None)?;
        }
        Ok(())
    }

    /// Appends a place with an atom that stands nowhere.
    pub fn push(&mut self, atom: Cell)
        requires absent { IsAbsent atom self.old.places }
        requires within { atom < self.old.width }
        requires room { length self.old.places < self.old.room }
        ensures { self.new ≡ record self.old { places = self.old.places ++ Some atom ∷ [] } }
    {
        let place = self.places.len();
        self.places.push_reserved(Some(atom));
        self.table[atom.index()] = Some(place as u32);
    }

    /// Takes the last place away, as undoing does.
    pub fn pop(&mut self)
        ensures { self.new ≡ record self.old { places = take (length self.old.places - 1) self.old.places } }
    {
        match self.places.pop() {
            Some(Some(atom)) => self.table[atom.index()] = None,
            Some(None) => {}
            None => {}
        }
    }

    /// Takes an atom off its place, which is empty then.
    pub fn clear(&mut self, place: usize, atom: Cell)
        requires { slice_index_or self.old.places place None ≡ Some atom }
        ensures cleared { self.new ≡ record self.old { places = slice_set self.old.places place None } }
        ensures within { atom < self.old.width }
    {
        self.places[place] = None;
        self.table[atom.index()] = None;
    }

    /// Puts an atom on an empty place, as undoing does.
    pub fn put_back(&mut self, place: usize, atom: Cell)
        requires place { place < length self.old.places }
        requires empty { slice_index_or self.old.places place None ≡ None }
        requires absent { IsAbsent atom self.old.places }
        requires within { atom < self.old.width }
        ensures { self.new ≡ record self.old { places = slice_set self.old.places place (Some atom) } }
    {
        self.places[place] = Some(atom);
        self.table[atom.index()] = Some(place as u32);
    }
}
