//! Names by their numbers, and keys by their places.
ghost use Rattle.std.specs.Prelude.{◌≡◌, ◌+◌, ◌<◌, ◌++◌, [], ◌∷◌, vec_len, vec_capacity, if◌then◌else◌};

use crate::keys::{Cell, Key};
use hp_syntax::Name;
use indexmap::IndexSet;
use std::alloc::{AllocError, Global};
use std::cell::Cell as Note;

// Where there are so many terms, or names, no number is left for one more.
const MOST: usize = u32::MAX as usize;

// So many notes are kept of where names were found, one for each hint of a name.
const NOTES: usize = 256;

// The names of symbols, each once and named by its place, and the keys of terms with the depths of these. A note is the
// place where a look-up found a symbol. It is tested before it is used, so that nothing need be known of it.
pub(crate) struct Table {
    pub(crate) names: IndexSet<Name>,
    pub(crate) keys: IndexSet<Key>,
    pub(crate) depths: Vec<u32>,
    notes: Vec<Note<u32>>,
    alloc: Global,
}

impl Drop for Table {
    fn drop(self) {
        let Table {
            names,
            keys,
            depths,
            notes,
            alloc: _,
        } = self;
        drop(names);
        drop(keys);
        drop(depths);
        drop(notes);
    }
}

impl Table {
    ghost use Rattle.std.specs.Prelude.{◌≡◌, ◌≤◌, [], ◌∷◌, Some, IfOk, OnErr, IsTrue, length, take, slice_get};
    ghost use Rattle.hp_syntax.specs.Terms.{Term, Symbol, Listed, NoTerm};
    ghost use Rattle.hp_cells.specs.Cells.{IsAbsent, LooksUp, Interns};
    ghost use Rattle.hp_cells.specs.Tables.{terms_in, StandsIn, StandsAtDepth, IsSound};

    // No names, and the empty list alone.
    pub(crate) fn new(alloc: Global) -> Result<Table, AllocError>
        ensures sound { IfOk result IsSound }
        ensures first { IfOk result (λ table. terms_in table ≡ Listed NoTerm ∷ []) }
    {
        let mut keys = IndexSet::new(alloc);
        keys.insert(Key::Nil)?;
        let depths = vec![in alloc; 1]?;
        let notes = first_notes(alloc)?;
        Ok(Table {
            names: IndexSet::new(alloc),
            keys,
            depths,
            notes,
            alloc,
        })
    }

    // The number of a name, if it stands.
    pub(crate) fn find_name(&self, name: &Name) -> Option<u32>
        requires { IsSound self.now }
        ensures { LooksUp name.now self.now.names.keys result }
    {
        let number = self.names.get_index_of(name)?;
        Some(number as u32)
    }

    // The number of a name, which is copied where it is absent.
    pub(crate) fn number_of(&mut self, name: &Name) -> Result<u32, AllocError>
        requires sound { IsSound self.old }
        ensures sound { IsSound self.new }
        ensures ok { IfOk result (λ number. slice_get self.new.names.keys number ≡ Some name.now) }
        ensures same { terms_in self.new ≡ terms_in self.old }
    {
        match self.find_name(name) {
            Some(number) => Ok(number),
            None => self.add_name(name),
        }
    }

    fn add_name(&mut self, name: &Name) -> Result<u32, AllocError>
        requires sound { IsSound self.old }
        requires absent { IsAbsent self.old.names.keys name.now }
        ensures sound { IsSound self.new }
        ensures ok { IfOk result (λ number. slice_get self.new.names.keys number ≡ Some name.now) }
        ensures same { terms_in self.new ≡ terms_in self.old }
    {
        let number = self.names.len();
        if number >= MOST {
            return Err(AllocError);
        }
        let copy = name.copy(self.alloc)?;
        self.names.insert(copy)?;
        Ok(number as u32)
    }

    // The cell of the term that a key stands for, if it stands.
    pub(crate) fn find(&self, key: Key) -> Option<Cell>
        requires { IsSound self.now }
        ensures { (t : Term) → StandsIn self.now key t → LooksUp t (terms_in self.now) result }
    {
        let place = self.keys.get_index_of(&key)?;
        Some(Cell {
            place: place as u32,
        })
    }

    // The cell of the symbol of a name, if the symbol stands.
    pub(crate) fn find_symbol(&self, name: &Name) -> Option<Cell>
        requires { IsSound self.now }
        ensures { LooksUp (Symbol name.now) (terms_in self.now) result }
    {
        match self.notes.get(name.hint()) {
            Some(note) => self.find_noted(note, name),
            None => self.seek_symbol(name),
        }
    }

    // The same, by a note, which is made true where the symbol stands elsewhere.
    fn find_noted(&self, note: &Note<u32>, name: &Name) -> Option<Cell>
        requires { IsSound self.now }
        ensures { LooksUp (Symbol name.now) (terms_in self.now) result }
    {
        let place = note.get();
        if self.has_symbol_at(place as usize, name) {
            return Some(Cell { place });
        }
        let cell = self.seek_symbol(name)?;
        note.set(cell.place);
        Some(cell)
    }

    // The same, by the name's number.
    fn seek_symbol(&self, name: &Name) -> Option<Cell>
        requires { IsSound self.now }
        ensures { LooksUp (Symbol name.now) (terms_in self.now) result }
    {
        let number = self.find_name(name)?;
        self.find(Key::Sym(number))
    }

    // Whether the symbol of a name stands at a place.
    fn has_symbol_at(&self, place: usize, name: &Name) -> bool
        requires { IsSound self.now }
        ensures { IsTrue result → slice_get (terms_in self.now) place ≡ Some (Symbol name.now) }
    {
        match self.keys.get_index(place) {
            Some(Key::Sym(number)) => match self.names.get_index(*number as usize) {
                Some(own) => own == name,
                None => false,
            },
            _ => false,
        }
    }

    // The cell of the term that a key stands for and that nests so deep.
    pub(crate) fn intern(&mut self, key: Key, depth: usize) -> Result<Cell, AllocError>
        requires sound { IsSound self.old }
        requires stands { StandsAtDepth self.old key depth }
        ensures sound { IsSound self.new }
        ensures ok { IfOk result (λ cell. (t : Term) → StandsIn self.old key t
            → Interns t cell (terms_in self.old) (terms_in self.new)) }
        ensures err { OnErr result (terms_in self.new ≡ terms_in self.old) }
    {
        if self.keys.len() >= MOST {
            return Err(AllocError);
        }
        self.depths.reserve(1)?;
        let (place, added) = self.keys.insert_full(key)?;
        note_depth(&mut self.depths, depth as u32, added);
        Ok(Cell {
            place: place as u32,
        })
    }

    // Takes back all keys but so many of the first, and no name.
    pub(crate) fn truncate(&mut self, count: usize)
        requires sound { IsSound self.old }
        requires some { 1 ≤ count }
        requires within { count ≤ length (terms_in self.old) }
        ensures sound { IsSound self.new }
        ensures first { terms_in self.new ≡ take count (terms_in self.old) }
    {
        self.keys.truncate(count);
        self.depths.truncate(count);
    }
}

// Notes the depth of a term that was added, in room that was made before.
fn note_depth(depths: &mut Vec<u32>, depth: u32, added: bool)
    requires { vec_len depths.old < vec_capacity depths.old }
    ensures { depths.new.items ≡ (if added then depths.old.items ++ depth ∷ [] else depths.old.items) }
{
    if added {
        let pushed = depths.push(depth).is_ok();
        prove!(pushed);
    }
}

// Notes that name the first place.
fn first_notes(alloc: Global) -> Result<Vec<Note<u32>>, AllocError> {
    let mut notes = Vec::with_capacity(alloc, NOTES)?;
    for _ in 0..NOTES {
        notes.push(Note::new(0))?;
    }
    Ok(notes)
}
