//! The places of rules by the names of their heads, so that the rules of a name are found without a look at the others.
//! What a place is, whoever fills a table says: a number among the rules, or the node that a rule is compiled to.
#![tactic(auto)]

ghost use Rattle.std.specs.Prelude.{◌≡◌, List, ℕ, [], IfSome};
ghost use Rattle.std.specs.Option.{option_copied};
ghost use Rattle.hp_syntax.specs.Views.{rule_of};
ghost use Rattle.hp_tables.specs.Tables.{Adds, name_as, places_in};

use hp_syntax::{Name, Rule};
use indexmap::IndexMap;
use std::alloc::{AllocError, Global};
use std::cell::Cell;

/// Which rules a table has.
#[derive(Clone, Copy)]
pub enum Kind {
    /// Operators and methods alike, which are for tasks.
    Task,
    Axiom,
}

// The name of a rule's head, where the rule is of a kind.
fn name_as(kind: Kind, rule: &Rule) -> Option<&Name>
    ensures { option_copied result ≡ name_as kind (rule_of rule.now) }
{
    match (kind, rule) {
        (Kind::Task, Rule::Operator(operator)) => Some(&operator.head.name),
        (Kind::Task, Rule::Method(method)) => Some(&method.head.name),
        (Kind::Axiom, Rule::Axiom(axiom)) => Some(&axiom.head.name),
        _ => None,
    }
}

// So many notes a table has, one for each hint of a name.
const NOTES: usize = 256;

/// Places by names. Under each name they stand in the order in which they were added.
///
/// A table notes by the hint of a name which of its names was found last, so that the next look-up of this one is a
/// comparison. A note is tested before it is used, so contracts see nothing of it.
pub struct Table {
    places: IndexMap<Name, Vec<usize>>,
    notes: Vec<Cell<usize>>,
}

impl Drop for Table {
    fn drop(self) {
        let Table { places, notes } = self;
        drop(places);
        drop(notes);
    }
}

impl Table {
    /// A table without places. It takes no memory.
    pub fn new(alloc: Global) -> Table
        ensures { (q : List ℕ) → places_in result q ≡ [] }
    {
        Table {
            places: IndexMap::new(alloc),
            notes: Vec::new(alloc),
        }
    }

    /// Adds a place behind those of a name. After want of memory each name has the places that it had.
    pub fn add(&mut self, alloc: Global, name: &Name, place: usize) -> Result<(), AllocError>
        ensures { Adds result (Some name.now) place self.old self.new }
    {
        match self.places.get_mut(name) {
            Some(places) => places.push(place)?,
            None => {
                make_notes(&mut self.notes)?;
                let places = vec![in alloc; place]?;
                self.places.insert(name.copy(alloc)?, places)?;
            }
        }
        Ok(())
    }

    /// Adds the place of a rule behind those of its name, where the rule is of a kind. After want of memory each name
    /// has the places that it had.
    pub fn add_rule(
        &mut self,
        alloc: Global,
        kind: Kind,
        rule: &Rule,
        place: usize,
    ) -> Result<(), AllocError>
        ensures { Adds result (name_as kind (rule_of rule.now)) place self.old self.new }
    {
        match name_as(kind, rule) {
            Some(name) => self.add(alloc, name, place),
            None => Ok(()),
        }
    }

    // The places of the name of a number, where it is this one.
    fn places_at(&self, number: usize, name: &Name) -> Option<&[usize]>
        ensures { IfSome result (λ places. places.now ≡ places_in self.now name.now) }
    {
        match self.places.get_index(number) {
            Some((own, places)) if own == name => Some(places.as_slice()),
            _ => None,
        }
    }

    // The places of a name that may be noted. Where it isn't, it is from now on.
    fn get_noted(&self, note: &Cell<usize>, name: &Name) -> &[usize]
        ensures { result.now ≡ places_in self.now name.now }
    {
        if let Some(places) = self.places_at(note.get(), name) {
            return places;
        }
        match self.places.get_full(name) {
            Some((number, _, places)) => {
                note.set(number);
                places.as_slice()
            }
            None => &[],
        }
    }

    /// The places of a name, in the order in which they were added.
    pub fn get(&self, name: &Name) -> &[usize]
        ensures { result.now ≡ places_in self.now name.now }
    {
        match self.notes.get(name.hint()) {
            Some(note) => self.get_noted(note, name),
            None => match self.places.get(name) {
                Some(places) => places.as_slice(),
                None => &[],
            },
        }
    }
}

// Makes a note for each hint, where there are none yet.
fn make_notes(notes: &mut Vec<Cell<usize>>) -> Result<(), AllocError> {
    for _ in notes.len()..NOTES {
        notes.push(Cell::new(0))?;
    }
    Ok(())
}
