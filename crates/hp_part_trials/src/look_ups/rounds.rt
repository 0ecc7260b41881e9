//! Rounds of a change and a look-up.
ghost use Rattle.std.specs.Prelude.{◌≤◌, List, IfOk, length, vec_len};
ghost use Rattle.hp_syntax.specs.Terms.{Term};
ghost use Rattle.hp_world.specs.Recorded.{Knows};

use crate::look_ups::draws::Draws;
use crate::look_ups::scans::{is_found, is_within, place, scanned};
use hp_cells::{Cell, Cells};
use hp_eval::{Slots, atom_value};
use hp_fixtures::reading::problem_of;
use hp_fixtures::repeats::with_repeats;
use hp_syntax::{AtomPat, Name};
use hp_world::World;
use std::alloc::{AllocError, Global};

const NAMES: [&[u8]; 3] = [b"at", b"in", b"on"];

const ARGUMENTS: [&[u8]; 6] = [b"a", b"b", b"c", b"d", b"e", b"f"];

const ATOMS: &str = "(defproblem p d (
  (at a a) (at a b) (at a c) (at a d) (at a e) (at a f)
  (at b a) (at b b) (at b c) (at b d) (at b e) (at b f)
  (at c a) (at c b) (at c c) (at c d) (at c e) (at c f)
  (at d a) (at d b) (at d c) (at d d) (at d e) (at d f)
  (at e a) (at e b) (at e c) (at e d) (at e e) (at e f)
  (at f a) (at f b) (at f c) (at f d) (at f e) (at f f)
  (in a a) (in a b) (in a c) (in a d) (in a e) (in a f)
  (in b a) (in b b) (in b c) (in b d) (in b e) (in b f)
  (in c a) (in c b) (in c c) (in c d) (in c e) (in c f)
  (in d a) (in d b) (in d c) (in d d) (in d e) (in d f)
  (in e a) (in e b) (in e c) (in e d) (in e e) (in e f)
  (in f a) (in f b) (in f c) (in f d) (in f e) (in f f)
  (on a a) (on a b) (on a c) (on a d) (on a e) (on a f)
  (on b a) (on b b) (on b c) (on b d) (on b e) (on b f)
  (on c a) (on c b) (on c c) (on c d) (on c e) (on c f)
  (on d a) (on d b) (on d c) (on d d) (on d e) (on d f)
  (on e a) (on e b) (on e c) (on e d) (on e e) (on e f)
  (on f a) (on f b) (on f c) (on f d) (on f e) (on f f)
) ())";

/// Names, arguments, and the atoms of each name with two arguments.
pub struct Table {
    names: Vec<Cell>,
    arguments: Vec<Cell>,
    atoms: Vec<Cell>,
}

impl Drop for Table {
    fn drop(self) {
        let Table {
            names,
            arguments,
            atoms,
        } = self;
        drop(names);
        drop(arguments);
        drop(atoms);
    }
}

// The cells of the symbols of these words.
fn symbols(alloc: Global, cells: &mut Cells, words: &[&[u8]]) -> Result<Vec<Cell>, AllocError> {
    let mut found = Vec::new(alloc);
    for word in words {
        let name = Name::new(alloc, word)?;
        found.push(cells.sym(&name)?)?;
    }
    Ok(found)
}

// The cell of an atom that is ground, which no fault meets.
fn interned(alloc: Global, cells: &mut Cells, atom: &AtomPat) -> Result<Cell, AllocError> {
    let slots = Slots::new(alloc, 0)?;
    match atom_value(alloc, atom, &slots, cells) {
        Ok(cell) => Ok(cell),
        Err(_) => Err(AllocError),
    }
}

fn cells_of(alloc: Global, cells: &mut Cells, atoms: &[AtomPat]) -> Result<Vec<Cell>, AllocError> {
    let mut found = Vec::new(alloc);
    for atom in atoms {
        found.push(interned(alloc, cells, atom)?)?;
    }
    Ok(found)
}

/// The cells of the atoms in the state of a problem with repeated parts.
pub fn atoms_of(alloc: Global, cells: &mut Cells, text: &str) -> Result<Vec<Cell>, AllocError> {
    let text = with_repeats(alloc, text)?;
    match problem_of(alloc, text.as_str()) {
        Some(problem) => match problem.pairs.as_slice() {
            [pair] => cells_of(alloc, cells, pair.state.as_slice()),
            _ => Err(AllocError),
        },
        None => Err(AllocError),
    }
}

/// The table of all atoms.
pub fn make_table(alloc: Global, cells: &mut Cells) -> Result<Table, AllocError> {
    let names = symbols(alloc, cells, &NAMES)?;
    let arguments = symbols(alloc, cells, &ARGUMENTS)?;
    let atoms = atoms_of(alloc, cells, ATOMS)?;
    Ok(Table {
        names,
        arguments,
        atoms,
    })
}

/// How many atoms of a table are found by their parts.
pub fn found(cells: &Cells, table: &Table) -> usize
    ensures { result ≤ vec_len table.now.atoms }
{
    table
        .atoms
        .iter()
        .filter(|atom| is_found(cells, **atom))
        .count()
}

/// How many names and arguments are found as symbols.
pub fn found_symbols(alloc: Global, cells: &Cells) -> Result<usize, AllocError>
    ensures { IfOk result (λ n. n ≤ 9) }
{
    let names = found_words(alloc, cells, &NAMES)?;
    let arguments = found_words(alloc, cells, &ARGUMENTS)?;
    Ok(names + arguments)
}

fn found_words(alloc: Global, cells: &Cells, words: &[&[u8]]) -> Result<usize, AllocError>
    ensures { IfOk result (λ n. n ≤ length words.now) }
{
    let mut count = 0;
    for word in words {
        let name = Name::new(alloc, word)?;
        if cells.find_sym(&name).is_some() {
            count += 1;
        }
    }
    Ok(count)
}

// One of several cells.
fn drawn(cells: &[Cell], draws: &mut Draws) -> Option<Cell> {
    if cells.is_empty() {
        return None;
    }
    Some(cells[draws.below(cells.len())])
}

// An atom is deleted, and another is added.
fn change(
    cells: &Cells,
    table: &Table,
    world: &mut World,
    draws: &mut Draws,
) -> Result<(), AllocError>
    requires { Knows cells.now world.old }
    ensures { Knows cells.now world.new }
{
    let (Some(gone), Some(new)) = (drawn(&table.atoms, draws), drawn(&table.atoms, draws)) else {
        return Ok(());
    };
    if new.index() < cells.len() {
        world.apply_in(cells, &[], &[gone], &[new], &[])?;
    }
    Ok(())
}

// Some of the last changes are undone.
fn undo(world: &mut World, draws: &mut Draws)
    ensures { (terms : List Term) → Knows terms world.old → Knows terms world.new }
{
    let mark = world.mark();
    let changes = draws.below(6);
    if changes <= mark {
        world.undo_to(mark - changes);
    }
}

/// An atom is deleted and another is added, or, in each fourth round, some of the last changes are undone.
pub fn change_or_undo(
    cells: &Cells,
    table: &Table,
    world: &mut World,
    draws: &mut Draws,
    round: usize,
) -> Result<(), AllocError>
    requires { Knows cells.now world.old }
    ensures { Knows cells.now world.new }
{
    if round % 4 == 3 {
        undo(world, draws);
        Ok(())
    } else {
        change(cells, table, world, draws)
    }
}

// Whether look-ups by a name, and by a name and a part, give what a scan gives.
fn agrees(cells: &Cells, table: &Table, world: &World, draws: &mut Draws) -> bool
    requires { Knows cells.now world.now }
{
    let (Some(name), Some(term)) = (drawn(&table.names, draws), drawn(&table.arguments, draws))
    else {
        return false;
    };
    let Some(atom) = drawn(&table.atoms, draws) else {
        return false;
    };
    let part = 1 + draws.below(2);
    let from = draws.below(1 + world.places() % 1000);
    if cells.len() <= name.index() || cells.len() <= term.index() || !is_within(world, cells) {
        return false;
    }
    world.place_of(atom) == place(world, atom)
        && world.next_named(cells, name, from) == scanned(world, cells, name, 0, name, from)
        && world.next_with(cells, name, part, term, from)
            == scanned(world, cells, name, part, term, from)
}

/// How many look-ups differ from a scan, of one behind each of so many changes and undoings.
pub fn differing(
    cells: &Cells,
    table: &Table,
    world: &mut World,
    draws: &mut Draws,
    rounds: usize,
) -> Result<usize, AllocError>
    requires { Knows cells.now world.old }
    ensures { IfOk result (λ n. n ≤ rounds) }
{
    let mut differ = 0;
    for round in 0..rounds {
        change_or_undo(cells, table, world, draws, round)?;
        if !agrees(cells, table, world, draws) {
            differ += 1;
        }
    }
    Ok(differ)
}
