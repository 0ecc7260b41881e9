//! Look-ups by a plain scan.
ghost use Rattle.std.specs.Prelude.{ℕ, ◌<◌, IsTrue, length};
ghost use Rattle.hp_world.specs.Stages.{AllBelow, live_atoms};

use hp_cells::{Cell, Cells, View};
use hp_world::World;

/// Whether each atom of a world is a cell.
pub fn is_within(world: &World, cells: &Cells) -> bool
    ensures { IsTrue result → AllBelow (length cells.now) (live_atoms world.now.now.places) }
{
    for place in 0..world.places() {
        if let Some(atom) = world.at(place) {
            if cells.len() <= atom.index() {
                return false;
            }
        }
    }
    true
}

// The first part of a list, and the list of the others.
fn split(cells: &Cells, list: Cell) -> Option<(Cell, Cell)> {
    if list.index() < cells.len() {
        match cells.get(list) {
            View::Cons(head, tail) => Some((head, tail)),
            View::Nil | View::Sym(_) | View::Num(_) => None,
        }
    } else {
        None
    }
}

// Whether a term is the part of an atom at a place; the name is at 0.
fn has_part(cells: &Cells, atom: Cell, part: usize, term: Cell) -> bool {
    let mut rest = atom;
    for _number in 0..part {
        match split(cells, rest) {
            Some((_, tail)) => rest = tail,
            None => return false,
        }
    }
    match split(cells, rest) {
        Some((head, _)) => head == term,
        None => false,
    }
}

/// Whether a list that isn't empty is found by its first part and the list of the others.
pub fn is_found(cells: &Cells, list: Cell) -> bool {
    if list.index() < cells.len() {
        match cells.get(list) {
            View::Cons(head, tail) => cells.find_cons(head, tail) == Some(list),
            View::Nil | View::Sym(_) | View::Num(_) => false,
        }
    } else {
        false
    }
}

/// The place of an atom.
pub fn place(world: &World, atom: Cell) -> Option<usize> {
    for place in 0..world.places() {
        if world.at(place) == Some(atom) {
            return Some(place);
        }
    }
    None
}

/// The least place from one on whose atom has a name and a part.
pub fn scanned(
    world: &World,
    cells: &Cells,
    name: Cell,
    part: usize,
    term: Cell,
    from: usize,
) -> Option<usize> {
    for place in from..world.places() {
        if let Some(atom) = world.at(place) {
            if has_part(cells, atom, 0, name) && has_part(cells, atom, part, term) {
                return Some(place);
            }
        }
    }
    None
}
