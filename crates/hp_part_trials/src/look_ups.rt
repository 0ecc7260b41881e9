//! Look-ups: a world that is changed and undone at random, whose indexes are compared with a plain scan, and generators
//! in it with the engine that copies; and many changes of a large world.

pub mod draws;
pub mod large;
pub mod rounds;
mod satisfiers;
mod scans;

use crate::look_ups::draws::Draws;
use crate::look_ups::large::{found_by_argument, found_by_name};
use crate::look_ups::rounds::{Table, differing, found, found_symbols, make_table};
use crate::look_ups::satisfiers::compared_satisfiers;
use hp_cells::Cells;
use hp_fixtures::page::Page;
use hp_world::World;
use std::alloc::{AllocError, Global};

const ROUNDS: usize = 10_000;

// The name and two arguments.
const PARTS: [usize; 3] = [0, 1, 2];

// Of a large world.
const CHANGES: u32 = 10_000;

// Rounds of a world that is empty at first.
fn show_differing(
    page: &mut Page,
    alloc: Global,
    cells: &Cells,
    table: &Table,
) -> Result<(), AllocError> {
    let mut world = World::indexed(alloc, &PARTS)?;
    page.line("changes and undoings", &ROUNDS);
    let differ = differing(cells, table, &mut world, &mut Draws { state: 1 }, ROUNDS);
    page.told("look-ups that differ from a scan", &differ);
    page.line("places in the end", &world.places());
    Ok(())
}

// Symbols, atoms by their parts, and a number that stands nowhere.
fn show_rounds(page: &mut Page, alloc: Global, cells: &mut Cells) -> Result<(), AllocError> {
    let table = make_table(alloc, cells)?;
    page.told("symbols that are found", &found_symbols(alloc, cells));
    page.line("atoms that are found by their parts", &found(cells, &table));
    let number = cells.find_num(7_000);
    page.line("a number that stands nowhere is found", &number.is_some());
    show_differing(page, alloc, cells, &table)?;
    let compared = compared_satisfiers(alloc, &table, cells);
    page.told(
        "satisfiers by generators, and how many lists differ",
        &compared,
    );
    Ok(())
}

fn show_large(page: &mut Page, alloc: Global, cells: &mut Cells) {
    page.told(
        "changes of 100000 atoms that find theirs by an argument",
        &found_by_argument(alloc, cells, CHANGES, &PARTS),
    );
    page.told(
        "changes of a counter that find it by its name",
        &found_by_name(alloc, cells, &PARTS),
    );
}

/// What these look-ups find.
pub fn show_all(page: &mut Page, alloc: Global) -> Result<(), AllocError> {
    page.title("\n== look-ups");
    let mut cells = Cells::new(alloc)?;
    show_rounds(page, alloc, &mut cells)?;
    show_large(page, alloc, &mut cells);
    Ok(())
}
