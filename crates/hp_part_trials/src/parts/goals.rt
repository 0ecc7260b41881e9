//! Goals, filled with what their variables stand for.

use crate::fixtures::symbol;
use hp_cells::{Cell, Cells};
use hp_eval::{EvalStop, Filled, Goal, Slots, fill_goal};
use hp_fixtures::page::Page;
use hp_syntax::AtomPat;
use std::alloc::{AllocError, Global};

// Fills an atom, of which ?0 is a.
fn filled(alloc: Global, cells: &mut Cells, atom: &AtomPat) -> Result<Goal, EvalStop> {
    let a = symbol(alloc, cells, b"a")?;
    let mut slots = Slots::new(alloc, 1)?;
    slots.bind(0, a);
    fill_goal(alloc, atom, &slots, cells)
}

// The parts of a goal, where the last is known by its cell and the list before it begins with another.
fn show_parts(page: &mut Page, goal: &Goal, a: Cell, f: Cell, three: Cell) {
    page.line("arguments", &goal.args.len());
    page.line("tail", &goal.tail);
    if let [
        Filled::Known(first),
        Filled::List(parts, Some(2)),
        Filled::Known(third),
    ] = goal.args.as_slice()
    {
        let is_kept =
            matches!(parts.as_slice(), [Filled::Known(known), Filled::Free(free)] if *known == f && *free == 1);
        page.line("?0 is a", &(*first == a));
        page.line("(f ?1 . ?2) keeps its variables", &is_kept);
        page.line("(+ 1 2) is 3", &(*third == three));
    }
}

fn show_filled(
    page: &mut Page,
    alloc: Global,
    cells: &mut Cells,
    atom: &AtomPat,
) -> Result<(), AllocError> {
    let a = symbol(alloc, cells, b"a")?;
    let f = symbol(alloc, cells, b"f")?;
    let three = cells.num(3_000)?;
    match filled(alloc, cells, atom) {
        Ok(goal) => show_parts(page, &goal, a, f, three),
        Err(stop) => page.line("it stops", &stop),
    }
    Ok(())
}

/// An atom of several parts, and one whose tail alone is a variable, filled as goals.
pub fn show_goals(
    page: &mut Page,
    alloc: Global,
    cells: &mut Cells,
    wide: &AtomPat,
    open: &AtomPat,
) -> Result<(), AllocError> {
    page.title("Goals keep free variables: (p ?0 (f ?1 . ?2) (+ 1 2) . ?1), where ?0 is a");
    show_filled(page, alloc, cells, wide)?;
    page.title("Tails stand for lists: (go . ?0), where ?0 is a");
    match filled(alloc, cells, open) {
        Ok(goal) => page.line("arguments", &goal.args.len()),
        Err(stop) => page.line("it stops", &stop),
    }
    Ok(())
}
