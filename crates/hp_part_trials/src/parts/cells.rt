//! Interned terms.
ghost use Rattle.std.specs.Prelude.{◌<◌, IfOk, length};

use hp_cells::{Cell, Cells, View};
use hp_fixtures::page::Page;
use hp_syntax::Name;
use std::alloc::{AllocError, Global};

// The list of one part.
fn list_of(cells: &mut Cells, part: Cell) -> Result<Cell, AllocError>
    requires { part < length cells.old }
    ensures { IfOk result (λ cell. cell < length cells.new) }
{
    let nil = cells.nil();
    cells.cons(part, nil)
}

// Leaves three terms, where there are more.
fn leave_three(cells: &mut Cells) {
    if cells.len() > 3 {
        cells.give_back(3);
    }
}

// Each term stands once.
fn show_terms(page: &mut Page, cells: &mut Cells, name: &Name) -> Result<(), AllocError> {
    page.title("Each term stands once");
    let a = cells.sym(name)?;
    let list = list_of(cells, a)?;
    let three = cells.num(3_000)?;
    page.line("a is neither (a) nor 3", &(a != list && a != three));
    let again = cells.sym(name)?;
    page.line("a is the same again", &(again == a));
    page.line("terms", &cells.len());
    leave_three(cells);
    page.line("terms once the last is given back", &cells.len());
    Ok(())
}

// Whether a cell names the list of this part alone.
fn is_list_of(cells: &Cells, list: Cell, part: Cell) -> bool
    requires { list < length cells.now }
{
    match cells.get(list) {
        View::Cons(head, tail) => head == part && tail == cells.nil(),
        _ => false,
    }
}

// How deep 3, (3) and ((3)) nest.
fn show_depths(page: &mut Page, cells: &mut Cells) -> Result<(), AllocError> {
    page.title("Depths and parts are told");
    let three = cells.num(3_000)?;
    page.line("depth of 3", &cells.depth(three));
    let inner = list_of(cells, three)?;
    page.line("depth of (3)", &cells.depth(inner));
    let outer = list_of(cells, inner)?;
    page.line("depth of ((3))", &cells.depth(outer));
    page.line("((3)) is the list of (3)", &is_list_of(cells, outer, inner));
    Ok(())
}

/// Terms and their depths.
pub fn show_cells(page: &mut Page, alloc: Global) -> Result<(), AllocError> {
    let name = Name::new(alloc, b"a")?;
    let mut cells = Cells::new(alloc)?;
    show_terms(page, &mut cells, &name)?;
    show_depths(page, &mut cells)
}
