//! Lists by their cells.
ghost use Rattle.std.specs.Prelude.{◌≡◌, ◌<◌, Some, IfOk, length, map, nat_lt, slice_get};
ghost use Rattle.std.specs.List.{All};
ghost use Rattle.hp_cells.specs.Cells.{NamesList};
ghost use Rattle.hp_syntax.specs.Terms.{Term, Terms, Symbol, Listed, More, term_nesting};
ghost use Rattle.hp_syntax.specs.Values as plain;
ghost use Rattle.hp_eval.specs.GoalViews.{term_at};
ghost use Rattle.hp_eval.specs.Growth.{Grows, Gives};
ghost use Rattle.hp_eval.specs.Steps.{is_list, onto, GivesCell, GivesList};

use crate::event::EvalStop;
use hp_cells::{Cell, Cells, View};
use hp_syntax::limits::DEEPEST_TERM;
use hp_syntax::{FaultKind, Name, RunFault, Span};
use std::alloc::AllocError;

/// Whether a cell names a list.
pub(crate) fn is_listed(cell: Cell, cells: &Cells) -> bool
    requires cell { cell < length cells.now }
    ensures { result ≡ is_list (term_at cells.now cell) }
{
    match cells.get(cell) {
        View::Nil | View::Cons(_, _) => true,
        View::Sym(_) | View::Num(_) => false,
    }
}

/// The cell, where it names a list.
pub(crate) fn list_or_fault(cell: Cell, span: Span, cells: &Cells) -> Result<Cell, RunFault>
    requires cell { cell < length cells.now }
    ensures { GivesList result (plain.parts_of span (term_at cells.now cell)) cells.now }
{
    if is_listed(cell, cells) {
        Ok(cell)
    } else {
        Err(RunFault {
            kind: FaultKind::NotList,
            span,
        })
    }
}

/// The cell of a list of these parts in front of those of another list.
pub(crate) fn list_onto(
    mut parts: Vec<Cell>,
    rest: Cell,
    cells: &mut Cells,
) -> Result<Cell, AllocError>
    requires parts { All (λ c. c < length cells.old) parts.items }
    requires rest { NamesList cells.old rest }
    ensures names { IfOk result (λ cell. (ts : Terms) → slice_get cells.old rest ≡ Some (Listed ts)
        → slice_get cells.new cell ≡ Some (Listed (onto (map (term_at cells.old) parts.items) ts))) }
    ensures cells { Grows cells.old cells.new }
{
    let mut list = rest;
    while let Some(part) = parts.pop() {
        list = cells.cons(part, list)?;
    }
    Ok(list)
}

fn is_too_deep(list: Cell, cells: &Cells) -> bool
    requires list { list < length cells.now }
    ensures { (t : Term) → slice_get cells.now list ≡ Some t → result ≡ nat_lt DEEPEST_TERM (term_nesting t) }
{
    cells.depth(list) > DEEPEST_TERM
}

/// The list, where it doesn't nest too deep.
pub(crate) fn within_depth(list: Cell, span: Span, cells: &Cells) -> Result<Cell, RunFault>
    requires list { list < length cells.now }
    ensures { (ts : Terms) → slice_get cells.now list ≡ Some (Listed ts)
        → GivesCell result (plain.list_of span ts) cells.now }
{
    if is_too_deep(list, cells) {
        Err(RunFault {
            kind: FaultKind::TooDeep,
            span,
        })
    } else {
        Ok(list)
    }
}

/// The list of a name and the parts of another list, where it doesn't nest too deep.
pub(crate) fn named_list(
    name: &Name,
    parts: Cell,
    span: Span,
    cells: &mut Cells,
) -> Result<Cell, EvalStop>
    requires parts { NamesList cells.old parts }
    ensures gives { (ts : Terms) → slice_get cells.old parts ≡ Some (Listed ts)
        → Gives result (plain.list_of span (More (Symbol name.now) ts)) cells.new }
    ensures cells { Grows cells.old cells.new }
{
    let first = cells.sym(name)?;
    let list = cells.cons(first, parts)?;
    let cell = within_depth(list, span, cells)?;
    Ok(cell)
}
