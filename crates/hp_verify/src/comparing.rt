//! Steps of a walk, compared with those of a plan that is given. Nothing here takes memory.
ghost use Rattle.std.specs.Prelude.{◌≡◌, ◌<◌, length, map};
ghost use Rattle.hp_cells.specs.Cells.{NamesList};
ghost use Rattle.hp_cells.specs.Keys.{parts_of};
ghost use Rattle.hp_eval.specs.GoalViews.{term_at};
ghost use Rattle.hp_eval.specs.Steps.{is_list};
ghost use Rattle.hp_syntax.specs.GroundViews.{ground_of, grounds_of};
ghost use Rattle.hp_syntax.specs.Terms.{NoTerm, same_term, same_terms};
ghost use Rattle.hp_world.specs.Stages.{AllBelow, terms_at};
ghost use Rattle.hp_verify.specs.Kept.{steps_begin, steps_are};

use hp_cells::{Cell, Cells, View};
use hp_syntax::Ground;

/// Whether a cell names a list.
fn is_listed(cells: &Cells, cell: Cell) -> bool
    requires { cell < length cells.now }
    ensures { result ≡ is_list (term_at cells.now cell) }
{
    match cells.get(cell) {
        View::Nil | View::Cons(_, _) => true,
        View::Sym(_) | View::Num(_) => false,
    }
}

/// Whether a cell names a list without parts.
fn has_no_part(cells: &Cells, list: Cell) -> bool
    requires { NamesList cells.now list }
    ensures { result ≡ same_terms NoTerm (parts_of (term_at cells.now list)) }
{
    match cells.get(list) {
        View::Cons(_, _) => false,
        View::Nil | View::Sym(_) | View::Num(_) => true,
    }
}

/// Whether these are the parts of a list. However many they are, no call waits for the next part.
#[cycle(term)]
fn are_parts(parts: &[Ground], cells: &Cells, list: Cell) -> bool
    requires { NamesList cells.now list }
    ensures { result ≡ same_terms (grounds_of parts.now) (parts_of (term_at cells.now list)) }
{
    let mut rest = list;
    for part in parts {
        let View::Cons(head, tail) = cells.get(rest) else {
            return false;
        };
        if !is_term(part, cells, head) {
            return false;
        }
        rest = tail;
    }
    has_no_part(cells, rest)
}

/// Whether this is the term of a cell.
#[cycle(term)]
fn is_term(term: &Ground, cells: &Cells, cell: Cell) -> bool
    requires { cell < length cells.now }
    ensures { result ≡ same_term (ground_of term.now) (term_at cells.now cell) }
{
    match term {
        Ground::Sym(name) => cells.is_symbol(cell, name),
        Ground::Num(n) => cells.is_number(cell, *n),
        Ground::List(parts) => {
            is_listed(cells, cell) && are_parts(parts.as_slice(), cells, cell)
        }
    }
}

/// Whether the steps of these cells begin a plan.
pub fn begin(cells: &Cells, steps: &[Cell], plan: &[Ground]) -> bool
    requires { AllBelow (length cells.now) steps.now }
    ensures { result ≡ steps_begin (terms_at cells.now steps.now) (map ground_of plan.now) }
{
    for (i, step) in steps.iter().enumerate() {
        let Some(own) = plan.get(i) else {
            return false;
        };
        if !is_term(own, cells, *step) {
            return false;
        }
    }
    true
}

/// Whether the steps of these cells are those of a plan.
pub fn are_those(cells: &Cells, steps: &[Cell], plan: &[Ground]) -> bool
    requires { AllBelow (length cells.now) steps.now }
    ensures { result ≡ steps_are (terms_at cells.now steps.now) (map ground_of plan.now) }
{
    if steps.len() != plan.len() {
        return false;
    }
    begin(cells, steps, plan)
}
