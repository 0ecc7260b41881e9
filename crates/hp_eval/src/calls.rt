//! The call table.
ghost use Rattle.std.specs.Prelude.{◌≡◌, ◌<◌, Ok, Some, IfOk, length, map, slice_get};
ghost use Rattle.std.specs.Bool.{beq};
ghost use Rattle.std.specs.List.{All};
ghost use Rattle.hp_syntax.specs.Calls as plain;
ghost use Rattle.hp_syntax.specs.Terms.{Terms, Listed, same_term, is_part};
ghost use Rattle.hp_eval.specs.CallRows.{answered, answer_term, table_row, number_of, all_numbers};
ghost use Rattle.hp_eval.specs.Growth.{Grows, Gives, GivesBy};
ghost use Rattle.hp_eval.specs.GoalViews.{term_at, row_of};

use crate::arithmetic::{Called, of_numbers, truth};
use crate::event::EvalStop;
use crate::lists::is_listed;
use crate::rows::{Row, row_named};
use hp_cells::{Cell, Cells, View};
use hp_syntax::{FaultKind, Name, RunFault, Span};
use std::alloc::{AllocError, Global};

fn number_at(cell: Cell, span: Span, cells: &Cells) -> Result<i64, RunFault>
    requires cell { cell < length cells.now }
    ensures { result ≡ number_of span (term_at cells.now cell) }
{
    match cells.get(cell) {
        View::Num(n) => Ok(n),
        View::Nil | View::Sym(_) | View::Cons(_, _) => Err(RunFault {
            kind: FaultKind::NotNumber,
            span,
        }),
    }
}

fn numbers(alloc: Global, args: &[Cell], span: Span, cells: &Cells) -> Result<Vec<i64>, EvalStop>
    requires args { All (λ c. c < length cells.now) args.now }
    ensures { GivesBy (λ v. v.items) result
        (all_numbers span (plain.numbers (row_of (map (term_at cells.now) args.now)))) }
{
    let mut found = Vec::with_capacity(alloc, args.len())?;
    for arg in args {
        let n = number_at(*arg, span, cells)?;
        found.push_reserved(n);
    }
    Ok(found)
}

// Cells are equal exactly where their terms are.
fn are_same(x: Cell, y: Cell, cells: &Cells) -> bool
    requires first { x < length cells.now }
    requires second { y < length cells.now }
    ensures { result ≡ same_term (term_at cells.now x) (term_at cells.now y) }
{
    // The length is that of terms of which none stands twice.
    prove!(cells.len() > 0);
    x == y
}

fn is_member(item: Cell, list: Cell, cells: &Cells) -> bool
    requires item { item < length cells.now }
    requires list { list < length cells.now }
    ensures { (ys : Terms) → term_at cells.now list ≡ Listed ys → result ≡ is_part (term_at cells.now item) ys }
{
    let mut rest = list;
    while let View::Cons(head, tail) = cells.get(rest) {
        if are_same(item, head, cells) {
            return true;
        }
        rest = tail;
    }
    false
}

fn of_terms(args: &[Cell], equal: bool, cells: &Cells) -> Called
    requires args { All (λ c. c < length cells.now) args.now }
    ensures { answered (Ok result)
        ≡ plain.of_terms (λ x y. beq equal (same_term x y)) (row_of (map (term_at cells.now) args.now)) }
{
    match args {
        [x, y] => truth(equal == are_same(*x, *y, cells)),
        _ => Called::Nothing,
    }
}

fn of_list(args: &[Cell], span: Span, cells: &Cells) -> Result<Called, RunFault>
    requires args { All (λ c. c < length cells.now) args.now }
    ensures { answered result ≡ plain.of_list is_part span (row_of (map (term_at cells.now) args.now)) }
{
    match args {
        [item, list] => {
            if is_listed(*list, cells) {
                Ok(truth(is_member(*item, *list, cells)))
            } else {
                Err(RunFault {
                    kind: FaultKind::NotList,
                    span,
                })
            }
        }
        _ => Ok(Called::Nothing),
    }
}

fn answer_of(
    alloc: Global,
    row: Row,
    args: &[Cell],
    span: Span,
    cells: &Cells,
) -> Result<Called, EvalStop>
    requires args { All (λ c. c < length cells.now) args.now }
    ensures { GivesBy answer_term result
        (plain.called (table_row row) (row_of (map (term_at cells.now) args.now)) span) }
{
    match row {
        Row::OfNumbers(function) => {
            let numbers = numbers(alloc, args, span, cells)?;
            let answer = of_numbers(function, span, numbers.as_slice())?;
            Ok(answer)
        }
        Row::Equal => Ok(of_terms(args, true, cells)),
        Row::Unequal => Ok(of_terms(args, false, cells)),
        Row::Member => {
            let answer = of_list(args, span, cells)?;
            Ok(answer)
        }
        Row::Unknown => Ok(Called::Nothing),
    }
}

fn answer_cell(alloc: Global, answer: Called, cells: &mut Cells) -> Result<Cell, AllocError>
    ensures names { IfOk result (λ cell. slice_get cells.new cell ≡ Some (answer_term answer)) }
    ensures cells { Grows cells.old cells.new }
{
    match answer {
        Called::Number(n) => cells.num(n),
        Called::True => {
            let name = Name::new(alloc, b"t")?;
            cells.sym(&name)
        }
        Called::Nothing => Ok(cells.nil()),
    }
}

/// The cell of a call's value for its arguments, or its fault at the call's span. Numbers are counts of thousandths
/// of any size, and a result whose count leaves 64 bits is a fault.
pub fn call(
    alloc: Global,
    name: &Name,
    args: &[Cell],
    span: Span,
    cells: &mut Cells,
) -> Result<Cell, EvalStop>
    requires args { All (λ c. c < length cells.old) args.now }
    ensures gives { Gives result (plain.call name.now (row_of (map (term_at cells.old) args.now)) span) cells.new }
    ensures cells { Grows cells.old cells.new }
{
    let answer = answer_of(alloc, row_named(name), args, span, cells)?;
    let cell = answer_cell(alloc, answer, cells)?;
    Ok(cell)
}
