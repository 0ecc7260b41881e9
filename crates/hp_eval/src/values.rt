//! Values of patterns and of atoms.
ghost use Rattle.std.specs.Prelude.{◌≡◌, ◌<◌, Some, None, IfOk, length, map, slice_get};
ghost use Rattle.std.specs.List.{All};
ghost use Rattle.hp_cells.specs.Cells.{NamesList};
ghost use Rattle.hp_syntax.specs.Calls as plain_calls;
ghost use Rattle.hp_syntax.specs.Terms.{Terms, Listed};
ghost use Rattle.hp_syntax.specs.Values as plain;
ghost use Rattle.hp_syntax.specs.Views.{pattern_of, patterns_of, atom_of};
ghost use Rattle.hp_eval.specs.GoalViews.{term_at};
ghost use Rattle.hp_eval.specs.Growth.{Grows, Gives};
ghost use Rattle.hp_eval.specs.PartValues.{GivesParts};
ghost use Rattle.hp_eval.specs.Steps.{cell_or_fault, onto, GivesList};
ghost use Rattle.hp_eval.specs.Slotted.{AreBelow, bindings_of, flat};

use crate::calls::call;
use crate::event::EvalStop;
use crate::lists::{list_onto, list_or_fault, named_list, within_depth};
use crate::slots::Slots;
use hp_cells::{Cell, Cells};
use hp_syntax::{AtomPat, FaultKind, Name, Pat, PatKind, RunFault, Span, Tail};
use std::alloc::Global;

fn variable_value(v: u32, span: Span, slots: &Slots) -> Result<Cell, RunFault>
    ensures { result ≡ cell_or_fault span (flat (slice_get slots.now.values v)) }
{
    match slots.value_of(v) {
        Some(cell) => Ok(cell),
        None => Err(RunFault {
            kind: FaultKind::NotGround,
            span,
        }),
    }
}

// The cell of the list that stands behind the parts of another.
fn tail_value(tail: Option<Tail>, slots: &Slots, cells: &Cells) -> Result<Cell, RunFault>
    requires slots { AreBelow (length cells.now) slots.now }
    ensures { GivesList result (plain.tail_value tail (bindings_of cells.now slots.now)) cells.now }
{
    match tail {
        None => Ok(cells.nil()),
        Some(tail) => {
            let cell = variable_value(tail.var, tail.span, slots)?;
            list_or_fault(cell, tail.span, cells)
        }
    }
}

fn listed(parts: Vec<Cell>, rest: Cell, span: Span, cells: &mut Cells) -> Result<Cell, EvalStop>
    requires parts { All (λ c. c < length cells.old) parts.items }
    requires rest { NamesList cells.old rest }
    ensures gives { (ts : Terms) → slice_get cells.old rest ≡ Some (Listed ts)
        → Gives result (plain.list_of span (onto (map (term_at cells.old) parts.items) ts)) cells.new }
    ensures cells { Grows cells.old cells.new }
{
    let list = list_onto(parts, rest, cells)?;
    let cell = within_depth(list, span, cells)?;
    Ok(cell)
}

// The cells of the values of parts, one after another.
#[cycle(value)]
fn part_values(
    alloc: Global,
    parts: &[Pat],
    slots: &Slots,
    cells: &mut Cells,
) -> Result<Vec<Cell>, EvalStop>
    requires slots { AreBelow (length cells.old) slots.now }
    ensures gives { GivesParts result (patterns_of parts.now) (bindings_of cells.old slots.now) cells.new }
    ensures below { IfOk result (λ v. All (λ c. c < length cells.new) v.items) }
    ensures cells { Grows cells.old cells.new }
{
    let mut found = Vec::with_capacity(alloc, parts.len())?;
    for part in parts {
        let cell = value(alloc, part, slots, cells)?;
        found.push_reserved(cell);
    }
    Ok(found)
}

#[cycle(value)]
fn list_value(
    alloc: Global,
    parts: &[Pat],
    tail: Option<Tail>,
    span: Span,
    slots: &Slots,
    cells: &mut Cells,
) -> Result<Cell, EvalStop>
    requires slots { AreBelow (length cells.old) slots.now }
    ensures gives { Gives result (plain.on_ok (plain.values (patterns_of parts.now) tail
        (bindings_of cells.old slots.now)) (plain.list_of span)) cells.new }
    ensures cells { Grows cells.old cells.new }
{
    let found = part_values(alloc, parts, slots, cells)?;
    let rest = tail_value(tail, slots, cells)?;
    let list = listed(found, rest, span, cells)?;
    Ok(list)
}

#[cycle(value)]
fn call_value(
    alloc: Global,
    name: &Name,
    args: &[Pat],
    span: Span,
    slots: &Slots,
    cells: &mut Cells,
) -> Result<Cell, EvalStop>
    requires slots { AreBelow (length cells.old) slots.now }
    ensures gives { Gives result (plain.on_ok (plain.values (patterns_of args.now) None
        (bindings_of cells.old slots.now)) (λ ts. plain_calls.call name.now ts span)) cells.new }
    ensures cells { Grows cells.old cells.new }
{
    let found = part_values(alloc, args, slots, cells)?;
    let cell = call(alloc, name, found.as_slice(), span, cells)?;
    Ok(cell)
}

/// The cell of a pattern's value, or its first fault from the left.
#[cycle(value)]
pub fn value(alloc: Global, pat: &Pat, slots: &Slots, cells: &mut Cells) -> Result<Cell, EvalStop>
    requires slots { AreBelow (length cells.old) slots.now }
    ensures gives { Gives result (plain.value (pattern_of pat.now) (bindings_of cells.old slots.now)) cells.new }
    ensures cells { Grows cells.old cells.new }
{
    match &pat.kind {
        PatKind::Var(v) => {
            let cell = variable_value(*v, pat.span, slots)?;
            Ok(cell)
        }
        PatKind::Sym(name) => {
            let cell = cells.sym(name)?;
            Ok(cell)
        }
        PatKind::Num(n) => {
            let cell = cells.num(*n)?;
            Ok(cell)
        }
        PatKind::List(parts, tail) => {
            list_value(alloc, parts.as_slice(), *tail, pat.span, slots, cells)
        }
        PatKind::Call(name, args) => {
            call_value(alloc, name, args.as_slice(), pat.span, slots, cells)
        }
    }
}

/// The cell of an atom's value, the list of its name and its arguments, or its first fault.
pub fn atom_value(
    alloc: Global,
    atom: &AtomPat,
    slots: &Slots,
    cells: &mut Cells,
) -> Result<Cell, EvalStop>
    requires slots { AreBelow (length cells.old) slots.now }
    ensures gives { Gives result (plain.atom_value (atom_of atom.now) (bindings_of cells.old slots.now)) cells.new }
    ensures cells { Grows cells.old cells.new }
{
    let found = part_values(alloc, atom.args.as_slice(), slots, cells)?;
    let rest = tail_value(atom.tail, slots, cells)?;
    let args = list_onto(found, rest, cells)?;
    let list = named_list(&atom.name, args, atom.span, cells)?;
    Ok(list)
}
