//! Goals: atoms filled with what their variables stand for.
ghost use Rattle.std.specs.Prelude.{◌≡◌, true, None, IfOk, length};
ghost use Rattle.hp_cells.specs.Cells.{NamesList};
ghost use Rattle.hp_syntax.specs.Terms.{Term, More};
ghost use Rattle.hp_syntax.specs.Goals as plain;
ghost use Rattle.hp_syntax.specs.Goals.{all_known, list_filled, ground_parts};
ghost use Rattle.hp_syntax.specs.Views.{pattern_of, patterns_of, atom_of};
ghost use Rattle.hp_eval.specs.Slotted.{AreBelow, bindings_of};
ghost use Rattle.hp_eval.specs.Growth.{Grows, GivesBy};
ghost use Rattle.hp_eval.specs.GoalViews.{filled_of, fillings_of, goal_of, is_below, GoalBelow};
ghost use Rattle.hp_eval.specs.FillSteps.{joined, before_rest, parts_at, rest_of, RestBelow, untailed, AreFilledBelow, AreKnown, depth_of, ground_depth, too_deep};

use crate::event::EvalStop;
use crate::lists::{list_or_fault, within_depth};
use crate::slots::Slots;
use crate::values::value;
use hp_cells::{Cell, Cells, View};
use hp_syntax::limits::DEEPEST_TERM;
use hp_syntax::{AtomPat, FaultKind, Name, Pat, PatKind, RunFault, Span, Tail};
use std::alloc::{AllocError, Global};

/// A part of a goal.
pub enum Filled {
    /// A part without free variables, by its cell.
    Known(Cell),
    /// A variable that stands for nothing.
    Free(u32),
    /// A list with a free variable in it, and the free variable behind it where there is one.
    List(Vec<Filled>, Option<u32>),
}

impl Drop for Filled {
    fn drop(self) {
        match self {
            Filled::Known(_) | Filled::Free(_) => {}
            Filled::List(parts, _) => drop(parts),
        }
    }
}

/// An atom of a goal, filled. Whatever part has no free variable is known by its cell.
pub struct Goal {
    pub name: Name,
    pub args: Vec<Filled>,
    /// The free variable that stands for all further arguments.
    pub tail: Option<u32>,
}

impl Drop for Goal {
    fn drop(self) {
        let Goal {
            name,
            args,
            tail: _,
        } = self;
        drop(name);
        drop(args);
    }
}

// The continuation of a list behind its parts: the parts of another, which is empty where there is no tail, or a free
// variable.
#[derive(Clone, Copy)]
enum TailParts {
    Listed(Cell),
    Free(u32),
}

/// Fills an atom: bound variables by their terms, calls by their values, and free variables stay.
pub fn fill_goal(
    alloc: Global,
    goal: &AtomPat,
    slots: &Slots,
    cells: &mut Cells,
) -> Result<Goal, EvalStop>
    requires slots { AreBelow (length cells.old) slots.now }
    ensures gives { GivesBy (goal_of cells.new) result
        (plain.fill_goal (atom_of goal.now) (bindings_of cells.old slots.now)) }
    ensures below { IfOk result (GoalBelow (length cells.new)) }
    ensures cells { Grows cells.old cells.new }
{
    let mut args = fill_parts(alloc, goal.args.as_slice(), slots, cells)?;
    let rest = fill_tail(&goal.tail, slots, cells)?;
    let tail = append_rest(&mut args, rest, cells)?;
    if are_too_deep(args.as_slice(), tail, cells) {
        return Err(EvalStop::Fault(RunFault {
            kind: FaultKind::TooDeep,
            span: goal.span,
        }));
    }
    let name = goal.name.copy(alloc)?;
    Ok(Goal { name, args, tail })
}

// Fills a pattern.
#[cycle(fill)]
fn fill(alloc: Global, pat: &Pat, slots: &Slots, cells: &mut Cells) -> Result<Filled, EvalStop>
    requires slots { AreBelow (length cells.old) slots.now }
    ensures gives { GivesBy (filled_of cells.new) result
        (plain.fill (pattern_of pat.now) (bindings_of cells.old slots.now)) }
    ensures below { IfOk result (λ f. is_below (length cells.new) f ≡ true) }
    ensures cells { Grows cells.old cells.new }
{
    match &pat.kind {
        PatKind::Var(v) => match slots.value_of(*v) {
            Some(cell) => Ok(Filled::Known(cell)),
            None => Ok(Filled::Free(*v)),
        },
        PatKind::List(parts, tail) => {
            let filled = fill_parts(alloc, parts.as_slice(), slots, cells)?;
            let rest = fill_tail(tail, slots, cells)?;
            fill_list(filled, rest, pat.span, cells)
        }
        // Symbols, numbers and calls have a value of their own.
        _ => Ok(Filled::Known(value(alloc, pat, slots, cells)?)),
    }
}

// Fills patterns from left to right, up to the first fault.
#[cycle(fill)]
fn fill_parts(
    alloc: Global,
    pats: &[Pat],
    slots: &Slots,
    cells: &mut Cells,
) -> Result<Vec<Filled>, EvalStop>
    requires slots { AreBelow (length cells.old) slots.now }
    ensures gives { GivesBy (untailed cells.new) result
        (plain.fill_parts (patterns_of pats.now) None (bindings_of cells.old slots.now)) }
    ensures below { IfOk result (λ fs. AreFilledBelow (length cells.new) fs.items) }
    ensures cells { Grows cells.old cells.new }
{
    let mut filled = Vec::with_capacity(alloc, pats.len())?;
    for pat in pats {
        let part = fill(alloc, pat, slots, cells)?;
        filled.push_reserved(part);
    }
    Ok(filled)
}

// The continuation by a tail, whose variable must stand for a list or for nothing.
fn fill_tail(tail: &Option<Tail>, slots: &Slots, cells: &Cells) -> Result<TailParts, EvalStop>
    requires slots { AreBelow (length cells.now) slots.now }
    ensures gives { GivesBy (rest_of cells.now) result
        (plain.fill_tail tail.now (bindings_of cells.now slots.now)) }
    ensures below { IfOk result (RestBelow cells.now) }
{
    match tail {
        None => Ok(TailParts::Listed(cells.nil())),
        Some(tail) => match slots.value_of(tail.var) {
            None => Ok(TailParts::Free(tail.var)),
            Some(cell) => Ok(TailParts::Listed(list_or_fault(cell, tail.span, cells)?)),
        },
    }
}

// Puts the parts of the rest behind these, and answers the free variable that stands behind them.
fn append_rest(
    parts: &mut Vec<Filled>,
    rest: TailParts,
    cells: &Cells,
) -> Result<Option<u32>, AllocError>
    requires rest { RestBelow cells.now rest }
    requires parts { AreFilledBelow (length cells.now) parts.old.items }
    ensures joined { IfOk result (λ tail. before_rest (fillings_of cells.now parts.old.items) (rest_of cells.now rest)
        ≡ (fillings_of cells.now parts.new.items, tail)) }
    ensures below { IfOk result (λ tail. AreFilledBelow (length cells.now) parts.new.items) }
{
    match rest {
        TailParts::Free(v) => Ok(Some(v)),
        TailParts::Listed(list) => {
            append_list(parts, list, cells)?;
            Ok(None)
        }
    }
}

// Puts the parts of a list behind these.
fn append_list(parts: &mut Vec<Filled>, list: Cell, cells: &Cells) -> Result<(), AllocError>
    requires list { NamesList cells.now list }
    requires parts { AreFilledBelow (length cells.now) parts.old.items }
    ensures joined { IfOk result (λ x. joined (fillings_of cells.now parts.old.items)
        (all_known (parts_at cells.now list)) ≡ fillings_of cells.now parts.new.items) }
    ensures below { IfOk result (λ x. AreFilledBelow (length cells.now) parts.new.items) }
{
    let mut left = list;
    while let View::Cons(head, tail) = cells.get(left) {
        parts.push(Filled::Known(head))?;
        left = tail;
    }
    Ok(())
}

// The depth of a part, where it is known.
fn known_depth(part: &Filled, cells: &Cells) -> Option<usize>
    requires { is_below (length cells.now) part.now ≡ true }
    ensures { result ≡ depth_of (filled_of cells.now part.now) }
{
    match part {
        Filled::Known(cell) => Some(cells.depth(*cell)),
        Filled::Free(_) | Filled::List(..) => None,
    }
}

// The depth of the deepest of these parts, where all of them are known.
fn deepest(parts: &[Filled], cells: &Cells) -> Option<usize>
    requires { AreFilledBelow (length cells.now) parts.now }
    ensures { result ≡ ground_depth (fillings_of cells.now parts.now) }
{
    let mut most = 0;
    for part in parts {
        let depth = known_depth(part, cells)?;
        most = usize::max(most, depth);
    }
    Some(most)
}

// Whether the parts of a goal are ground and nest too deep.
fn are_too_deep(parts: &[Filled], tail: Option<u32>, cells: &Cells) -> bool
    requires { AreFilledBelow (length cells.now) parts.now }
    ensures { result ≡ too_deep (ground_parts (fillings_of cells.now parts.now) tail) }
{
    match tail {
        Some(_) => false,
        None => match deepest(parts, cells) {
            Some(depth) => depth >= DEEPEST_TERM,
            None => false,
        },
    }
}

// A list of these parts and of the rest behind them: known where all of them are.
fn fill_list(
    mut parts: Vec<Filled>,
    rest: TailParts,
    span: Span,
    cells: &mut Cells,
) -> Result<Filled, EvalStop>
    requires rest { RestBelow cells.old rest }
    requires parts { AreFilledBelow (length cells.old) parts.items }
    ensures gives { let f = before_rest (fillings_of cells.old parts.items) (rest_of cells.old rest) in
        GivesBy (filled_of cells.new) result (list_filled span f (ground_parts f.0 f.1)) }
    ensures below { IfOk result (λ f. is_below (length cells.new) f ≡ true) }
    ensures cells { Grows cells.old cells.new }
{
    match rest {
        TailParts::Free(v) => Ok(Filled::List(parts, Some(v))),
        TailParts::Listed(list) => match deepest(parts.as_slice(), cells) {
            Some(_) => known_list(parts, list, span, cells),
            None => {
                append_list(&mut parts, list, cells)?;
                Ok(Filled::List(parts, None))
            }
        },
    }
}

// The list of known parts and of those of the list behind them.
fn known_list(
    parts: Vec<Filled>,
    list: Cell,
    span: Span,
    cells: &mut Cells,
) -> Result<Filled, EvalStop>
    requires list { NamesList cells.old list }
    requires parts { AreFilledBelow (length cells.old) parts.items }
    requires known { AreKnown (fillings_of cells.old parts.items) }
    ensures gives { let fs = joined (fillings_of cells.old parts.items) (all_known (parts_at cells.old list)) in
        GivesBy (filled_of cells.new) result (list_filled span (fs, None) (ground_parts fs None)) }
    ensures below { IfOk result (λ f. is_below (length cells.new) f ≡ true) }
    ensures cells { Grows cells.old cells.new }
{
    let list = cons_parts(parts, list, cells)?;
    Ok(Filled::Known(within_depth(list, span, cells)?))
}

// The cell of the list of known parts and of those of the list behind them.
fn cons_parts(mut parts: Vec<Filled>, list: Cell, cells: &mut Cells) -> Result<Cell, AllocError>
    requires list { NamesList cells.old list }
    requires parts { AreFilledBelow (length cells.old) parts.items }
    requires known { AreKnown (fillings_of cells.old parts.items) }
    ensures names { IfOk result (NamesList cells.new) }
    ensures joined { IfOk result (λ cell. joined (fillings_of cells.old parts.items)
        (all_known (parts_at cells.old list)) ≡ all_known (parts_at cells.new cell)) }
    ensures cells { Grows cells.old cells.new }
{
    let mut left = list;
    while let Some(part) = parts.pop() {
        left = cons_part(&part, left, cells)?;
    }
    Ok(left)
}

// The cell of the list of a known part and of those of the list behind it.
fn cons_part(part: &Filled, list: Cell, cells: &mut Cells) -> Result<Cell, AllocError>
    requires list { NamesList cells.old list }
    requires part { is_below (length cells.old) part.now ≡ true }
    ensures names { IfOk result (NamesList cells.new) }
    ensures parts { IfOk result (λ cell. (t : Term) → filled_of cells.old part.now ≡ plain.Known t
        → parts_at cells.new cell ≡ More t (parts_at cells.old list)) }
    ensures cells { Grows cells.old cells.new }
{
    match part {
        Filled::Known(cell) => cells.cons(*cell, list),
        Filled::Free(_) | Filled::List(..) => Ok(list),
    }
}
