//! Starting an axiom: its head beside a goal.
//!
//! Calls that start parts of the head may leave bindings where they answer false, or fail for want of memory. The
//! outermost call undoes them.
ghost use Rattle.std.specs.Prelude.{◌≡◌, ℕ, ◌<◌, true, None, IfSome, IfOk, OnErr, List, length, is_some, option_map};
ghost use Rattle.hp_syntax.specs.Syntax.{NoPattern};
ghost use Rattle.hp_syntax.specs.Terms.{Term};
ghost use Rattle.hp_syntax.specs.Views.{pattern_of, patterns_of, atom_of};
ghost use Rattle.hp_syntax.specs.Goals.{ground_parts, start_tail, start, start_parts, start_goal};
ghost use Rattle.hp_eval.specs.Slotted.{AreBelow, Matched, no_bindings, bindings_of};
ghost use Rattle.hp_eval.specs.Growth.{Grows};
ghost use Rattle.hp_eval.specs.GoalViews.{term_at, filled_of, fillings_of, goal_of, is_below, GoalBelow};
ghost use Rattle.hp_eval.specs.FillSteps.{AreFilledBelow};
ghost use Rattle.hp_eval.specs.Attempts.{Starts, Grounds, ground_part};

use crate::goals::{Filled, Goal};
use crate::matching::{match_pattern, meet};
use crate::slots::Slots;
use hp_cells::{Cell, Cells};
use hp_syntax::{AtomPat, Pat, PatKind, Tail};
use std::alloc::AllocError;

/// Goes through an axiom's head and a goal, part by part, in the axiom's own slots, of which none is bound: true with
/// bindings where the head starts for the goal, false with none where it doesn't.
pub fn start_goal(
    head: &AtomPat,
    goal: &Goal,
    cells: &mut Cells,
    slots: &mut Slots,
) -> Result<bool, AllocError>
    requires empty { slots.old ≡ no_bindings (length slots.old.values) }
    requires goal { GoalBelow (length cells.old) goal.now }
    ensures started { IfOk result (λ b. Matched b (start_goal (atom_of head.now) (goal_of cells.old goal.now)
        (bindings_of cells.old slots.old)) cells.new slots.old slots.new) }
    ensures err { OnErr result (slots.new ≡ slots.old) }
    ensures below { AreBelow (length cells.new) slots.new }
    ensures cells { Grows cells.old cells.new }
{
    let mark = slots.mark();
    let started = try_start(head, goal, cells, slots);
    if !matches!(started, Ok(true)) {
        slots.undo_to(mark);
    }
    started
}

// Starts a head for a goal.
fn try_start(
    head: &AtomPat,
    goal: &Goal,
    cells: &mut Cells,
    slots: &mut Slots,
) -> Result<bool, AllocError>
    requires slots { AreBelow (length cells.old) slots.old }
    requires goal { GoalBelow (length cells.old) goal.now }
    ensures started { Starts result (start_goal (atom_of head.now) (goal_of cells.old goal.now)
        (bindings_of cells.old slots.old)) cells.new slots.old slots.new }
    ensures cells { Grows cells.old cells.new }
{
    if head.name == goal.name {
        start_parts(
            head.args.as_slice(),
            head.tail,
            goal.args.as_slice(),
            goal.tail,
            cells,
            slots,
        )
    } else {
        Ok(false)
    }
}

// Starts a pattern for a part of a goal.
#[cycle(starting)]
fn start_part(
    pat: &Pat,
    part: &Filled,
    cells: &mut Cells,
    slots: &mut Slots,
) -> Result<bool, AllocError>
    requires slots { AreBelow (length cells.old) slots.old }
    requires part { is_below (length cells.old) part.now ≡ true }
    ensures started { Starts result (start (pattern_of pat.now) (filled_of cells.old part.now)
        (bindings_of cells.old slots.old)) cells.new slots.old slots.new }
    ensures cells { Grows cells.old cells.new }
{
    match part {
        Filled::Known(cell) => Ok(match_pattern(pat, *cell, cells, slots)),
        Filled::Free(_) => Ok(true),
        Filled::List(fillings, free) => match &pat.kind {
            PatKind::Var(_) => Ok(true),
            PatKind::List(parts, own) => {
                start_parts(
                    parts.as_slice(),
                    *own,
                    fillings.as_slice(),
                    *free,
                    cells,
                    slots,
                )
            }
            PatKind::Sym(_) | PatKind::Num(_) | PatKind::Call(_, _) => Ok(false),
        },
    }
}

// Starts the parts of a head for those of a goal.
#[cycle(starting)]
fn start_parts(
    parts: &[Pat],
    own: Option<Tail>,
    fillings: &[Filled],
    free: Option<u32>,
    cells: &mut Cells,
    slots: &mut Slots,
) -> Result<bool, AllocError>
    requires slots { AreBelow (length cells.old) slots.old }
    requires fillings { AreFilledBelow (length cells.old) fillings.now }
    ensures started { Starts result (start_parts (patterns_of parts.now) own (fillings_of cells.old fillings.now) free
        (bindings_of cells.old slots.old)) cells.new slots.old slots.new }
    ensures cells { Grows cells.old cells.new }
{
    for (i, part) in parts.iter().enumerate() {
        let Some(filling) = fillings.get(i) else {
            return Ok(free.is_some());
        };
        if !start_part(part, filling, cells, slots)? {
            return Ok(false);
        }
    }
    start_behind(own, &fillings[parts.len()..], free, cells, slots)
}

// Starts the continuation of a head behind its parts for the parts of a goal that are left.
fn start_behind(
    own: Option<Tail>,
    left: &[Filled],
    free: Option<u32>,
    cells: &mut Cells,
    slots: &mut Slots,
) -> Result<bool, AllocError>
    requires slots { AreBelow (length cells.old) slots.old }
    requires left { AreFilledBelow (length cells.old) left.now }
    ensures started { Starts result (start_parts NoPattern own (fillings_of cells.old left.now) free
        (bindings_of cells.old slots.old)) cells.new slots.old slots.new }
    ensures cells { Grows cells.old cells.new }
{
    match (own, free) {
        (None, _) => Ok(left.is_empty()),
        (Some(_), Some(_)) => Ok(true),
        (Some(tail), None) => start_tail(tail, left, cells, slots),
    }
}

// Starts a tail: it takes these parts where they are ground.
fn start_tail(
    tail: Tail,
    parts: &[Filled],
    cells: &mut Cells,
    slots: &mut Slots,
) -> Result<bool, AllocError>
    requires slots { AreBelow (length cells.old) slots.old }
    requires parts { AreFilledBelow (length cells.old) parts.now }
    ensures started { Starts result (start_tail tail (ground_parts (fillings_of cells.old parts.now) None)
        (bindings_of cells.old slots.old)) cells.new slots.old slots.new }
    ensures cells { Grows cells.old cells.new }
{
    match ground_list(parts, cells)? {
        Some(list) => Ok(meet(tail.var, list, cells, slots)),
        None => Ok(true),
    }
}

// The cell of the list of these parts, where all are ground. Otherwise no cell is made.
fn ground_list(parts: &[Filled], cells: &mut Cells) -> Result<Option<Cell>, AllocError>
    requires parts { AreFilledBelow (length cells.old) parts.now }
    ensures list { IfOk result (λ list. Grounds cells.new list (ground_parts (fillings_of cells.old parts.now) None)) }
    ensures cells { Grows cells.old cells.new }
{
    if !are_known(parts) {
        return Ok(None);
    }
    let mut list = cells.nil();
    let mut left = parts;
    while let Some((last, before)) = left.split_last() {
        let Some(cell) = known_cell(last) else {
            return Ok(None);
        };
        list = cells.cons(cell, list)?;
        left = before;
    }
    Ok(Some(list))
}

// Whether all of some parts are ground.
fn are_known(parts: &[Filled]) -> bool
    ensures { (terms : List Term) → result ≡ is_some (ground_parts (fillings_of terms parts.now) None) }
{
    for part in parts {
        if known_cell(part).is_none() {
            return false;
        }
    }
    true
}

// The cell of a part that is ground.
fn known_cell(part: &Filled) -> Option<Cell>
    ensures term { (terms : List Term) → ground_part (filled_of terms part.now) ≡ option_map (term_at terms) result }
    ensures below { (n : ℕ) → is_below n part.now ≡ true → IfSome result (λ cell. cell < n) }
{
    match part {
        Filled::Known(cell) => Some(*cell),
        Filled::Free(_) | Filled::List(_, _) => None,
    }
}
