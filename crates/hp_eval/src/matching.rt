//! Matching: of the head of a rule, and of a goal, with an atom.
//!
//! Calls that match parts may leave bindings where they answer false. The outermost call undoes them.
ghost use Rattle.std.specs.Prelude.{◌≡◌, ◌<◌, true, Some, length, slice_get};
ghost use Rattle.hp_syntax.specs.Terms.{Term, same_term};
ghost use Rattle.hp_syntax.specs.Views.{pattern_of, patterns_of, atom_of};
ghost use Rattle.hp_syntax.specs.Matching.{meet, match_tail, match_pattern, match_parts, match_atom};
ghost use Rattle.hp_syntax.specs.Goals.{match_goal, match_filled, match_fillings, match_free_tail};
ghost use Rattle.hp_cells.specs.Cells.{NamesList};
ghost use Rattle.hp_eval.specs.Slotted.{AreBelow, Matched, bindings_of};
ghost use Rattle.hp_eval.specs.GoalViews.{term_at, filled_of, fillings_of, goal_of, is_below, GoalBelow};
ghost use Rattle.hp_eval.specs.Attempts.{Tries, Splits};
ghost use Rattle.hp_eval.specs.FillSteps.{AreFilledBelow, parts_at};

use crate::goals::{Filled, Goal};
use crate::lists::is_listed;
use crate::slots::Slots;
use hp_cells::{Cell, Cells, View};
use hp_syntax::{AtomPat, Pat, PatKind, Tail};

/// Matches a rule's head with an atom: binds variables so that both are equal and answers true, or leaves the slots as
/// they were and answers false. Takes no memory.
pub fn match_atom(head: &AtomPat, atom: Cell, cells: &Cells, slots: &mut Slots) -> bool
    requires slots { AreBelow (length cells.now) slots.old }
    requires atom { atom < length cells.now }
    ensures matched { (t : Term) → slice_get cells.now atom ≡ Some t
        → Matched result (match_atom (atom_of head.now) t (bindings_of cells.now slots.old)) cells.now slots.old
        slots.new }
    ensures below { AreBelow (length cells.now) slots.new }
{
    let mark = slots.mark();
    let matches = try_head(head, atom, cells, slots);
    if !matches {
        slots.undo_to(mark);
    }
    matches
}

// Matches a head with an atom.
fn try_head(head: &AtomPat, atom: Cell, cells: &Cells, slots: &mut Slots) -> bool
    requires slots { AreBelow (length cells.now) slots.old }
    requires atom { atom < length cells.now }
    ensures { Tries result (match_atom (atom_of head.now) (term_at cells.now atom) (bindings_of cells.now slots.old))
        cells.now slots.old slots.new }
{
    match cells.get(atom) {
        View::Cons(name, args) => {
            cells.is_symbol(name, &head.name)
                && match_parts(head.args.as_slice(), head.tail, args, cells, slots)
        }
        View::Nil | View::Sym(_) | View::Num(_) => false,
    }
}

/// Matches a goal with an atom of the state: binds its free variables, or leaves the slots as they were. Takes no
/// memory.
pub fn match_goal(goal: &Goal, atom: Cell, cells: &Cells, slots: &mut Slots) -> bool
    requires slots { AreBelow (length cells.now) slots.old }
    requires goal { GoalBelow (length cells.now) goal.now }
    requires atom { atom < length cells.now }
    ensures matched { (t : Term) → slice_get cells.now atom ≡ Some t
        → Matched result (match_goal (goal_of cells.now goal.now) t (bindings_of cells.now slots.old)) cells.now
        slots.old slots.new }
    ensures below { AreBelow (length cells.now) slots.new }
{
    let mark = slots.mark();
    let matches = try_goal(goal, atom, cells, slots);
    if !matches {
        slots.undo_to(mark);
    }
    matches
}

// Matches a goal with an atom.
fn try_goal(goal: &Goal, atom: Cell, cells: &Cells, slots: &mut Slots) -> bool
    requires slots { AreBelow (length cells.now) slots.old }
    requires goal { GoalBelow (length cells.now) goal.now }
    requires atom { atom < length cells.now }
    ensures { Tries result (match_goal (goal_of cells.now goal.now) (term_at cells.now atom)
        (bindings_of cells.now slots.old)) cells.now slots.old slots.new }
{
    match cells.get(atom) {
        View::Cons(name, args) => {
            cells.is_symbol(name, &goal.name)
                && match_fillings(goal.args.as_slice(), goal.tail, args, cells, slots)
        }
        View::Nil | View::Sym(_) | View::Num(_) => false,
    }
}

/// Matches a pattern with a term.
#[cycle(matching)]
pub(crate) fn match_pattern(pat: &Pat, cell: Cell, cells: &Cells, slots: &mut Slots) -> bool
    requires slots { AreBelow (length cells.now) slots.old }
    requires cell { cell < length cells.now }
    ensures { Tries result (match_pattern (pattern_of pat.now) (term_at cells.now cell)
        (bindings_of cells.now slots.old)) cells.now slots.old slots.new }
{
    match &pat.kind {
        PatKind::Var(v) => meet(*v, cell, cells, slots),
        PatKind::Sym(name) => cells.is_symbol(cell, name),
        PatKind::Num(n) => cells.is_number(cell, *n),
        PatKind::List(parts, tail) => {
            is_listed(cell, cells) && match_parts(parts.as_slice(), *tail, cell, cells, slots)
        }
        PatKind::Call(_, _) => false,
    }
}

// Matches the parts of a pattern with those of a list.
#[cycle(matching)]
fn match_parts(
    parts: &[Pat],
    tail: Option<Tail>,
    list: Cell,
    cells: &Cells,
    slots: &mut Slots,
) -> bool
    requires slots { AreBelow (length cells.now) slots.old }
    requires list { NamesList cells.now list }
    ensures { Tries result (match_parts (patterns_of parts.now) tail (parts_at cells.now list)
        (bindings_of cells.now slots.old)) cells.now slots.old slots.new }
{
    let mut left = list;
    for part in parts {
        let Some((first, others)) = split(left, cells) else {
            return false;
        };
        if !match_pattern(part, first, cells, slots) {
            return false;
        }
        left = others;
    }
    match_tail(tail, left, cells, slots)
}

// Matches a tail with a list.
fn match_tail(tail: Option<Tail>, list: Cell, cells: &Cells, slots: &mut Slots) -> bool
    requires slots { AreBelow (length cells.now) slots.old }
    requires list { NamesList cells.now list }
    ensures { Tries result (match_tail tail (parts_at cells.now list) (bindings_of cells.now slots.old)) cells.now
        slots.old slots.new }
{
    match tail {
        Some(tail) => meet(tail.var, list, cells, slots),
        None => split(list, cells).is_none(),
    }
}

// Matches a part of a goal with a term.
#[cycle(filled)]
fn match_filled(part: &Filled, cell: Cell, cells: &Cells, slots: &mut Slots) -> bool
    requires slots { AreBelow (length cells.now) slots.old }
    requires part { is_below (length cells.now) part.now ≡ true }
    requires cell { cell < length cells.now }
    ensures { Tries result (match_filled (filled_of cells.now part.now) (term_at cells.now cell)
        (bindings_of cells.now slots.old)) cells.now slots.old slots.new }
{
    match part {
        Filled::Known(own) => same_term(*own, cell, cells),
        Filled::Free(v) => meet(*v, cell, cells, slots),
        Filled::List(parts, tail) => {
            is_listed(cell, cells) && match_fillings(parts.as_slice(), *tail, cell, cells, slots)
        }
    }
}

// Matches the parts of a goal with those of a list.
#[cycle(filled)]
fn match_fillings(
    parts: &[Filled],
    tail: Option<u32>,
    list: Cell,
    cells: &Cells,
    slots: &mut Slots,
) -> bool
    requires slots { AreBelow (length cells.now) slots.old }
    requires parts { AreFilledBelow (length cells.now) parts.now }
    requires list { NamesList cells.now list }
    ensures { Tries result (match_fillings (fillings_of cells.now parts.now) tail (parts_at cells.now list)
        (bindings_of cells.now slots.old)) cells.now slots.old slots.new }
{
    let mut left = list;
    for part in parts {
        let Some((first, others)) = split(left, cells) else {
            return false;
        };
        if !match_filled(part, first, cells, slots) {
            return false;
        }
        left = others;
    }
    match_free_tail(tail, left, cells, slots)
}

// Matches a free tail with a list.
fn match_free_tail(tail: Option<u32>, list: Cell, cells: &Cells, slots: &mut Slots) -> bool
    requires slots { AreBelow (length cells.now) slots.old }
    requires list { NamesList cells.now list }
    ensures { Tries result (match_free_tail tail (parts_at cells.now list) (bindings_of cells.now slots.old)) cells.now
        slots.old slots.new }
{
    match tail {
        Some(v) => meet(v, list, cells, slots),
        None => split(list, cells).is_none(),
    }
}

/// Binds a variable to a term, or compares its own with it. A number that no variable has meets nothing.
pub fn meet(v: u32, cell: Cell, cells: &Cells, slots: &mut Slots) -> bool
    requires slots { AreBelow (length cells.now) slots.old }
    requires cell { cell < length cells.now }
    ensures { Tries result (meet v (term_at cells.now cell) (bindings_of cells.now slots.old)) cells.now slots.old
        slots.new }
{
    if v as usize >= slots.vars() {
        return false;
    }
    match slots.get(v) {
        Some(old) => same_term(old, cell, cells),
        None => {
            slots.bind(v, cell);
            true
        }
    }
}

// Whether two cells name equal terms.
fn same_term(a: Cell, b: Cell, cells: &Cells) -> bool
    requires a { a < length cells.now }
    requires b { b < length cells.now }
    ensures { result ≡ same_term (term_at cells.now a) (term_at cells.now b) }
{
    prove!(cells.len() > 0);
    a == b
}

// The first part of a list and the list of the others, where it has a first.
fn split(list: Cell, cells: &Cells) -> Option<(Cell, Cell)>
    requires { list < length cells.now }
    ensures { Splits cells.now list result }
{
    match cells.get(list) {
        View::Cons(first, others) => Some((first, others)),
        View::Nil | View::Sym(_) | View::Num(_) => None,
    }
}
