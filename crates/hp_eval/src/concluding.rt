//! Conclusions of an axiom's bindings on a goal.
ghost use Rattle.std.specs.Prelude.{◌≡◌, List, length};
ghost use Rattle.hp_syntax.specs.Events as plain;
ghost use Rattle.hp_syntax.specs.Events.{all_bound, parts_bound, tail_is_bound};
ghost use Rattle.hp_syntax.specs.Terms.{Term};
ghost use Rattle.hp_syntax.specs.Views.{pattern_of, patterns_of, atom_of};
ghost use Rattle.hp_eval.specs.Concluding.{Concluded, head_bound};
ghost use Rattle.hp_eval.specs.GoalViews.{goal_of, GoalBelow};
ghost use Rattle.hp_eval.specs.Growth.{Grows};
ghost use Rattle.hp_eval.specs.Slotted.{AreBelow, bindings_of};

use crate::event::EvalStop;
use crate::goals::Goal;
use crate::matching::match_goal;
use crate::slots::Slots;
use crate::values::atom_value;
use hp_cells::Cells;
use hp_syntax::{AtomPat, FaultKind, Pat, PatKind, RunFault, Tail};
use std::alloc::Global;

// Whether a variable stands for a term.
fn is_bound(v: u32, slots: &Slots) -> bool
    ensures { (terms : List Term) → AreBelow (length terms) slots.now
        → result ≡ plain.is_bound (bindings_of terms slots.now) v }
{
    slots.value_of(v).is_some()
}

// Whether a tail's variable stands for a term, where there is a tail.
fn is_tail_bound(tail: &Option<Tail>, slots: &Slots) -> bool
    ensures { (terms : List Term) → AreBelow (length terms) slots.now
        → result ≡ tail_is_bound tail.now (bindings_of terms slots.now) }
{
    match tail {
        Some(tail) => is_bound(tail.var, slots),
        None => true,
    }
}

// Whether each variable of a pattern stands for a term.
#[cycle(bound)]
fn is_all_bound(pat: &Pat, slots: &Slots) -> bool
    ensures { (terms : List Term) → AreBelow (length terms) slots.now
        → result ≡ all_bound (pattern_of pat.now) (bindings_of terms slots.now) }
{
    match &pat.kind {
        PatKind::Var(v) => is_bound(*v, slots),
        PatKind::Sym(_) => true,
        PatKind::Num(_) => true,
        PatKind::List(parts, tail) => {
            are_bound(parts.as_slice(), slots) && is_tail_bound(tail, slots)
        }
        PatKind::Call(_, args) => are_bound(args.as_slice(), slots),
    }
}

// Whether each variable of some patterns stands for a term.
#[cycle(bound)]
fn are_bound(pats: &[Pat], slots: &Slots) -> bool
    ensures { (terms : List Term) → AreBelow (length terms) slots.now
        → result ≡ parts_bound (patterns_of pats.now) (bindings_of terms slots.now) }
{
    for pat in pats {
        if !is_all_bound(pat, slots) {
            return false;
        }
    }
    true
}

// Whether each variable of a head stands for a term.
fn is_head_bound(head: &AtomPat, slots: &Slots) -> bool
    ensures { (terms : List Term) → AreBelow (length terms) slots.now
        → result ≡ head_bound (atom_of head.now) (bindings_of terms slots.now) }
{
    are_bound(head.args.as_slice(), slots) && is_tail_bound(&head.tail, slots)
}

/// Values an axiom's head under the axiom's own bindings and matches the goal with it: true with the bindings
/// of the goal's variables, or false or a fault with nothing bound.
pub fn conclude(
    alloc: Global,
    head: &AtomPat,
    own: &Slots,
    goal: &Goal,
    slots: &mut Slots,
    cells: &mut Cells,
) -> Result<bool, EvalStop>
    requires own { AreBelow (length cells.old) own.now }
    requires goal { GoalBelow (length cells.old) goal.now }
    requires slots { AreBelow (length cells.old) slots.old }
    ensures concluded { Concluded result (plain.concluded (atom_of head.now) (bindings_of cells.old own.now)
        (goal_of cells.old goal.now) (bindings_of cells.old slots.old)) cells.new slots.old slots.new }
    ensures below { AreBelow (length cells.new) slots.new }
    ensures cells { Grows cells.old cells.new }
{
    if !is_head_bound(head, own) {
        return Err(EvalStop::Fault(RunFault {
            kind: FaultKind::NotGround,
            span: head.span,
        }));
    }
    match atom_value(alloc, head, own, cells) {
        Ok(atom) => Ok(match_goal(goal, atom, cells, slots)),
        Err(stop) => Err(stop),
    }
}
