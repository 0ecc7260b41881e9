//! Conclusions of an axiom on a goal, by the events of its branches.
ghost use Rattle.std.specs.Prelude.{◌≤◌, IfOk, length};
ghost use Rattle.hp_syntax.specs.declared.limits.TheConstants.{MOST_VARIABLES};
ghost use Rattle.hp_syntax.specs.Events as plain;
ghost use Rattle.hp_syntax.specs.Goals.{start_goal};
ghost use Rattle.hp_syntax.specs.Values.{unbound};
ghost use Rattle.hp_syntax.specs.Views.{atom_of, axiom_of};
ghost use Rattle.hp_eval.specs.GoalViews.{goal_of, GoalBelow};
ghost use Rattle.hp_eval.specs.Growth.{Grows};
ghost use Rattle.hp_eval.specs.Slotted.{AreBelow, bindings_of};
ghost use Rattle.hp_answers.specs.AnswerViews.{Finds, answer_event, BindsBelow, MeetsHead};

use hp_answers::answer::{Answer, only, stopped};
use hp_cells::Cells;
use hp_eval::{Goal, Slots, conclude, start_goal};
use hp_syntax::{AtomPat, Axiom};
use std::alloc::{AllocError, Global};

/// An axiom's slots with what its head takes from a goal, where it starts.
pub fn own_slots(
    alloc: Global,
    rule: &Axiom,
    goal: &Goal,
    cells: &mut Cells,
) -> Result<Option<Slots>, AllocError>
    requires few { length (axiom_of rule.now).vars ≤ MOST_VARIABLES }
    requires goal { GoalBelow (length cells.old) goal.now }
    ensures starts { IfOk result (λ slots. let x = axiom_of rule.now in MeetsHead cells.new (length x.vars) slots
        (start_goal x.head (goal_of cells.old goal.now) (unbound (length x.vars)))) }
    ensures cells { Grows cells.old cells.new }
{
    let mut own = Slots::new(alloc, rule.vars.len())?;
    let starts = start_goal(&rule.head, goal, cells, &mut own)?;
    if starts { Ok(Some(own)) } else { Ok(None) }
}

// The events of a goal by the conclusion of an axiom's bindings.
fn concluded(
    alloc: Global,
    head: &AtomPat,
    goal: &Goal,
    slots: &Slots,
    own: &Slots,
    cells: &mut Cells,
) -> Result<Vec<Answer>, AllocError>
    requires slots { AreBelow (length cells.old) slots.now }
    requires own { AreBelow (length cells.old) own.now }
    requires goal { GoalBelow (length cells.old) goal.now }
    ensures found { IfOk result (λ found. Finds cells.new (length slots.now.values) found.items
        (plain.concluded (atom_of head.now) (bindings_of cells.old own.now) (goal_of cells.old goal.now)
        (bindings_of cells.old slots.now))) }
    ensures cells { Grows cells.old cells.new }
{
    let mut copy = slots.copy(alloc)?;
    match conclude(alloc, head, own, goal, &mut copy, cells) {
        Ok(matches) => {
            if matches {
                only(alloc, Answer::Sat(copy))
            } else {
                Ok(Vec::new(alloc))
            }
        }
        Err(stop) => stopped(alloc, stop),
    }
}

/// The events of a goal in the place of an event of an axiom's branches.
pub fn conclusion(
    alloc: Global,
    head: &AtomPat,
    goal: &Goal,
    slots: &Slots,
    found: &Answer,
    cells: &mut Cells,
) -> Result<Vec<Answer>, AllocError>
    requires slots { AreBelow (length cells.old) slots.now }
    requires goal { GoalBelow (length cells.old) goal.now }
    requires found { BindsBelow (length cells.old) found.now }
    ensures found { IfOk result (λ v. Finds cells.new (length slots.now.values) v.items
        (plain.in_place (λ b. plain.concluded (atom_of head.now) b (goal_of cells.old goal.now)
        (bindings_of cells.old slots.now)) (answer_event cells.old found.now))) }
    ensures cells { Grows cells.old cells.new }
{
    match found {
        Answer::Sat(own) => concluded(alloc, head, goal, slots, own, cells),
        Answer::Cut => only(alloc, Answer::Cut),
        Answer::Fault(fault) => only(alloc, Answer::Fault(*fault)),
    }
}
