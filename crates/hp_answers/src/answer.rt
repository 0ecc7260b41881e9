//! Answers: events with slots of their own, in lists.
ghost use Rattle.std.specs.Prelude.{◌≡◌, [], ◌∷◌, ◌++◌, IfOk, OnOk, List, length};
ghost use Rattle.hp_syntax.specs.Terms.{Term};
ghost use Rattle.hp_syntax.specs.Events as plain;
ghost use Rattle.hp_eval.specs.Slotted.{AreBelow, bindings_of};
ghost use Rattle.hp_answers.specs.AnswerViews.{answer_events, AllFit, Finds, FindsStop, finding_of, ends_in_fault};
ghost use Rattle.hp_laws.specs.HeardAlike.{turned};

use hp_eval::{EvalStop, Slots};
use hp_syntax::RunFault;
use std::alloc::{AllocError, Global};

/// An event: bindings that satisfy, a cut by the limit of axiom levels, or a fault.
pub enum Answer {
    Sat(Slots),
    Cut,
    Fault(RunFault),
}

impl Drop for Answer {
    fn drop(self) {
        match self {
            Answer::Sat(slots) => drop(slots),
            Answer::Cut | Answer::Fault(_) => {}
        }
    }
}

// The finding that decides a negation: a satisfier before any fault, a fault, a cut, or nothing.
#[derive(Clone, Copy)]
enum Finding {
    Satisfied,
    Faulty(RunFault),
    Undecided,
    Nothing,
}

/// A list of one.
pub fn only(alloc: Global, found: Answer) -> Result<Vec<Answer>, AllocError>
    ensures { IfOk result (λ v. v.items ≡ found ∷ []) }
{
    let list = vec![in alloc; found]?;
    Ok(list)
}

/// A Sat with a copy of the slots.
pub fn satisfied(alloc: Global, slots: &Slots) -> Result<Vec<Answer>, AllocError>
    ensures { IfOk result (λ v. (terms : List Term) → AreBelow (length terms) slots.now
        → Finds terms (length slots.now.values) v.items (plain.Sat (bindings_of terms slots.now) ∷ [])) }
{
    let copy = slots.copy(alloc)?;
    only(alloc, Answer::Sat(copy))
}

/// The event of an evaluation that stopped: its fault, unless the memory didn't suffice.
pub fn stopped(alloc: Global, stop: EvalStop) -> Result<Vec<Answer>, AllocError>
    ensures { IfOk result (λ v. FindsStop stop v.items) }
{
    match stop {
        EvalStop::Fault(fault) => only(alloc, Answer::Fault(fault)),
        EvalStop::NoMemory => Err(AllocError),
    }
}

// Whether nothing more is heard behind a list, since it ends in a fault.
fn is_over(found: &[Answer]) -> bool
    ensures { result ≡ ends_in_fault found.now }
{
    matches!(found.last(), Some(Answer::Fault(_)))
}

/// Puts a list behind another. Whether nothing more is heard behind that.
pub fn add(found: &mut Vec<Answer>, mut more: Vec<Answer>) -> Result<bool, AllocError>
    ensures added { OnOk result (found.new.items ≡ found.old.items ++ more.items) }
    ensures over { IfOk result (λ over. over ≡ ends_in_fault found.new.items) }
{
    found.append(&mut more)?;
    Ok(is_over(found.as_slice()))
}

// The finding that decides the negation of an expression with these events.
fn outcome_of(found: &[Answer]) -> Finding
    ensures { (terms : List Term) → finding_of result ≡ plain.finding (answer_events terms found.now) }
{
    let mut cut = false;
    for x in found {
        match x {
            Answer::Sat(_) => return Finding::Satisfied,
            Answer::Fault(fault) => return Finding::Faulty(*fault),
            Answer::Cut => cut = true,
        }
    }
    if cut {
        Finding::Undecided
    } else {
        Finding::Nothing
    }
}

// The events of the negation of an expression.
fn negated(alloc: Global, outcome: Finding, slots: &Slots) -> Result<Vec<Answer>, AllocError>
    ensures { IfOk result (λ v. (terms : List Term) → AreBelow (length terms) slots.now
        → Finds terms (length slots.now.values) v.items
        (plain.negated (finding_of outcome) (bindings_of terms slots.now))) }
{
    match outcome {
        Finding::Satisfied => Ok(Vec::new(alloc)),
        Finding::Faulty(fault) => only(alloc, Answer::Fault(fault)),
        Finding::Undecided => only(alloc, Answer::Cut),
        Finding::Nothing => satisfied(alloc, slots),
    }
}

/// The events of an expression under these bindings, or those of its negation.
pub fn turn(
    alloc: Global,
    negate: bool,
    found: Vec<Answer>,
    slots: &Slots,
) -> Result<Vec<Answer>, AllocError>
    ensures { IfOk result (λ v. (terms : List Term) → AreBelow (length terms) slots.now
        → AllFit (length slots.now.values) (length terms) found.items
        → Finds terms (length slots.now.values) v.items
        (turned negate (answer_events terms found.items) (bindings_of terms slots.now))) }
{
    if negate {
        negated(alloc, outcome_of(found.as_slice()), slots)
    } else {
        Ok(found)
    }
}
