//! The satisfiers of preconditions.
ghost use Rattle.std.specs.Prelude.{◌≡◌, ◌<◌, ◌≤◌, true, List, Ok, IfOk, OnOk, length, take};
ghost use Rattle.hp_syntax.specs.declared.limits.TheConstants.{MOST_VARIABLES};
ghost use Rattle.hp_syntax.specs.Preconditions.{heard, up_to_sat, keyed, sorted_events, precondition_events};
ghost use Rattle.hp_syntax.specs.Terms.{Term};
ghost use Rattle.hp_syntax.specs.Views.{key_of, precondition_of};
ghost use Rattle.hp_eval.specs.Events.{PlainEvent, event_of, left_after, AreOfFirst};
ghost use Rattle.hp_eval.specs.Growth.{Grows};
ghost use Rattle.hp_eval.specs.Slotted.{AreBelow, bindings_of};
ghost use Rattle.hp_world.specs.Stages.{StageBelow};
ghost use Rattle.hp_answers.specs.AnswerViews.{answer_events, AllFit, Finds, FindsUpTo, Hears};
ghost use Rattle.hp_satisfiers.specs.Scenes.{axioms_in, stage_in, state_in};
ghost use Rattle.hp_satisfiers.specs.Listed.{FindsMore};

use crate::expressions::Scene;
use crate::listed::Listed;
use hp_answers::answer::Answer;
use hp_cells::Cells;
use hp_eval::{Event, Sats, Slots};
use hp_pick::{First, Sorted};
use hp_syntax::{Pre, SortKey};
use std::alloc::{AllocError, Global};

// The length of the heard prefix of a list: all up to and including its first fault.
fn heard_len(found: &[Answer]) -> usize
    ensures { (terms : List Term)
        → answer_events terms (take result found.now) ≡ heard (answer_events terms found.now) }
{
    for (i, x) in found.iter().enumerate() {
        if let Answer::Fault(_) = x {
            return i + 1;
        }
    }
    found.len()
}

/// The heard prefix of a list.
pub fn heard(mut found: Vec<Answer>) -> Vec<Answer>
    ensures { (terms : List Term) (vars : _) (events : List PlainEvent) → Hears terms vars found.items events
        → Finds terms vars result.items (heard events) }
{
    let end = heard_len(found.as_slice());
    found.truncate(end);
    found
}

// Puts an event behind the others, a Sat with the bindings in the slots: false at the end, and behind a fault.
fn take_event(
    alloc: Global,
    event: Event,
    slots: &Slots,
    found: &mut Vec<Answer>,
) -> Result<bool, AllocError>
    ensures takes { IfOk result (λ more. (terms : List Term) (whole left : List PlainEvent)
        → event ≡ event_of left → AreOfFirst left (bindings_of terms slots.now) → AreBelow (length terms) slots.now
        → FindsUpTo terms (length slots.now.values) found.old.items whole (heard left)
        → FindsMore terms (length slots.now.values) found.new.items whole more (left_after left)) }
    ensures fewer { (left : List PlainEvent) → event ≡ event_of left → result ≡ Ok true
        → length (left_after left) < length left }
{
    match event {
        Event::Sat => {
            let copy = slots.copy(alloc)?;
            found.push(Answer::Sat(copy))?;
            Ok(true)
        }
        Event::Cut => {
            found.push(Answer::Cut)?;
            Ok(true)
        }
        Event::Fault(fault) => {
            found.push(Answer::Fault(fault))?;
            Ok(false)
        }
        Event::End => Ok(false),
    }
}

// Takes the next event: false at the end, and behind a fault.
fn take_next<S: Sats<()>>(
    alloc: Global,
    sats: &mut S,
    cells: &mut Cells,
    slots: &mut Slots,
    found: &mut Vec<Answer>,
) -> Result<bool, AllocError>
    requires live { S.is_live sats.old ≡ true }
    requires open { S.is_open sats.old ≡ true }
    requires suits { S.suits sats.old tt cells.old }
    requires fits { S.fits sats.old slots.old }
    requires kept { S.kept sats.old ≤ length cells.old }
    ensures takes { IfOk result (λ more. (whole : List PlainEvent)
        → FindsUpTo cells.old (length slots.old.values) found.old.items whole
        (heard (S.rest sats.old tt cells.old slots.old))
        → FindsMore cells.new (length slots.old.values) found.new.items whole more
        (S.rest sats.new tt cells.new slots.new)) }
    ensures fewer { result ≡ Ok true → length (S.rest sats.new tt cells.new slots.new)
        < length (S.rest sats.old tt cells.old slots.old) }
    ensures vars { length slots.new.values ≡ length slots.old.values }
    ensures live { OnOk result (S.is_live sats.new ≡ true) }
    ensures open { S.is_open sats.new ≡ true }
    ensures suits { S.suits sats.new tt cells.new }
    ensures fits { S.fits sats.new slots.new }
    ensures kept { S.kept sats.new ≤ length cells.new }
    ensures cells { Grows cells.old cells.new }
{
    let event = sats.next(&(), cells, slots)?;
    take_event(alloc, event, slots, found)
}

// All that satisfiers give, one event after another.
fn drained<S: Sats<()>>(
    alloc: Global,
    sats: &mut S,
    cells: &mut Cells,
    slots: &mut Slots,
) -> Result<Vec<Answer>, AllocError>
    requires live { S.is_live sats.old ≡ true }
    requires open { S.is_open sats.old ≡ true }
    requires suits { S.suits sats.old tt cells.old }
    requires fits { S.fits sats.old slots.old }
    requires kept { S.kept sats.old ≤ length cells.old }
    ensures finds { IfOk result (λ v. Finds cells.new (length slots.old.values) v.items
        (heard (S.rest sats.old tt cells.old slots.old))) }
    ensures cells { Grows cells.old cells.new }
{
    let mut found = Vec::new(alloc);
    while take_next(alloc, sats, cells, slots, &mut found)? {}
    Ok(found)
}

// The heard events of a list up to and including the first Sat.
fn first(
    alloc: Global,
    found: Vec<Answer>,
    vars: usize,
    cells: &mut Cells,
) -> Result<Vec<Answer>, AllocError>
    requires few { vars ≤ MOST_VARIABLES }
    requires fit { AllFit vars (length cells.old) found.items }
    ensures finds { IfOk result (λ v. Finds cells.new vars v.items
        (up_to_sat (heard (answer_events cells.old found.items)))) }
    ensures cells { Grows cells.old cells.new }
{
    let mut slots = Slots::new(alloc, vars)?;
    let mut sats = First::new(Listed::new(found, &slots, cells));
    drained(alloc, &mut sats, cells, &mut slots)
}

// The heard events of a list in the order of a key.
fn sorted(
    alloc: Global,
    key: &SortKey,
    found: Vec<Answer>,
    vars: usize,
    cells: &mut Cells,
) -> Result<Vec<Answer>, AllocError>
    requires few { vars ≤ MOST_VARIABLES }
    requires fit { AllFit vars (length cells.old) found.items }
    ensures finds { IfOk result (λ v. Finds cells.new vars v.items
        (sorted_events (key_of key.now).order (keyed (key_of key.now) (heard (answer_events cells.old found.items))))) }
    ensures cells { Grows cells.old cells.new }
{
    let mut slots = Slots::new(alloc, vars)?;
    let listed = Listed::new(found, &slots, cells);
    let mut sats = Sorted::new(alloc, listed, key.copy(alloc)?, &slots);
    drained(alloc, &mut sats, cells, &mut slots)
}

impl Scene<'_> {
    /// All events of a precondition, with so many axiom levels.
    pub fn precondition(
        &self,
        pre: &Pre,
        slots: &Slots,
        nest: u32,
        cells: &mut Cells,
    ) -> Result<Vec<Answer>, AllocError>
        requires slots { AreBelow (length cells.old) slots.now }
        requires world { StageBelow (length cells.old) (stage_in self.now) }
        ensures finds { IfOk result (λ v. Finds cells.new (length slots.now.values) v.items
            (precondition_events (axioms_in self.now) nest (state_in cells.old self.now) (precondition_of pre.now)
            (bindings_of cells.old slots.now))) }
        ensures cells { Grows cells.old cells.new }
    {
        match pre {
            Pre::Plain(expr) => Ok(heard(self.events(expr, slots, nest, cells)?)),
            Pre::First(expr) => {
                let found = self.events(expr, slots, nest, cells)?;
                first(self.alloc, found, slots.vars(), cells)
            }
            Pre::Sorted(key, expr) => {
                let found = self.events(expr, slots, nest, cells)?;
                sorted(self.alloc, key, found, slots.vars(), cells)
            }
        }
    }
}
