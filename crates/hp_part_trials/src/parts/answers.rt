//! Satisfiers that answer from a list, which meet the trait.
ghost use Rattle.std.specs.Prelude.{◌≡◌, ℕ, List, length, drop, slice_get, true, Some, None};
ghost use Rattle.hp_syntax.specs.Terms.{Term};
ghost use Rattle.hp_eval.specs.Events.{left_after};
ghost use Rattle.hp_eval.specs.Slotted.{Slotted, no_bindings};
ghost use Rattle.hp_part_trials.specs.Answered.{answered, first_of, event_told, after_answer, AnswersBelow, AreTold};

use hp_cells::{Cell, Cells};
use hp_eval::{Event, Sats, Slots};
use hp_syntax::RunFault;
use std::alloc::AllocError;

/// An event; a Sat with what it binds.
#[derive(Clone, Copy)]
pub enum Reply {
    Sat(Cell),
    Cut,
    Fault(RunFault),
}

/// Answers from a list. Each Sat binds the same variable above the bindings of the start.
pub struct Answers {
    answers: Vec<Reply>,
    place: usize,
    mark: usize,
    var: u32,
    kept: usize,
    is_open: bool,
}

impl Drop for Answers {
    fn drop(self) {
        let Answers {
            answers,
            place: _,
            mark: _,
            var: _,
            kept: _,
            is_open: _,
        } = self;
        drop(answers);
    }
}

// The answers from a place on.
fn left(answers: &[Reply], place: usize) -> &[Reply]
    ensures { result.now ≡ drop place answers.now }
{
    answers.get(place..).unwrap_or(&[])
}

// The place behind the next answer; behind a fault there is no other.
fn place_behind(answers: &[Reply], place: usize) -> usize
    ensures rest { (c : List Term) (s : Slotted) (v : ℕ) → answered c s v (drop result answers.now)
        ≡ left_after (answered c s v (drop place answers.now)) }
    ensures below { (n : ℕ) → AnswersBelow n (drop place answers.now) → AnswersBelow n (drop result answers.now) }
{
    match answers.get(place) {
        Some(Reply::Sat(_)) => place + 1,
        Some(Reply::Cut) => place + 1,
        Some(Reply::Fault(_)) => answers.len(),
        None => place,
    }
}

// Binds the variable with a Sat, and tells the event.
fn tell_first(answer: &Reply, var: u32, slots: &mut Slots) -> Event
    requires { slice_get slots.old.values var ≡ Some None }
    ensures event { result ≡ event_told (Some answer.now) }
    ensures slots { slots.new ≡ after_answer (Some answer.now) var slots.old }
{
    match answer {
        Reply::Sat(cell) => {
            slots.bind(var, *cell);
            Event::Sat
        }
        Reply::Cut => Event::Cut,
        Reply::Fault(fault) => Event::Fault(*fault),
    }
}

// Tells the first of the answers, or the end.
fn tell(answers: &[Reply], var: u32, slots: &mut Slots) -> Event
    requires { slice_get slots.old.values var ≡ Some None }
    ensures event { result ≡ event_told (first_of answers.now) }
    ensures slots { slots.new ≡ after_answer (first_of answers.now) var slots.old }
{
    match answers {
        [] => Event::End,
        [first, ..] => tell_first(first, var, slots),
    }
}

impl Sats<u8> for Answers {
    ghost use Rattle.hp_eval.specs.Slotted.{undone};
    ghost use Rattle.hp_part_trials.specs.Answered.{AreTold, answers_agree, answers_keep};

    ghost rest = { λ s b c e. answered c (undone s.mark e) s.var (drop s.place s.answers.items) };

    ghost suits = { λ s b c. Unit {0} };

    ghost fits = { λ s e. AreTold s.var s.mark s.kept (drop s.place s.answers.items) e };

    ghost start = { λ s. s.mark };

    ghost kept = { λ s. s.kept };

    ghost is_live = { λ s. true };

    ghost is_open = { λ s. s.is_open };

    fn next(
        &mut self,
        _base: &u8,
        _cells: &mut Cells,
        slots: &mut Slots,
    ) -> Result<Event, AllocError> {
        slots.undo_to(self.mark);
        let answers = self.answers.as_slice();
        let event = tell(left(answers, self.place), self.var, slots);
        self.place = place_behind(answers, self.place);
        Ok(event)
    }

    fn close(&mut self, slots: &mut Slots) {
        slots.undo_to(self.mark);
        self.is_open = false;
    }

    fn live(&self) -> bool {
        true
    }

    ghost fits_hold = { λ s e h. (h.above, h.below) };

    ghost same_base = { λ s b c d u k. tt };

    ghost same_cells = { λ s b c d e u h k. answers_agree s.kept c d (undone s.mark e) s.var
        (drop s.place s.answers.items) h.start h.own k };

    ghost sats_extend = { λ s b c e u h. answers_keep c (undone s.mark e) s.var (drop s.place s.answers.items)
        h.unbound };
}

/// Answers above no bindings, of which each Sat binds the variable 1.
pub fn answers_of(answers: Vec<Reply>, cells: &Cells) -> Answers
    requires { AnswersBelow (length cells.now) answers.items }
    ensures fits { AreTold result.var result.mark result.kept (drop result.place result.answers.items)
        (no_bindings 2) }
    ensures start { result.mark ≡ 0 }
    ensures kept { result.kept ≡ length cells.now }
    ensures open { result.is_open ≡ true }
{
    Answers {
        answers,
        place: 0,
        mark: 0,
        var: 1,
        kept: cells.len(),
        is_open: true,
    }
}
