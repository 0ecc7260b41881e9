//! Satisfiers that are given from a list of them, one at a time.
ghost use Rattle.std.specs.Prelude.{◌≡◌, ℕ, ◌≤◌, true, List, length};
ghost use Rattle.hp_syntax.specs.Terms.{Term};
ghost use Rattle.hp_eval.specs.Events.{event_of, left_after, AreOfFirst};
ghost use Rattle.hp_eval.specs.Slotted.{AreBelow, Binds, no_bindings, bindings_of};
ghost use Rattle.hp_syntax.specs.Preconditions.{heard};
ghost use Rattle.hp_answers.specs.AnswerViews.{AllFit, answer_events};
ghost use Rattle.hp_satisfiers.specs.Listed.{left_from};

use hp_answers::answer::Answer;
use hp_cells::Cells;
use hp_eval::{Event, Sats, Slots};
use std::alloc::AllocError;

/// The heard events of a list from a place on. Nothing is bound at the start.
pub struct Listed {
    found: Vec<Answer>,
    place: usize,
    // The number of cells that stood when the list was made.
    kept: usize,
    is_open: bool,
}

impl Drop for Listed {
    fn drop(self) {
        let Listed {
            found,
            place: _,
            kept: _,
            is_open: _,
        } = self;
        drop(found);
    }
}

// Binds the variables that other slots bind, where none is bound.
fn fill(own: &Slots, slots: &mut Slots)
    requires blank { slots.old ≡ no_bindings (length own.now.values) }
    ensures values { slots.new.values ≡ own.now.values }
    ensures above { Binds slots.old slots.new }
{
    for v in 0..own.vars() as u32 {
        if let Some(cell) = own.get(v) {
            slots.bind(v, cell);
        }
    }
}

// Gives the event of the place, or the end, and goes on to the next. Behind a fault nothing comes.
fn give(found: &[Answer], place: &mut usize, slots: &mut Slots) -> Event
    requires blank { slots.old ≡ no_bindings (length slots.old.values) }
    requires fit { (kept : ℕ) × AllFit (length slots.old.values) kept found.now }
    ensures event { (terms : List Term) → result ≡ event_of (left_from terms found.now place.old) }
    ensures rest { (terms : List Term) → left_from terms found.now place.new
        ≡ left_after (left_from terms found.now place.old) }
    ensures sat { (terms : List Term) → AreOfFirst (left_from terms found.now place.old) (bindings_of terms slots.new) }
    ensures above { Binds slots.old slots.new }
    ensures below { (n : ℕ) → AllFit (length slots.old.values) n found.now → AreBelow n slots.new }
{
    if *place >= found.len() {
        return Event::End;
    }
    match &found[*place] {
        Answer::Sat(own) => {
            fill(own, slots);
            *place += 1;
            Event::Sat
        }
        Answer::Cut => {
            *place += 1;
            Event::Cut
        }
        Answer::Fault(fault) => {
            *place = found.len();
            Event::Fault(*fault)
        }
    }
}

impl Listed {
    ghost use Rattle.hp_eval.specs.Slotted.{Slotted};

    /// A list of which nothing was given, to be given in slots in which nothing is bound.
    pub fn new(found: Vec<Answer>, slots: &Slots, cells: &Cells) -> Listed
        requires blank { slots.now ≡ no_bindings (length slots.now.values) }
        requires fit { AllFit (length slots.now.values) (length cells.now) found.items }
        ensures rest { (terms : List Term) (e : Slotted)
            → ⟦<Listed as Sats<()>>⟧.rest result tt terms e ≡ heard (answer_events terms found.items) }
        ensures suits { (terms : List Term) → ⟦<Listed as Sats<()>>⟧.suits result tt terms }
        ensures fits { ⟦<Listed as Sats<()>>⟧.fits result slots.now }
        ensures start { ⟦<Listed as Sats<()>>⟧.start result ≡ length slots.now.trail }
        ensures kept { ⟦<Listed as Sats<()>>⟧.kept result ≤ length cells.now }
        ensures live { ⟦<Listed as Sats<()>>⟧.is_live result ≡ true }
        ensures open { ⟦<Listed as Sats<()>>⟧.is_open result ≡ true }
    {
        Listed {
            found,
            place: 0,
            kept: cells.len(),
            is_open: true,
        }
    }
}

impl Sats<()> for Listed {
    ghost use Rattle.hp_satisfiers.specs.Listed.{FitsListed, listed_hold, left_agrees, left_extends};

    ghost rest = { λ s b c e. left_from c s.found.items s.place };

    ghost suits = { λ s b c. Unit {0} };

    ghost fits = { λ s e. FitsListed s.kept s.found.items e };

    ghost start = { λ s. 0 };

    ghost kept = { λ s. s.kept };

    ghost is_live = { λ s. true };

    ghost is_open = { λ s. s.is_open };

    fn next(
        &mut self,
        _base: &(),
        _cells: &mut Cells,
        slots: &mut Slots,
    ) -> Result<Event, AllocError> {
        slots.undo_to(0);
        let event = give(self.found.as_slice(), &mut self.place, slots);
        Ok(event)
    }

    fn close(&mut self, slots: &mut Slots) {
        slots.undo_to(0);
        self.is_open = false;
    }

    fn live(&self) -> bool {
        true
    }

    ghost fits_hold = { λ s e h. listed_hold s.kept s.found.items e h };

    ghost same_base = { λ s b c d u k. tt };

    ghost same_cells = { λ s b c d e u h k. left_agrees s.kept c d s.found.items s.place e h k };

    ghost sats_extend = { λ s b c e u h. left_extends s.kept c s.found.items s.place e h };
}
