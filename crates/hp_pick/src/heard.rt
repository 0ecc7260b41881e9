//! A list that was heard is given again.
ghost use Rattle.std.specs.Prelude.{◌≡◌, ◌<◌, ◌^◌, true, false, None, Some, List, IfOk, OnOk, OnErr, length, slice_get, slice_set};
ghost use Rattle.std.specs.List.{All};
ghost use Rattle.hp_syntax.specs.Terms.{Term};
ghost use Rattle.hp_eval.specs.Slotted.{AreBelow, Binds, undone, bindings_of};
ghost use Rattle.hp_eval.specs.Events.{PlainEvent, event_of, left_after, AreOfFirst};
ghost use Rattle.hp_pick.specs.Noted.{KeepsCells, IsNoted, HearsInOrder};
ghost use Rattle.hp_pick.specs.Heard.{left_of, FitsHeard};

use crate::noted::NotedSats;
use hp_cells::Cell;
use hp_eval::{EvalStop, Event, Slots};
use std::alloc::{AllocError, Global};

/// A list that was heard: the satisfiers in their order, of which so many were given, and whether a Cut is to come
/// behind them.
pub(crate) struct Heard {
    pub(crate) notes: NotedSats,
    pub(crate) given: usize,
    // The number of cells that stood when the list was heard.
    pub(crate) kept: usize,
    pub(crate) is_live: bool,
    pub(crate) is_open: bool,
}

impl Drop for Heard {
    fn drop(self) {
        let Heard {
            notes,
            given: _,
            kept: _,
            is_live: _,
            is_open: _,
        } = self;
        drop(notes);
    }
}

// Binds a variable to the cell that it is to stand for, if it isn't bound.
fn fill(v: u32, value: Option<Cell>, slots: &mut Slots)
    requires known { v < length slots.old.values }
    requires keeps { (cell : _) → slice_get slots.old.values v ≡ Some (Some cell) → value ≡ Some cell }
    ensures value { slots.new.values ≡ slice_set slots.old.values v value }
    ensures above { Binds slots.old slots.new }
{
    let Some(cell) = value else {
        return;
    };
    match slots.get(v) {
        None => slots.bind(v, cell),
        Some(_) => {}
    }
}

// Binds the variables that aren't bound to the cells that they are to stand for.
fn fill_all(values: &[Option<Cell>], slots: &mut Slots)
    requires keeps { KeepsCells values.now slots.old }
    requires few { length values.now < 2 ^ 32 }
    ensures values { slots.new.values ≡ values.now }
    ensures above { Binds slots.old slots.new }
{
    for (v, value) in values.iter().enumerate() {
        fill(v as u32, *value, slots);
    }
}

impl Heard {
    /// The first event of a list that was heard, and the list that is left then; a fault leaves nothing. The slots are
    /// as at the start, and so many cells stand.
    pub(crate) fn start(
        alloc: Global,
        found: Result<NotedSats, EvalStop>,
        kept: usize,
        slots: &mut Slots,
    ) -> (Heard, Result<Event, AllocError>)
        requires below { AreBelow kept slots.old }
        requires noted { IfOk found (λ notes. All (IsNoted kept slots.old) notes.sats.items) }
        ensures event { (c : List Term) (xs : List PlainEvent) → HearsInOrder c found xs
            → IfOk result.1 (λ x. x ≡ event_of xs) }
        ensures rest { (c : List Term) (xs : List PlainEvent) → HearsInOrder c found xs
            → OnOk result.1 (left_of c result.0 ≡ left_after xs) }
        ensures sat { (c : List Term) (xs : List PlainEvent) → HearsInOrder c found xs
            → OnOk result.1 (AreOfFirst xs (bindings_of c slots.new)) }
        ensures above { Binds slots.old slots.new }
        ensures undone { OnErr result.1 (slots.new ≡ slots.old) }
        ensures fits { FitsHeard (length slots.old.trail) result.0 slots.new }
        ensures kept { result.0.kept ≡ kept }
        ensures live { OnOk result.1 (result.0.is_live ≡ true) }
        ensures dead { OnErr result.1 (result.0.is_live ≡ false) }
        ensures open { result.0.is_open ≡ true }
    {
        match found {
            Ok(notes) => {
                let mut heard = Heard::new(notes, kept, true);
                let event = heard.give(slots.mark(), slots);
                (heard, Ok(event))
            }
            Err(EvalStop::Fault(fault)) => (
                Heard::new(NotedSats::new(alloc), kept, true),
                Ok(Event::Fault(fault)),
            ),
            Err(EvalStop::NoMemory) => (
                Heard::new(NotedSats::new(alloc), kept, false),
                Err(AllocError),
            ),
        }
    }

    // The notes on a list of which nothing was given.
    fn new(notes: NotedSats, kept: usize, is_live: bool) -> Heard
        ensures { result ≡ record { notes = notes; given = 0; kept = kept; is_live = is_live; is_open = true } }
    {
        Heard {
            notes,
            given: 0,
            kept,
            is_live,
            is_open: true,
        }
    }

    /// The next event, a Sat with its bindings above those of a mark.
    pub(crate) fn give(&mut self, mark: usize, slots: &mut Slots) -> Event
        requires fits { FitsHeard mark self.old slots.old }
        ensures event { (c : List Term) → result ≡ event_of (left_of c self.old) }
        ensures rest { (c : List Term) → left_of c self.new ≡ left_after (left_of c self.old) }
        ensures sat { (c : List Term) → AreOfFirst (left_of c self.old) (bindings_of c slots.new) }
        ensures above { Binds (undone mark slots.old) slots.new }
        ensures fits { FitsHeard mark self.new slots.new }
        ensures kept { self.new.kept ≡ self.old.kept }
        ensures live { self.new.is_live ≡ self.old.is_live }
        ensures open { self.new.is_open ≡ self.old.is_open }
    {
        slots.undo_to(mark);
        self.give_next(slots)
    }

    // The next event, a Sat with its bindings above those of the slots.
    fn give_next(&mut self, slots: &mut Slots) -> Event
        requires noted { All (IsNoted self.old.kept slots.old) self.old.notes.sats.items }
        ensures event { (c : List Term) → result ≡ event_of (left_of c self.old) }
        ensures rest { (c : List Term) → left_of c self.new ≡ left_after (left_of c self.old) }
        ensures sat { (c : List Term) → AreOfFirst (left_of c self.old) (bindings_of c slots.new) }
        ensures above { Binds slots.old slots.new }
        ensures below { AreBelow self.old.kept slots.old → AreBelow self.old.kept slots.new }
        ensures sats { self.new.notes.sats ≡ self.old.notes.sats }
        ensures kept { self.new.kept ≡ self.old.kept }
        ensures live { self.new.is_live ≡ self.old.is_live }
        ensures open { self.new.is_open ≡ self.old.is_open }
    {
        if self.given < self.notes.sats.len() {
            fill_all(self.notes.sats[self.given].values.as_slice(), slots);
            self.given += 1;
            return Event::Sat;
        }
        if self.notes.cut {
            self.notes.cut = false;
            return Event::Cut;
        }
        Event::End
    }
}
