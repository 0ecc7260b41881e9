//! Satisfiers, one at a time.
use crate::event::Event;
use crate::slots::Slots;
use hp_cells::Cells;
use std::alloc::AllocError;

/// Gives the events of a search for satisfiers, one a call. The bindings of a Sat are in the slots, above those that
/// stood at the start, until the next call. After a call that gives no Sat any bindings may stand above the start, and
/// `close` takes these back. The base is read and never changed.
pub trait Sats<B> {
    ghost use Rattle.std.specs.Prelude.{◌≡◌, ◌≤◌, ℕ, Bool, true, false, List, OnOk, OnErr, IfOk, length, take};
    ghost use Rattle.std.specs.List.{All};
    ghost use Rattle.hp_syntax.specs.Terms.{Term};
    ghost use Rattle.hp_syntax.specs.Events.{EventExtends};
    ghost use Rattle.hp_eval.specs.Slotted.{Slotted, AreBelow, Binds, undone, bindings_of};
    ghost use Rattle.hp_eval.specs.Growth.{Grows};
    ghost use Rattle.hp_eval.specs.Events.{PlainEvent, event_of, left_after, AreOfFirst};

    /// The events that are left.
    ghost rest: { Self → B → List Term → Slotted → List PlainEvent };

    /// The base is one that these satisfiers were started over, with its cells among those at hand.
    ghost suits: { Self → B → List Term → Type 0 };

    /// The slots are as the last call left them.
    ghost fits: { Self → Slotted → Type 0 };

    /// The number of bindings that stood at the start.
    ghost start: { Self → ℕ };

    /// The events that are left speak only of so many cells, which stood at the end of the last call.
    ghost kept: { Self → ℕ };

    /// No call has failed.
    ghost is_live: { Self → Bool };

    /// They aren't closed.
    ghost is_open: { Self → Bool };

    /// The next event, or the end. After a fault nothing is left. Cells may have been added, and those before are
    /// needed until these satisfiers are let go. An error leaves the slots as they were, or with fewer of the
    /// bindings that were made here, and then only `close` may follow.
    fn next(&mut self, base: &B, cells: &mut Cells, slots: &mut Slots) -> Result<Event, AllocError>
        requires live { is_live self.old ≡ true }
        requires open { is_open self.old ≡ true }
        requires base { suits self.old base.now cells.old }
        requires slots { fits self.old slots.old }
        requires cells { kept self.old ≤ length cells.old }
        ensures event { IfOk result (λ x. x ≡ event_of (rest self.old base.now cells.old slots.old)) }
        ensures rest { OnOk result (rest self.new base.now cells.new slots.new
            ≡ left_after (rest self.old base.now cells.old slots.old)) }
        ensures sat { OnOk result (AreOfFirst (rest self.old base.now cells.old slots.old)
            (bindings_of cells.new slots.new)) }
        ensures base { suits self.new base.now cells.new }
        ensures slots { fits self.new slots.new }
        ensures above { Binds (undone (start self.old) slots.old) slots.new }
        ensures below { AreBelow (kept self.new) slots.new }
        ensures undone { OnErr result (Binds slots.new slots.old) }
        ensures start { start self.new ≡ start self.old }
        ensures kept { (kept self.old ≤ kept self.new) × (kept self.new ≤ length cells.new) }
        ensures cells { Grows cells.old cells.new }
        ensures live { OnOk result (is_live self.new ≡ true) }
        ensures dead { OnErr result (is_live self.new ≡ false) }
        ensures open { is_open self.new ≡ true };

    /// Takes the bindings back that were made here. It takes no memory.
    fn close(&mut self, slots: &mut Slots)
        requires open { is_open self.old ≡ true }
        requires slots { fits self.old slots.old }
        ensures slots { slots.new ≡ undone (start self.old) slots.old }
        ensures closed { is_open self.new ≡ false }
        ensures live { is_live self.new ≡ is_live self.old };

    /// Whether no call has failed.
    fn live(&self) -> bool
        ensures { result ≡ is_live self.now };

    /// The slots hold the bindings of the start, and their cells are among those that are kept.
    ghost fits_hold: { (s : Self) (e : Slotted) → fits s e → (start s ≤ length e.trail) × AreBelow (kept s) e };

    /// The base suits any cells that agree with these below the kept number, as they do once cells were added, or given
    /// back down to that number.
    ghost same_base: { (s : Self) (b : B) (c d : List Term) → suits s b c → take (kept s) c ≡ take (kept s) d
        → suits s b d };

    /// The events that are left are the same over any cells that agree with these below the kept number.
    ghost same_cells: { (s : Self) (b : B) (c d : List Term) (e : Slotted) → suits s b c → fits s e
        → take (kept s) c ≡ take (kept s) d → rest s b c e ≡ rest s b d e };

    /// Each Sat that is left extends the bindings of the start.
    ghost sats_extend: { (s : Self) (b : B) (c : List Term) (e : Slotted) → suits s b c → fits s e
        → All (EventExtends (bindings_of c (undone (start s) e))) (rest s b c e) };
}
