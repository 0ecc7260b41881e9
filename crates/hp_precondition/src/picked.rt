//! What a precondition takes of the satisfiers of its expression.
ghost use Rattle.std.specs.Prelude.{◌≡◌, ◌≤◌, true, false, IfOk, OnOk, OnErr, length};
ghost use Rattle.hp_eval.specs.Events.{event_of, left_after, AreOfFirst};
ghost use Rattle.hp_eval.specs.Growth.{Grows};
ghost use Rattle.hp_eval.specs.Slotted.{AreBelow, Binds, bindings_of, undone};
ghost use Rattle.hp_precondition.specs.Picks.{picked_rest, PickedSuits, PickedFits, picked_start, picked_kept, picked_live, picked_open};

use crate::once::Once;
use hp_cells::Cells;
use hp_eval::{Event, Sats, Slots};
use hp_gen::{Gen, Scene};
use hp_pick::{First, Sorted};
use std::alloc::AllocError;

/// All satisfiers of an expression, the first alone, or all in the order of a variable, which stay where they are while
/// what holds them is moved; or the bindings of the start, where nothing is asked for.
pub enum Picked {
    All(Box<Gen>),
    First(Box<First<Gen>>),
    Sorted(Box<Sorted<Gen>>),
    Once(Once),
}

impl Drop for Picked {
    fn drop(self) {
        match self {
            Picked::All(inner) => drop(inner),
            Picked::First(first) => drop(first),
            Picked::Sorted(sorted) => drop(sorted),
            Picked::Once(_) => {}
        }
    }
}

impl<'a> Sats<Scene<'a>> for Picked {
    ghost use Rattle.hp_precondition.specs.Picks.{picked_rest, PickedSuits, PickedFits, picked_start, picked_kept, picked_live, picked_open};

    ghost rest = { λ s b c e. picked_rest s b c e };

    ghost suits = { λ s b c. PickedSuits s b c };

    ghost fits = { λ s e. PickedFits s e };

    ghost start = { λ s. picked_start s };

    ghost kept = { λ s. picked_kept s };

    ghost is_live = { λ s. picked_live s };

    ghost is_open = { λ s. picked_open s };

    fn next(
        &mut self,
        base: &Scene<'a>,
        cells: &mut Cells,
        slots: &mut Slots,
    ) -> Result<Event, AllocError>
        requires live { picked_live self.old ≡ true }
        requires open { picked_open self.old ≡ true }
        requires base { PickedSuits self.old base.now cells.old }
        requires slots { PickedFits self.old slots.old }
        requires cells { picked_kept self.old ≤ length cells.old }
        ensures event { IfOk result (λ x. x ≡ event_of (picked_rest self.old base.now cells.old slots.old)) }
        ensures rest { OnOk result (picked_rest self.new base.now cells.new slots.new
            ≡ left_after (picked_rest self.old base.now cells.old slots.old)) }
        ensures sat { OnOk result (AreOfFirst (picked_rest self.old base.now cells.old slots.old)
            (bindings_of cells.new slots.new)) }
        ensures base { PickedSuits self.new base.now cells.new }
        ensures slots { PickedFits self.new slots.new }
        ensures above { Binds (undone (picked_start self.old) slots.old) slots.new }
        ensures below { AreBelow (picked_kept self.new) slots.new }
        ensures undone { OnErr result (Binds slots.new slots.old) }
        ensures start { picked_start self.new ≡ picked_start self.old }
        ensures kept { (picked_kept self.old ≤ picked_kept self.new) × (picked_kept self.new ≤ length cells.new) }
        ensures cells { Grows cells.old cells.new }
        ensures live { OnOk result (picked_live self.new ≡ true) }
        ensures dead { OnErr result (picked_live self.new ≡ false) }
        ensures open { picked_open self.new ≡ true }
    {
        match self {
            Picked::All(inner) => inner.next(base, cells, slots),
            Picked::First(first) => first.next(base, cells, slots),
            Picked::Sorted(sorted) => sorted.next(base, cells, slots),
            Picked::Once(once) => once.next(base, cells, slots),
        }
    }

    fn close(&mut self, slots: &mut Slots)
        requires open { picked_open self.old ≡ true }
        requires slots { PickedFits self.old slots.old }
        ensures slots { slots.new ≡ undone (picked_start self.old) slots.old }
        ensures closed { picked_open self.new ≡ false }
        ensures live { picked_live self.new ≡ picked_live self.old }
    {
        match self {
            Picked::All(inner) => inner.close(slots),
            Picked::First(first) => first.close(slots),
            Picked::Sorted(sorted) => sorted.close(slots),
            Picked::Once(once) => once.close(slots),
        }
    }

    fn live(&self) -> bool
        ensures { result ≡ picked_live self.now }
    {
        match self {
            Picked::All(inner) => inner.live(),
            Picked::First(first) => first.live(),
            Picked::Sorted(sorted) => sorted.live(),
            Picked::Once(once) => once.live(),
        }
    }

    ghost use Rattle.hp_precondition.specs.PickedLaws.{picked_hold, picked_same_base, picked_same_cells, picked_extend};

    ghost fits_hold = { λ s e h. picked_hold s e h };

    ghost same_base = { λ s b c d u k. picked_same_base s b c d u k };

    ghost same_cells = { λ s b c d e u h k. picked_same_cells s b c d e u h k };

    ghost sats_extend = { λ s b c e u h. picked_extend s b c e u h };
}
