//! The bindings of the start alone, which satisfy what asks for nothing.
ghost use Rattle.std.specs.Prelude.{◌≡◌, ◌∷◌, [], ◌≤◌, true, false, IfOk, OnOk, OnErr, length};
ghost use Rattle.hp_syntax.specs.Events.{Sat};
ghost use Rattle.hp_eval.specs.Events.{event_of, left_after, AreOfFirst};
ghost use Rattle.hp_eval.specs.Growth.{Grows};
ghost use Rattle.hp_eval.specs.Slotted.{AreBelow, Binds, bindings_of, undone};
ghost use Rattle.hp_precondition.specs.OnceLaws.{FitsOnce, once_rest};

use hp_cells::Cells;
use hp_eval::{Event, Sats, Slots};
use hp_gen::Scene;
use std::alloc::AllocError;

/// Gives the bindings of its start, once. It takes no memory, so no call fails.
#[derive(Clone, Copy)]
pub struct Once {
    mark: usize,
    // The number of cells at the start.
    kept: usize,
    is_given: bool,
    is_open: bool,
}

impl Once {
    /// The bindings of the slots, which weren't given yet.
    pub(crate) fn start(cells: &Cells, slots: &Slots) -> Once
        requires { AreBelow (length cells.now) slots.now }
        ensures rest { once_rest result cells.now slots.now ≡ Sat (bindings_of cells.now slots.now) ∷ [] }
        ensures fits { FitsOnce result slots.now }
        ensures start { result.mark ≡ length slots.now.trail }
        ensures kept { result.kept ≡ length cells.now }
        ensures open { result.is_open ≡ true }
    {
        Once {
            mark: slots.mark(),
            kept: cells.len(),
            is_given: false,
            is_open: true,
        }
    }
}

impl<'a> Sats<Scene<'a>> for Once {
    ghost use Rattle.std.specs.Prelude.{true};
    ghost use Rattle.hp_precondition.specs.OnceLaws.{FitsOnce, once_rest, once_same, once_extends};

    ghost rest = { λ s b c e. once_rest s c e };

    ghost suits = { λ s b c. Unit {0} };

    ghost fits = { λ s e. FitsOnce s e };

    ghost start = { λ s. s.mark };

    ghost kept = { λ s. s.kept };

    ghost is_live = { λ s. true };

    ghost is_open = { λ s. s.is_open };

    fn next(
        &mut self,
        _base: &Scene<'a>,
        cells: &mut Cells,
        slots: &mut Slots,
    ) -> Result<Event, AllocError>
        requires open { self.old.is_open ≡ true }
        requires slots { FitsOnce self.old slots.old }
        requires cells { self.old.kept ≤ length cells.old }
        ensures event { IfOk result (λ x. x ≡ event_of (once_rest self.old cells.old slots.old)) }
        ensures rest { OnOk result (once_rest self.new cells.new slots.new
            ≡ left_after (once_rest self.old cells.old slots.old)) }
        ensures sat { OnOk result (AreOfFirst (once_rest self.old cells.old slots.old)
            (bindings_of cells.new slots.new)) }
        ensures base { Unit {0} }
        ensures slots { FitsOnce self.new slots.new }
        ensures above { Binds (undone self.old.mark slots.old) slots.new }
        ensures below { AreBelow self.new.kept slots.new }
        ensures undone { OnErr result (Binds slots.new slots.old) }
        ensures start { self.new.mark ≡ self.old.mark }
        ensures kept { (self.old.kept ≤ self.new.kept) × (self.new.kept ≤ length cells.new) }
        ensures cells { Grows cells.old cells.new }
        ensures live { OnOk result (true ≡ true) }
        ensures dead { OnErr result (true ≡ false) }
        ensures open { self.new.is_open ≡ true }
    {
        slots.undo_to(self.mark);
        if self.is_given {
            return Ok(Event::End);
        }
        self.is_given = true;
        Ok(Event::Sat)
    }

    fn close(&mut self, slots: &mut Slots)
        requires open { self.old.is_open ≡ true }
        requires slots { FitsOnce self.old slots.old }
        ensures slots { slots.new ≡ undone self.old.mark slots.old }
        ensures closed { self.new.is_open ≡ false }
    {
        slots.undo_to(self.mark);
        self.is_open = false;
    }

    fn live(&self) -> bool
        ensures { result ≡ true }
    {
        true
    }

    ghost fits_hold = { λ s e h. h };

    ghost same_base = { λ s b c d u k. tt };

    ghost same_cells = { λ s b c d e u h k. once_same s c d e h k };

    ghost sats_extend = { λ s b c e u h. once_extends s c e };
}
