//! The first satisfier alone.
ghost use Rattle.std.specs.Prelude.{◌≡◌};
ghost use Rattle.hp_pick.specs.UpToSat.{is_sat};

use hp_cells::Cells;
use hp_eval::{Event, Sats, Slots};
use std::alloc::AllocError;

/// Gives the events up to and including the first Sat.
pub struct First<S> {
    inner: S,
    // The first Sat was given.
    ended: bool,
}

impl<S: Drop> Drop for First<S> {
    fn drop(self) {
        let First { inner, ended: _ } = self;
        drop(inner);
    }
}

impl<S> First<S> {
    ghost use Rattle.std.specs.Prelude.{◌≡◌, List};
    ghost use Rattle.hp_syntax.specs.Terms.{Term};
    ghost use Rattle.hp_syntax.specs.Preconditions.{up_to_sat};
    ghost use Rattle.hp_eval.specs.Slotted.{Slotted};

    /// The first of these satisfiers, which had no call yet. Their start is its start.
    pub fn new<B>(inner: S) -> First<S>
    where
        S: Sats<B>,
        ensures rest { (b : B) (c : List Term) (e : Slotted)
            → ⟦<First<S> as Sats<B>>⟧.rest result b c e ≡ up_to_sat (S.rest inner b c e) }
        ensures suits { (b : B) (c : List Term) → S.suits inner b c → ⟦<First<S> as Sats<B>>⟧.suits result b c }
        ensures fits { (e : Slotted) → S.fits inner e → ⟦<First<S> as Sats<B>>⟧.fits result e }
        ensures start { ⟦<First<S> as Sats<B>>⟧.start result ≡ S.start inner }
        ensures kept { ⟦<First<S> as Sats<B>>⟧.kept result ≡ S.kept inner }
        ensures live { ⟦<First<S> as Sats<B>>⟧.is_live result ≡ S.is_live inner }
        ensures open { ⟦<First<S> as Sats<B>>⟧.is_open result ≡ S.is_open inner }
    {
        First {
            inner,
            ended: false,
        }
    }
}

// Whether an event is a Sat.
fn is_sat(event: Event) -> bool
    ensures { result ≡ is_sat event }
{
    match event {
        Event::Sat => true,
        Event::Cut | Event::Fault(_) | Event::End => false,
    }
}

impl<B, S: Sats<B>> Sats<B> for First<S> {
    ghost use Rattle.std.specs.Prelude.{cond, []};
    ghost use Rattle.hp_syntax.specs.Events.{EventExtends};
    ghost use Rattle.hp_syntax.specs.Preconditions.{up_to_sat};
    ghost use Rattle.hp_eval.specs.Slotted.{bindings_of, undone};
    ghost use Rattle.hp_pick.specs.UpToSat.{first_same, first_extend};

    ghost rest = { λ s b c e. cond s.ended [] (up_to_sat (S.rest s.inner b c e)) };

    ghost suits = { λ s b c. S.suits s.inner b c };

    ghost fits = { λ s e. S.fits s.inner e };

    ghost start = { λ s. S.start s.inner };

    ghost kept = { λ s. S.kept s.inner };

    ghost is_live = { λ s. S.is_live s.inner };

    ghost is_open = { λ s. S.is_open s.inner };

    fn next(
        &mut self,
        base: &B,
        cells: &mut Cells,
        slots: &mut Slots,
    ) -> Result<Event, AllocError> {
        if self.ended {
            return Ok(Event::End);
        }
        let event = self.inner.next(base, cells, slots)?;
        self.ended = is_sat(event);
        Ok(event)
    }

    fn close(&mut self, slots: &mut Slots) {
        self.inner.close(slots);
    }

    fn live(&self) -> bool {
        self.inner.live()
    }

    ghost fits_hold = { λ s e h. S.fits_hold s.inner e h };

    ghost same_base = { λ s b c d u k. S.same_base s.inner b c d u k };

    ghost same_cells = { λ s b c d e u h k. first_same s.ended (S.same_cells s.inner b c d e u h k) };

    ghost sats_extend = { λ s b c e u h. first_extend (EventExtends (bindings_of c (undone (S.start s.inner) e)))
        s.ended (S.rest s.inner b c e) (S.sats_extend s.inner b c e u h) };
}
