//! All satisfiers in the order of a variable.
use crate::heard::Heard;
use crate::hearing::hear_in_order;
use hp_cells::Cells;
use hp_eval::{Event, Sats, Slots};
use hp_syntax::SortKey;
use std::alloc::{AllocError, Global};

/// Hears the whole list at its first `next`, and gives the satisfiers in a stable order by a variable's number, and
/// then one Cut where any stood; where a fault is heard, or the variable of a Sat stands for no number, the first
/// such fault alone.
pub struct Sorted<S> {
    alloc: Global,
    inner: S,
    key: SortKey,
    // The number of bindings that stood at the start.
    mark: usize,
    // The list once it was heard; the inner one is closed then.
    heard: Option<Heard>,
}

impl<S: Drop> Drop for Sorted<S> {
    fn drop(self) {
        let Sorted {
            alloc: _,
            inner,
            key,
            mark: _,
            heard,
        } = self;
        drop(inner);
        drop(key);
        drop(heard);
    }
}

impl<S> Sorted<S> {
    ghost use Rattle.std.specs.Prelude.{◌≡◌, ◌<◌, List, length};
    ghost use Rattle.hp_syntax.specs.Terms.{Term};
    ghost use Rattle.hp_syntax.specs.Preconditions.{keyed, sorted_events};
    ghost use Rattle.hp_syntax.specs.Views.{key_of};
    ghost use Rattle.hp_eval.specs.Slotted.{Slotted};

    /// These satisfiers, which had no call yet, in the order of a key. Their start is its start, and the slots are as
    /// at that start.
    pub fn new<B>(alloc: Global, inner: S, key: SortKey, slots: &Slots) -> Sorted<S>
    where
        S: Sats<B>,
        requires slots { S.fits inner slots.now }
        requires start { S.start inner ≡ length slots.now.trail }
        ensures rest { (b : B) (c : List Term) (e : Slotted) → ⟦<Sorted<S> as Sats<B>>⟧.rest result b c e
            ≡ sorted_events (key_of key).order (keyed (key_of key) (S.rest inner b c e)) }
        ensures suits { (b : B) (c : List Term) → S.suits inner b c → ⟦<Sorted<S> as Sats<B>>⟧.suits result b c }
        ensures fits { ⟦<Sorted<S> as Sats<B>>⟧.fits result slots.now }
        ensures start { ⟦<Sorted<S> as Sats<B>>⟧.start result ≡ S.start inner }
        ensures kept { ⟦<Sorted<S> as Sats<B>>⟧.kept result ≡ S.kept inner }
        ensures live { ⟦<Sorted<S> as Sats<B>>⟧.is_live result ≡ S.is_live inner }
        ensures open { ⟦<Sorted<S> as Sats<B>>⟧.is_open result ≡ S.is_open inner }
    {
        Sorted {
            alloc,
            inner,
            key,
            mark: slots.mark(),
            heard: None,
        }
    }
}

impl<B, S: Sats<B>> Sats<B> for Sorted<S> {
    ghost use Rattle.hp_syntax.specs.Views.{key_of};
    ghost use Rattle.hp_pick.specs.Heard.{rest_in_order, SuitsEither, FitsEither, kept_of, live_of, open_of};
    ghost use Rattle.hp_pick.specs.SortedLaws.{either_hold, either_suits, either_same, either_extend};

    ghost rest = { λ s b c e. rest_in_order (key_of s.key) (S.rest s.inner b c e) c s.heard };

    ghost suits = { λ s b c. SuitsEither (S.suits s.inner b c) s.heard };

    ghost fits = { λ s e. FitsEither (S.fits s.inner e) (S.start s.inner) s.mark s.heard e };

    ghost start = { λ s. s.mark };

    ghost kept = { λ s. kept_of (S.kept s.inner) s.heard };

    ghost is_live = { λ s. live_of (S.is_live s.inner) s.heard };

    ghost is_open = { λ s. open_of (S.is_open s.inner) s.heard };

    fn next(
        &mut self,
        base: &B,
        cells: &mut Cells,
        slots: &mut Slots,
    ) -> Result<Event, AllocError> {
        if let Some(heard) = &mut self.heard {
            return Ok(heard.give(self.mark, slots));
        }
        let found = hear_in_order(self.alloc, &mut self.inner, &self.key, base, cells, slots);
        let (heard, given) = Heard::start(self.alloc, found, cells.len(), slots);
        self.heard = Some(heard);
        given
    }

    fn close(&mut self, slots: &mut Slots) {
        match &mut self.heard {
            Some(heard) => {
                slots.undo_to(self.mark);
                heard.is_open = false;
            }
            None => self.inner.close(slots),
        }
    }

    fn live(&self) -> bool {
        match &self.heard {
            Some(heard) => heard.is_live,
            None => self.inner.live(),
        }
    }

    ghost fits_hold = { λ s e h. either_hold (S.fits s.inner e) (S.start s.inner) s.mark (S.kept s.inner) s.heard e
        (S.fits_hold s.inner e) h };

    ghost same_base = { λ s b c d u k. either_suits (S.suits s.inner b c) (S.suits s.inner b d) (S.kept s.inner) s.heard
        c d (S.same_base s.inner b c d) u k };

    ghost same_cells = { λ s b c d e u h k. either_same (key_of s.key) (S.suits s.inner b c) (S.fits s.inner e)
        (S.start s.inner) s.mark (S.kept s.inner) s.heard e c d (S.rest s.inner b c e) (S.rest s.inner b d e)
        (S.same_cells s.inner b c d e) u h k };

    ghost sats_extend = { λ s b c e u h. either_extend (key_of s.key) (S.suits s.inner b c) (S.fits s.inner e)
        (S.start s.inner) s.mark s.heard e c (S.rest s.inner b c e) (S.sats_extend s.inner b c e) u h };
}
