//! Laws of satisfiers.
//!
//! Each function does nothing, and its contract is the law.
ghost use Rattle.std.specs.Prelude.{◌≡◌, List, take};
ghost use Rattle.std.specs.List.{All};
ghost use Rattle.hp_syntax.specs.Terms.{Term};
ghost use Rattle.hp_syntax.specs.Events.{EventExtends};
ghost use Rattle.hp_eval.specs.Slotted.{Slotted, undone, bindings_of};

use crate::sats::Sats;

/// A base that suits satisfiers over some cells suits them over any that agree below the kept number.
pub fn base_is_kept<B, S: Sats<B>>()
    ensures { (s : S) (b : B) (c d : List Term) → S.suits s b c → take (S.kept s) c ≡ take (S.kept s) d
        → S.suits s b d }
{}

/// The events that are left are the same over any cells that agree below the kept number.
pub fn rest_is_kept<B, S: Sats<B>>()
    ensures { (s : S) (b : B) (c d : List Term) (e : Slotted) → S.suits s b c → S.fits s e
        → take (S.kept s) c ≡ take (S.kept s) d → S.rest s b c e ≡ S.rest s b d e }
{}

/// Each Sat that is left has the variables of the start, and those that were bound there are bound to the same terms.
pub fn satisfiers_extend_the_start<B, S: Sats<B>>()
    ensures { (s : S) (b : B) (c : List Term) (e : Slotted) → S.suits s b c → S.fits s e
        → All (EventExtends (bindings_of c (undone (S.start s) e))) (S.rest s b c e) }
{}
