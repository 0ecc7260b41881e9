//! The laws of passes. Each function does nothing, and its contract is the law.
ghost use Rattle.std.specs.List.{All};
ghost use Rattle.std.specs.Prelude.{◌≡◌, ℕ, List, Contains, Option, Some, None};
ghost use Rattle.hp_passes.specs.Passes.{Turn, ComesFrom, pass};
ghost use Rattle.hp_syntax.specs.Walk.{Visit, skip};

/// A pass that leaves out what lies at or below a path is the pass over the visits without the leading ones there. So
/// after a visit that is passed over it goes on with the first visit that doesn't lie there.
pub fn what_is_left_out_is_skipped<S>()
    ensures { (turn : S → Visit → Turn S) (p : List ℕ) (s : S) (vs : List Visit)
        → pass turn (Some p) s vs ≡ pass turn None s (skip p vs) }
{}

/// The visits that a pass made are some of the visits, in their order.
pub fn made_visits_are_in_order<S>()
    ensures order { (turn : S → Visit → Turn S) (out : Option (List ℕ)) (s : S) (vs : List Visit)
        → ComesFrom (pass turn out s vs).made vs }
    ensures among { (turn : S → Visit → Turn S) (out : Option (List ℕ)) (s : S) (vs : List Visit)
        → All (Contains vs) (pass turn out s vs).made }
{}
