//! Laws of least depths.
//!
//! Each function does nothing, and its contract is the law.
ghost use Rattle.std.specs.Prelude.{◌≡◌, ◌<◌, ◌≤◌, ℕ, List};
ghost use Rattle.hp_syntax.specs.Report.{Stopped, AtCut, AtEnd};
ghost use Rattle.hp_syntax.specs.Syntax.{Rule, Pair};
ghost use Rattle.hp_syntax.specs.Walk.{Visit};
ghost use Rattle.hp_shallow.specs.LeastDepth.{HasNoPlan, IsShallowest, IsWalkedAt, first_end, least_depth};

/// The walk of each depth below the least one is cut short. The least depth is at most the limit, and is the limit
/// where its own walk is cut short.
pub fn smaller_depths_are_cut_short()
    ensures within { (at : ℕ → List Visit) (limit : ℕ) → least_depth at limit ≤ limit }
    ensures below { (at : ℕ → List Visit) (limit depth : ℕ) → depth < least_depth at limit
        → (first_end (at depth)).ending ≡ AtCut }
    ensures itself { (at : ℕ → List Visit) (limit : ℕ) → (first_end (at (least_depth at limit))).ending ≡ AtCut
        → least_depth at limit ≡ limit }
{}

/// Where the walk of the least depth comes to a plan, no smaller depth has one. Where it's whole and has none, no depth
/// has one, however great. Where it's cut short, no depth up to the limit has one.
pub fn least_depths_are_least()
    ensures plan { (rules : List Rule) (nest : ℕ) (pair : Pair) (at : ℕ → List Visit) → IsWalkedAt rules nest pair at
        → (limit : ℕ) → (first_end (at (least_depth at limit))).ending ≡ Stopped
        → IsShallowest rules nest pair (least_depth at limit) }
    ensures none { (rules : List Rule) (nest : ℕ) (pair : Pair) (at : ℕ → List Visit) → IsWalkedAt rules nest pair at
        → (limit : ℕ) → (first_end (at (least_depth at limit))).ending ≡ AtEnd
        → (depth : ℕ) → HasNoPlan rules nest pair depth }
    ensures cut { (rules : List Rule) (nest : ℕ) (pair : Pair) (at : ℕ → List Visit) → IsWalkedAt rules nest pair at
        → (limit : ℕ) → (first_end (at (least_depth at limit))).ending ≡ AtCut
        → (depth : ℕ) → depth ≤ limit → HasNoPlan rules nest pair depth }
{}
