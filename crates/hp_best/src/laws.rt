//! Laws of bounded walks.
//!
//! Each function does nothing, and its contract is the law.
ghost use Rattle.std.specs.Prelude.{◌≡◌, ℕ, ◌≤ℤ◌, true, Bool, List, [], Contains};
ghost use Rattle.std.specs.List.{All};
ghost use Rattle.hp_laws.specs.TreeLaws.{IsFaultless};
ghost use Rattle.hp_syntax.specs.Syntax.{Rule};
ghost use Rattle.hp_syntax.specs.Walk.{Node, Visit, DidChild, children, visits};
ghost use Rattle.hp_best.specs.Bounded.{NeverFalls, ChosenIsCheapest, is_priced, bounded, chosen_plan};

/// In the tree by priced rules no child costs less than its node. So no visit at or below the path of an earlier one
/// costs less than that one.
pub fn priced_costs_never_fall()
    ensures child { (rules : List Rule) (nest : ℕ) (n m : Node) → is_priced rules ≡ true
        → Contains (children rules nest n) (DidChild m) → n.cost ≤ℤ m.cost }
    ensures visits { (rules : List Rule) (nest : ℕ) (root : Node) → is_priced rules ≡ true
        → NeverFalls (visits rules nest root []) }
{}

/// Where there is no fault, and in a priced domain costs never fall, a bounded walk chooses the plan that a walk of all
/// visits does: one than which none costs less, and none before it costs as little; and none where there is none.
pub fn bounded_walks_choose_the_cheapest()
    ensures same { (priced : Bool) (vs : List Visit) → (priced ≡ true → NeverFalls vs)
        → All (λ v. IsFaultless v.sight) vs → chosen_plan (bounded priced vs) ≡ chosen_plan vs }
    ensures cheapest { (vs : List Visit) → ChosenIsCheapest (chosen_plan vs) vs }
{}
