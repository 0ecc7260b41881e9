//! Laws of walks along a plan.
//!
//! Each function does nothing, and its contract is the law.
ghost use Rattle.std.specs.Prelude.{◌≡◌, ◌↔◌, ℕ, List, [], Contains};
ghost use Rattle.std.specs.List.{All};
ghost use Rattle.hp_laws.specs.TreeLaws.{IsFaultless, IsPrefix};
ghost use Rattle.hp_syntax.specs.Syntax.{Rule};
ghost use Rattle.hp_syntax.specs.Terms.{Term};
ghost use Rattle.hp_syntax.specs.Walk.{Node, Visit, DidChild, children, visits};
ghost use Rattle.hp_verify.specs.Kept.{HasPlan, IsDerived, StepsGrow, answer_of, told_kept};

/// The steps of a node begin those of each child. So they begin those of every visit at or below its path.
pub fn steps_only_grow()
    ensures child { (rules : List Rule) (nest : ℕ) (n m : Node) → Contains (children rules nest n) (DidChild m)
        → IsPrefix n.steps m.steps }
    ensures visits { (rules : List Rule) (nest : ℕ) (root : Node) → StepsGrow (visits rules nest root []) }
{}

/// Where steps only grow and there is no fault, the walk along a plan derives it exactly where a plan of the visits has
/// its steps: nothing that is left out does.
pub fn kept_walks_are_exact()
    ensures { (steps : List Term) (vs : List Visit) → StepsGrow vs → All (λ v. IsFaultless v.sight) vs
        → IsDerived (answer_of (told_kept steps vs).said) ↔ HasPlan steps vs }
{}
