//! Laws of walks to a plan.
//!
//! Each function does nothing, and its contract is the law.
ghost use Rattle.std.specs.Prelude.{ℕ, List, []};
ghost use Rattle.hp_syntax.specs.Syntax.{Rule};
ghost use Rattle.hp_syntax.specs.Walk.{Node, heard_visits, visits};
ghost use Rattle.hp_after.specs.Enumerations.{GoesOn, ReachesAt};
ghost use Rattle.hp_after.specs.Reach.{ComesToPlan};

/// The walk to a path comes to the plan that the tree holds there, unless a fault comes before it, and what is left
/// then are the visits that follow it: none of those that are left out, and none behind the end, is that plan. And what
/// it comes to is always a plan of the tree at the path.
pub fn walks_come_to_the_plan()
    ensures { (rules : List Rule) (nest : ℕ) (root : Node) (p : List ℕ)
        → ComesToPlan p (visits rules nest root []) }
{}

/// The plans of an enumeration of k plans, and those of one behind the path of the last of these, are together the
/// plans of a single enumeration; and this ends as the later one does, but for a cut that the first had seen.
pub fn enumerations_go_on()
    ensures { (rules : List Rule) (nest : ℕ) (root : Node) (k : ℕ) (p : List ℕ)
        → ReachesAt k p (heard_visits (visits rules nest root [])) → GoesOn k p (visits rules nest root []) }
{}
