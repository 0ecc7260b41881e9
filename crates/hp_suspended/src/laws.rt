//! Laws of the nodes that generators begin with.
//!
//! Each function does nothing, and its contract is the law.
ghost use Rattle.std.specs.Prelude.{◌≡◌, ◌<◌, ◌+◌, ℕ, List, Some, slice_get};
ghost use Rattle.hp_code.specs.CodeViews.{CodeView, IsCode};
ghost use Rattle.hp_nodes.specs.Trees.{Laid};
ghost use Rattle.hp_suspended.specs.Fitting.{IsExpressionAt};

/// The node behind that of an axiom is its first branch's, if it has any, and the node behind that is the expression of
/// this branch.
pub fn branches_hold_expressions()
    ensures { (c : CodeView) (name : List ℕ) (k i : ℕ) (l : Laid) → IsCode c → slice_get (c.axiom_rules name) k ≡ Some i
        → slice_get c.nodes i ≡ Some l → i + 1 < l.to → IsExpressionAt c (i + 2) }
{}
