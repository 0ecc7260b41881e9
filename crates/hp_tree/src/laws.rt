//! A law of the successors of a node.
//!
//! The function does nothing, and its contract is the law.
ghost use Rattle.std.specs.Prelude.{◌≡◌, ℕ, List};
ghost use Rattle.hp_syntax.specs.Syntax.{Rule};
ghost use Rattle.hp_syntax.specs.Walk.{Node, visits};
ghost use Rattle.hp_tree.specs.Successors.{successors, visits_of};

/// The visits of a node are those of its successors.
pub fn visits_are_those_of_successors()
    ensures { (rules : List Rule) (nest : ℕ) (n : Node) (path : List ℕ)
        → visits rules nest n path ≡ visits_of rules nest n path 0 (successors rules nest n) }
{}
