//! Laws of dead ends.
//!
//! Each function does nothing, and its contract is the law.
ghost use Rattle.std.specs.List.{All};
ghost use Rattle.std.specs.Prelude.{◌≡◌, ℕ, List, [], Contains};
ghost use Rattle.hp_syntax.specs.Syntax.{Rule};
ghost use Rattle.hp_syntax.specs.Walk.{Did, Node, Visit, visits};
ghost use Rattle.hp_dead_ends.specs.DeadEnds.{IsDeadEnd, dead_ends, with_root};
ghost use Rattle.hp_dead_ends.specs.Samples.{SampleComputes};

/// In the visits of a tree the decompositions at or below which no visit comes next are at nodes that are dead ends,
/// and each decomposition at such a node is one of them. The root counts as a decomposition.
pub fn dead_ends_have_no_children()
    ensures dead { (rules : List Rule) (nest : ℕ) (root : Node)
        → All (λ v. IsDeadEnd rules nest v.node) (dead_ends (with_root root (visits rules nest root []))) }
    ensures found { (rules : List Rule) (nest : ℕ) (root : Node) (v : Visit)
        → Contains (with_root root (visits rules nest root [])) v → v.sight ≡ Did → IsDeadEnd rules nest v.node
        → Contains (dead_ends (with_root root (visits rules nest root []))) v }
{}

/// What the definitions say of a few visits.
pub fn a_sample_computes()
    ensures { SampleComputes }
{}
