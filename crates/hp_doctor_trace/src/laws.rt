//! Laws of what is told of a walk.
//!
//! Each function does nothing, and its contract is the law.
ghost use Rattle.std.specs.Prelude.{◌≡◌, ◌<◌, ◌+◌, ℕ, List, Some, true, slice_get};
ghost use Rattle.hp_dead_ends.specs.DeadEnds.{IsDeadEnd};
ghost use Rattle.hp_net.specs.Standings.{tree_visits};
ghost use Rattle.hp_syntax.specs.Syntax.{Pair, Rule};
ghost use Rattle.hp_syntax.specs.Walk.{Did, Visit};
ghost use Rattle.hp_trace.specs.declared.tracing.TracedVisit.{TracedVisit};
ghost use Rattle.hp_trace.specs.Traces.{IsTrace, is_dead_end, visits_from};
ghost use Rattle.hp_doctor_trace.specs.declared.traces.Asked.{Asked};
ghost use Rattle.hp_doctor_trace.specs.TraceTold.{tree_of};

use hp_code::laws::lowered_rules_have_the_tree;
use hp_trace::laws::dead_ends_have_no_children;

/// Among the visits that are told, `dead end` stands after a decomposition exactly where its node is one by the rules of
/// the domain: it isn't a plan and has depth left, but no children of any kind.
pub fn dead_ends_are_those_of_the_domain()
    ensures dead { (a : Asked) (rules : List Rule) (pair : Pair) (xs : List TracedVisit) (i : ℕ) (x : TracedVisit)
        (v : Visit) → IsTrace rules (tree_of a rules pair) a.from.now a.most xs → slice_get xs i ≡ Some x
        → slice_get (visits_from a.from.now (tree_visits (tree_of a rules pair))) i ≡ Some v → v.sight ≡ Did
        → i < a.most → is_dead_end x.level (slice_get xs (i + 1)) ≡ true → IsDeadEnd rules a.nest v.node }
    ensures found { (a : Asked) (rules : List Rule) (pair : Pair) (xs : List TracedVisit) (i : ℕ) (x : TracedVisit)
        (v : Visit) → IsTrace rules (tree_of a rules pair) a.from.now a.most xs → slice_get xs i ≡ Some x
        → slice_get (visits_from a.from.now (tree_visits (tree_of a rules pair))) i ≡ Some v → v.sight ≡ Did
        → IsDeadEnd rules a.nest v.node → is_dead_end x.level (slice_get xs (i + 1)) ≡ true }
{
    dead_ends_have_no_children();
    lowered_rules_have_the_tree();
}
