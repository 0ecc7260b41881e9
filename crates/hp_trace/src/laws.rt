//! Laws of traces.
//!
//! Each function does nothing, and its contract is the law.
ghost use Rattle.std.specs.Prelude.{◌≡◌, ◌<◌, ◌+◌, ℕ, List, [], Some, true, slice_get};
ghost use Rattle.hp_dead_ends.specs.DeadEnds.{IsDeadEnd};
ghost use Rattle.hp_net.specs.Standings.{Tree, tree_visits};
ghost use Rattle.hp_syntax.specs.Syntax.{Rule};
ghost use Rattle.hp_syntax.specs.Walk.{Did, Visit};
ghost use Rattle.hp_trace.specs.declared.tracing.TracedVisit.{TracedVisit};
ghost use Rattle.hp_trace.specs.Traces.{IsTrace, is_dead_end, visits_from};

/// Among so many of the first visits of a trace a decomposition is reported as a dead end exactly where its node is one:
/// it isn't a plan and has depth left, but no children of any kind. The visit after these is known too, but not what
/// follows it: there each dead end is reported, and maybe another decomposition.
pub fn dead_ends_have_no_children()
    ensures dead { (rules : List Rule) (t : Tree) (from : List ℕ) (most i : ℕ) (xs : List TracedVisit) (x : TracedVisit) (v : Visit)
        → IsTrace rules t from most xs → slice_get xs i ≡ Some x → slice_get (visits_from from (tree_visits t)) i ≡ Some v
        → v.sight ≡ Did → i < most → is_dead_end x.level (slice_get xs (i + 1)) ≡ true
        → IsDeadEnd t.rules t.nest v.node }
    ensures found { (rules : List Rule) (t : Tree) (from : List ℕ) (most i : ℕ) (xs : List TracedVisit) (x : TracedVisit) (v : Visit)
        → IsTrace rules t from most xs → slice_get xs i ≡ Some x → slice_get (visits_from from (tree_visits t)) i ≡ Some v
        → v.sight ≡ Did → IsDeadEnd t.rules t.nest v.node → is_dead_end x.level (slice_get xs (i + 1)) ≡ true }
{}

/// A trace from the root on is empty exactly where the root is a dead end.
pub fn an_empty_trace_is_a_dead_end()
    ensures dead { (rules : List Rule) (t : Tree) (most : ℕ) → IsTrace rules t [] most [] → IsDeadEnd t.rules t.nest t.root }
    ensures found { (rules : List Rule) (t : Tree) (most : ℕ) (xs : List TracedVisit) → IsTrace rules t [] most xs
        → IsDeadEnd t.rules t.nest t.root → xs ≡ [] }
{}
