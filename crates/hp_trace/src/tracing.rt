//! The first visits of a walk.
ghost use Rattle.std.specs.List.{All};
ghost use Rattle.std.specs.Prelude.{◌≡◌, ◌≢◌, ◌≤◌, ◌<◌, ◌-◌, ◌+◌, ◌^◌, ℕ, List, [], true, false, IfOk, OnOk, length, option_map};
ghost use Rattle.hp_code.specs.CodeViews.{IsCodeOf, rules_in};
ghost use Rattle.hp_code.specs.Codes.{code_of};
ghost use Rattle.hp_net.specs.Standings.{IsAtItsNode, node_reached, tree_visits};
ghost use Rattle.hp_search.specs.Planned.{stands_planned, tree_planned};
ghost use Rattle.hp_syntax.specs.declared.limits.TheConstants.{GREATEST_DEPTH, MOST_LEVELS};
ghost use Rattle.hp_syntax.specs.GroundPatterns.{IsGroundPair};
ghost use Rattle.hp_syntax.specs.Views.{domain_of, pair_of};
ghost use Rattle.hp_syntax.specs.Syntax.{Rule};
ghost use Rattle.hp_syntax.specs.Walk as tree;
ghost use Rattle.hp_syntax.specs.Walk.{Did, Node, Visit, root, visit};
ghost use Rattle.hp_dead_ends.specs.Arriving.{is_small};
ghost use Rattle.hp_passes.specs.Passing.{sight_of};
ghost use Rattle.hp_trace.specs.Tracing.{GoesOn, IsHere, Traces, seen_cut};
ghost use Rattle.hp_trace.specs.Traces.{IsSeen, IsTrace};

use crate::reaching::{next_visit, visit_below};
use hp_code::Code;
use hp_net::Walk;
use hp_obstacles::{Stuck, all_stuck};
use hp_passes::Sight;
use hp_search::Planner;
use hp_syntax::{Domain, Pair, RunFault};
use hp_way::{Deed, deed_at};
use std::alloc::{AllocError, Global};

/// What is seen at a visit.
pub enum Seen {
    /// A task was done or decomposed.
    Did(Deed),
    /// Nothing is left to do.
    Plan,
    /// No decomposition is left.
    DepthCut,
    /// Axioms would call one another too deep.
    LevelCut,
    /// After a fault nothing more comes.
    Fault(RunFault),
}

// A derived drop would do the same, but be proved anew wherever it is let go.
impl Drop for Seen {
    fn drop(self) {
        match self {
            Seen::Did(deed) => drop(deed),
            Seen::Plan => {}
            Seen::DepthCut => {}
            Seen::LevelCut => {}
            Seen::Fault(_) => {}
        }
    }
}

/// A visit, and what is seen there.
pub struct TracedVisit {
    /// How many decompositions lead to its node. Those of a given path count as one.
    pub level: usize,
    pub seen: Seen,
    /// At a dead end the tasks that may be done next, each with what keeps it from being done.
    pub stuck: Vec<Stuck>,
}

impl Drop for TracedVisit {
    fn drop(self) {
        let TracedVisit {
            level: _,
            seen,
            stuck,
        } = self;
        drop(seen);
        drop(stuck);
    }
}

/// What a cut is at so many decompositions below the root of a tree of a depth.
fn seen_cut(level: usize, depth: u32) -> Seen
    ensures { result ≡ seen_cut level depth }
{
    if level as u64 == u64::from(depth) {
        Seen::DepthCut
    } else {
        Seen::LevelCut
    }
}

/// What is seen where a walk stands.
fn seen_here(
    alloc: Global,
    planner: &Planner<'_>,
    depth: u32,
    sight: Sight,
) -> Result<Seen, AllocError>
    requires live { planner.now.live ≡ true }
    requires below { sight_of sight ≡ Did → (stands_planned planner.now).path ≢ [] }
    ensures { IfOk result (λ x. (n : Node) → node_reached (tree_planned planner.now) (stands_planned planner.now) ≡ Some n
        → n.depth + length (stands_planned planner.now).path ≡ depth → IsSeen (tree_planned planner.now)
        (visit (stands_planned planner.now).path n (sight_of sight)) x) }
{
    let level = planner.path().len();
    match sight {
        Sight::Did => {
            let deed = deed_at(alloc, planner, level.saturating_sub(1))?;
            Ok(Seen::Did(deed))
        }
        Sight::Plan => Ok(Seen::Plan),
        Sight::Cut => Ok(seen_cut(level, depth)),
        Sight::Fault(fault) => Ok(Seen::Fault(fault)),
    }
}

/// Goes on to the next visit at or below a path from a decomposition. Where that is a dead end, what keeps the tasks
/// there from being done is asked first.
fn after_deed(
    alloc: Global,
    domain: &Domain,
    code: &Code,
    planner: &mut Planner<'_>,
    from: &[u64],
) -> Result<(Vec<Stuck>, Option<Sight>), AllocError>
    requires code { IsCodeOf (domain_of domain.now).rules (code_of code.now) }
    requires live { planner.old.live ≡ true }
    requires at { All (IsAtItsNode (tree_planned planner.old)) (stands_planned planner.old).rest }
    requires small { is_small from.now ≡ true }
    ensures goes { IfOk result (λ r. (v : Visit) (ws : List Visit)
        → IsHere (tree_planned planner.old) from.now Did (stands_planned planner.old) v ws
        → GoesOn (domain_of domain.now).rules (tree_planned planner.old) from.now v ws r.0.items
        (option_map sight_of r.1) (stands_planned planner.new)) }
    ensures tree { tree_planned planner.new ≡ tree_planned planner.old }
    ensures live { OnOk result (planner.new.live ≡ true) }
{
    let below = visit_below(planner)?;
    match below {
        Some(next) => Ok((Vec::new(alloc), Some(next))),
        None => {
            let stuck = all_stuck(alloc, domain, code, planner)?;
            let next = next_visit(planner, from)?;
            Ok((stuck, next))
        }
    }
}

/// Goes on to the next visit at or below a path from any other visit.
fn after_other(
    alloc: Global,
    planner: &mut Planner<'_>,
    from: &[u64],
) -> Result<(Vec<Stuck>, Option<Sight>), AllocError>
    requires live { planner.old.live ≡ true }
    requires at { All (IsAtItsNode (tree_planned planner.old)) (stands_planned planner.old).rest }
    requires small { is_small from.now ≡ true }
    ensures goes { IfOk result (λ r. (rules : List Rule) (x : tree.Sight) (v : Visit) (ws : List Visit) → x ≢ Did
        → IsHere (tree_planned planner.old) from.now x (stands_planned planner.old) v ws
        → GoesOn rules (tree_planned planner.old) from.now v ws r.0.items (option_map sight_of r.1)
        (stands_planned planner.new)) }
    ensures tree { tree_planned planner.new ≡ tree_planned planner.old }
    ensures live { OnOk result (planner.new.live ≡ true) }
{
    let next = next_visit(planner, from)?;
    Ok((Vec::new(alloc), next))
}

/// Goes on to the next visit at or below a path.
fn after_visit(
    alloc: Global,
    domain: &Domain,
    code: &Code,
    planner: &mut Planner<'_>,
    from: &[u64],
    sight: Sight,
) -> Result<(Vec<Stuck>, Option<Sight>), AllocError>
    requires code { IsCodeOf (domain_of domain.now).rules (code_of code.now) }
    requires live { planner.old.live ≡ true }
    requires at { All (IsAtItsNode (tree_planned planner.old)) (stands_planned planner.old).rest }
    requires small { is_small from.now ≡ true }
    ensures goes { IfOk result (λ r. (v : Visit) (ws : List Visit)
        → IsHere (tree_planned planner.old) from.now (sight_of sight) (stands_planned planner.old) v ws
        → GoesOn (domain_of domain.now).rules (tree_planned planner.old) from.now v ws r.0.items
        (option_map sight_of r.1) (stands_planned planner.new)) }
    ensures tree { tree_planned planner.new ≡ tree_planned planner.old }
    ensures live { OnOk result (planner.new.live ≡ true) }
{
    match sight {
        Sight::Did => after_deed(alloc, domain, code, planner, from),
        Sight::Plan => after_other(alloc, planner, from),
        Sight::Cut => after_other(alloc, planner, from),
        Sight::Fault(_) => after_other(alloc, planner, from),
    }
}

/// The visit where a walk stands, after which it goes on to the next one at or below a path.
fn traced(
    alloc: Global,
    domain: &Domain,
    code: &Code,
    planner: &mut Planner<'_>,
    from: &[u64],
    depth: u32,
    sight: Sight,
) -> Result<(TracedVisit, Option<Sight>), AllocError>
    requires code { IsCodeOf (domain_of domain.now).rules (code_of code.now) }
    requires live { planner.old.live ≡ true }
    requires at { All (IsAtItsNode (tree_planned planner.old)) (stands_planned planner.old).rest }
    requires small { is_small from.now ≡ true }
    requires below { sight_of sight ≡ Did → (stands_planned planner.old).path ≢ [] }
    requires depth { (tree_planned planner.old).root.depth ≡ depth }
    ensures traces { IfOk result (λ r. (v : Visit) (ws : List Visit)
        → IsHere (tree_planned planner.old) from.now (sight_of sight) (stands_planned planner.old) v ws
        → Traces (domain_of domain.now).rules (tree_planned planner.old) from.now v ws r.0 (option_map sight_of r.1)
        (stands_planned planner.new)) }
    ensures tree { tree_planned planner.new ≡ tree_planned planner.old }
    ensures live { OnOk result (planner.new.live ≡ true) }
{
    let above = from.len().saturating_sub(1);
    let level = planner.path().len().saturating_sub(above);
    let seen = seen_here(alloc, planner, depth, sight)?;
    let (stuck, next) = after_visit(alloc, domain, code, planner, from, sight)?;
    Ok((TracedVisit { level, seen, stuck }, next))
}

/// The first visits at or below a path of a walk that has all its visits left, as a new one has: so many, and one more.
fn trace_by(
    alloc: Global,
    domain: &Domain,
    code: &Code,
    planner: &mut Planner<'_>,
    from: &[u64],
    depth: u32,
    most: usize,
) -> Result<Vec<TracedVisit>, AllocError>
    requires code { IsCodeOf (domain_of domain.now).rules (code_of code.now) }
    requires live { planner.old.live ≡ true }
    requires new { (stands_planned planner.old).rest ≡ tree_visits (tree_planned planner.old) }
    requires depth { (tree_planned planner.old).root.depth ≡ depth }
    requires small { is_small from.now ≡ true }
    ensures { IfOk result (λ v. IsTrace (domain_of domain.now).rules (tree_planned planner.old) from.now most v.items) }
{
    let mut visits = Vec::new(alloc);
    let mut next = next_visit(planner, from)?;
    let mut left = most;
    loop {
        let Some(sight) = next else {
            return Ok(visits);
        };
        let (visit, after) = traced(alloc, domain, code, planner, from, depth, sight)?;
        visits.push(visit)?;
        if left == 0 {
            return Ok(visits);
        }
        left -= 1;
        next = after;
    }
}

/// The first visits at or below a path in the tree of a pair at a depth, by the code of a domain, where axioms may call
/// one another so deep: so many, and one more. There are fewer where the walk ends before, as it does at a fault. What
/// lies below other decompositions is left out on the way to the path.
pub fn trace(
    alloc: Global,
    domain: &Domain,
    code: &Code,
    pair: &Pair,
    depth: u32,
    nest: u32,
    from: &[u64],
    most: usize,
) -> Result<Vec<TracedVisit>, AllocError>
    requires code { IsCodeOf (domain_of domain.now).rules (code_of code.now) }
    requires pair { IsGroundPair (pair_of pair.now) }
    requires depth { depth ≤ GREATEST_DEPTH }
    requires nest { nest ≤ MOST_LEVELS }
    requires small { All (λ i. i < 2 ^ 64 - 1) from.now }
    ensures { IfOk result (λ v. IsTrace (domain_of domain.now).rules
        (record { rules = rules_in (code_of code.now); nest = nest; root = root (pair_of pair.now) depth })
        from.now most v.items) }
{
    let mut planner = Planner::new(alloc, code, pair, depth, nest)?;
    trace_by(alloc, domain, code, &mut planner, from, depth, most)
}
