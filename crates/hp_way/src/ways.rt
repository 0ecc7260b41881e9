//! The decompositions on the way to a plan.
ghost use Rattle.std.specs.Prelude.{◌≡◌, ◌+◌, ◌-◌, ◌<◌, ◌≤◌, ◌^◌, true, IfOk, OnOk, length, map};
ghost use Rattle.std.specs.List.{All};
ghost use Rattle.hp_code.specs.CodeViews.{rules_in};
ghost use Rattle.hp_code.specs.Codes.{code_of};
ghost use Rattle.hp_net.specs.Standings.{tree_visits};
ghost use Rattle.hp_search.specs.Planned.{stands_planned, tree_planned};
ghost use Rattle.hp_syntax.specs.declared.limits.TheConstants.{GREATEST_DEPTH, MOST_LEVELS};
ghost use Rattle.hp_syntax.specs.GroundPatterns.{IsGroundPair};
ghost use Rattle.hp_syntax.specs.Views.{pair_of};
ghost use Rattle.hp_syntax.specs.Walk.{root};
ghost use Rattle.hp_way.specs.Along.{IsDeedAt, LeadSoFar};
ghost use Rattle.hp_way.specs.Ways.{IsWay, StandsThere, deed_of};

use hp_after::{Reached, reach};
use hp_best::to_ground;
use hp_code::Code;
use hp_net::Walk;
use hp_search::Planner;
use hp_syntax::{Ground, Pair, RunFault};
use std::alloc::{AllocError, Global};

/// A decomposition on the way to a plan.
pub struct Deed {
    /// Its place among the candidates of the node.
    pub candidate: usize,
    pub task: Ground,
    /// The place of the operator or method among the rules of the domain.
    pub rule: usize,
    /// The place of the branch among those of the method, 0 for an operator.
    pub branch: usize,
    /// What the steps down to the node behind it cost, in thousandths.
    pub cost: i128,
}

// A derived drop would do the same, but be proved anew wherever a deed is let go.
impl Drop for Deed {
    fn drop(self) {
        let Deed {
            candidate: _,
            task,
            rule: _,
            branch: _,
            cost: _,
        } = self;
        drop(task);
    }
}

impl Deed {
    /// The task alone.
    pub fn into_task(self) -> Ground
        ensures { result ≡ self.task }
    {
        let Deed {
            candidate: _,
            task,
            rule: _,
            branch: _,
            cost: _,
        } = self;
        task
    }
}

/// What stands at a path: a plan, by the decompositions that lead to it from the root, or what keeps the walk from
/// coming to one: there is none, or a fault comes before it.
#[derive(Drop)]
pub enum Way {
    Plan(Vec<Deed>),
    Absent,
    Fault(RunFault),
}

/// The decomposition that led a walk from the node which so many numbers of its path reach to the next one.
pub fn deed_at(alloc: Global, planner: &Planner<'_>, level: usize) -> Result<Deed, AllocError>
    requires live { planner.now.live ≡ true }
    requires level { level < length (stands_planned planner.now).path }
    requires room { level + 1 < 2 ^ 64 }
    ensures { IfOk result (λ d. IsDeedAt planner.now level (deed_of d)) }
{
    let led = planner.decomposition_at(level);
    let task = to_ground(alloc, planner.cells(), led.task)?;
    Ok(Deed {
        candidate: led.candidate,
        task,
        rule: led.rule,
        branch: led.branch,
        cost: planner.cost_at(level + 1),
    })
}

/// The decompositions that led a walk to where it stands.
pub fn deeds_of(alloc: Global, planner: &Planner<'_>) -> Result<Vec<Deed>, AllocError>
    requires { planner.now.live ≡ true }
    ensures { IfOk result (λ v.
        LeadSoFar planner.now (length (stands_planned planner.now).path) (map deed_of v.items)) }
{
    let mut deeds = Vec::new(alloc);
    let count = planner.path().len();
    for level in 0..count {
        let deed = deed_at(alloc, planner, level)?;
        deeds.push(deed)?;
    }
    Ok(deeds)
}

/// What stands at a path of the tree of a walk that has all its visits left, as a new one has. The walk stands at the
/// plan, if that is what is there. After an error it may be used no more.
pub fn way_by(alloc: Global, planner: &mut Planner<'_>, path: &[u64]) -> Result<Way, AllocError>
    requires live { planner.old.live ≡ true }
    requires new { (stands_planned planner.old).rest ≡ tree_visits (tree_planned planner.old) }
    requires small { All (λ i. i < 2 ^ 64 - 1) path.now }
    ensures way { IfOk result (λ w. IsWay (tree_planned planner.old).rules (tree_planned planner.old).nest
        (tree_planned planner.old).root path.now w) }
    ensures stands { IfOk result (λ w. StandsThere w path.now (stands_planned planner.new).path) }
    ensures tree { tree_planned planner.new ≡ tree_planned planner.old }
    ensures live { OnOk result (planner.new.live ≡ true) }
{
    let arrival = reach(planner, path)?;
    match arrival.answer {
        Reached::At => {
            let deeds = deeds_of(alloc, planner)?;
            Ok(Way::Plan(deeds))
        }
        Reached::Absent => Ok(Way::Absent),
        Reached::Fault(fault) => Ok(Way::Fault(fault)),
    }
}

/// What stands at a path of the tree of a pair at a depth, by the rules of a code, where axioms may call one another so
/// deep. A plan is found where no fault comes before it.
pub fn way_to(
    alloc: Global,
    code: &Code,
    pair: &Pair,
    depth: u32,
    nest: u32,
    path: &[u64],
) -> Result<Way, AllocError>
    requires pair { IsGroundPair (pair_of pair.now) }
    requires depth { depth ≤ GREATEST_DEPTH }
    requires nest { nest ≤ MOST_LEVELS }
    requires small { All (λ i. i < 2 ^ 64 - 1) path.now }
    ensures { IfOk result (λ w. IsWay (rules_in (code_of code.now)) nest (root (pair_of pair.now) depth) path.now w) }
{
    let mut planner = Planner::new(alloc, code, pair, depth, nest)?;
    way_by(alloc, &mut planner, path)
}
