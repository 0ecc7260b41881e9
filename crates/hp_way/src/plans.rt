//! The decompositions on the way to the plan of a number.
ghost use Rattle.std.specs.Prelude.{◌≡◌, ◌≤◌, true, IfOk, OnOk};
ghost use Rattle.std.specs.List.{All};
ghost use Rattle.hp_code.specs.CodeViews.{rules_in};
ghost use Rattle.hp_code.specs.Codes.{code_of};
ghost use Rattle.hp_net.specs.Standings.{IsAtItsNode, tree_visits};
ghost use Rattle.hp_search.specs.Planned.{stands_planned, tree_planned};
ghost use Rattle.hp_syntax.specs.declared.limits.TheConstants.{GREATEST_DEPTH, MOST_LEVELS};
ghost use Rattle.hp_syntax.specs.GroundPatterns.{IsGroundPair};
ghost use Rattle.hp_syntax.specs.Views.{pair_of};
ghost use Rattle.hp_syntax.specs.Walk.{root};
ghost use Rattle.hp_way.specs.Counting.{ComesTo};
ghost use Rattle.hp_way.specs.Ways.{IsPathOfPlan, IsWayOfPlan, StandsAtNumbered};

use crate::ways::{Way, deeds_of};
use hp_after::Reached;
use hp_code::Code;
use hp_net::Walk;
use hp_passes::{Pass, Sight, Stop, Turn, go_through};
use hp_search::Planner;
use hp_syntax::Pair;
use std::alloc::{AllocError, Global};

/// A walk to the plan of a number, with what it came to so far.
#[derive(Clone, Copy)]
struct Counting {
    /// The number of that plan among those that are left; none has the number 0.
    left: u64,
    answer: Reached,
}

impl<W: Walk> Pass<W, ()> for Counting {
    ghost use Rattle.hp_way.specs.Counting.{meets_counting};

    type Error = AllocError;

    ghost meets = { λ tree. meets_counting };

    ghost fails = { λ s c v e d. ⊥ };

    fn meet(&mut self, _walk: &W, _hand: &mut (), sight: Sight) -> Result<Turn, AllocError> {
        match sight {
            Sight::Plan if self.left == 1 => {
                self.answer = Reached::At;
                Ok(Turn::Last)
            }
            Sight::Plan => {
                self.left = self.left.saturating_sub(1);
                Ok(Turn::On)
            }
            Sight::Did | Sight::Cut => Ok(Turn::On),
            Sight::Fault(fault) => {
                self.answer = Reached::Fault(fault);
                Ok(Turn::Last)
            }
        }
    }
}

/// Goes to the plan of a number, from 1 on, among the visits that are left to a walk. The walk then stands at it, so
/// that its steps, cost and path can be read. After an error it may be used no more.
fn go_to_plan<W: Walk>(walk: &mut W, number: u64) -> Result<Reached, AllocError>
    requires live { W.is_live walk.old ≡ true }
    requires at { All (IsAtItsNode (W.tree walk.old)) (W.stands walk.old).rest }
    ensures comes { IfOk result (λ a. ComesTo a (W.tree walk.new) (W.stands walk.new) number (W.stands walk.old).rest) }
    ensures tree { W.tree walk.new ≡ W.tree walk.old }
    ensures live { OnOk result (W.is_live walk.new ≡ true) }
{
    let mut pass = Counting {
        left: number,
        answer: Reached::Absent,
    };
    match go_through(walk, &mut pass, &mut ()) {
        Ok(()) => Ok(pass.answer),
        Err(Stop::NoMemory) => Err(AllocError),
        Err(Stop::Failed(error)) => Err(error),
    }
}

/// The way to the plan of a number in the tree of a walk that has all its visits left, as a new one has. The walk stands
/// at the plan, if there is one. After an error it may be used no more.
fn way_by_number(alloc: Global, planner: &mut Planner<'_>, number: u64) -> Result<Way, AllocError>
    requires live { planner.old.live ≡ true }
    requires new { (stands_planned planner.old).rest ≡ tree_visits (tree_planned planner.old) }
    ensures way { IfOk result (λ w. IsWayOfPlan (tree_planned planner.old).rules (tree_planned planner.old).nest
        (tree_planned planner.old).root number w) }
    ensures stands { IfOk result (λ w. StandsAtNumbered w number (tree_visits (tree_planned planner.old))
        (stands_planned planner.new).path) }
    ensures live { OnOk result (planner.new.live ≡ true) }
{
    let answer = go_to_plan(planner, number)?;
    match answer {
        Reached::At => {
            let deeds = deeds_of(alloc, planner)?;
            Ok(Way::Plan(deeds))
        }
        Reached::Absent => Ok(Way::Absent),
        Reached::Fault(fault) => Ok(Way::Fault(fault)),
    }
}

/// The way to the plan of a number, and the path of that plan, where there is one: for each decomposition its number
/// among those of its parent, from 0 on; one that is greater than 2^64 - 1 is told as that.
pub struct Numbered {
    pub way: Way,
    pub path: Vec<u64>,
}

// A derived drop would do the same, but be proved anew wherever a way is let go.
impl Drop for Numbered {
    fn drop(self) {
        let Numbered { way, path } = self;
        drop(way);
        drop(path);
    }
}

impl Numbered {
    /// The way alone.
    pub fn into_way(self) -> Way
        ensures { result ≡ self.way }
    {
        let Numbered { way, path } = self;
        drop(path);
        way
    }
}

/// As `way_to_plan`, and the path of the plan.
pub fn numbered_way(
    alloc: Global,
    code: &Code,
    pair: &Pair,
    depth: u32,
    nest: u32,
    number: u64,
) -> Result<Numbered, AllocError>
    requires pair { IsGroundPair (pair_of pair.now) }
    requires depth { depth ≤ GREATEST_DEPTH }
    requires nest { nest ≤ MOST_LEVELS }
    ensures way { IfOk result (λ w. IsWayOfPlan (rules_in (code_of code.now)) nest (root (pair_of pair.now) depth) number
        w.way) }
    ensures path { IfOk result (λ w. IsPathOfPlan (rules_in (code_of code.now)) nest (root (pair_of pair.now) depth)
        number w.way w.path.items) }
{
    let mut planner = Planner::new(alloc, code, pair, depth, nest)?;
    let way = way_by_number(alloc, &mut planner, number)?;
    let path = Vec::from_slice(alloc, planner.path())?;
    Ok(Numbered { way, path })
}

/// The way to the plan of a number, from 1 on, in the tree of a pair at a depth, by the rules of a code, where axioms may
/// call one another so deep: the plans are counted in the order in which the planner writes them. None has the number 0.
/// A plan is found where no fault comes before it.
pub fn way_to_plan(
    alloc: Global,
    code: &Code,
    pair: &Pair,
    depth: u32,
    nest: u32,
    number: u64,
) -> Result<Way, AllocError>
    requires pair { IsGroundPair (pair_of pair.now) }
    requires depth { depth ≤ GREATEST_DEPTH }
    requires nest { nest ≤ MOST_LEVELS }
    ensures { IfOk result (λ w. IsWayOfPlan (rules_in (code_of code.now)) nest (root (pair_of pair.now) depth) number w) }
{
    let found = numbered_way(alloc, code, pair, depth, nest, number)?;
    Ok(found.into_way())
}
