//! Whether a plan is one of a tree, by a walk that leaves out what the plan doesn't begin with.
ghost use Rattle.std.specs.Prelude.{◌≡◌, ◌↔◌, true, map, IfOk, OnOk, MatchOption};
ghost use Rattle.std.specs.List.{All};
ghost use Rattle.hp_laws.specs.TreeLaws.{IsFaultless};
ghost use Rattle.hp_net.specs.Standings.{node_reached, tree_visits};
ghost use Rattle.hp_syntax.specs.GroundViews.{ground_of};
ghost use Rattle.hp_verify.specs.Kept.{HasPlan, IsDerived, IsVerdict, StandsAt, steps_are, steps_begin, told_kept};

use crate::comparing::{are_those, begin};
use hp_net::Walk;
use hp_passes::{Pass, Sight, Turn, go_through};
use hp_syntax::{Ground, RunFault};
use std::alloc::AllocError;
use std::convert::Infallible;

/// Whether a plan is one of the tree. Where it wasn't found, a limit may have cut the tree somewhere on the way, or a
/// fault ended the walk.
#[derive(Clone, Copy, Debug, PartialEq, Eq)]
pub enum Answer {
    Derived,
    NoEnd,
    NoCut,
    Fault(RunFault),
}

/// What a walk along a plan came to, and how many decompositions it visited. The count stays at 2^64 - 1.
#[derive(Clone, Copy, Debug, PartialEq, Eq)]
pub struct Verdict {
    pub answer: Answer,
    pub expansions: u64,
}

/// Whether the steps so far begin the plan.
pub fn leads_on<W: Walk>(walk: &W, steps: &[Ground]) -> bool
    requires live { W.is_live walk.now ≡ true }
    ensures { MatchOption (node_reached (W.tree walk.now) (W.stands walk.now)) ⊥
        (λ n. result ≡ steps_begin n.steps (map ground_of steps.now)) }
{
    begin(walk.cells(), walk.plan(), steps)
}

/// Whether the steps so far are those of the plan.
pub fn are_steps<W: Walk>(walk: &W, steps: &[Ground]) -> bool
    requires live { W.is_live walk.now ≡ true }
    ensures { MatchOption (node_reached (W.tree walk.now) (W.stands walk.now)) ⊥
        (λ n. result ≡ steps_are n.steps (map ground_of steps.now)) }
{
    are_those(walk.cells(), walk.plan(), steps)
}

/// A walk along a plan, with what it has come to so far.
#[derive(Drop)]
struct Keeping<'a> {
    steps: &'a [Ground],
    verdict: Verdict,
}

impl<'a, W: Walk> Pass<W, ()> for Keeping<'a> {
    ghost use Rattle.hp_verify.specs.Verifying.{meets_keeping, fails_keeping};

    type Error = Infallible;

    ghost meets = { λ tree. meets_keeping };

    ghost fails = { fails_keeping };

    fn meet(&mut self, walk: &W, _hand: &mut (), sight: Sight) -> Result<Turn, Infallible> {
        match sight {
            Sight::Did => {
                self.verdict.expansions = self.verdict.expansions.saturating_add(1);
                if leads_on(walk, self.steps) {
                    Ok(Turn::On)
                } else {
                    Ok(Turn::Past)
                }
            }
            Sight::Plan => {
                if are_steps(walk, self.steps) {
                    self.verdict.answer = Answer::Derived;
                    Ok(Turn::Last)
                } else {
                    Ok(Turn::On)
                }
            }
            Sight::Cut => {
                self.verdict.answer = Answer::NoCut;
                Ok(Turn::On)
            }
            Sight::Fault(fault) => {
                self.verdict.answer = Answer::Fault(fault);
                Ok(Turn::Last)
            }
        }
    }
}

/// Whether a plan is one of the tree of a new walk. What lies below a decomposition is left out where the steps so far
/// don't begin the plan: no plan there has its steps, and a fault or a cut there isn't met. Where the answer is that it
/// is one, the walk stands at it. After an error the walk may be used no more.
pub fn verify<W: Walk>(walk: &mut W, steps: &[Ground]) -> Result<Verdict, AllocError>
    requires live { W.is_live walk.old ≡ true }
    requires new { (W.stands walk.old).rest ≡ tree_visits (W.tree walk.old) }
    ensures verdict { IfOk result (λ v. IsVerdict v (map ground_of steps.now) (tree_visits (W.tree walk.old))) }
    ensures at { OnOk result (StandsAt (W.tree walk.new) (W.stands walk.new)
        (told_kept (map ground_of steps.now) (tree_visits (W.tree walk.old))).said) }
    ensures derived { IfOk result (λ v. IsDerived v.answer
        → MatchOption (node_reached (W.tree walk.new) (W.stands walk.new)) ⊥
        (λ n. n.steps ≡ map ground_of steps.now)) }
    ensures exact { IfOk result (λ v. All (λ w. IsFaultless w.sight) (tree_visits (W.tree walk.old))
        → IsDerived v.answer ↔ HasPlan (map ground_of steps.now) (tree_visits (W.tree walk.old))) }
    ensures tree { W.tree walk.new ≡ W.tree walk.old }
    ensures live { OnOk result (W.is_live walk.new ≡ true) }
{
    let mut keeping = Keeping {
        steps,
        verdict: Verdict {
            answer: Answer::NoEnd,
            expansions: 0,
        },
    };
    match go_through(walk, &mut keeping, &mut ()) {
        Ok(()) => Ok(keeping.verdict),
        Err(_) => Err(AllocError),
    }
}
