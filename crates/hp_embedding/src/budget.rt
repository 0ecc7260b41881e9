//! The first plan within a budget, by a pass that leaves out what costs too much already.
ghost use Rattle.std.specs.Prelude.{◌≡◌, true, IfOk, IfErr, IfSome, MatchOption};
ghost use Rattle.std.specs.List.{All, Any};
ghost use Rattle.hp_net.specs.Standings.{node_reached, IsAtItsNode};
ghost use Rattle.hp_syntax.specs.Walk.{Plan, visit};
ghost use Rattle.hp_embedding.specs.Budgets.{NeverFalls, IsOf, IsTaken, IsFirst, Explains};

use crate::tray::Tray;
use hp_net::Walk;
use hp_out::Pen;
use hp_passes::{Pass, Sight, Stop, Turn, go_through};
use hp_syntax::RunFault;
use std::alloc::{AllocError, Global};
use thiserror::Error;

/// A plan that costs no more than a budget.
pub struct AffordablePlan {
    /// A count of thousandths.
    pub cost: i128,
    /// For each decomposition on the way its number among those of its parent, from 0 on; one that is greater than
    /// 2^64 - 1 is told as that.
    pub path: Vec<u64>,
    /// Its lines, as `plan` writes them of a first plan.
    pub text: Vec<u8>,
}

// A derived drop would do the same, but be proved anew wherever a plan is let go.
impl Drop for AffordablePlan {
    fn drop(self) {
        let AffordablePlan {
            cost: _,
            path,
            text,
        } = self;
        drop(path);
        drop(text);
    }
}

/// Why a search doesn't say which plan is the first.
#[derive(Clone, Copy, Debug, PartialEq, Eq, Error)]
pub enum SearchError {
    #[error("out of memory")]
    NoMemory,
    #[error("a value was wanted that there isn't")]
    Fault(RunFault),
}

/// The plan that a walk stands at.
fn reached<W: Walk>(alloc: Global, walk: &W) -> Result<AffordablePlan, AllocError>
    requires live { W.is_live walk.now ≡ true }
    ensures { IfOk result (λ f. MatchOption (node_reached (W.tree walk.now) (W.stands walk.now)) ⊥
        (λ n. IsOf f (visit (W.stands walk.now).path n Plan))) }
{
    let path = Vec::from_slice(alloc, walk.path())?;
    let mut tray = Tray::new(alloc);
    let mut pen = Pen::new(&mut tray);
    match pen.plan_lines(1, walk, false, false) {
        Ok(()) => Ok(AffordablePlan {
            cost: walk.cost(),
            path,
            text: tray.bytes,
        }),
        Err(_) => Err(AllocError),
    }
}

/// A search for a plan within a budget.
#[derive(Drop)]
struct Affordable {
    alloc: Global,
    budget: i128,
    found: Option<AffordablePlan>,
}

impl<W: Walk> Pass<W, ()> for Affordable {
    ghost use Rattle.hp_embedding.specs.Budgets.{meets_affordable, fails_affordable};

    type Error = SearchError;

    ghost meets = { λ tree. meets_affordable };

    ghost fails = { fails_affordable };

    fn meet(&mut self, walk: &W, _hand: &mut (), sight: Sight) -> Result<Turn, SearchError> {
        match sight {
            Sight::Did if walk.cost() > self.budget => Ok(Turn::Past),
            Sight::Plan if walk.cost() <= self.budget => match reached(self.alloc, walk) {
                Ok(plan) => {
                    self.found = Some(plan);
                    Ok(Turn::Last)
                }
                Err(_) => Err(SearchError::NoMemory),
            },
            Sight::Did | Sight::Plan | Sight::Cut => Ok(Turn::On),
            Sight::Fault(fault) => Err(SearchError::Fault(fault)),
        }
    }
}

/// The first plan that is left to a walk and costs no more than a budget, a count of thousandths. What lies below a
/// decomposition is left out where the steps so far cost more already: so this finds the first where the cost never
/// falls on the way down. Where a step may have a negative cost, a plan in what is left out might have been within the
/// budget again. A fault ends the search where it is met before such a plan; one in what is left out isn't met. After
/// an error the walk may be used no more.
pub fn within<W: Walk>(
    alloc: Global,
    walk: &mut W,
    budget: i128,
) -> Result<Option<AffordablePlan>, SearchError>
    requires live { W.is_live walk.old ≡ true }
    requires at { All (IsAtItsNode (W.tree walk.old)) (W.stands walk.old).rest }
    ensures first { IfOk result (λ found. NeverFalls (W.stands walk.old).rest
        → IsFirst budget found (W.stands walk.old).rest) }
    ensures plan { IfOk result (λ found. IfSome found (λ f. Any (IsTaken budget f) (W.stands walk.old).rest)) }
    ensures err { IfErr result (λ e. Explains e (W.stands walk.old).rest) }
{
    let mut search = Affordable {
        alloc,
        budget,
        found: None,
    };
    match go_through(walk, &mut search, &mut ()) {
        Ok(()) => Ok(search.found),
        Err(Stop::NoMemory) => Err(SearchError::NoMemory),
        Err(Stop::Failed(error)) => Err(error),
    }
}
