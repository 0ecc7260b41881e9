//! The first plan within so many decompositions, by a pass that counts them.
ghost use Rattle.std.specs.Prelude.{◌≡◌, true, IfOk, IfErr, OnOk};
ghost use Rattle.std.specs.List.{All};
ghost use Rattle.hp_net.specs.Standings.{IsAtItsNode};
ghost use Rattle.hp_embedding.specs.Budgets.{Explains};
ghost use Rattle.hp_embedding.specs.Limits.{Ends, within};

use crate::budget::SearchError;
use hp_net::Walk;
use hp_passes::{Pass, Sight, Stop, Turn, go_through};
use hp_syntax::RunFault;

/// How a search of so many decompositions ends.
#[derive(Clone, Copy, Debug, PartialEq, Eq)]
pub enum SearchEnd {
    /// The walk stands at a plan.
    Found,
    /// All visits were made, and none was a plan.
    NoPlan,
    /// One decomposition more would have been made.
    Spent,
}

/// A search that may make so many decompositions more.
#[derive(Drop)]
struct Limited {
    left: u64,
    end: SearchEnd,
}

impl<W: Walk> Pass<W, ()> for Limited {
    ghost use Rattle.hp_embedding.specs.Limits.{meets_limited, fails_limited};

    type Error = RunFault;

    ghost meets = { λ tree. meets_limited };

    ghost fails = { fails_limited };

    fn meet(&mut self, _walk: &W, _hand: &mut (), sight: Sight) -> Result<Turn, RunFault> {
        match sight {
            Sight::Did if self.left == 0 => {
                self.end = SearchEnd::Spent;
                Ok(Turn::Last)
            }
            Sight::Did => {
                self.left -= 1;
                Ok(Turn::On)
            }
            Sight::Plan => {
                self.end = SearchEnd::Found;
                Ok(Turn::Last)
            }
            Sight::Cut => Ok(Turn::On),
            Sight::Fault(fault) => Err(fault),
        }
    }
}

/// Goes to the first plan that is left to a walk, where it comes before more than `most` decompositions. The walk then
/// stands at it, so that its steps, cost and path can be read. A fault ends the search where it is met before. After an
/// error the walk may be used no more.
pub fn first_of<W: Walk>(walk: &mut W, most: u64) -> Result<SearchEnd, SearchError>
    requires live { W.is_live walk.old ≡ true }
    requires at { All (IsAtItsNode (W.tree walk.old)) (W.stands walk.old).rest }
    ensures ends { IfOk result (λ e. Ends e (W.tree walk.new) (W.stands walk.new) most (W.stands walk.old).rest) }
    ensures err { IfErr result (λ e. Explains e (within most (W.stands walk.old).rest)) }
    ensures live { OnOk result (W.is_live walk.new ≡ true) }
{
    let mut search = Limited {
        left: most,
        end: SearchEnd::NoPlan,
    };
    match go_through(walk, &mut search, &mut ()) {
        Ok(()) => Ok(search.end),
        Err(Stop::NoMemory) => Err(SearchError::NoMemory),
        Err(Stop::Failed(fault)) => Err(SearchError::Fault(fault)),
    }
}
