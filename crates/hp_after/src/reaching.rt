//! The plan of a path, by a walk that leaves out what lies before it.
ghost use Rattle.std.specs.Prelude.{◌≡◌, ◌<◌, ◌-◌, ◌^◌, true, IfOk, OnOk};
ghost use Rattle.std.specs.List.{All};
ghost use Rattle.hp_net.specs.Standings.{tree_visits};
ghost use Rattle.hp_syntax.specs.Walk.{heard_visits};
ghost use Rattle.hp_after.specs.Reach.{HoldsPlan, IsArrival, IsThere, side_of};
ghost use Rattle.hp_after.specs.Stepping.{StepsFrom};

use hp_net::Walk;
use hp_passes::{Pass, Sight, Stop, Turn, go_through};
use hp_syntax::RunFault;
use std::alloc::AllocError;
use std::cmp::Ordering;

/// What a walk to a path came to: the plan there, the end of what could hold it, or a fault before that.
#[derive(Clone, Copy, Debug, PartialEq, Eq)]
pub enum Reached {
    At,
    Absent,
    Fault(RunFault),
}

/// What a walk to a path came to, and how many decompositions were visited. The count stays at 2^64 - 1.
#[derive(Clone, Copy, Debug, PartialEq, Eq)]
pub struct Arrival {
    pub answer: Reached,
    pub expansions: u64,
}

/// Where a path lies beside another one: a smaller number comes before a greater, at the first place in which they
/// differ. What lies below the other is beyond it.
#[derive(Clone, Copy)]
enum Side {
    Before,
    Above,
    Here,
    Beyond,
}

/// Where the path of a decomposition lies beside the target. All its numbers but the last begin the target, so that one
/// alone is compared. Only the path of the root has no number.
fn side_of(path: &[u64], target: &[u64]) -> Side
    ensures { StepsFrom path.now target.now → result ≡ side_of path.now target.now }
{
    let Some(last) = path.last() else {
        return Side::Above;
    };
    let Some(wanted) = target.get(path.len() - 1) else {
        return Side::Beyond;
    };
    match last.cmp(wanted) {
        Ordering::Less => Side::Before,
        Ordering::Greater => Side::Beyond,
        Ordering::Equal if path.len() == target.len() => Side::Here,
        Ordering::Equal => Side::Above,
    }
}

/// A walk to a path, with what it came to so far.
#[derive(Clone, Copy)]
struct Reaching<'a> {
    target: &'a [u64],
    arrival: Arrival,
}

impl<W: Walk> Pass<W, ()> for Reaching<'_> {
    ghost use Rattle.hp_after.specs.Reaching.{MeetsReaching};

    type Error = AllocError;

    ghost meets = { λ tree. MeetsReaching };

    ghost fails = { λ s c v e d. ⊥ };

    fn meet(&mut self, walk: &W, _hand: &mut (), sight: Sight) -> Result<Turn, AllocError> {
        match sight {
            Sight::Did => {
                self.arrival.expansions = self.arrival.expansions.saturating_add(1);
                match side_of(walk.path(), self.target) {
                    Side::Before => Ok(Turn::Past),
                    Side::Above | Side::Here => Ok(Turn::On),
                    Side::Beyond => Ok(Turn::Last),
                }
            }
            Sight::Plan => {
                // The path of each plan that is met begins the target, so the lengths tell.
                if walk.path().len() != self.target.len() {
                    return Ok(Turn::On);
                }
                self.arrival.answer = Reached::At;
                Ok(Turn::Last)
            }
            Sight::Cut => Ok(Turn::On),
            Sight::Fault(fault) => {
                self.arrival.answer = Reached::Fault(fault);
                Ok(Turn::Last)
            }
        }
    }
}

/// Goes to the plan of a path in the tree of a new walk, whose later visits are left then. What lies below a
/// decomposition before the path is left out, so a fault there isn't met; and one beyond the path ends the walk. Of the
/// path of each decomposition one number is compared. After an error the walk may be used no more.
pub fn reach<W: Walk>(walk: &mut W, target: &[u64]) -> Result<Arrival, AllocError>
    requires live { W.is_live walk.old ≡ true }
    requires new { (W.stands walk.old).rest ≡ tree_visits (W.tree walk.old) }
    requires small { All (λ i. i < 2 ^ 64 - 1) target.now }
    ensures arrival { IfOk result (λ a. IsArrival a target.now (tree_visits (W.tree walk.old))) }
    ensures at { IfOk result (λ a. a.answer ≡ Reached.At
        → IsThere (W.tree walk.old) (W.stands walk.new) target.now) }
    ensures found { IfOk result (λ a. HoldsPlan target.now (heard_visits (tree_visits (W.tree walk.old)))
        → a.answer ≡ Reached.At) }
    ensures only { IfOk result (λ a. a.answer ≡ Reached.At
        → HoldsPlan target.now (tree_visits (W.tree walk.old))) }
    ensures live { OnOk result (W.is_live walk.new ≡ true) }
    ensures tree { W.tree walk.new ≡ W.tree walk.old }
{
    let mut pass = Reaching {
        target,
        arrival: Arrival {
            answer: Reached::Absent,
            expansions: 0,
        },
    };
    match go_through(walk, &mut pass, &mut ()) {
        Ok(()) => Ok(pass.arrival),
        Err(Stop::NoMemory) => Err(AllocError),
        Err(Stop::Failed(error)) => Err(error),
    }
}
