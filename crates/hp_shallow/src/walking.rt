//! A walk up to its first plan.
ghost use Rattle.std.specs.Prelude.{◌≡◌, [], true, IfOk, OnOk};
ghost use Rattle.std.specs.List.{All};
ghost use Rattle.hp_net.specs.Standings.{IsAtItsNode};
ghost use Rattle.hp_syntax.specs.Walk.{count_told};
ghost use Rattle.hp_shallow.specs.LeastDepth.{StandsAtPlan, first_end, shallow_end};

use hp_net::Walk;
use hp_passes::{Pass, Sight, Stop, Turn, go_through};
use hp_syntax::RunFault;
use std::alloc::AllocError;

/// How the walk of a depth ends: at its first plan, whole and without a plan, cut short, or at a fault.
#[derive(Clone, Copy, Debug, PartialEq, Eq)]
pub enum ShallowEnd {
    Plan,
    End,
    Cut,
    Fault(RunFault),
}

/// What a walk up to its first plan came to, and how many decompositions it visited. The count stays at 2^64 - 1.
#[derive(Clone, Copy)]
pub struct Walked {
    pub answer: ShallowEnd,
    pub expansions: u64,
}

impl<W: Walk> Pass<W, ()> for Walked {
    ghost use Rattle.hp_shallow.specs.Walking.{meets_walked};

    type Error = AllocError;

    ghost meets = { λ tree. meets_walked };

    ghost fails = { λ s c v e d. ⊥ };

    fn meet(&mut self, _walk: &W, _hand: &mut (), sight: Sight) -> Result<Turn, AllocError> {
        match sight {
            Sight::Did => {
                self.expansions = self.expansions.saturating_add(1);
                Ok(Turn::On)
            }
            Sight::Plan => {
                self.answer = ShallowEnd::Plan;
                Ok(Turn::Last)
            }
            Sight::Cut => {
                self.answer = ShallowEnd::Cut;
                Ok(Turn::On)
            }
            Sight::Fault(fault) => {
                self.answer = ShallowEnd::Fault(fault);
                Ok(Turn::Last)
            }
        }
    }
}

/// Walks up to the first plan of what is left, and stands at it then. Where there is none, or a fault comes before it,
/// nothing is left; where a cut is answered, it stands at the root. After an error the walk may be used no more.
pub fn first_end<W: Walk>(walk: &mut W) -> Result<Walked, AllocError>
    requires live { W.is_live walk.old ≡ true }
    requires at { All (IsAtItsNode (W.tree walk.old)) (W.stands walk.old).rest }
    ensures answer { IfOk result (λ w. w.answer ≡ shallow_end (first_end (W.stands walk.old).rest).ending) }
    ensures expansions { IfOk result (λ w. w.expansions
        ≡ count_told (first_end (W.stands walk.old).rest).tally.expansions) }
    ensures plan { IfOk result (λ w. w.answer ≡ ShallowEnd.Plan
        → StandsAtPlan (W.tree walk.new) (W.stands walk.new) (W.stands walk.old).rest) }
    ensures root { IfOk result (λ w. w.answer ≡ ShallowEnd.Cut → (W.stands walk.new).path ≡ []) }
    ensures tree { W.tree walk.new ≡ W.tree walk.old }
    ensures live { OnOk result (W.is_live walk.new ≡ true) }
{
    let mut walked = Walked {
        answer: ShallowEnd::End,
        expansions: 0,
    };
    match go_through(walk, &mut walked, &mut ()) {
        Ok(()) => Ok(walked),
        Err(Stop::NoMemory) => Err(AllocError),
        Err(Stop::Failed(error)) => Err(error),
    }
}
