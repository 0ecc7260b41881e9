//! One loop for all that goes through the visits of a walk.
ghost use Rattle.std.specs.List.{All};
ghost use Rattle.std.specs.Option.{option_map};
ghost use Rattle.std.specs.Prelude.{◌≡◌, true, OnOk, IfErr};
ghost use Rattle.hp_net.specs.Standings.{IsAtItsNode};
ghost use Rattle.hp_passes.specs.Passing.{Passes, Stops, seen_of, sight_of};

use hp_net::{Step, Walk};
use hp_syntax::RunFault;

/// What is seen at a visit.
#[derive(Clone, Copy, Debug, PartialEq, Eq)]
pub enum Sight {
    /// A task was done or decomposed.
    Did,
    /// Nothing is left to do.
    Plan,
    /// A limit cut the tree here.
    Cut,
    /// After a fault nothing more comes.
    Fault(RunFault),
}

/// How a pass goes on after a visit.
#[derive(Clone, Copy, Debug, PartialEq, Eq)]
pub enum Turn {
    /// With the next visit.
    On,
    /// With the next visit that doesn't lie below the decomposition just visited.
    Past,
    /// Not at all.
    Last,
}

/// Why a pass went no further.
#[derive(Clone, Copy, Debug, PartialEq, Eq)]
pub enum Stop<E> {
    /// The walk ran out of memory.
    NoMemory,
    /// The pass failed at a visit.
    Failed(E),
}

/// What is made of the visits of a walk, one after the other.
///
/// A pass has a state of its own, and something at hand that it may change, as a sink. A counter of visits, the best
/// plan so far, and the writer of plans are passes.
pub trait Pass<W: Walk, C> {
    ghost use Rattle.std.specs.Prelude.{◌≡◌, true, Some, IfOk, IfErr};
    ghost use Rattle.hp_net.specs.Standings.{Tree, node_reached};
    ghost use Rattle.hp_syntax.specs.Walk.{Node, Visit, visit};
    ghost use Rattle.hp_passes.specs.Passing.{Fits, IsReached, sight_of};
    ghost use Rattle.hp_passes.specs.declared.passing.Turn.{Turn};

    /// What makes a visit fail.
    type Error;

    /// What a visit of a tree makes of the pass and of what is at hand, and how it goes on.
    ghost meets: { Tree → Self → C → Visit → Turn → Self → C → Type 0 };

    /// What is left at hand where a visit fails.
    ghost fails: { Self → C → Visit → Self.Error → C → Type 0 };

    /// Makes a visit, where the walk stands at its node. What lies below is left out only after a decomposition, and a
    /// fault is the last visit.
    fn meet(&mut self, walk: &W, hand: &mut C, sight: Sight) -> Result<Turn, Self::Error>
        requires live { W.is_live walk.now ≡ true }
        requires reached { IsReached (W.tree walk.now) (W.stands walk.now) }
        ensures meets { IfOk result (λ t. (n : Node) → node_reached (W.tree walk.now) (W.stands walk.now) ≡ Some n
            → meets (W.tree walk.now) self.old hand.old (visit (W.stands walk.now).path n (sight_of sight)) t self.new hand.new) }
        ensures fits { IfOk result (Fits sight) }
        ensures fails { IfErr result (λ e. (n : Node) → node_reached (W.tree walk.now) (W.stands walk.now) ≡ Some n
            → fails self.old hand.old (visit (W.stands walk.now).path n (sight_of sight)) e hand.new) };
}

/// What a step of a walk sees. None at its end.
fn seen(step: Step) -> Option<Sight>
    ensures { option_map sight_of result ≡ seen_of step }
{
    match step {
        Step::Did => Some(Sight::Did),
        Step::Plan => Some(Sight::Plan),
        Step::Cut => Some(Sight::Cut),
        Step::Fault(fault) => Some(Sight::Fault(fault)),
        Step::End => None,
    }
}

/// Makes the visits that are left to a walk, up to the last that a pass wants.
///
/// After a stop the pass may hold anything, and what is at hand is as `Stops` says. A walk that ran out of memory may
/// be used no more.
pub fn go_through<W: Walk, C, P: Pass<W, C>>(
    walk: &mut W,
    pass: &mut P,
    hand: &mut C,
) -> Result<(), Stop<P::Error>>
    requires live { W.is_live walk.old ≡ true }
    requires at { All (IsAtItsNode (W.tree walk.old)) (W.stands walk.old).rest }
    ensures passes { OnOk result (Passes (P.meets (W.tree walk.old)) pass.old hand.old (W.stands walk.old).rest
        pass.new hand.new (W.stands walk.new)) }
    ensures stops { IfErr result (λ e. Stops (P.meets (W.tree walk.old)) P.fails pass.old hand.old
        (W.stands walk.old).rest e hand.new) }
    ensures tree { W.tree walk.new ≡ W.tree walk.old }
    ensures root_cells { W.root_cells walk.new ≡ W.root_cells walk.old }
    ensures live { OnOk result (W.is_live walk.new ≡ true) }
{
    loop {
        let Ok(step) = walk.next() else {
            return Err(Stop::NoMemory);
        };
        let Some(sight) = seen(step) else {
            return Ok(());
        };
        match pass.meet(walk, hand, sight) {
            Ok(Turn::On) => {}
            Ok(Turn::Past) => walk.prune(),
            Ok(Turn::Last) => return Ok(()),
            Err(error) => return Err(Stop::Failed(error)),
        }
    }
}
