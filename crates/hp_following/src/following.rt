//! How far a walk along a plan comes.
ghost use Rattle.std.specs.Prelude.{◌≡◌, [], true, map, length, IfOk, OnOk};
ghost use Rattle.hp_net.specs.Standings.{tree_visits};
ghost use Rattle.hp_syntax.specs.GroundViews.{ground_of};
ghost use Rattle.hp_dead_ends.specs.DeadEnds.{is_further, rank};
ghost use Rattle.hp_following.specs.Follows.{HasMost, IsFollowed, IsFollowing, IsUnderived};
ghost use Rattle.hp_following.specs.Tracking.{rank_found};

use hp_net::Walk;
use hp_passes::{Pass, Sight, Turn, go_through};
use hp_syntax::{Ground, RunFault};
use hp_verify::{are_steps, leads_on};
use std::alloc::{AllocError, Global};

/// How a walk along a plan ended: at the plan, with all visited that may lead to it, with a limit that cut the tree
/// somewhere there, or at a fault.
#[derive(Clone, Copy, Debug, PartialEq, Eq)]
pub enum FollowEnd {
    Derived,
    Whole,
    Cut,
    Fault(RunFault),
}

/// How far a walk along a plan came, and how it ended.
pub struct Following {
    /// The path of the plan where it is derived, else that of the first decomposition that came furthest. For each
    /// decomposition on the way it has the number among those of its parent, from 0 on; one that is greater than
    /// 2^64 - 1 is told as that.
    pub path: Vec<u64>,
    /// How many steps there are.
    pub steps: u64,
    pub end: FollowEnd,
}

// A derived drop would do the same, but be proved anew wherever one is let go.
impl Drop for Following {
    fn drop(self) {
        let Following {
            path,
            steps: _,
            end: _,
        } = self;
        drop(path);
    }
}

/// Whether so many steps at a path are further than what was found.
fn comes_further(found: &Following, path: &[u64], steps: usize) -> bool
    ensures { result ≡ is_further (rank steps (length path.now)) (rank_found found.now) }
{
    let steps = steps as u64;
    found.steps < steps || (found.steps == steps && found.path.len() < path.len())
}

/// A walk along a plan, with what it has found so far.
#[derive(Drop)]
struct Tracking<'a> {
    alloc: Global,
    plan: &'a [Ground],
    found: Following,
}

impl<'a> Tracking<'a> {
    ghost use Rattle.std.specs.Prelude.{◌≡◌, OnOk, length};
    ghost use Rattle.hp_syntax.specs.Walk.{Visit, told};
    ghost use Rattle.hp_following.specs.Tracking.{IsPlaced, Notes};

    /// Keeps a place.
    fn keep(&mut self, path: &[u64], steps: usize) -> Result<(), AllocError>
        ensures { OnOk result (IsPlaced self.old self.new path.now steps) }
    {
        self.found.path = Vec::from_slice(self.alloc, path)?;
        self.found.steps = steps as u64;
        Ok(())
    }

    /// Keeps the place of a decomposition, where it comes further than what was found.
    fn note(&mut self, path: &[u64], steps: usize) -> Result<(), AllocError>
        ensures { OnOk result ((v : Visit) → path.now ≡ told v.path → steps ≡ length v.node.steps
            → Notes self.old self.new v) }
    {
        if !comes_further(&self.found, path, steps) {
            return Ok(());
        }
        self.keep(path, steps)
    }
}

impl<'a, W: Walk> Pass<W, ()> for Tracking<'a> {
    ghost use Rattle.hp_following.specs.Tracking.{MeetsTracking};

    type Error = AllocError;

    ghost meets = { λ tree. MeetsTracking };

    ghost fails = { λ s c v e d. Unit {0} };

    fn meet(&mut self, walk: &W, _hand: &mut (), sight: Sight) -> Result<Turn, AllocError> {
        match sight {
            Sight::Did => {
                if !leads_on(walk, self.plan) {
                    return Ok(Turn::Past);
                }
                self.note(walk.path(), walk.plan().len())?;
                Ok(Turn::On)
            }
            Sight::Plan => {
                if !are_steps(walk, self.plan) {
                    return Ok(Turn::On);
                }
                self.keep(walk.path(), walk.plan().len())?;
                self.found.end = FollowEnd::Derived;
                Ok(Turn::Last)
            }
            Sight::Cut => {
                self.found.end = FollowEnd::Cut;
                Ok(Turn::On)
            }
            Sight::Fault(fault) => {
                self.found.end = FollowEnd::Fault(fault);
                Ok(Turn::Last)
            }
        }
    }
}

/// Goes through the tree of a new walk along a plan, up to a plan with its steps or a fault. What lies below a
/// decomposition whose steps don't begin the plan is left out: nothing there begins it. Where the plan isn't derived,
/// the first of the other decompositions that came furthest is told, and the root counts as one. These have the most
/// steps, and among them the most decompositions. After an error the walk may be used no more.
pub fn follow<W: Walk>(
    alloc: Global,
    walk: &mut W,
    steps: &[Ground],
) -> Result<Following, AllocError>
    requires live { W.is_live walk.old ≡ true }
    requires new { (W.stands walk.old).rest ≡ tree_visits (W.tree walk.old) }
    requires at_root { (W.stands walk.old).path ≡ [] }
    ensures following { IfOk result (IsFollowing (map ground_of steps.now) (W.tree walk.old)) }
    ensures followed { IfOk result (λ f. IsUnderived f.end
        → IsFollowed (map ground_of steps.now) (W.tree walk.old) f.path.items) }
    ensures most { IfOk result (HasMost (map ground_of steps.now) (W.tree walk.old)) }
    ensures tree { W.tree walk.new ≡ W.tree walk.old }
    ensures live { OnOk result (W.is_live walk.new ≡ true) }
{
    let mut tracking = Tracking {
        alloc,
        plan: steps,
        found: Following {
            path: Vec::new(alloc),
            steps: walk.plan().len() as u64,
            end: FollowEnd::Whole,
        },
    };
    match go_through(walk, &mut tracking, &mut ()) {
        Ok(()) => Ok(tracking.found),
        Err(_) => Err(AllocError),
    }
}
