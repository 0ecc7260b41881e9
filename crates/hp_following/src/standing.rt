//! A walk along a plan to a decomposition.
ghost use Rattle.std.specs.Prelude.{◌≡◌, [], false, true, map, IfOk, OnOk};
ghost use Rattle.hp_net.specs.Standings.{tree_visits};
ghost use Rattle.hp_syntax.specs.GroundViews.{ground_of};
ghost use Rattle.hp_dead_ends.specs.Arriving.{HasArrived, is_small};
ghost use Rattle.hp_following.specs.Follows.{IsFollowed};

use hp_dead_ends::is_small;
use hp_net::Walk;
use hp_passes::{Pass, Sight, Stop, Turn, go_through};
use hp_syntax::Ground;
use hp_verify::{are_steps, leads_on};
use std::alloc::AllocError;

/// Whether two paths are the same.
fn are_same(path: &[u64], target: &[u64]) -> bool
    ensures yes { result ≡ true → path.now ≡ target.now }
    ensures no { result ≡ false → path.now ≡ target.now → ⊥ }
{
    path == target
}

/// A walk along a plan to a path.
#[derive(Clone, Copy)]
struct Heading<'a> {
    plan: &'a [Ground],
    target: &'a [u64],
}

impl<'a, W: Walk> Pass<W, ()> for Heading<'a> {
    ghost use Rattle.hp_following.specs.Heading.{MeetsHeading};

    type Error = AllocError;

    ghost meets = { λ tree. MeetsHeading };

    ghost fails = { λ s c v e d. ⊥ };

    fn meet(&mut self, walk: &W, _hand: &mut (), sight: Sight) -> Result<Turn, AllocError> {
        match sight {
            Sight::Did => {
                if !leads_on(walk, self.plan) {
                    return Ok(Turn::Past);
                }
                if are_same(walk.path(), self.target) {
                    Ok(Turn::Last)
                } else {
                    Ok(Turn::On)
                }
            }
            Sight::Plan => {
                if are_steps(walk, self.plan) {
                    Ok(Turn::Last)
                } else {
                    Ok(Turn::On)
                }
            }
            Sight::Cut => Ok(Turn::On),
            Sight::Fault(_) => Ok(Turn::Last),
        }
    }
}

/// Goes along a plan to the node of a decomposition, by its path, in the tree of a new walk. It is one of those that
/// `follow` goes through, and the root counts as one.
///
/// In a path a number of 2^64 - 1 may mean a greater one. Where there is such a number the answer is no, and the walk
/// stays as it was. After an error the walk may be used no more.
pub fn stand_at<W: Walk>(walk: &mut W, steps: &[Ground], path: &[u64]) -> Result<bool, AllocError>
    requires live { W.is_live walk.old ≡ true }
    requires new { (W.stands walk.old).rest ≡ tree_visits (W.tree walk.old) }
    requires at_root { (W.stands walk.old).path ≡ [] }
    requires followed { IsFollowed (map ground_of steps.now) (W.tree walk.old) path.now }
    ensures is { IfOk result (λ b. b ≡ is_small path.now) }
    ensures unmoved { IfOk result (λ b. b ≡ false → W.stands walk.new ≡ W.stands walk.old) }
    ensures there { IfOk result (λ b. b ≡ true → HasArrived (W.tree walk.old) (W.stands walk.new) path.now) }
    ensures tree { W.tree walk.new ≡ W.tree walk.old }
    ensures live { OnOk result (W.is_live walk.new ≡ true) }
{
    if !is_small(path) {
        return Ok(false);
    }
    if path.is_empty() {
        return Ok(true);
    }
    let mut heading = Heading {
        plan: steps,
        target: path,
    };
    match go_through(walk, &mut heading, &mut ()) {
        Ok(()) => Ok(true),
        Err(Stop::NoMemory) => Err(AllocError),
        Err(Stop::Failed(error)) => Err(error),
    }
}
