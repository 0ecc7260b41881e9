//! How far a plan can be derived.
ghost use Rattle.std.specs.Prelude.{◌≡◌, IfOk, map, option_map};
ghost use Rattle.hp_doctor_why.specs.Reasons.{reason_of};
ghost use Rattle.hp_doctor_why.specs.Searches.{CanSearch, tree_searched};
ghost use Rattle.hp_doctor_why.specs.Whys.{kept};
ghost use Rattle.hp_following.specs.Follows.{HasMost, IsFollowed, IsFollowing, IsUnderived};
ghost use Rattle.hp_syntax.specs.GroundViews.{ground_of};
ghost use Rattle.hp_doctor_derive.specs.Stopping.{IsFound, reason_if};

use hp_code::laws::{compiled_rules_are_a_code, lowered_rules_have_the_tree};
use hp_doctor_why::{Reason, Search, reason_here};
use hp_following::{FollowEnd, Following, follow, stand_at};
use hp_search::Planner;
use hp_syntax::Ground;
use std::alloc::{AllocError, Global};

/// How far the walk along a plan came.
pub struct Found {
    pub following: Following,
    /// What keeps the tasks from being done at the decomposition that came furthest. None where the plan is derived or a
    /// fault was met, and where a number of the path may stand for a greater one.
    pub reason: Option<Reason>,
}

impl Drop for Found {
    fn drop(self) {
        let Found { following, reason } = self;
        drop(following);
        drop(reason);
    }
}

/// How far the walk along a plan comes in the tree of a pair.
fn follow_pair(alloc: Global, search: Search<'_>, steps: &[Ground]) -> Result<Following, AllocError>
    requires search { CanSearch search }
    ensures following { IfOk result (IsFollowing (map ground_of steps.now) (tree_searched search.entry)) }
    ensures followed { IfOk result (λ f. IsUnderived f.end
        → IsFollowed (map ground_of steps.now) (tree_searched search.entry) f.path.items) }
    ensures most { IfOk result (HasMost (map ground_of steps.now) (tree_searched search.entry)) }
{
    // Nothing runs here: the laws make known that the walk by the code is one of the domain's tree.
    compiled_rules_are_a_code();
    lowered_rules_have_the_tree();
    let mut walk = Planner::new(alloc, search.code, search.pair, search.depth, search.nest)?;
    follow(alloc, &mut walk, steps)
}

/// The reasons at a decomposition of the walk along a plan, by a second walk that goes to it.
fn reason_at(
    alloc: Global,
    search: Search<'_>,
    steps: &[Ground],
    path: &[u64],
) -> Result<Option<Reason>, AllocError>
    requires search { CanSearch search }
    requires followed { IsFollowed (map ground_of steps.now) (tree_searched search) path.now }
    ensures { IfOk result (λ r. option_map kept r ≡ reason_of (tree_searched search.entry) path.now) }
{
    compiled_rules_are_a_code();
    lowered_rules_have_the_tree();
    let mut walk = Planner::new(alloc, search.code, search.pair, search.depth, search.nest)?;
    if stand_at(&mut walk, steps, path)? {
        let found = reason_here(alloc, search, &mut walk)?;
        Ok(Some(found))
    } else {
        Ok(None)
    }
}

/// The reasons where a plan that isn't derived stops.
fn reason_there(
    alloc: Global,
    search: Search<'_>,
    steps: &[Ground],
    following: &Following,
) -> Result<Option<Reason>, AllocError>
    requires search { CanSearch search }
    requires followed { IsUnderived following.now.end
        → IsFollowed (map ground_of steps.now) (tree_searched search) following.now.path.items }
    ensures { IfOk result (λ r. option_map kept r
        ≡ reason_if (tree_searched search.entry) following.now.end following.now.path.items) }
{
    match following.end {
        FollowEnd::Derived => Ok(None),
        FollowEnd::Whole => reason_at(alloc, search, steps, following.path.as_slice()),
        FollowEnd::Cut => reason_at(alloc, search, steps, following.path.as_slice()),
        FollowEnd::Fault(_) => Ok(None),
    }
}

/// How far the walk along a plan comes in the tree of a pair, and what keeps the tasks there from being done.
pub fn found_of(alloc: Global, search: Search<'_>, steps: &[Ground]) -> Result<Found, AllocError>
    requires search { CanSearch search }
    ensures { IfOk result (IsFound (map ground_of steps.now) (tree_searched search.entry)) }
{
    let following = follow_pair(alloc, search, steps)?;
    let reason = reason_there(alloc, search, steps, &following)?;
    Ok(Found { following, reason })
}
