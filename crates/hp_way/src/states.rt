//! The states on the way to a plan.
ghost use Rattle.std.specs.Prelude.{◌≡◌, ◌-◌, ◌<◌, ◌≤◌, ◌^◌, true, IfOk, MatchOption, length, map};
ghost use Rattle.std.specs.List.{All};
ghost use Rattle.hp_code.specs.CodeViews.{rules_in};
ghost use Rattle.hp_code.specs.Codes.{code_of};
ghost use Rattle.hp_net.specs.Standings.{tree_visits};
ghost use Rattle.hp_search.specs.Planned.{stands_planned, tree_planned};
ghost use Rattle.hp_syntax.specs.declared.limits.TheConstants.{GREATEST_DEPTH, MOST_LEVELS};
ghost use Rattle.hp_syntax.specs.GroundPatterns.{IsGroundPair};
ghost use Rattle.hp_syntax.specs.GroundViews.{ground_of};
ghost use Rattle.hp_syntax.specs.Views.{pair_of};
ghost use Rattle.hp_syntax.specs.Walk.{root};
ghost use Rattle.hp_way.specs.Along.{HasStateAt};
ghost use Rattle.hp_way.specs.Ways.{HasNoStateOnTheWay, IsStateOnTheWay};

use hp_after::{Reached, reach};
use hp_changes::atoms_of;
use hp_code::Code;
use hp_search::Planner;
use hp_syntax::{Ground, Pair};
use std::alloc::{AllocError, Global};

/// The atoms that hold at the node which so many of the first numbers of a walk's path reach.
fn atoms_at(alloc: Global, planner: Planner<'_>, count: usize) -> Result<Vec<Ground>, AllocError>
    requires live { planner.live ≡ true }
    requires count { count ≤ length (stands_planned planner).path }
    ensures { IfOk result (λ v. HasStateAt planner.entry count (map ground_of v.items)) }
{
    let (world, cells) = planner.into_world_at(count);
    atoms_of(alloc, &world, &cells)
}

/// The atoms that hold at the node which so many of the first numbers of a path reach, where a new walk comes to a plan
/// at the path.
fn state_in(
    alloc: Global,
    mut planner: Planner<'_>,
    path: &[u64],
    count: usize,
) -> Result<Option<Vec<Ground>>, AllocError>
    requires live { planner.live ≡ true }
    requires new { (stands_planned planner).rest ≡ tree_visits (tree_planned planner) }
    requires small { All (λ i. i < 2 ^ 64 - 1) path.now }
    requires within { count ≤ length path.now }
    ensures { IfOk result (λ s. MatchOption s
        (HasNoStateOnTheWay (tree_planned planner.entry).rules (tree_planned planner.entry).nest
        (tree_planned planner.entry).root path.now count)
        (λ v. IsStateOnTheWay (tree_planned planner.entry).rules (tree_planned planner.entry).nest
        (tree_planned planner.entry).root path.now count (map ground_of v.items))) }
{
    let arrival = reach(&mut planner, path)?;
    match arrival.answer {
        Reached::At => {
            let atoms = atoms_at(alloc, planner, count)?;
            Ok(Some(atoms))
        }
        Reached::Absent => Ok(None),
        Reached::Fault(_) => Ok(None),
    }
}

/// The atoms that hold at the node which so many of the first numbers of a path reach, in the order of its state, where
/// a plan stands at the path. None where there is no such plan or a fault comes before it, and where the path has fewer
/// numbers.
pub fn state_on_the_way(
    alloc: Global,
    code: &Code,
    pair: &Pair,
    depth: u32,
    nest: u32,
    path: &[u64],
    count: usize,
) -> Result<Option<Vec<Ground>>, AllocError>
    requires pair { IsGroundPair (pair_of pair.now) }
    requires depth { depth ≤ GREATEST_DEPTH }
    requires nest { nest ≤ MOST_LEVELS }
    requires small { All (λ i. i < 2 ^ 64 - 1) path.now }
    ensures { IfOk result (λ s. MatchOption s
        (HasNoStateOnTheWay (rules_in (code_of code.now)) nest (root (pair_of pair.now) depth) path.now count)
        (λ v. IsStateOnTheWay (rules_in (code_of code.now)) nest (root (pair_of pair.now) depth) path.now count
        (map ground_of v.items))) }
{
    if path.len() < count {
        return Ok(None);
    }
    let planner = Planner::new(alloc, code, pair, depth, nest)?;
    state_in(alloc, planner, path, count)
}
