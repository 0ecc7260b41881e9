//! What the steps on the way to a node change.
ghost use Rattle.std.specs.Prelude.{◌≡◌, ◌≤◌, false, IfOk, MatchOption};
ghost use Rattle.hp_code.specs.CodeViews.{rules_in};
ghost use Rattle.hp_code.specs.Codes.{code_of};
ghost use Rattle.hp_dead_ends.specs.Arriving.{is_small};
ghost use Rattle.hp_changes.specs.Changing.{AreAlong};
ghost use Rattle.hp_syntax.specs.declared.limits.TheConstants.{GREATEST_DEPTH, MOST_LEVELS};
ghost use Rattle.hp_syntax.specs.GroundPatterns.{IsGroundPair};
ghost use Rattle.hp_syntax.specs.Views.{pair_of};
ghost use Rattle.hp_syntax.specs.Walk.{root};
ghost use Rattle.hp_way.specs.Ways.{tree_of};

use hp_changes::{Changed, changes_along};
use hp_code::Code;
use hp_search::Planner;
use hp_syntax::Pair;
use std::alloc::{AllocError, Global};

/// What the decompositions on the way to a path change, one by one, in the tree of a pair at a depth, by the rules of a
/// code, where axioms may call one another so deep. There is no answer where a number of the path is 2^64 - 1, since
/// that may mean a greater one.
pub fn changes_on_the_way(
    alloc: Global,
    code: &Code,
    pair: &Pair,
    depth: u32,
    nest: u32,
    path: &[u64],
) -> Result<Option<Vec<Changed>>, AllocError>
    requires pair { IsGroundPair (pair_of pair.now) }
    requires depth { depth ≤ GREATEST_DEPTH }
    requires nest { nest ≤ MOST_LEVELS }
    ensures { IfOk result (λ o. MatchOption o (is_small path.now ≡ false)
        (λ v. AreAlong (tree_of (rules_in (code_of code.now)) nest (root (pair_of pair.now) depth)) path.now v.items)) }
{
    let mut planner = Planner::new(alloc, code, pair, depth, nest)?;
    changes_along(alloc, &mut planner, path)
}
