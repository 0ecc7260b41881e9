//! The walks of a pair at one depth after another.
ghost use Rattle.std.specs.Prelude.{◌≡◌, ◌≤◌, ◌<◌, ◌+◌, ℕ, List, [], pos, true, IfOk, OnOk};
ghost use Rattle.hp_code.specs.CodeViews.{rules_in};
ghost use Rattle.hp_code.specs.Codes.{code_of};
ghost use Rattle.hp_search.specs.Planned.{stands_planned, tree_planned, with_depth};
ghost use Rattle.hp_syntax.specs.declared.limits.TheConstants.{GREATEST_DEPTH, MOST_LEVELS};
ghost use Rattle.hp_syntax.specs.GroundPatterns.{IsGroundPair};
ghost use Rattle.hp_syntax.specs.Views.{pair_of};
ghost use Rattle.hp_syntax.specs.Walk.{Visit, count_told, root};
ghost use Rattle.hp_shallow.specs.Deepening.{HasWalked, IsLeast, is_cut};
ghost use Rattle.hp_shallow.specs.LeastDepth.{HasNoPlan, IsShallowest, IsWalkedAt, StandsAtPlan};
ghost use Rattle.hp_shallow.specs.LeastDepth.{first_end, shallow_end, visits_at};

use crate::laws::least_depths_are_least;
use crate::walking::{ShallowEnd, first_end};
use hp_code::Code;
use hp_laws::tree_laws::visits_are_in_the_tree;
use hp_search::Planner;
use hp_syntax::Pair;
use std::alloc::{AllocError, Global};

/// What a search came to: the walk of the depth that decides, that depth, its answer, and the number of decompositions
/// of all depths up to it. The count stays at 2^64 - 1.
#[derive(Drop)]
pub struct Least<'a> {
    pub walk: Planner<'a>,
    pub depth: u32,
    pub expansions: u64,
    pub answer: ShallowEnd,
}

/// Whether a walk was cut short.
fn is_cut(answer: ShallowEnd) -> bool
    ensures { result ≡ is_cut answer }
{
    match answer {
        ShallowEnd::Cut => true,
        ShallowEnd::Plan | ShallowEnd::End | ShallowEnd::Fault(_) => false,
    }
}

/// The walk of a pair at a depth, up to its first plan. So many decompositions were made before.
pub fn walk_at<'a>(
    alloc: Global,
    code: &'a Code,
    pair: &Pair,
    depth: u32,
    nest: u32,
    before: u64,
) -> Result<Least<'a>, AllocError>
    requires pair { IsGroundPair (pair_of pair.now) }
    requires depth { depth ≤ GREATEST_DEPTH }
    requires nest { nest ≤ MOST_LEVELS }
    ensures depth { IfOk result (λ l. l.depth ≡ depth) }
    ensures answer { IfOk result (λ l. l.answer
        ≡ shallow_end (first_end (visits_at (rules_in (code_of code.now)) nest (pair_of pair.now) depth)).ending) }
    ensures expansions { IfOk result (λ l. l.expansions ≡ count_told (before
        + (first_end (visits_at (rules_in (code_of code.now)) nest (pair_of pair.now) depth)).tally.expansions)) }
    ensures plan { IfOk result (λ l. l.answer ≡ ShallowEnd.Plan
        → StandsAtPlan (tree_planned l.walk) (stands_planned l.walk)
        (visits_at (rules_in (code_of code.now)) nest (pair_of pair.now) depth)) }
    ensures tree { IfOk result (λ l. tree_planned l.walk ≡ record {
      rules = rules_in (code_of code.now);
      nest = nest;
      root = root (pair_of pair.now) depth;
    }) }
    ensures root { IfOk result (λ l. l.answer ≡ ShallowEnd.Cut → (stands_planned l.walk).path ≡ []) }
    ensures live { IfOk result (λ l. l.walk.live ≡ true) }
{
    // Nothing runs here: the law makes known that each visit's path reaches its node.
    visits_are_in_the_tree();
    let mut walk = Planner::new(alloc, code, pair, depth, nest)?;
    match first_end(&mut walk) {
        Ok(walked) => Ok(Least {
            walk,
            depth,
            expansions: before.saturating_add(walked.expansions),
            answer: walked.answer,
        }),
        Err(error) => Err(error),
    }
}

/// Walks one depth further from the root, over the memory of the walk that was cut short, up to the first plan.
fn go_deeper(least: &mut Least<'_>) -> Result<(), AllocError>
    requires live { least.old.walk.live ≡ true }
    requires root { (stands_planned least.old.walk).path ≡ [] }
    requires cost { (tree_planned least.old.walk).root.cost ≡ pos 0 }
    requires depth { least.old.depth < GREATEST_DEPTH }
    ensures depth { OnOk result (least.new.depth ≡ least.old.depth + 1) }
    ensures walked { OnOk result (HasWalked least.new
        (with_depth (least.old.depth + 1) (tree_planned least.old.walk)) least.old.expansions) }
{
    // Nothing runs here: the law makes known that each visit's path reaches its node.
    visits_are_in_the_tree();
    let depth = least.depth + 1;
    least.walk.begin_again(depth)?;
    let walked = first_end(&mut least.walk)?;
    least.depth = depth;
    least.expansions = least.expansions.saturating_add(walked.expansions);
    least.answer = walked.answer;
    Ok(())
}

/// The least depth up to a limit whose walk isn't cut short, or the limit where each is: walks one depth after another,
/// from 0 on, each up to its first plan and over the memory that the one before had.
pub fn shallow<'a>(
    alloc: Global,
    code: &'a Code,
    pair: &Pair,
    limit: u32,
    nest: u32,
) -> Result<Least<'a>, AllocError>
    requires pair { IsGroundPair (pair_of pair.now) }
    requires limit { limit ≤ GREATEST_DEPTH }
    requires nest { nest ≤ MOST_LEVELS }
    ensures least { IfOk result (λ l. (at : ℕ → List Visit)
        → IsWalkedAt (rules_in (code_of code.now)) nest (pair_of pair.now) at → IsLeast l at limit) }
    ensures within { IfOk result (λ l. l.depth ≤ limit) }
    ensures shallowest { IfOk result (λ l. l.answer ≡ ShallowEnd.Plan
        → IsShallowest (rules_in (code_of code.now)) nest (pair_of pair.now) l.depth) }
    ensures none { IfOk result (λ l. l.answer ≡ ShallowEnd.End
        → (d : ℕ) → HasNoPlan (rules_in (code_of code.now)) nest (pair_of pair.now) d) }
    ensures cut { IfOk result (λ l. l.answer ≡ ShallowEnd.Cut
        → (d : ℕ) → d ≤ limit → HasNoPlan (rules_in (code_of code.now)) nest (pair_of pair.now) d) }
    ensures plan { IfOk result (λ l. l.answer ≡ ShallowEnd.Plan
        → StandsAtPlan (tree_planned l.walk) (stands_planned l.walk)
        (visits_at (rules_in (code_of code.now)) nest (pair_of pair.now) l.depth)) }
    ensures tree { IfOk result (λ l. tree_planned l.walk ≡ record {
      rules = rules_in (code_of code.now);
      nest = nest;
      root = root (pair_of pair.now) l.depth;
    }) }
    ensures live { IfOk result (λ l. l.walk.live ≡ true) }
{
    // Nothing runs here: the law makes known that no smaller depth has a plan.
    least_depths_are_least();
    let mut least = walk_at(alloc, code, pair, 0, nest, 0)?;
    loop {
        if least.depth == limit || !is_cut(least.answer) {
            return Ok(least);
        }
        go_deeper(&mut least)?;
    }
}
