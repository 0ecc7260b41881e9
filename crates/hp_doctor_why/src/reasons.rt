//! Why a pair has no plan.
ghost use Rattle.std.specs.Prelude.{◌≡◌, false, true, [], Some, IfOk, IfSome, MatchOption, OnOk, map, option_map};
ghost use Rattle.std.specs.List.{All};
ghost use Rattle.hp_code.specs.Codes.{code_of};
ghost use Rattle.hp_code.specs.CodeViews.{IsCodeOf};
ghost use Rattle.hp_dead_ends.specs.Arriving.{HasHeldCuts, IsHeld};
ghost use Rattle.hp_dead_ends.specs.DeadEnds.{is_stopped};
ghost use Rattle.hp_dead_ends.specs.Finding.{HasMet, IsFoundIn, IsFurthest, items_of};
ghost use Rattle.hp_dead_ends.specs.declared.searching.SearchEnd.TheVariants as ends;
ghost use Rattle.hp_blame.specs.Blames.{blame_kept};
ghost use Rattle.hp_syntax.specs.declared.fault.RunFault.{RunFault};
ghost use Rattle.hp_net.specs.Standings.{node_reached};
ghost use Rattle.hp_search.specs.Planned.{stands_planned, tree_planned};
ghost use Rattle.hp_syntax.specs.GroundViews.{ground_of};
ghost use Rattle.hp_syntax.specs.Views.{domain_of};
ghost use Rattle.hp_way.specs.Ways.{deed_of};
ghost use Rattle.hp_doctor_why.specs.Searches.{CanSearch, IsFresh, IsWalkOf, tree_searched};
ghost use Rattle.hp_doctor_why.specs.Reasons.{AreTasksTo, IsBlamed, IsCutAt, IsCutAtIf, IsWhy, lowered_tree, reason_of};
ghost use Rattle.hp_doctor_why.specs.Whys.{cut_of, kept, reason_at};

use hp_best::to_grounds;
use hp_blame::{Blame, find_blame};
use hp_code::Code;
use hp_code::laws::{compiled_rules_are_a_code, lowered_rules_have_the_tree};
use hp_dead_ends::{DeadEnd, DeadEnds, SearchEnd, find, go_to};
use hp_net::Walk;
use hp_obstacles::{Stuck, all_stuck, next_tasks};
use hp_search::Planner;
use hp_syntax::{Domain, Ground, Pair};
use hp_way::{Deed, deeds_of};
use std::alloc::{AllocError, Global};

/// The steps before a dead end, the atoms that are protected there, and what keeps the tasks there from being done.
pub struct Reason {
    pub steps: Vec<Ground>,
    pub guards: Vec<Ground>,
    pub tasks: Vec<Stuck>,
}

// A derived drop would do the same, but be proved anew wherever a reason is let go.
impl Drop for Reason {
    fn drop(self) {
        let Reason {
            steps,
            guards,
            tasks,
        } = self;
        drop(steps);
        drop(guards);
        drop(tasks);
    }
}

/// What is known of a node that the depth cut: the tasks of the decompositions that lead there, and those that may be
/// done next.
pub struct Cut {
    pub way: Vec<Ground>,
    pub left: Vec<Ground>,
}

impl Drop for Cut {
    fn drop(self) {
        let Cut { way, left } = self;
        drop(way);
        drop(left);
    }
}

/// How far the search for a plan came, and what stopped it.
pub struct Why {
    pub found: DeadEnds,
    /// What was at fault, where a fault ended the search and it is found.
    pub blame: Option<Blame>,
    /// What is known of the first node that the depth cut, where there is one and its path can be followed.
    pub cut: Option<Cut>,
    /// The reasons at each of the furthest dead ends. None where a number of its path may stand for a greater one.
    pub reasons: Vec<Option<Reason>>,
}

impl Drop for Why {
    fn drop(self) {
        let Why {
            found,
            blame,
            cut,
            reasons,
        } = self;
        drop(found);
        drop(blame);
        drop(cut);
        drop(reasons);
    }
}

/// What is asked of a pair: the domain, its code, the depth, and how deep axioms may call one another.
#[derive(Clone, Copy)]
pub struct Search<'a> {
    pub domain: &'a Domain,
    pub code: &'a Code,
    pub pair: &'a Pair,
    pub depth: u32,
    pub nest: u32,
}

/// The steps before the node where a walk stands, and what keeps its tasks from being done.
pub fn reason_here(
    alloc: Global,
    search: Search<'_>,
    walk: &mut Planner<'_>,
) -> Result<Reason, AllocError>
    requires code { IsCodeOf (domain_of search.domain.now).rules (code_of search.code.now) }
    requires live { walk.old.live ≡ true }
    ensures { IfOk result (λ r. MatchOption (node_reached (tree_planned walk.old) (stands_planned walk.old)) ⊥
        (λ n. kept r ≡ reason_at (domain_of search.entry.domain.now).rules walk.old.nest n)) }
{
    let steps = to_grounds(alloc, walk.cells(), walk.plan())?;
    let guards = to_grounds(alloc, walk.cells(), walk.world().guards())?;
    let tasks = all_stuck(alloc, search.domain, search.code, walk)?;
    Ok(Reason {
        steps,
        guards,
        tasks,
    })
}

/// A walk of the tree of a pair.
fn new_walk<'a>(alloc: Global, search: Search<'a>) -> Result<Planner<'a>, AllocError>
    requires search { CanSearch search }
    ensures { IfOk result (IsFresh search.entry) }
{
    // Nothing runs here: the law makes known that the walk by the code is one of the domain's tree.
    compiled_rules_are_a_code();
    let walk = Planner::new(alloc, search.code, search.pair, search.depth, search.nest)?;
    Ok(walk)
}

/// A walk that is at its root, once more from there. It takes no memory for another world.
fn renewed<'a>(search: Search<'a>, walk: Planner<'a>) -> Result<Planner<'a>, AllocError>
    requires search { CanSearch search }
    requires of { IsWalkOf search walk }
    requires root { (stands_planned walk).path ≡ [] }
    ensures { IfOk result (IsFresh search.entry) }
{
    let mut own = walk;
    own.begin_again(search.depth)?;
    Ok(own)
}

/// A walk from the root, if one is left after a search.
fn spare_after<'a>(
    search: Search<'a>,
    walk: Planner<'a>,
    end: SearchEnd,
) -> Result<Option<Planner<'a>>, AllocError>
    requires search { CanSearch search }
    requires of { IsWalkOf search walk }
    requires over { is_stopped end ≡ false → (stands_planned walk).path ≡ [] }
    ensures { IfOk result (λ o. IfSome o (IsFresh search.entry)) }
{
    match end {
        SearchEnd::Whole | SearchEnd::Cut => {
            let own = renewed(search, walk)?;
            Ok(Some(own))
        }
        SearchEnd::Plan | SearchEnd::Fault(_) => Ok(None),
    }
}

/// The walk that is left, or else a new one.
fn walk_from<'a>(
    alloc: Global,
    search: Search<'a>,
    spare: Option<Planner<'a>>,
) -> Result<Planner<'a>, AllocError>
    requires search { CanSearch search }
    requires spare { IfSome spare (IsFresh search) }
    ensures { IfOk result (IsFresh search.entry) }
{
    match spare {
        Some(walk) => Ok(walk),
        None => new_walk(alloc, search),
    }
}

/// The reasons at a dead end, by a walk that goes to it.
fn reason_of_end<'a>(
    alloc: Global,
    search: Search<'a>,
    end: &DeadEnd,
    walk: Planner<'a>,
) -> Result<Option<Reason>, AllocError>
    requires search { CanSearch search }
    requires fresh { IsFresh search walk }
    requires held { IsHeld (tree_searched search) end.now.path.items }
    ensures { IfOk result (λ r. option_map kept r ≡ reason_of (tree_searched search.entry) end.now.path.items) }
{
    // Nothing runs here: the law makes known that the walk has the visits of the domain's tree.
    lowered_rules_have_the_tree();
    let mut own = walk;
    if go_to(&mut own, end.path.as_slice())? {
        let found = reason_here(alloc, search, &mut own)?;
        Ok(Some(found))
    } else {
        Ok(None)
    }
}

/// The reasons at each of some dead ends. The walk that is left goes to the first.
fn reasons_of_ends<'a>(
    alloc: Global,
    search: Search<'a>,
    ends: &[DeadEnd],
    spare: Option<Planner<'a>>,
) -> Result<Vec<Option<Reason>>, AllocError>
    requires search { CanSearch search }
    requires held { All (λ e. IsHeld (tree_searched search) e.path.items) ends.now }
    requires spare { IfSome spare (IsFresh search) }
    ensures { IfOk result (λ v. map (option_map kept) v.items
        ≡ map (λ e. reason_of (tree_searched search.entry) e.path.items) ends.now) }
{
    let mut reasons = Vec::with_capacity(alloc, ends.len())?;
    let mut left = spare;
    for end in ends {
        let walk = walk_from(alloc, search, left)?;
        left = None;
        let found = reason_of_end(alloc, search, end, walk)?;
        reasons.push(found)?;
    }
    Ok(reasons)
}

/// The tasks of some decompositions.
fn tasks_of(alloc: Global, deeds: Vec<Deed>) -> Result<Vec<Ground>, AllocError>
    ensures { IfOk result (λ v. map ground_of v.items ≡ map (λ d. d.task) (map deed_of deeds.items)) }
{
    let mut tasks = Vec::with_capacity(alloc, deeds.len())?;
    for deed in deeds {
        tasks.push(deed.into_task())?;
    }
    Ok(tasks)
}

/// The tasks of the decompositions that led a walk to where it stands.
fn tasks_on_the_way(alloc: Global, walk: &Planner<'_>) -> Result<Vec<Ground>, AllocError>
    requires live { walk.now.live ≡ true }
    ensures { IfOk result (λ v. AreTasksTo (tree_planned walk.now).rules walk.now.nest (tree_planned walk.now).root
        (stands_planned walk.now).path (map ground_of v.items)) }
{
    let deeds = deeds_of(alloc, walk)?;
    tasks_of(alloc, deeds)
}

/// What is known of the node where a walk stands.
fn cut_here(alloc: Global, walk: &Planner<'_>) -> Result<Cut, AllocError>
    requires live { walk.now.live ≡ true }
    ensures { IfOk result (λ c. IsCutAt (tree_planned walk.now) (stands_planned walk.now).path (cut_of c)) }
{
    let way = tasks_on_the_way(alloc, walk)?;
    let left = next_tasks(alloc, walk)?;
    Ok(Cut { way, left })
}

/// What is known of the node of a path, by a walk that goes to it.
fn cut_at<'a>(
    alloc: Global,
    search: Search<'a>,
    path: &[u64],
    walk: Planner<'a>,
) -> Result<Option<Cut>, AllocError>
    requires search { CanSearch search }
    requires fresh { IsFresh search walk }
    requires held { IsHeld (tree_searched search) path.now }
    ensures { IfOk result (λ o. IsCutAtIf (lowered_tree (tree_searched search.entry)) (Some path.now)
        (option_map cut_of o)) }
{
    // Nothing runs here: the law makes known that the walk has the visits of the domain's tree.
    lowered_rules_have_the_tree();
    let mut own = walk;
    if go_to(&mut own, path)? {
        let found = cut_here(alloc, &own)?;
        Ok(Some(found))
    } else {
        Ok(None)
    }
}

/// What is known of the first node that the depth cut, if there is one, and the walk that is left where none had to go
/// there.
fn first_cut<'a>(
    alloc: Global,
    search: Search<'a>,
    cut: &Option<Vec<u64>>,
    spare: Option<Planner<'a>>,
) -> Result<(Option<Cut>, Option<Planner<'a>>), AllocError>
    requires search { CanSearch search }
    requires held { IfSome (items_of cut.now) (IsHeld (tree_searched search)) }
    requires spare { IfSome spare (IsFresh search) }
    ensures cut { IfOk result (λ r. IsCutAtIf (lowered_tree (tree_searched search.entry)) (items_of cut.now)
        (option_map cut_of r.0)) }
    ensures spare { IfOk result (λ r. IfSome r.1 (IsFresh search.entry)) }
{
    match cut {
        Some(path) => {
            let walk = walk_from(alloc, search, spare)?;
            let found = cut_at(alloc, search, path.as_slice(), walk)?;
            Ok((found, None))
        }
        None => Ok((None, spare)),
    }
}

/// The dead ends of the tree of a pair, up to its first plan or fault, by a new walk of it.
fn dead_ends<'a>(
    alloc: Global,
    search: Search<'a>,
    walk: &mut Planner<'a>,
    most: usize,
) -> Result<DeadEnds, AllocError>
    requires search { CanSearch search }
    requires fresh { IsFresh search walk.old }
    ensures found { IfOk result (IsFoundIn (tree_searched search.entry) most) }
    ensures dead { IfOk result (λ f. All (IsFurthest (tree_searched search.entry)) f.furthest.items) }
    ensures held { IfOk result (λ f. All (λ e. IsHeld (tree_searched search.entry) e.path.items) f.furthest.items) }
    ensures cuts { IfOk result (HasHeldCuts (tree_searched search.entry)) }
    ensures over { IfOk result (λ f. is_stopped f.end ≡ false → (stands_planned walk.new).path ≡ []) }
    ensures fault { IfOk result (λ f. (x : RunFault) → f.end ≡ ends.Fault x
        → HasMet (lowered_tree (tree_searched search.entry)) (stands_planned walk.new) x) }
    ensures of { OnOk result (IsWalkOf search.entry walk.new) }
{
    lowered_rules_have_the_tree();
    find(alloc, walk, search.depth, most)
}

/// What was at fault at the node where a walk stands, if a fault ended its search and it is found.
fn blame_after(
    alloc: Global,
    search: Search<'_>,
    walk: &mut Planner<'_>,
    end: SearchEnd,
) -> Result<Option<Blame>, AllocError>
    requires search { CanSearch search }
    requires of { IsWalkOf search walk.old }
    requires fault { (x : RunFault) → end ≡ ends.Fault x
        → HasMet (lowered_tree (tree_searched search)) (stands_planned walk.old) x }
    ensures is { IfOk result (λ o. IsBlamed (tree_searched search.entry) (lowered_tree (tree_searched search.entry)) end
        (option_map blame_kept o)) }
    ensures same { walk.new ≡ walk.old }
{
    match end {
        SearchEnd::Fault(fault) => find_blame(alloc, search.domain, search.code, walk, fault),
        SearchEnd::Plan => Ok(None),
        SearchEnd::Whole => Ok(None),
        SearchEnd::Cut => Ok(None),
    }
}

/// How far the search for a plan of a pair came, and what stopped it: at most so many of the furthest dead ends are
/// told. Where the search ended by itself its walk goes on to the first place that is to be seen.
pub fn why_of(alloc: Global, search: Search<'_>, most: usize) -> Result<Why, AllocError>
    requires search { CanSearch search }
    ensures { IfOk result (IsWhy (tree_searched search.entry) most) }
{
    let mut walk = new_walk(alloc, search)?;
    let found = dead_ends(alloc, search, &mut walk, most)?;
    let blame = blame_after(alloc, search, &mut walk, found.end)?;
    let spare = spare_after(search, walk, found.end)?;
    let (cut, left) = first_cut(alloc, search, &found.depth_cut, spare)?;
    let reasons = reasons_of_ends(alloc, search, found.furthest.as_slice(), left)?;
    Ok(Why {
        found,
        blame,
        cut,
        reasons,
    })
}
