//! What explains a search: its dead ends and what keeps the tasks there from being done, how far a plan leads, the
//! visits at a path, the changes along it, and the way to a plan.
ghost use Rattle.std.specs.List.{All};
ghost use Rattle.std.specs.Prelude.{◌≡◌, [], true, IfOk};
ghost use Rattle.hp_syntax.specs.Views.{domain_of, pair_of};
ghost use Rattle.hp_code.specs.CodeViews.{IsCodeOf};
ghost use Rattle.hp_code.specs.Codes.{code_of};
ghost use Rattle.hp_dead_ends.specs.Arriving.{IsHeld};
ghost use Rattle.hp_net.specs.Standings.{tree_visits};
ghost use Rattle.hp_search.specs.Planned.{stands_planned, tree_planned};
ghost use Rattle.hp_part_trials.specs.Accepted.{IsAccepted};
ghost use Rattle.hp_part_trials.specs.Explained.{tree_tried};

use crate::both::loading::{Loaded, load};
use hp_changes::{Changed, changes_along};
use hp_dead_ends::{DeadEnd, DeadEnds, find, go_to};
use hp_fixtures::page::Page;
use hp_following::follow;
use hp_forms::plan_steps;
use hp_obstacles::{Obstacle, Stuck, all_stuck};
use hp_search::Planner;
use hp_syntax::Ground;
use hp_syntax::limits::USUAL_LEVELS;
use hp_text::read;
use hp_trace::{Seen, TracedVisit, trace};
use hp_way::{Way, way_to_plan};
use std::alloc::{AllocError, Global};

/// A box is loaded where it stands. It stands in two rooms, and a way leads to one of them.
const DOMAIN: &str =
    "(defdomain d ((:operator (!go ?x ?y) ((at ?x) (way ?x ?y)) ((at ?x)) ((at ?y))) \
    (:operator (!load ?b) () () ((have ?b))) \
    (:method (bring ?b) ((at ?x) (box ?b ?y)) ((!go ?x ?y) (!load ?b)))))";

/// The way leads to the second room.
const PROBLEM: &str =
    "(defproblem p d ((at home) (box b attic) (box b cellar) (way home cellar)) ((bring b)))";

/// The first step of the plan, and one that no plan has.
const STEPS: &str = "(!go home cellar) (!load c)";

const DEPTH: u32 = 5;

fn show_ends(page: &mut Page, ends: &DeadEnds) {
    page.line("dead ends", &(ends.all, ends.as_far));
    page.line("decompositions", &ends.expansions);
    page.line("it ended at", &ends.end);
    for end in &ends.furthest {
        page.line("path", &end.path);
        page.line("steps and decompositions", &(end.steps, end.decompositions));
    }
}

// Each value that is a symbol, with the number of its variable.
fn show_values(page: &mut Page, values: &[Option<Ground>]) {
    for place in 0..values.len() {
        if let Some(Ground::Sym(name)) = &values[place] {
            page.row(name.bytes(), &place);
        }
    }
}

fn show_obstacles(page: &mut Page, obstacles: &[Obstacle]) {
    for obstacle in obstacles {
        page.line("rule and branch", &(obstacle.rule, obstacle.branch));
        page.line("unmet", &obstacle.unmet);
        show_values(page, obstacle.values.as_slice());
    }
}

fn show_stuck(page: &mut Page, stuck: &[Stuck]) {
    for task in stuck {
        show_obstacles(page, task.obstacles.as_slice());
    }
}

fn show_seen(page: &mut Page, visits: &[TracedVisit]) {
    for visit in visits {
        match &visit.seen {
            Seen::Did(deed) => page.line("a decomposition", &(visit.level, deed.rule)),
            Seen::Plan => page.line("a plan", &visit.level),
            Seen::DepthCut => page.line("a cut of the depth", &visit.level),
            Seen::LevelCut => page.line("a cut of the levels", &visit.level),
            Seen::Fault(fault) => page.line("a fault", fault),
        }
    }
}

fn show_changes(page: &mut Page, changes: &[Changed]) {
    for change in changes {
        page.line("taken and added", &(change.taken.len(), change.added.len()));
    }
}

fn steps_of(alloc: Global, text: &str) -> Option<Vec<Ground>> {
    match read(alloc, text.as_bytes()) {
        Ok(forest) => plan_steps(alloc, &forest).ok(),
        Err(_) => None,
    }
}

// A walk with all visits left.
fn new_walk(alloc: Global, loaded: &Loaded) -> Result<Planner<'_>, AllocError>
    requires { IsAccepted (domain_of loaded.now.domain) (pair_of loaded.now.pair) }
    ensures tree { IfOk result (λ p. tree_planned p ≡ tree_tried loaded.now) }
    ensures rest { IfOk result (λ p. (stands_planned p).rest ≡ tree_visits (tree_planned p)) }
    ensures at_root { IfOk result (λ p. (stands_planned p).path ≡ []) }
    ensures live { IfOk result (λ p. p.live ≡ true) }
{
    let walk = Planner::new(alloc, &loaded.code, &loaded.pair, DEPTH, USUAL_LEVELS)?;
    Ok(walk)
}

// The dead ends before the first plan, of which the first of the furthest is kept.
fn found_ends(alloc: Global, loaded: &Loaded) -> Result<DeadEnds, AllocError>
    requires { IsAccepted (domain_of loaded.now.domain) (pair_of loaded.now.pair) }
    ensures { IfOk result (λ f. All (λ e. IsHeld (tree_tried loaded.now) e.path.items) f.furthest.items) }
{
    let mut walk = new_walk(alloc, loaded)?;
    find(alloc, &mut walk, DEPTH, 1)
}

// What keeps the tasks at a dead end from being done.
fn show_stuck_at(
    page: &mut Page,
    alloc: Global,
    loaded: &Loaded,
    end: &DeadEnd,
) -> Result<(), AllocError>
    requires accepted { IsAccepted (domain_of loaded.now.domain) (pair_of loaded.now.pair) }
    requires code { IsCodeOf (domain_of loaded.now.domain).rules (code_of loaded.now.code) }
    requires held { IsHeld (tree_tried loaded.now) end.now.path.items }
{
    let mut walk = new_walk(alloc, loaded)?;
    let is_there = go_to(&mut walk, end.path.as_slice())?;
    page.line("the walk goes there", &is_there);
    let stuck = all_stuck(alloc, &loaded.domain, &loaded.code, &mut walk)?;
    show_stuck(page, stuck.as_slice());
    Ok(())
}

// What keeps the tasks at each of some dead ends from being done.
fn show_all_stuck(
    page: &mut Page,
    alloc: Global,
    loaded: &Loaded,
    ends: &[DeadEnd],
) -> Result<(), AllocError>
    requires accepted { IsAccepted (domain_of loaded.now.domain) (pair_of loaded.now.pair) }
    requires code { IsCodeOf (domain_of loaded.now.domain).rules (code_of loaded.now.code) }
    requires held { All (λ e. IsHeld (tree_tried loaded.now) e.path.items) ends.now }
{
    for end in ends {
        show_stuck_at(page, alloc, loaded, end)?;
    }
    Ok(())
}

// The dead ends before the first plan, and what keeps the tasks at the first of the furthest from being done.
fn show_dead_ends(page: &mut Page, alloc: Global, loaded: &Loaded) -> Result<(), AllocError>
    requires accepted { IsAccepted (domain_of loaded.now.domain) (pair_of loaded.now.pair) }
    requires code { IsCodeOf (domain_of loaded.now.domain).rules (code_of loaded.now.code) }
{
    let ends = found_ends(alloc, loaded)?;
    show_ends(page, &ends);
    show_all_stuck(page, alloc, loaded, ends.furthest.as_slice())
}

// How far steps lead.
fn show_following(page: &mut Page, alloc: Global, loaded: &Loaded) -> Result<(), AllocError>
    requires { IsAccepted (domain_of loaded.now.domain) (pair_of loaded.now.pair) }
{
    let Some(steps) = steps_of(alloc, STEPS) else {
        return Ok(page.title("these are no steps"));
    };
    let mut walk = new_walk(alloc, loaded)?;
    let following = follow(alloc, &mut walk, steps.as_slice())?;
    page.line("path", &following.path);
    page.line("steps", &following.steps);
    page.line("it ended", &following.end);
    Ok(())
}

// What is seen below the second decomposition.
fn show_trace(page: &mut Page, alloc: Global, loaded: &Loaded) -> Result<(), AllocError>
    requires accepted { IsAccepted (domain_of loaded.now.domain) (pair_of loaded.now.pair) }
    requires code { IsCodeOf (domain_of loaded.now.domain).rules (code_of loaded.now.code) }
{
    let Loaded { domain, pair, code } = loaded;
    let visits = trace(alloc, domain, code, pair, DEPTH, USUAL_LEVELS, &[1], 10)?;
    show_seen(page, visits.as_slice());
    Ok(())
}

// What each decomposition on the way to the plan changes.
fn show_changed(page: &mut Page, alloc: Global, loaded: &Loaded) -> Result<(), AllocError>
    requires { IsAccepted (domain_of loaded.now.domain) (pair_of loaded.now.pair) }
{
    let mut walk = new_walk(alloc, loaded)?;
    match changes_along(alloc, &mut walk, &[1, 0, 0])? {
        Some(changes) => show_changes(page, changes.as_slice()),
        None => page.title("  no such path"),
    }
    Ok(())
}

// The decompositions on the way to the first plan.
fn show_way(page: &mut Page, alloc: Global, loaded: &Loaded) -> Result<(), AllocError>
    requires { IsAccepted (domain_of loaded.now.domain) (pair_of loaded.now.pair) }
{
    match way_to_plan(alloc, &loaded.code, &loaded.pair, DEPTH, USUAL_LEVELS, 1)? {
        Way::Plan(deeds) => page.line("decompositions", &deeds.len()),
        Way::Absent => page.title("  absent"),
        Way::Fault(fault) => page.line("fault", &fault),
    }
    Ok(())
}

fn show_all(page: &mut Page, alloc: Global, loaded: &Loaded) -> Result<(), AllocError>
    requires accepted { IsAccepted (domain_of loaded.now.domain) (pair_of loaded.now.pair) }
    requires code { IsCodeOf (domain_of loaded.now.domain).rules (code_of loaded.now.code) }
{
    page.title(
        "The only dead end before the first plan, the part that is unmet there, and the values by the first satisfier of the part before it",
    );
    show_dead_ends(page, alloc, loaded)?;
    page.title("The first step leads on, and the second doesn't");
    show_following(page, alloc, loaded)?;
    page.title("The visits at and below the second decomposition");
    show_trace(page, alloc, loaded)?;
    page.title("How many atoms each decomposition takes and adds on the way to the plan");
    show_changed(page, alloc, loaded)?;
    page.title("The way to the first plan");
    show_way(page, alloc, loaded)
}

/// Prints what explains a search with one dead end and one plan.
pub fn show_explained(page: &mut Page, alloc: Global) -> Result<(), AllocError> {
    match load(alloc, DOMAIN, PROBLEM) {
        Some(loaded) => show_all(page, alloc, &loaded),
        None => Ok(page.title("the texts aren't accepted")),
    }
}
