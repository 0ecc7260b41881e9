//! A walk in place that begins again at its root.
ghost use Rattle.std.specs.Prelude.{◌≡◌, ◌≤◌, pos, true, OnOk};
ghost use Rattle.hp_syntax.specs.declared.limits.TheConstants.{GREATEST_DEPTH};
ghost use Rattle.hp_syntax.specs.Views.{domain_of, pair_of};
ghost use Rattle.hp_search.specs.Planned.{tree_planned};
ghost use Rattle.hp_part_trials.specs.Accepted.{IsAccepted};

use crate::both::loading::{Loaded, load, walk_in_place};
use hp_fixtures::page::Page;
use hp_net::{Step, Walk};
use hp_search::Planner;
use hp_syntax::limits::USUAL_LEVELS;
use std::alloc::{AllocError, Global};

/// A task that is done at once, or put off by a task of another term.
const DOMAIN: &str =
    "(defdomain d ((:operator (!a ?x) () () ((done ?x))) (:operator (!b ?x) () () ()) \
    (:method (m ?x) () ((!a ?x))) (:method (m ?x) () ((!b ?x) (m (more ?x))))))";

const PROBLEM: &str = "(defproblem p d () ((m x)))";

// Makes so many visits, and tells whether the walk stands at its root then, and how many terms it has.
fn show_visits(
    page: &mut Page,
    alloc: Global,
    walk: &mut Planner<'_>,
    visits: usize,
) -> Result<(), AllocError>
    requires { walk.old.live ≡ true }
    ensures live { OnOk result (walk.new.live ≡ true) }
    ensures tree { tree_planned walk.new ≡ tree_planned walk.old }
{
    let mut steps: Vec<Step> = Vec::new(alloc);
    for _visit in 0..visits {
        steps.push(walk.next()?)?;
    }
    page.line("visits", &steps);
    page.line("at the root", &walk.path().is_empty());
    page.line("terms", &walk.cells().len());
    Ok(())
}

// Begins again at a depth, where the walk stands at its root, and makes so many visits.
fn show_again(
    page: &mut Page,
    alloc: Global,
    walk: &mut Planner<'_>,
    depth: u32,
    visits: usize,
) -> Result<(), AllocError>
    requires live { walk.old.live ≡ true }
    requires cost { (tree_planned walk.old).root.cost ≡ pos 0 }
    requires depth { depth ≤ GREATEST_DEPTH }
    ensures live { OnOk result (walk.new.live ≡ true) }
    ensures cost { OnOk result ((tree_planned walk.new).root.cost ≡ pos 0) }
{
    page.line("depth", &depth);
    if !walk.path().is_empty() {
        page.title("  it stands elsewhere");
        return Ok(());
    }
    walk.begin_again(depth)?;
    show_visits(page, alloc, walk, visits)
}

fn show_walk(page: &mut Page, alloc: Global, loaded: &Loaded) -> Result<(), AllocError>
    requires { IsAccepted (domain_of loaded.now.domain) (pair_of loaded.now.pair) }
{
    let mut walk = walk_in_place(alloc, loaded, 1, USUAL_LEVELS)?;
    show_visits(page, alloc, &mut walk, 5)?;
    show_again(page, alloc, &mut walk, 3, 10)?;
    show_again(page, alloc, &mut walk, 0, 0)?;
    show_again(page, alloc, &mut walk, 2, 4)?;
    show_again(page, alloc, &mut walk, 2, 4)
}

/// At each depth a walk that begins again makes the visits of a new one.
pub fn show_begun_again(page: &mut Page, alloc: Global) -> Result<(), AllocError> {
    page.title("A walk in place that begins again at its root, at one depth after another");
    match load(alloc, DOMAIN, PROBLEM) {
        Some(loaded) => show_walk(page, alloc, &loaded),
        None => Ok(page.title("the texts aren't accepted")),
    }
}
