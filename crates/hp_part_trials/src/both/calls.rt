//! Calls of a walk that are made one by one.
ghost use Rattle.std.specs.Prelude.{◌≡◌, true, OnOk};
ghost use Rattle.hp_syntax.specs.Views.{domain_of, pair_of};
ghost use Rattle.hp_part_trials.specs.Accepted.{IsAccepted};

use crate::both::loading::{Loaded, load, walk_by_copies, walk_in_place};
use crate::both::walks_at_once::node_text;
use hp_fixtures::page::Page;
use hp_net::{Step, Walk};
use hp_syntax::limits::USUAL_LEVELS;
use std::alloc::{AllocError, Global};

/// What is tried of a walk.
#[derive(Clone, Copy)]
pub enum Trial {
    /// Five visits.
    Visits,
    /// Two visits, with nothing below the first.
    Pruned,
    /// Steps down to where nothing more comes, and the way back from there.
    WayBack,
    /// All visits up to a plan and the end, with nothing below the first.
    PrunedFirst,
}

/// How many decompositions a plan may have here.
const DEPTH: u32 = 9;

/// Makes so many visits.
pub fn visit_on<W: Walk>(
    walk: &mut W,
    visits: usize,
    steps: &mut Vec<Step>,
) -> Result<(), AllocError>
    requires { W.is_live walk.old ≡ true }
    ensures { OnOk result (W.is_live walk.new ≡ true) }
{
    for _visit in 0..visits {
        steps.push(walk.next()?)?;
    }
    Ok(())
}

/// Makes the next visit, and where it is a decomposition leaves out what lies below it.
pub fn visit_alone<W: Walk>(walk: &mut W) -> Result<Step, AllocError>
    requires { W.is_live walk.old ≡ true }
    ensures { OnOk result (W.is_live walk.new ≡ true) }
{
    let step = walk.next()?;
    if let Step::Did = step {
        walk.prune();
    }
    Ok(step)
}

/// The next visit at or below the node reached. Where there is none, the walk goes to the parent.
pub fn step_or_back<W: Walk>(walk: &mut W) -> Result<Option<Step>, AllocError>
    requires { W.is_live walk.old ≡ true }
    ensures { OnOk result (W.is_live walk.new ≡ true) }
{
    match walk.step()? {
        None if !walk.path().is_empty() => {
            walk.back();
            Ok(None)
        }
        step => Ok(step),
    }
}

fn show_visits<W: Walk>(page: &mut Page, alloc: Global, walk: &mut W) -> Result<(), AllocError>
    requires { W.is_live walk.old ≡ true }
{
    let mut steps = Vec::new(alloc);
    visit_on(walk, 5, &mut steps)?;
    page.line("next five times", &steps);
    Ok(())
}

fn show_pruned<W: Walk>(page: &mut Page, alloc: Global, walk: &mut W) -> Result<(), AllocError>
    requires { W.is_live walk.old ≡ true }
{
    let mut steps = Vec::new(alloc);
    steps.push(visit_alone(walk)?)?;
    visit_on(walk, 1, &mut steps)?;
    page.line("next, prune, next", &steps);
    Ok(())
}

fn show_way_back<W: Walk>(page: &mut Page, alloc: Global, walk: &mut W) -> Result<(), AllocError>
    requires { W.is_live walk.old ≡ true }
{
    let mut steps = Vec::new(alloc);
    for _visit in 0..5 {
        steps.push(step_or_back(walk)?)?;
    }
    page.line("step five times, and back", &steps);
    page.line("path", &walk.path());
    Ok(())
}

fn show_plan<W: Walk>(page: &mut Page, alloc: Global, walk: &W) -> Result<(), AllocError>
    requires { W.is_live walk.now ≡ true }
{
    let text = node_text(alloc, walk)?;
    page.row(text.bytes(), &walk.path());
    Ok(())
}

fn show_pruned_first<W: Walk>(
    page: &mut Page,
    alloc: Global,
    walk: &mut W,
) -> Result<(), AllocError>
    requires { W.is_live walk.old ≡ true }
{
    let mut steps = Vec::new(alloc);
    steps.push(visit_alone(walk)?)?;
    visit_on(walk, 6, &mut steps)?;
    page.line("next, prune, next six times", &steps);
    show_plan(page, alloc, walk)?;
    page.line("next", &walk.next()?);
    Ok(())
}

/// Tries something of a walk.
fn show<W: Walk>(
    page: &mut Page,
    alloc: Global,
    walk: &mut W,
    trial: Trial,
) -> Result<(), AllocError>
    requires { W.is_live walk.old ≡ true }
{
    match trial {
        Trial::Visits => show_visits(page, alloc, walk),
        Trial::Pruned => show_pruned(page, alloc, walk),
        Trial::WayBack => show_way_back(page, alloc, walk),
        Trial::PrunedFirst => show_pruned_first(page, alloc, walk),
    }
}

fn show_in_place(
    page: &mut Page,
    alloc: Global,
    loaded: &Loaded,
    trial: Trial,
) -> Result<(), AllocError>
    requires { IsAccepted (domain_of loaded.now.domain) (pair_of loaded.now.pair) }
{
    let mut walk = walk_in_place(alloc, loaded, DEPTH, USUAL_LEVELS)?;
    show(page, alloc, &mut walk, trial)
}

fn show_by_copies(
    page: &mut Page,
    alloc: Global,
    loaded: &Loaded,
    trial: Trial,
) -> Result<(), AllocError>
    requires { IsAccepted (domain_of loaded.now.domain) (pair_of loaded.now.pair) }
{
    let mut walk = walk_by_copies(alloc, loaded, DEPTH, USUAL_LEVELS)?;
    show(page, alloc, &mut walk, trial)
}

/// Tries the same of a walk in place and of one by copies.
pub fn show_trial(
    page: &mut Page,
    alloc: Global,
    domain: &str,
    problem: &str,
    trial: Trial,
) -> Result<(), AllocError> {
    match load(alloc, domain, problem) {
        Some(loaded) => {
            show_in_place(page, alloc, &loaded, trial)?;
            show_by_copies(page, alloc, &loaded, trial)
        }
        None => Ok(page.title("the texts aren't accepted")),
    }
}
