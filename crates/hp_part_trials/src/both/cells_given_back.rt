//! Terms that a walk in place makes are given back on its way.
ghost use Rattle.std.specs.Prelude.{◌≡◌, true, OnOk};
ghost use Rattle.hp_syntax.specs.Views.{domain_of, pair_of};
ghost use Rattle.hp_part_trials.specs.Accepted.{IsAccepted};

use crate::both::calls::{step_or_back, visit_alone, visit_on};
use crate::both::loading::{Loaded, load, walk_in_place};
use hp_fixtures::page::Page;
use hp_net::{Step, Walk};
use hp_syntax::limits::USUAL_LEVELS;
use std::alloc::{AllocError, Global};

const DOMAIN: &str =
    "(defdomain d ((:operator (!do ?x) () () ((done ?x))) (:method (m) ((w ?x ?n)) ((!do ?x)))))";

/// Three atoms, each with a plan of its own.
const PROBLEM: &str = "(defproblem p d ((w a 3) (w b 1) (w c 3)) ((m)))";

const DEPTH: u32 = 5;

/// Where a walk stopped: the last number of its path each time, and how many cells it had.
struct Stops {
    paths: Vec<Option<u64>>,
    cells: Vec<usize>,
}

impl Drop for Stops {
    fn drop(self) {
        let Stops { paths, cells } = self;
        drop(paths);
        drop(cells);
    }
}

impl Stops {
    fn new(alloc: Global) -> Stops {
        Stops {
            paths: Vec::new(alloc),
            cells: Vec::new(alloc),
        }
    }

    fn note<W: Walk>(&mut self, walk: &W) -> Result<(), AllocError>
        requires { W.is_live walk.now ≡ true }
    {
        self.paths.push(walk.path().last().copied())?;
        self.cells.push(walk.cells().len())?;
        Ok(())
    }
}

// Makes so many visits, and notes where the walk is then.
fn stop_after<W: Walk>(
    walk: &mut W,
    visits: usize,
    steps: &mut Vec<Step>,
    stops: &mut Stops,
) -> Result<(), AllocError>
    requires { W.is_live walk.old ≡ true }
    ensures { OnOk result (W.is_live walk.new ≡ true) }
{
    visit_on(walk, visits, steps)?;
    stops.note(walk)
}

// The stops of a walk that makes all visits.
fn stops_of_all<W: Walk>(alloc: Global, walk: &mut W) -> Result<Stops, AllocError>
    requires { W.is_live walk.old ≡ true }
{
    let mut stops = Stops::new(alloc);
    let mut steps = Vec::new(alloc);
    for visits in [0, 1, 3, 3, 3] {
        stop_after(walk, visits, &mut steps, &mut stops)?;
    }
    Ok(stops)
}

// Makes the next visit, notes where the walk is, and leaves out what lies below where it is a decomposition.
fn stop_alone<W: Walk>(walk: &mut W, stops: &mut Stops) -> Result<(), AllocError>
    requires { W.is_live walk.old ≡ true }
    ensures { OnOk result (W.is_live walk.new ≡ true) }
{
    let step = walk.next()?;
    stops.note(walk)?;
    if let Step::Did = step {
        walk.prune();
    }
    Ok(())
}

// The stops of a walk that leaves out what lies below each decomposition.
fn stops_of_pruned<W: Walk>(alloc: Global, walk: &mut W) -> Result<Stops, AllocError>
    requires { W.is_live walk.old ≡ true }
{
    let mut stops = Stops::new(alloc);
    stops.note(walk)?;
    for _visit in 0..4 {
        stop_alone(walk, &mut stops)?;
    }
    Ok(stops)
}

// The stops of a walk that leaves out what lies below the first decomposition, and goes back.
fn stops_of_way_back<W: Walk>(alloc: Global, walk: &mut W) -> Result<Stops, AllocError>
    requires { W.is_live walk.old ≡ true }
{
    let mut stops = Stops::new(alloc);
    stops.note(walk)?;
    visit_alone(walk)?;
    step_or_back(walk)?;
    stops.note(walk)?;
    Ok(stops)
}

fn all_stops(alloc: Global, loaded: &Loaded) -> Result<Stops, AllocError>
    requires { IsAccepted (domain_of loaded.now.domain) (pair_of loaded.now.pair) }
{
    let mut walk = walk_in_place(alloc, loaded, DEPTH, USUAL_LEVELS)?;
    stops_of_all(alloc, &mut walk)
}

fn pruned_stops(alloc: Global, loaded: &Loaded) -> Result<Stops, AllocError>
    requires { IsAccepted (domain_of loaded.now.domain) (pair_of loaded.now.pair) }
{
    let mut walk = walk_in_place(alloc, loaded, DEPTH, USUAL_LEVELS)?;
    stops_of_pruned(alloc, &mut walk)
}

fn way_back_stops(alloc: Global, loaded: &Loaded) -> Result<Stops, AllocError>
    requires { IsAccepted (domain_of loaded.now.domain) (pair_of loaded.now.pair) }
{
    let mut walk = walk_in_place(alloc, loaded, DEPTH, USUAL_LEVELS)?;
    stops_of_way_back(alloc, &mut walk)
}

// The paths of a walk, and whether it has as many cells in the end as at first.
fn show_stops(page: &mut Page, way: &str, stops: &Stops) {
    page.line(way, &stops.paths);
    let is_kept = stops.cells.first() == stops.cells.last();
    page.line("as many terms in the end as at first", &is_kept);
}

fn show_ways(page: &mut Page, alloc: Global, loaded: &Loaded) -> Result<(), AllocError>
    requires { IsAccepted (domain_of loaded.now.domain) (pair_of loaded.now.pair) }
{
    let all = all_stops(alloc, loaded)?;
    let pruned = pruned_stops(alloc, loaded)?;
    show_stops(page, "all visits", &all);
    show_stops(page, "nothing below a decomposition", &pruned);
    let are_equal = all.cells.as_slice() == pruned.cells.as_slice();
    page.line("as many terms at each stop of both", &are_equal);
    show_stops(
        page,
        "next, prune, step, back",
        &way_back_stops(alloc, loaded)?,
    );
    Ok(())
}

/// Walks of one tree that come to the same nodes have as many terms there, whatever they made before.
pub fn show_given_back(page: &mut Page, alloc: Global) -> Result<(), AllocError> {
    page.title("Terms that a walk in place made are given back");
    match load(alloc, DOMAIN, PROBLEM) {
        Some(loaded) => show_ways(page, alloc, &loaded),
        None => Ok(page.title("the texts aren't accepted")),
    }
}
