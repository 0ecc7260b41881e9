//! What stands at paths: the decompositions that lead to a plan, and the states between them.
ghost use Rattle.hp_syntax.specs.Views.{domain_of, pair_of};
ghost use Rattle.hp_part_trials.specs.Accepted.{IsAccepted};

use crate::both::loading::{Loaded, load};
use hp_after::{is_path, path};
use hp_fixtures::page::Page;
use hp_syntax::Ground;
use hp_syntax::limits::USUAL_LEVELS;
use hp_way::{Deed, Way, state_on_the_way, way_to};
use std::alloc::{AllocError, Global};

/// A method with two branches, of which the second is taken, and an operator that costs 2 and deletes an atom.
const DOMAIN: &str =
    "(defdomain d ((:operator (!a) () () ()) (:operator (!b ?x) ((p ?x)) ((p ?x)) () 2) \
    (:method (m) one ((q)) ((!a)) two ((p ?x)) ((!b ?x)))))";

/// Two tasks in any order, and two atoms by which the second is decomposed.
const PROBLEM: &str = "(defproblem p d ((p x) (p y)) (:unordered (!a) (m)))";

const DEPTH: u32 = 3;

// Tells of each decomposition its candidate, its rule, its branch, and what the steps cost behind it.
fn show_deeds(page: &mut Page, deeds: &[Deed]) {
    for deed in deeds {
        page.line(
            "decomposition",
            &(deed.candidate, deed.rule, deed.branch, deed.cost),
        );
    }
}

fn show_way(page: &mut Page, way: &Way) {
    match way {
        Way::Plan(deeds) => show_deeds(page, deeds.as_slice()),
        Way::Absent => page.title("  absent"),
        Way::Fault(fault) => page.line("fault", fault),
    }
}

// How many atoms a state has.
fn many(state: &Option<Vec<Ground>>) -> Option<usize> {
    match state {
        Some(atoms) => Some(atoms.len()),
        None => None,
    }
}

// Tells what stands at a path, and how many atoms hold at the nodes on the way.
fn show_path(page: &mut Page, alloc: Global, loaded: &Loaded, word: &str) -> Result<(), AllocError>
    requires { IsAccepted (domain_of loaded.now.domain) (pair_of loaded.now.pair) }
{
    page.title(word);
    if !is_path(word) {
        return Ok(());
    }
    let (code, pair) = (&loaded.code, &loaded.pair);
    let numbers = path(alloc, word)?;
    let way = way_to(alloc, code, pair, DEPTH, USUAL_LEVELS, numbers.as_slice())?;
    show_way(page, &way);
    for count in 0..5 {
        let state = state_on_the_way(
            alloc,
            code,
            pair,
            DEPTH,
            USUAL_LEVELS,
            numbers.as_slice(),
            count,
        )?;
        page.line("atoms", &many(&state));
    }
    Ok(())
}

/// What stands at some paths is told.
pub fn show_ways(page: &mut Page, alloc: Global) -> Result<(), AllocError> {
    page.title("The decompositions on the way to a plan, and how many atoms hold between them");
    let Some(loaded) = load(alloc, DOMAIN, PROBLEM) else {
        return Ok(page.title("the texts aren't accepted"));
    };
    for word in ["0.0.0", "2.0.0", "0.0", "3"] {
        show_path(page, alloc, &loaded, word)?;
    }
    Ok(())
}
