//! What a walk in place tells of the decomposition that led to where it stands.
ghost use Rattle.std.specs.Prelude.{◌≡◌, true};
ghost use Rattle.hp_syntax.specs.Views.{domain_of, pair_of};
ghost use Rattle.hp_part_trials.specs.Accepted.{IsAccepted};

use crate::both::loading::{Loaded, load, walk_in_place};
use hp_fixtures::page::Page;
use hp_net::Walk;
use hp_search::Planner;
use hp_syntax::limits::USUAL_LEVELS;
use std::alloc::{AllocError, Global};

/// Of the two methods for one task the second serves it, by the second of its branches.
const DOMAIN: &str = "(defdomain d ((:operator (!a) () () ()) (:operator (!b ?x) ((p ?x)) () ()) \
    (:method (m) ((q)) ((!a))) (:method (m) one ((q)) ((!a)) two ((p ?x)) ((!b ?x)))))";

/// Two tasks in any order, and two atoms by which the second is decomposed.
const PROBLEM: &str = "(defproblem p d ((p x) (p y)) (:unordered (!a) (m)))";

const DEPTH: u32 = 3;

// Tells it at the root, and then behind each visit, up to the end.
fn show_visits(page: &mut Page, walk: &mut Planner<'_>) -> Result<(), AllocError>
    requires { walk.old.live ≡ true }
{
    page.line("at first", &walk.decomposition());
    for _visit in 0..16 {
        let _ = walk.next()?;
        page.line("next", &walk.decomposition());
    }
    Ok(())
}

fn show_walk(page: &mut Page, alloc: Global, loaded: &Loaded) -> Result<(), AllocError>
    requires { IsAccepted (domain_of loaded.now.domain) (pair_of loaded.now.pair) }
{
    let mut walk = walk_in_place(alloc, loaded, DEPTH, USUAL_LEVELS)?;
    show_visits(page, &mut walk)
}

/// At each visit of a walk the decomposition that led to it is told.
pub fn show_decompositions(page: &mut Page, alloc: Global) -> Result<(), AllocError> {
    page.title("The decomposition that led to each node, in place");
    match load(alloc, DOMAIN, PROBLEM) {
        Some(loaded) => show_walk(page, alloc, &loaded),
        None => Ok(page.title("the texts aren't accepted")),
    }
}
