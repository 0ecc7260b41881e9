//! Both engines: walks of the same trees in place and by copies, side by side through their trait.

mod begun_again;
mod calls;
mod cells_given_back;
mod decompositions;
mod drawn;
mod explained;
mod loading;
mod rounds;
mod walks_at_once;
mod ways;

use crate::both::begun_again::show_begun_again;
use crate::both::calls::{Trial, show_trial};
use crate::both::cells_given_back::show_given_back;
use crate::both::decompositions::show_decompositions;
use crate::both::drawn::show_drawn;
use crate::both::explained::show_explained;
use crate::both::ways::show_ways;
use hp_fixtures::page::Page;
use std::alloc::{AllocError, Global};
use std::rt::Files;
use std::{fs, io};

/// Two tasks in any order.
const ANY_ORDER: &str = "(defproblem p f () (:unordered (x) (y)))";

// What is tried of one plan of three decompositions.
fn show_swap(
    page: &mut Page,
    alloc: Global,
    domain: &str,
    problem: &str,
) -> Result<(), AllocError> {
    page.title("A plan of three decompositions, in place and by copies");
    for trial in [Trial::Visits, Trial::Pruned, Trial::WayBack] {
        show_trial(page, alloc, domain, problem, trial)?;
    }
    Ok(())
}

fn show_texts(rt: &(impl Files + AllocGlobal), page: &mut Page) -> io::Result<()> {
    let domain = fs::read_to_string(rt, "basic.domain")?;
    let problem = fs::read_to_string(rt, "swap.problem")?;
    Ok(show_swap(page, rt.alloc(), domain.as_str(), problem.as_str())?)
}

// What is tried of two tasks in any order.
fn show_weave(rt: &(impl Files + AllocGlobal), page: &mut Page) -> io::Result<()> {
    page.title(
        "Two tasks in any order, of which the first is left out once, in place and by copies",
    );
    let domain = fs::read_to_string(rt, "weave.domain")?;
    Ok(show_trial(
        page,
        rt.alloc(),
        domain.as_str(),
        ANY_ORDER,
        Trial::PrunedFirst,
    )?)
}

fn show_calls(rt: &(impl Files + AllocGlobal), page: &mut Page) -> io::Result<()> {
    let drawn = fs::read_to_string(rt, "drawn.txt")?;
    Ok(show_drawn(page, rt.alloc(), drawn.as_str())?)
}

/// Prints what the walks give.
pub fn print_all(rt: &(impl Files + Print + AllocGlobal)) -> io::Result<()> {
    let mut page = Page::new(rt.alloc());
    page.title("\n== both engines");
    show_texts(rt, &mut page)?;
    show_weave(rt, &mut page)?;
    show_given_back(&mut page, rt.alloc())?;
    show_begun_again(&mut page, rt.alloc())?;
    show_decompositions(&mut page, rt.alloc())?;
    show_ways(&mut page, rt.alloc())?;
    show_explained(&mut page, rt.alloc())?;
    show_calls(rt, &mut page)?;
    print!(rt; "{}", page.lines()?)
}
