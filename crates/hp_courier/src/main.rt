//! An example: a program of one's own over the planner's crates. It runs a command over a folder and a sink of its
//! own, and it walks the tree itself, call by call and to find the first plan within a budget. Both, and the search for
//! that plan, stand in `hp_embedding`.
#![tactic(auto)]

mod courier;
mod loading;
mod planning;
mod showing;
mod steps;
mod swap;

use loading::{accepted, walk};
use showing::{Shown, show};
use std::alloc::Global;
use std::io;
use std::io::Write;

/// How many decompositions a plan may have here.
const DEPTH: u32 = 20;

/// Writes the courier's first ways.
fn write_plans(rt: &impl Print, alloc: Global) -> io::Result<()> {
    let text = courier::plans(alloc)?;
    io::writer(rt).write_all(text.as_slice())
}

/// Shows something of the walk of each pair of two texts.
fn show_walk(
    rt: &impl Print,
    alloc: Global,
    domain: &str,
    problem: &str,
    what: Shown,
) -> anyhow::Result<()> {
    let (domain, problem) = accepted(alloc, domain, problem)?;
    for pair in &problem.pairs {
        let mut walk = walk(alloc, &domain, pair, DEPTH)?;
        show(rt, alloc, &mut walk, what)?;
    }
    Ok(())
}

fn main(rt: HostRuntime) -> anyhow::Result<()> {
    let alloc = rt.alloc();
    write_plans(&rt, alloc)?;
    show_walk(
        &rt,
        alloc,
        courier::DOMAIN,
        courier::PROBLEM,
        Shown::Within(courier::BUDGET),
    )?;
    for what in [Shown::Visits, Shown::Pruned, Shown::WayBack] {
        show_walk(&rt, alloc, swap::DOMAIN, swap::PROBLEM, what)?;
    }
    Ok(())
}
