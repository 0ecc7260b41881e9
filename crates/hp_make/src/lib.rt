//! Problems that are made: a truck is to take packages from where they are to where they belong.
//!
//! The places are drawn by a linear congruential generator, with the constants of the sample `rand` in the C standard.
//! So a seed and a number of packages always make the same texts.
#![tactic(auto)]

ghost use Rattle.std.specs.Prelude.{◌≡◌, ◌^◌, ◌<◌, ◌≤◌, IfOk};
ghost use Rattle.hp_make.specs.Texts.{domain_text, problem_text};

mod domain;
mod draws;
mod problem;
pub mod samples;

pub use domain::TRANSPORT;
use std::alloc::{AllocError, Global};

/// A domain, and a problem for it.
#[derive(Drop)]
pub struct Made {
    pub domain: Vec<u8>,
    pub problem: Vec<u8>,
}

/// Makes the problem of a seed with `n` packages, and its domain. The error is that memory ran out.
pub fn make(alloc: Global, seed: u32, n: u32) -> Result<Made, AllocError>
    requires seed { seed < 2 ^ 31 }
    requires some { 1 ≤ n }
    requires few { n ≤ 100 }
    ensures domain { IfOk result (λ made. made.domain.items ≡ domain_text) }
    ensures problem { IfOk result (λ made. made.problem.items ≡ problem_text seed n) }
{
    let domain = Vec::from_slice(alloc, TRANSPORT)?;
    let problem = problem::problem_text(alloc, seed, n)?;
    Ok(Made { domain, problem })
}
