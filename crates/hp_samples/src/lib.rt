//! Samples of the whole language: terms and runs that are computed from the definitions alone.
#![tactic(auto)]

pub mod runs;
pub mod terms;
