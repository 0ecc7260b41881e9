//! What an operator of a code changes and costs.
#![tactic(auto)]

mod bodies;
mod changed;
pub mod laws;

pub use bodies::effects;
