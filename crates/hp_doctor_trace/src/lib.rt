//! The walk of the planner, told visit by visit.
#![tactic(auto)]

pub mod laws;
mod lines;
mod stuck;
mod telling;
mod traces;

pub use traces::{Asked, trace};
