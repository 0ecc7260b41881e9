//! An example: parts of a program of one's own over the planner's crates. A folder of texts that are borrowed, a sink
//! in memory that grows, and searches for the first plan of a walk within a budget, and within so many decompositions.
#![tactic(auto)]

pub mod budget;
pub mod limited;
pub mod shelf;
pub mod tray;
