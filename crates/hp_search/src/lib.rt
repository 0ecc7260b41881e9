//! The search in place: one world, one network and one store of terms, which are changed and undone along the path.
#![tactic(auto)]

mod asking;
mod decomposition;
mod moments;
mod planner;
mod search;

pub use decomposition::Decomposition;
pub use planner::Planner;
