//! Satisfiers as lists: the events of an expression or a precondition in a world, up to the first fault, and the
//! outcome of an operator's effects. Each list is that of the definitions.
#![tactic(auto)]

pub mod conclusions;
pub mod effects;
pub mod expressions;
pub mod listed;
pub mod matches;
pub mod preconditions;
