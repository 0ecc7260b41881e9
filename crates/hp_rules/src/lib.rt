//! Rules and task lists as they are read from the nodes of a forest, line by line of the grammar.
#![tactic(auto)]

mod effects;
pub mod rules;
pub mod tasks;
