//! Logical expressions and preconditions as they are read from the nodes of a forest, line by line of the grammar.
#![tactic(auto)]

pub mod expressions;
pub mod preconditions;
