//! The tree of a search, whatever engine walks it: the successors of a node, the stacks of levels of a walk, nodes as
//! they stand in memory, their children by candidates and rules, and the root of a pair.
#![tactic(auto)]

pub mod laws;
pub mod root;
