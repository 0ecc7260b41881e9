//! The plain engine: a walk that copies the world and the network for each node, and takes satisfiers as lists.
#![tactic(auto)]

mod agenda;
mod candidate;
mod frame;
mod search;
mod search_node;
mod walk;

pub use walk::PlainWalk;
