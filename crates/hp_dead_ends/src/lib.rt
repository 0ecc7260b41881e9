//! How far a search came, and what stopped it.
//!
//! A dead end is a node that isn't a plan and has depth left, but no children of any kind. `find` goes through the
//! visits of a walk up to its first plan or fault, and tells the dead ends that came furthest, the first places where a
//! limit cut the search, and how it ended. `go_to` goes to one of these in a second walk.
#![tactic(auto)]

mod arriving;
pub mod laws;
mod searching;

pub use arriving::{go_to, is_small, turn_after};
pub use searching::{DeadEnd, DeadEnds, SearchEnd, find};
