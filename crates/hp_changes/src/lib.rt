//! What each step on the way to a node takes from the state, adds to it, protects and frees.
#![tactic(auto)]

mod changing;
mod comparing;
mod terms;

pub use changing::changes_along;
pub use comparing::{Changed, atoms_of};
