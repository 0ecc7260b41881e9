//! The branch of a method that is chosen: the first whose precondition has any events.
#![tactic(auto)]

mod chosen;

pub use chosen::{Chosen, chosen_branch};
