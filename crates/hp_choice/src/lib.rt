//! The choice of a rule at a task, whose children are made one after the other, in place.
#![tactic(auto)]

mod asking;
mod choice;
mod first;
pub mod laws;
mod opening;
mod rooms;
mod starting;

pub use asking::{Finding, Prefix, ask, ask_along};
pub use choice::{Choice, Deed, Given};
pub use first::{Test, first_satisfier};
pub use opening::open;
pub use rooms::Rooms;
pub use starting::{Conjuncts, Start};
