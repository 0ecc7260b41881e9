//! The nodes on the way of a search in place, each with the children that are left there.
#![tactic(auto)]

mod agenda;
mod frame;
mod queue;

pub use agenda::Agenda;
pub use frame::{End, Frame, Successor};
pub use queue::Queue;
