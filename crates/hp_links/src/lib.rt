//! A task network in place: its parts have numbers, never move, and are changed and undone by a stored trail.
#![tactic(auto)]

mod candidates;
mod entry;
mod front;
mod id;
mod links;
mod plant;
mod push;
mod store;
mod undo;
mod walk;

pub use entry::Order;
pub use id::TaskId;
pub use store::Store;
