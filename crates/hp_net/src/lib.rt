//! Task networks, and the trait of walks.
#![tactic(auto)]

pub mod laws;
mod net;
mod walk;

pub use hp_links::TaskId;
pub use net::Net;
pub use walk::{Step, Walk};
