//! Where the head of a rule first differs from a task.
#![tactic(auto)]

pub mod laws;
mod matching;
mod misfit;
mod mismatch;
mod values;

pub use misfit::Misfit;
pub use mismatch::{first_misfit, takes};
