//! Passes over the visits of a walk, which may leave out what lies below some of them, and their laws.
#![tactic(auto)]

pub mod laws;
mod passing;

pub use passing::{Pass, Sight, Stop, Turn, go_through};
