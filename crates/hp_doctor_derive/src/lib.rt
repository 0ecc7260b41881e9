//! Telling how far a plan that is given can be derived.
#![tactic(auto)]

mod blanks;
mod phrases;
mod plans;
mod stops;
mod telling;
mod words;

pub use telling::{Asked, derive};
