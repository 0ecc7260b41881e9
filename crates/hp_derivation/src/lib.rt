//! How a plan came about: all tasks that ever stood in the network on the way to it, each with the one that it came
//! from.
#![tactic(auto)]

mod chain;
mod derivation;
mod going;
mod numbering;
mod roll;

pub use derivation::{Derivation, derivation_of};
pub use roll::Stood;
