//! Satisfiers of a code's expressions that are given one event a call.
#![tactic(auto)]

mod generator;

pub use generator::Gen;
pub use hp_suspended::Scene;
