//! Satisfiers of a code's expressions that are suspended after an event and go on.
#![tactic(auto)]

mod begins;
mod held;
mod known;
pub mod laws;
mod places;
mod scene;
mod search;
mod simple;
mod suspended;

pub use scene::Scene;
pub use suspended::Suspended;
