//! The satisfiers of a precondition of a code, one event a call.
#![tactic(auto)]

mod once;
mod picked;
mod start;

pub use once::Once;
pub use picked::Picked;
pub use start::satisfiers;
