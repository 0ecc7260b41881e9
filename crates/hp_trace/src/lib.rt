//! The visits of a walk as they come, each with what is seen at it, and at dead ends with what keeps the tasks there from
//! being done.
#![tactic(auto)]

mod ends;
pub mod laws;
mod reaching;
mod tracing;

pub use ends::is_dead_end;
pub use tracing::{Seen, TracedVisit, trace};
