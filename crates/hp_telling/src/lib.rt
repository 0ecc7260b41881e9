//! What is told of a walk: its plans, the cheapest of them, those behind a path, and whether steps are one of them.
//!
//! Nothing here asks which engine walks, nor where the texts go.
#![tactic(auto)]

mod choosing;
mod following;
mod halt;
mod planning;
mod verifying;

pub use choosing::tell_best;
pub use following::tell_after;
pub use halt::Halt;
pub use planning::{Detail, Progress, close, tell, write_plan};
pub use verifying::tell_verdict;
