//! A walk to a plan whose path is known, which makes few of the visits before it.
//!
//! A path is told in words, as `path` reads them, and `reach` goes to the plan there: what lies below a decomposition
//! that comes before the path is left out, and the walk ends as soon as it is beyond. So what is left then are the
//! visits behind that plan.
#![tactic(auto)]

pub mod laws;
mod reaching;

pub use hp_words::{is_path, path};
pub use reaching::{Arrival, Reached, reach};
