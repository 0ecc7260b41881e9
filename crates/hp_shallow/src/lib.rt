//! The least depth whose walk comes to a plan, by walks of one depth after another.
#![tactic(auto)]

mod deepening;
pub mod laws;
mod walking;

pub use deepening::{Least, shallow, walk_at};
pub use walking::ShallowEnd;
