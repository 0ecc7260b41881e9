//! The first satisfier, or all satisfiers in the order of a variable, over any satisfiers.
//!
//! Both are proved from the trait's clauses alone.
#![tactic(auto)]

mod first;
mod heard;
mod hearing;
mod noted;
mod sorted;

pub use first::First;
pub use sorted::Sorted;
