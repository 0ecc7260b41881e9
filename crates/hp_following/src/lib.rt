//! How far a walk along a plan that is given comes.
//!
//! `follow` goes through a tree as a walk along a plan does, which leaves out what doesn't begin it. It keeps the first
//! of the decompositions that came furthest. `stand_at` goes to that one in a second walk.
#![tactic(auto)]

mod following;
pub mod laws;
mod standing;

pub use following::{FollowEnd, Following, follow};
pub use standing::stand_at;
