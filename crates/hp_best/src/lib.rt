//! A cheapest plan, found by a walk that leaves out what can't be cheaper.
//!
//! Where each operator of a domain costs a number that isn't negative, as `priced` says, costs never fall on the way
//! down a tree, and `best` leaves out what lies below a decomposition where a plan is known that costs no more.
#![tactic(auto)]

mod bounding;
mod grounds;
pub mod laws;
mod pricing;

pub use bounding::{BestEnd, Chosen, Found, best};
pub use grounds::{to_ground, to_grounds};
pub use pricing::priced;
