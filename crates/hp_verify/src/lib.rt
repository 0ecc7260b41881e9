//! Whether a plan that is given is one of a tree, found by a walk that leaves out what doesn't begin it.
//!
//! The steps of a node begin those of every node below it. So `verify` leaves out what lies below a decomposition whose
//! steps don't begin the plan, and where there is no fault it misses nothing.
#![tactic(auto)]

mod comparing;
pub mod laws;
mod verifying;

pub use verifying::{Answer, Verdict, are_steps, leads_on, verify};
