//! What was at fault where a search ended at a fault.
//!
//! A fault comes from valuing a pattern of the domain. `find_blame` goes through the tasks that may be done next, and
//! through the operators and branches of their names. It says by which of them the fault is met, at which pattern, and
//! with which values of the variables.
#![tactic(auto)]

mod blames;
mod patterns;
mod sites;

pub use blames::{Blame, Culprit, find_blame};
pub use patterns::{atom_mentions, mentions};
pub use sites::{Site, site_at};
