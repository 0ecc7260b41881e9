//! Places by key: for each key the places that have it, ascending, as chains from which a place can be taken out and
//! put back where it was, in the reverse order.
//!
//! A place that is taken out keeps its neighbours, so that putting it back takes no search and no memory (Knuth,
//! "Dancing Links", 2000).
#![tactic(auto)]

mod chains;
pub mod laws;
mod link;
mod ring;

pub use chains::Chains;
