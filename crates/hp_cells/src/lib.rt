//! Interned terms: each ground term stands once, and is named by its place.
#![tactic(auto)]

mod cells;
mod keys;
pub mod laws;
mod table;

pub use cells::Cells;
pub use keys::{Cell, View};
