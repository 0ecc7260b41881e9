//! Places in a text, by lines and columns, and as they are shown to the author of the text.
#![tactic(auto)]

pub mod laws;
mod lines;
mod shown;
mod stretch;

pub use lines::{Lines, Place};
pub use shown::push_shown;
