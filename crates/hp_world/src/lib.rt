//! The world of a search: atoms and protections, changed in place and undone by a stored trail.
//!
//! Atoms are cells. They stand at places in a row, and deleting one leaves its place empty, so that undoing puts it
//! back where it stood. Beside the places stands a table from an atom to its place.
#![tactic(auto)]

pub mod laws;
mod part_index;
mod places;
mod store;
mod world;

pub use store::Applied;
pub use world::World;
