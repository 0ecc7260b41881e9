//! The changes and the cost of an operator.
#![tactic(auto)]

mod changes;
mod costs;
mod obstacle;
mod putting;

pub use changes::{Changes, Part};
pub use costs::cost;
pub use hp_syntax::Side;
pub use obstacle::Obstacle;
pub use putting::{PutAtoms, put_atom, put_atoms, put_each, put_protection};
