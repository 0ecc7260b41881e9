//! The first part of a precondition that nothing satisfies together with the parts before it, and that of a branch of an
//! axiom, where its head starts from an atom of a precondition.
#![tactic(auto)]

mod against;
mod clauses;
pub mod laws;
mod nodes;
mod parts;
mod said;
mod trial;
mod unmet;

pub use against::satisfier_against;
pub use clauses::first_unmet_clause;
pub use nodes::{Spot, branch_after, first_branch, nodes_asked};
pub use parts::{Parts, asked_in, part_at};
pub use said::to_atom;
pub use trial::Trial;
pub use unmet::{Answer, Unmet, first_unmet};
