//! Names, variables, terms and atoms as they are read from the nodes of a forest, and what is wanted where one is none.
//!
//! Each function reads one line of the grammar (`hp_syntax`, `Grammar`), and its contract says that it gives what that
//! line gives. Recursion goes by the nesting of brackets alone, and along the parts of a list there are loops.
#![tactic(auto)]

pub mod names;
pub mod nodes;
pub mod orders;
mod refusal;
pub mod scope;
pub mod terms;

pub use refusal::FormRefusal;
