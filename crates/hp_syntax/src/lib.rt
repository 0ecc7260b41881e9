//! The types of domains and problems, and the definitions that every contract cites.
//!
//! A domain is what JSHOP2's files describe: operators, methods and axioms. The definitions in
//! `specs/` say what a text spells, what a form means and what the tree of ordered task
//! decomposition holds.
#![tactic(auto)]

mod check;
mod copies;
mod decimals;
mod domain;
mod expression;
mod fault;
mod form;
mod implications;
pub mod laws;
pub mod limits;
mod name;
mod pattern;
pub mod samples;
mod status;
mod tasks;
mod text;

pub use check::{CheckFault, CheckKind};
pub use decimals::{Decimals, sign};
pub use domain::{
    Axiom, Branch, Clause, Domain, Effect, Method, Operator, Pair, Problem, Rule, Side,
};
pub use expression::{Expr, ExprKind, Pre, SortKey, SortOrder};
pub use fault::{FaultKind, RunFault};
pub use form::What;
pub use implications::implication;
pub use name::Name;
pub use pattern::{AtomPat, Ground, Pat, PatKind, Span, Tail};
pub use status::Status;
pub use tasks::{NetPat, TaskPat};
pub use text::TextKind;
