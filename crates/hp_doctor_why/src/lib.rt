//! Telling why pairs have no plan, for those who write domains and problems.
#![tactic(auto)]

mod against;
mod axioms;
mod blamed;
mod cuts;
mod endings;
mod ends;
mod filled;
mod heads;
mod numbers;
mod phrases;
mod places;
mod reasons;
mod recurring;
mod tasks;
mod telling;
mod unserved;

pub use filled::{filled_names, names_at, part_text};
pub use numbers::{push_number, push_path};
pub use places::{head_span_at, part_span_at};
pub use reasons::{Reason, Search, reason_here};
pub use tasks::{push_obstacle, push_term};
pub use telling::{Limits, why};
