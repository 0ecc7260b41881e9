//! How a plan came about, told task by task: each one below the task that it came from.
#![tactic(auto)]

mod changes;
mod deeds;
mod drawing;
mod grounds;
mod telling;
mod trees;
mod words;

pub use deeds::rule_at;
pub use drawing::push_branch_line;
pub use grounds::push_ground;
pub use trees::{Asked, Wanted, pair_at, push_fault, tree};
pub use words::{push_blanks, push_number, push_place};
