//! What keeps the tasks at a node of the tree from being done.
//!
//! At a dead end some tasks may be done next, and nothing does them. `all_stuck` asks of each of them each operator and
//! branch of a method that has its name, and says what keeps it from doing the task: its head doesn't match, or which
//! part of its precondition is the first that nothing satisfies, with the facts of the name that the part asks for. Where
//! that part is an atom it asks each branch of the axioms of its name too.
#![tactic(auto)]

mod axioms;
mod facts;
mod next;
mod obstacles;

pub use axioms::Unconcluded;
pub use facts::{FACTS_SHOWN, Facts};
pub use next::next_tasks;
pub use obstacles::{
    Obstacle, Stuck, all_stuck, branches_for, is_negated_at, name_at, node_of, task_name,
};
