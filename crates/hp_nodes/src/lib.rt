//! The nodes that rules are compiled to: rules laid down in one list, and the parts of atoms that its goals ask for.
#![tactic(auto)]

mod asking;
mod effects;
mod expressions;
mod laying;
mod marks;
mod node;
mod rules;

pub use asking::{LAST_PART, asked_by_nodes};
pub use node::{CodeNode, Op};
pub use rules::lay_rule;
