//! The compiled code: the rules of a domain as nodes in one list, how it is listed, and laws that each node means its
//! source.
#![tactic(auto)]

mod code;
pub mod laws;
mod lines;
mod look_ups;
mod lowering;

pub use code::Code;
pub use hp_nodes::{CodeNode, LAST_PART, Op};
pub use lines::listing;
pub use look_ups::asked_parts;
pub use lowering::{Lowering, lower};
