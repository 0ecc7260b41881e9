//! A reader of texts: what a text spells, as a forest of names, numbers and lists with their spans,
//! or the first reason for which it is refused.
#![tactic(auto)]

mod byte;
mod copies;
mod forest;
mod gap;
mod reader;
mod scan;
mod spelling;
mod stepping;

pub use forest::{Forest, Node, NodeKind, TextRefusal};
pub use hp_syntax::TextKind;
pub use reader::read;
pub use stepping::NodeReader;
