//! The lines of a run, written through a sink.
#![tactic(auto)]

mod derived;
mod ending;
mod endings;
mod grounds;
mod page;
mod paged;
mod paths;
mod pen;
mod plans;
mod refusal;
mod terms;
mod words;
mod writing;

pub use ending::Ending;
pub use paged::{Origin, Paged};
pub use pen::Pen;
pub use refusal::Refusal;
pub use words::text_of;
