//! The way to a plan whose path or number is known: the decompositions that lead to it, the states between them, and
//! what each step changes.
#![tactic(auto)]

mod changes;
mod plans;
mod states;
mod ways;

pub use changes::changes_on_the_way;
pub use plans::{Numbered, numbered_way, way_to_plan};
pub use states::state_on_the_way;
pub use ways::{Deed, Way, deed_at, deeds_of, way_by, way_to};
