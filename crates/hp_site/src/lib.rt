//! The search node that is reached, changed and undone in place.
#![tactic(auto)]

mod mark;
mod site;

pub use mark::Mark;
pub use site::Site;
