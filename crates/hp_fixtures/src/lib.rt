//! What the programs share that try public calls: the page that they print, texts with repeated parts, and texts that
//! are read.
#![tactic(auto)]

pub mod page;
pub mod reading;
pub mod repeats;
