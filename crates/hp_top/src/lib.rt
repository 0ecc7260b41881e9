//! The top call: from the words of a command to the bytes that it writes.
#![tactic(auto)]

mod checking;
mod coding;
mod command;
mod deepening;
pub mod laws;
mod loading;
mod making;
mod paging;
mod pairs;
mod reading;
mod refusing;
pub mod rereading;
pub mod samples;
mod serving;
mod showing;
mod summing;
mod writing;

pub use command::run;
pub use hp_syntax::Status;
