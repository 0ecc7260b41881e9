//! The words of commands: which are one, and what they ask for. And the words of paths.
#![tactic(auto)]

mod numbers;
mod options;
mod paths;
pub mod samples;
mod words;

pub use options::Options;
pub use paths::{is_path, path};
pub use words::{
    Asked, Job, LARGEST_SEED, MOST_PACKAGES, MOST_PAIRS, Request, Verification, request_asked,
};
