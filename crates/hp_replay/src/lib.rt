//! Plans that are printed are read back.
//!
//! Each function does nothing, and its contract is the law.
#![tactic(auto)]

pub mod laws;
