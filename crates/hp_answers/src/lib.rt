//! What satisfiers as lists are made of: what is met, each Sat with slots of its own, and the rules of a domain by
//! their names.
#![tactic(auto)]

pub mod answer;
pub mod rule_index;
