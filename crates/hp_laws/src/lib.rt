//! Laws over the definitions of the language's meaning: of terms and matching, of satisfiers, of networks and walks,
//! of plans, and of what the checks let through.
//!
//! Each function does nothing, and its contract is the law.
#![tactic(auto)]

pub mod pair_laws;
pub mod plan_laws;
pub mod satisfier_laws;
pub mod term_laws;
pub mod tree_laws;
