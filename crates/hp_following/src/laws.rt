//! Laws of walks along a plan.
//!
//! Each function does nothing, and its contract is the law.
ghost use Rattle.hp_following.specs.Samples.{SampleComputes};

/// What the definitions say of a few visits.
pub fn a_sample_computes()
    ensures { SampleComputes }
{}
