//! Dead ends among the visits of a walk.
ghost use Rattle.std.specs.Prelude.{◌≡◌, option_map};
ghost use Rattle.hp_trace.specs.Traces.{is_dead_end, is_over};

use crate::tracing::{Seen, TracedVisit};

/// Whether a visit isn't at or below the decomposition before it, by their levels.
fn is_over(seen: &Seen, here: usize, last: usize) -> bool
    ensures { result ≡ is_over seen.now here last }
{
    match seen {
        Seen::Did(_) => here <= last,
        Seen::Plan => here < last,
        Seen::DepthCut => here < last,
        Seen::LevelCut => here < last,
        Seen::Fault(_) => here < last,
    }
}

/// Whether a decomposition of a level is a dead end, by the visit after it, if there is one.
pub fn is_dead_end(level: usize, next: Option<&TracedVisit>) -> bool
    ensures { result ≡ is_dead_end level (option_map (λ v. v.now) next.entry) }
{
    match next {
        Some(next) => is_over(&next.seen, next.level, level),
        None => true,
    }
}
