//! Calls of a walk that prune.
ghost use Rattle.std.specs.Prelude.{◌≡◌, [], false};
ghost use Rattle.hp_syntax.specs.Walk.{visits};
ghost use Rattle.hp_net.specs.Standings.{standing};
ghost use Rattle.hp_part_trials.specs.Twins.{standing_of, twins};

use crate::parts::walks::{Move, Twins, make_all};
use hp_fixtures::page::Page;
use hp_net::Walk;
use std::alloc::{AllocError, Global};

const CALLS: [Move; 7] = [
    Move::Next,
    Move::Prune,
    Move::Step,
    Move::Back,
    Move::Next,
    Move::Next,
    Move::Next,
];

// The visits of the calls, and that the walk is then at its root.
fn show_visits(page: &mut Page, alloc: Global, walk: &mut Twins) -> Result<(), AllocError>
    requires { standing_of walk.old.at walk.old.left walk.old.at_did ≡ standing []
        (visits twins.rules twins.nest twins.root []) false }
{
    let mut steps = Vec::new(alloc);
    make_all(walk, &CALLS, &mut steps)?;
    page.line("visits", &steps);
    page.line("path", &walk.path());
    page.line("steps of the plan", &walk.plan().len());
    page.line("no call failed", &walk.live());
    Ok(())
}

/// A walk whose first decomposition is pruned.
pub fn show_prunes(page: &mut Page, alloc: Global) -> Result<(), AllocError> {
    page.title("What is pruned is left out");
    let mut walk = Twins::new(alloc)?;
    show_visits(page, alloc, &mut walk)
}
