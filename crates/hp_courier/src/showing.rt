//! The parts of a walk that are shown.
ghost use Rattle.std.specs.Prelude.{◌≡◌, true};
ghost use Rattle.std.specs.List.{All};
ghost use Rattle.hp_net.specs.Standings.{IsAtItsNode};

use crate::swap::{print_pruned, print_visits, print_way_back};
use hp_embedding::budget::{AffordablePlan, within};
use hp_net::Walk;
use std::alloc::Global;
use std::io;
use std::io::Write;

/// The parts of a run that are shown.
#[derive(Clone, Copy)]
pub enum Shown {
    /// The first plan that costs no more than this, a count of thousandths.
    Within(i128),
    Visits,
    Pruned,
    WayBack,
}

/// The place where a plan was found, and its lines, which tell its cost.
fn print_found(rt: &impl Print, found: &AffordablePlan) -> io::Result<()> {
    println!(rt; "the first within the budget is at path {:?}", found.path)?;
    io::writer(rt).write_all(found.text.as_slice())
}

/// The first plan of a walk that costs no more than a budget.
fn print_within<W: Walk>(
    rt: &impl Print,
    alloc: Global,
    walk: &mut W,
    budget: i128,
) -> anyhow::Result<()>
    requires live { W.is_live walk.old ≡ true }
    requires at { All (IsAtItsNode (W.tree walk.old)) (W.stands walk.old).rest }
{
    match within(alloc, walk, budget)? {
        Some(found) => Ok(print_found(rt, &found)?),
        None => Ok(println!(rt; "no plan is within the budget")?),
    }
}

/// Shows something of a walk.
pub fn show<W: Walk>(
    rt: &impl Print,
    alloc: Global,
    walk: &mut W,
    what: Shown,
) -> anyhow::Result<()>
    requires live { W.is_live walk.old ≡ true }
    requires at { All (IsAtItsNode (W.tree walk.old)) (W.stands walk.old).rest }
{
    match what {
        Shown::Within(budget) => print_within(rt, alloc, walk, budget),
        Shown::Visits => Ok(print_visits(rt, walk)?),
        Shown::Pruned => Ok(print_pruned(rt, walk)?),
        Shown::WayBack => Ok(print_way_back(rt, walk)?),
    }
}
