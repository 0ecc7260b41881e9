//! How a plan came about.

ghost use Rattle.std.specs.Prelude.{◌≡◌, IfOk, map, option_map};
ghost use Rattle.hp_syntax.specs.Views.{domain_of, pair_of};
ghost use Rattle.hp_way.specs.Ways.{deed_of};
ghost use Rattle.hp_derivation.specs.Derived.{derived};
ghost use Rattle.hp_derivation.specs.Goings.{parts_of};

use crate::going::Going;
use crate::roll::Stood;
use hp_syntax::{Domain, Pair};
use hp_way::Deed;
use std::alloc::{AllocError, Global};

/// All tasks that ever stood in the network on the way to a plan.
pub struct Derivation {
    /// The tasks by their numbers: those of the problem in reading order, and behind them for each deed by a method the
    /// tasks of its branch.
    pub tasks: Vec<Stood>,
    /// Their numbers in the order in which they are read: each task right before what came from it.
    pub order: Vec<usize>,
}

impl Drop for Derivation {
    fn drop(self) {
        let Derivation { tasks, order } = self;
        drop(tasks);
        drop(order);
    }
}

/// All tasks on the way of deeds, each with the one that it came from. None: a deed takes no candidate that is there,
/// or is by no rule or branch that is there, which deeds that lead to a plan of the pair by this domain's rules never
/// are. The time grows with the deeds and with the candidates at each.
pub fn derivation_of(
    alloc: Global,
    domain: &Domain,
    pair: &Pair,
    deeds: &[Deed],
) -> Result<Option<Derivation>, AllocError>
    ensures is { IfOk result (λ d. option_map parts_of d
        ≡ derived (domain_of domain.now).rules (pair_of pair.now) (map deed_of deeds.now)) }
{
    let mut going = Going::new(alloc, &pair.tasks)?;
    for (number, deed) in deeds.iter().enumerate() {
        if !going.follow(alloc, domain, number, deed)? {
            return Ok(None);
        }
    }
    let order = going.order(alloc)?;
    Ok(Some(going.end(order)))
}
