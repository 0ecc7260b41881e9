//! The cheapest plan of a tree, by a walk that leaves out what costs too much already.
ghost use Rattle.std.specs.Prelude.{◌≡◌, ◌&&◌, true, not, Option, None, IfOk, OnOk, MatchOption};
ghost use Rattle.std.specs.List.{All};
ghost use Rattle.hp_laws.specs.TreeLaws.{IsFaultless};
ghost use Rattle.hp_net.specs.Standings.{node_reached, tree_visits};
ghost use Rattle.hp_syntax.specs.Walk.{Visit, Plan, visit};
ghost use Rattle.hp_best.specs.Bounded.{NeverFalls, IsAt, IsChosen, IsFound, IsCheapestOf, reaches, chosen_of, cost_of};

use crate::grounds::to_grounds;
use hp_net::Walk;
use hp_passes::{Pass, Sight, Turn, go_through};
use hp_syntax::{Ground, RunFault};
use std::alloc::{AllocError, Global};

/// A plan that was chosen.
pub struct Chosen {
    pub cost: i128,
    /// Its steps, from the first on.
    pub steps: Vec<Ground>,
    /// For each decomposition on the way its number among those of its parent, from 0 on; one that is greater than
    /// 2^64 - 1 is told as that.
    pub path: Vec<u64>,
}

// A derived drop would do the same, but be proved anew wherever a plan is let go.
impl Drop for Chosen {
    fn drop(self) {
        let Chosen {
            cost: _,
            steps,
            path,
        } = self;
        drop(steps);
        drop(path);
    }
}

/// How a search ended: with all visits made, with a limit that cut the tree somewhere, or at a fault.
#[derive(Clone, Copy, Debug, PartialEq, Eq)]
pub enum BestEnd {
    End,
    Cut,
    Fault(RunFault),
}

/// What a search found, up to its ending: the cheapest plan, and how many plans and decompositions were visited. A
/// count stays at 2^64 - 1.
pub struct Found {
    pub best: Option<Chosen>,
    pub plans: u64,
    pub expansions: u64,
    pub ending: BestEnd,
}

impl Drop for Found {
    fn drop(self) {
        let Found {
            best,
            plans: _,
            expansions: _,
            ending: _,
        } = self;
        drop(best);
    }
}

/// Whether no plan is known that costs no more than this.
fn is_cheaper(cost: i128, best: &Option<Chosen>) -> bool
    ensures { result ≡ not (reaches (cost_of best.now) cost) }
{
    match best {
        Some(known) => cost < known.cost,
        None => true,
    }
}

/// Whether nothing below a decomposition of this cost is cheaper than a plan that is known.
fn is_bounded(priced: bool, cost: i128, best: &Option<Chosen>) -> bool
    ensures { result ≡ (priced && reaches (cost_of best.now) cost) }
{
    match best {
        Some(known) => priced && known.cost <= cost,
        None => false,
    }
}

/// The plan that a walk stands at.
fn reached<W: Walk>(alloc: Global, walk: &W) -> Result<Chosen, AllocError>
    requires live { W.is_live walk.now ≡ true }
    ensures { IfOk result (λ f. MatchOption (node_reached (W.tree walk.now) (W.stands walk.now)) ⊥
        (λ n. IsAt f n (W.stands walk.now).path)) }
{
    let path = Vec::from_slice(alloc, walk.path())?;
    let steps = to_grounds(alloc, walk.cells(), walk.plan())?;
    Ok(Chosen {
        cost: walk.cost(),
        steps,
        path,
    })
}

/// Chooses the plan that a walk stands at, where none is known that costs no more.
fn keep<W: Walk>(alloc: Global, walk: &W, best: &mut Option<Chosen>) -> Result<(), AllocError>
    requires live { W.is_live walk.now ≡ true }
    ensures { OnOk result (MatchOption (node_reached (W.tree walk.now) (W.stands walk.now)) ⊥
        (λ n. (known : Option Visit) → IsChosen best.old known
        → IsChosen best.new (chosen_of known (visit (W.stands walk.now).path n Plan)))) }
{
    if is_cheaper(walk.cost(), best) {
        *best = Some(reached(alloc, walk)?);
    }
    Ok(())
}

/// A search for the cheapest plan, with what it has found so far.
struct Bounding {
    alloc: Global,
    priced: bool,
    found: Found,
}

impl<W: Walk> Pass<W, ()> for Bounding {
    ghost use Rattle.hp_best.specs.Searching.{meets_bounding, fails_bounding};

    type Error = AllocError;

    ghost meets = { λ tree. meets_bounding };

    ghost fails = { fails_bounding };

    fn meet(&mut self, walk: &W, _hand: &mut (), sight: Sight) -> Result<Turn, AllocError> {
        match sight {
            Sight::Did => {
                self.found.expansions = self.found.expansions.saturating_add(1);
                if is_bounded(self.priced, walk.cost(), &self.found.best) {
                    Ok(Turn::Past)
                } else {
                    Ok(Turn::On)
                }
            }
            Sight::Plan => {
                self.found.plans = self.found.plans.saturating_add(1);
                keep(self.alloc, walk, &mut self.found.best)?;
                Ok(Turn::On)
            }
            Sight::Cut => {
                self.found.ending = BestEnd::Cut;
                Ok(Turn::On)
            }
            Sight::Fault(fault) => {
                self.found.ending = BestEnd::Fault(fault);
                Ok(Turn::Last)
            }
        }
    }
}

/// The cheapest plan of the tree of a new walk, and of those that cost as little the first. Where the domain is
/// `priced`, what lies below a decomposition is left out as soon as a plan is known that costs no more than the steps
/// so far: a fault or a plan there isn't met, and a plan there couldn't be cheaper. After an error the walk may be used
/// no more.
pub fn best<W: Walk>(alloc: Global, walk: &mut W, priced: bool) -> Result<Found, AllocError>
    requires live { W.is_live walk.old ≡ true }
    requires new { (W.stands walk.old).rest ≡ tree_visits (W.tree walk.old) }
    requires falls { priced ≡ true → NeverFalls (tree_visits (W.tree walk.old)) }
    ensures found { IfOk result (λ f. IsFound priced f (tree_visits (W.tree walk.old))) }
    ensures cheapest { IfOk result (λ f. All (λ v. IsFaultless v.sight) (tree_visits (W.tree walk.old))
        → IsCheapestOf f.best (tree_visits (W.tree walk.old))) }
    ensures tree { W.tree walk.new ≡ W.tree walk.old }
    ensures live { OnOk result (W.is_live walk.new ≡ true) }
{
    let mut search = Bounding {
        alloc,
        priced,
        found: Found {
            best: None,
            plans: 0,
            expansions: 0,
            ending: BestEnd::End,
        },
    };
    let went = go_through(walk, &mut search, &mut ());
    let Bounding {
        alloc: _,
        priced: _,
        found,
    } = search;
    match went {
        Ok(()) => Ok(found),
        Err(_) => Err(AllocError),
    }
}
