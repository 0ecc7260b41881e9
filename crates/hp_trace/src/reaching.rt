//! A walk to the next visit at or below a path.
ghost use Rattle.std.specs.List.{All};
ghost use Rattle.std.specs.Prelude.{◌≡◌, ℕ, List, true, false, IfOk, OnOk, option_map};
ghost use Rattle.hp_dead_ends.specs.Arriving.{is_small};
ghost use Rattle.hp_net.specs.Standings.{IsAtItsNode, next_below, stepped};
ghost use Rattle.hp_passes.specs.Passing.{Fits, sight_of};
ghost use Rattle.hp_search.specs.Planned.{stands_planned, tree_planned};
ghost use Rattle.hp_syntax.specs.Walk.{Did, begins, told};
ghost use Rattle.hp_trace.specs.Reaching.{ComesNext, seen_next};
ghost use Rattle.hp_trace.specs.Traces.{turn_by};

use hp_net::{Step, Walk};
use hp_passes::{Pass, Sight, Turn, go_through};
use hp_search::Planner;
use std::alloc::AllocError;

/// How a walk to a path goes on after a visit that isn't at or below it: above it on, and without what lies below another
/// decomposition.
fn turn_to(sight: Sight, path: &[u64], from: &[u64]) -> Turn
    ensures is { (q : List ℕ) → path.now ≡ told q → is_small from.now ≡ true → begins from.now q ≡ false
        → result ≡ turn_by from.now q (sight_of sight) }
    ensures fits { Fits sight result }
{
    match sight {
        Sight::Did => turn_after(path, from),
        Sight::Plan | Sight::Cut => Turn::On,
        Sight::Fault(_) => Turn::Last,
    }
}

/// How it goes on after a decomposition.
fn turn_after(path: &[u64], from: &[u64]) -> Turn
    ensures { (q : List ℕ) → path.now ≡ told q → is_small from.now ≡ true → begins from.now q ≡ false
        → result ≡ turn_by from.now q Did }
{
    if from.starts_with(path) {
        Turn::On
    } else {
        Turn::Past
    }
}

/// A pass that ends at the first visit at or below a path, with what is seen there.
#[derive(Clone, Copy)]
struct Reaching<'a> {
    from: &'a [u64],
    found: Option<Sight>,
}

impl Pass<Planner<'_>, ()> for Reaching<'_> {
    ghost use Rattle.hp_trace.specs.Reaching.{MeetsReaching};

    type Error = AllocError;

    ghost meets = { λ tree. MeetsReaching };

    ghost fails = { λ s c v e d. ⊥ };

    fn meet(
        &mut self,
        planner: &Planner<'_>,
        _hand: &mut (),
        sight: Sight,
    ) -> Result<Turn, AllocError> {
        let path = planner.path();
        if path.starts_with(self.from) {
            self.found = Some(sight);
            Ok(Turn::Last)
        } else {
            Ok(turn_to(sight, path, self.from))
        }
    }
}

/// Goes to the next visit at or below a path, and tells what is seen there, if there is such a visit.
pub(crate) fn next_visit(
    planner: &mut Planner<'_>,
    from: &[u64],
) -> Result<Option<Sight>, AllocError>
    requires live { planner.old.live ≡ true }
    requires at { All (IsAtItsNode (tree_planned planner.old)) (stands_planned planner.old).rest }
    requires small { is_small from.now ≡ true }
    ensures next { IfOk result (λ o. ComesNext from.now (stands_planned planner.old).rest (option_map sight_of o)
        (stands_planned planner.new)) }
    ensures tree { tree_planned planner.new ≡ tree_planned planner.old }
    ensures live { OnOk result (planner.new.live ≡ true) }
{
    let mut reaching = Reaching { from, found: None };
    match go_through(planner, &mut reaching, &mut ()) {
        Ok(()) => Ok(reaching.found),
        Err(_) => Err(AllocError),
    }
}

/// What a step sees, if there is one.
fn seen(step: Option<Step>) -> Option<Sight>
    ensures { option_map sight_of result ≡ seen_next step }
{
    match step {
        Some(Step::Did) => Some(Sight::Did),
        Some(Step::Plan) => Some(Sight::Plan),
        Some(Step::Cut) => Some(Sight::Cut),
        Some(Step::Fault(fault)) => Some(Sight::Fault(fault)),
        Some(Step::End) => None,
        None => None,
    }
}

/// Goes to the next visit where it is at or below the node reached, and tells what is seen there.
pub(crate) fn visit_below(planner: &mut Planner<'_>) -> Result<Option<Sight>, AllocError>
    requires live { planner.old.live ≡ true }
    ensures next { IfOk result (λ o. option_map sight_of o ≡ option_map (λ v. v.sight)
        (next_below (stands_planned planner.old).path (stands_planned planner.old).rest)) }
    ensures stands { OnOk result (stands_planned planner.new ≡ stepped (stands_planned planner.old)) }
    ensures tree { tree_planned planner.new ≡ tree_planned planner.old }
    ensures live { OnOk result (planner.new.live ≡ true) }
    ensures nest { planner.new.nest ≡ planner.old.nest }
{
    let step = planner.step()?;
    Ok(seen(step))
}
