//! The events of a goal by the atoms of places.
ghost use Rattle.std.specs.Prelude.{◌≡◌, ◌<◌, ◌≤◌, ℕ, MatchOption, Option, Some, List, [], length, slice_get};
ghost use Rattle.hp_syntax.specs.Terms.{Term, Symbol};
ghost use Rattle.hp_eval.specs.GoalViews.{goal_of, GoalBelow};
ghost use Rattle.hp_eval.specs.Growth.{Grows};
ghost use Rattle.hp_eval.specs.Slotted.{AreBelow, bindings_of};
ghost use Rattle.hp_world.specs.Named.{IsNextAt};
ghost use Rattle.hp_world.specs.Recorded.{Knows};
ghost use Rattle.hp_world.specs.Stages.{AllBelow, live_atoms};
ghost use Rattle.hp_suspended.specs.PlaceSteps.{place_events, HasNoKnown, IsFirstKnown, IsGround, IsNextPlace, Bound, BeginsWith, TurnsPlaces};
ghost use Rattle.hp_suspended.specs.SceneViews.{setting_of};

use crate::known::{find_atom, is_ground, known_cell};
use crate::scene::Scene;
use hp_cells::{Cell, Cells};
use hp_eval::{Event, Goal, Slots, match_goal};
use hp_world::World;

/// A part of an atom that is known by its cell; the arguments are the parts from 1 on.
#[derive(Clone, Copy)]
pub struct KnownPart {
    pub(crate) number: usize,
    pub(crate) cell: Cell,
}

/// What an atom has that may be matched: this name, and this part where there is one, by their cells.
#[derive(Clone, Copy)]
pub struct AtomFilter {
    pub(crate) name: Cell,
    pub(crate) known: Option<KnownPart>,
}

// The first argument of a goal that is known.
fn first_known(goal: &Goal) -> Option<KnownPart>
    ensures { MatchOption result (HasNoKnown goal.now) (IsFirstKnown goal.now) }
{
    for number in 0..goal.args.len() {
        if let Some(cell) = known_cell(&goal.args[number]) {
            return Some(KnownPart {
                number: number + 1,
                cell,
            });
        }
    }
    None
}

// The next place by a goal's name and its first known argument.
fn next_by_parts(
    world: &World,
    goal: &Goal,
    name: Cell,
    from: usize,
    cells: &Cells,
) -> Option<usize>
    requires atoms { AllBelow (length cells.now) (live_atoms world.now.now.places) }
    requires known { Knows cells.now world.now }
    requires goal { GoalBelow (length cells.now) goal.now }
    requires name { slice_get cells.now name ≡ Some (Symbol goal.now.name) }
    ensures { IsNextPlace cells.now (goal_of cells.now goal.now) world.now.now.places from result }
{
    match first_known(goal) {
        Some(part) => world.next_with(cells, name, part.number, part.cell, from),
        None => world.next_named(cells, name, from),
    }
}

// The place of an atom, if it stands at one that isn't below another.
fn place_from(world: &World, atom: Cell, from: usize) -> Option<usize>
    ensures { IsNextAt (λ i. slice_get world.now.now.places i ≡ Some (Some atom)) from result }
{
    match world.place_of(atom) {
        Some(place) if from <= place => Some(place),
        _ => None,
    }
}

// The next place for a goal without free variables: that of the only atom that it matches.
fn next_same(world: &World, goal: &Goal, name: Cell, from: usize, cells: &Cells) -> Option<usize>
    requires atoms { AllBelow (length cells.now) (live_atoms world.now.now.places) }
    requires goal { GoalBelow (length cells.now) goal.now }
    requires name { slice_get cells.now name ≡ Some (Symbol goal.now.name) }
    requires ground { IsGround cells.now goal.now }
    ensures { IsNextPlace cells.now (goal_of cells.now goal.now) world.now.now.places from result }
{
    match find_atom(goal, name, cells) {
        Some(atom) => place_from(world, atom, from),
        None => None,
    }
}

/// A place not below one with an atom, such that a goal matches no atom at the places passed over. It is found by the
/// goal's name and its first known argument, or by the atom itself where all arguments are known. No memory is taken.
pub(crate) fn next_place(world: &World, goal: &Goal, from: usize, cells: &Cells) -> Option<usize>
    requires atoms { AllBelow (length cells.now) (live_atoms world.now.now.places) }
    requires known { Knows cells.now world.now }
    requires goal { GoalBelow (length cells.now) goal.now }
    ensures { IsNextPlace cells.now (goal_of cells.now goal.now) world.now.now.places from result }
{
    // The parts of a term have cells, too.
    let _ = cells.len();
    match cells.find_sym(&goal.name) {
        Some(name) => {
            if is_ground(goal) {
                next_same(world, goal, name, from, cells)
            } else {
                next_by_parts(world, goal, name, from, cells)
            }
        }
        None => None,
    }
}

// The event of a goal at a place.
fn match_place(
    goal: &Goal,
    place: usize,
    world: &World,
    cells: &Cells,
    slots: &mut Slots,
) -> Option<Event>
    requires place { place < length world.now.now.places }
    requires atoms { AllBelow (length cells.now) (live_atoms world.now.now.places) }
    requires goal { GoalBelow (length cells.now) goal.now }
    requires slots { AreBelow (length cells.now) slots.old }
    ensures bound { Bound result slots.old slots.new }
    ensures gives { (held : Option ℕ) → slice_get world.now.now.places place ≡ Some held
        → BeginsWith result (place_events cells.now (goal_of cells.now goal.now) (bindings_of cells.now slots.old) held)
        (bindings_of cells.now slots.new) [] }
    ensures below { AreBelow (length cells.now) slots.new }
{
    match world.at(place) {
        Some(atom) => {
            if match_goal(goal, atom, cells, slots) {
                Some(Event::Sat)
            } else {
                None
            }
        }
        None => None,
    }
}

/// One turn at the places from one on: the next one with an atom that the goal may match is taken, and the place goes
/// behind it. An event is a Sat; where there is none, the events that are left are the same. At the end the place is
/// behind the last one.
pub(crate) fn turn_at_places(
    goal: &Goal,
    at: &mut usize,
    scene: &Scene,
    cells: &Cells,
    slots: &mut Slots,
) -> Option<Event>
    requires atoms { AllBelow (length cells.now) (live_atoms scene.now.world.now.places) }
    requires known { Knows cells.now scene.now.world }
    requires goal { GoalBelow (length cells.now) goal.now }
    requires slots { AreBelow (length cells.now) slots.old }
    ensures bound { Bound result slots.old slots.new }
    ensures left { (terms : List Term) → Grows cells.now terms
        → TurnsPlaces result (setting_of scene.now terms) goal.now at.old at.new slots.old slots.new }
    ensures later { at.old < length scene.now.world.now.places → at.old < at.new }
    ensures within { at.new ≤ length scene.now.world.now.places }
    ensures below { AreBelow (length cells.now) slots.new }
{
    let end = scene.world.places();
    match next_place(&scene.world, goal, *at, cells) {
        Some(place) => {
            *at = place + 1;
            match_place(goal, place, &scene.world, cells, slots)
        }
        None => {
            *at = end;
            None
        }
    }
}
