//! Events without a recursion: of assignments, of calls, and of a goal by the atoms of a world.
ghost use Rattle.std.specs.Prelude.{◌≡◌, ◌<◌, Some, Ok, IfOk, OnOk, length};
ghost use Rattle.hp_syntax.specs.Events as plain;
ghost use Rattle.hp_syntax.specs.Goals.{match_goal};
ghost use Rattle.hp_syntax.specs.Matching.{meet};
ghost use Rattle.hp_syntax.specs.Values.{value};
ghost use Rattle.hp_syntax.specs.Views.{pattern_of};
ghost use Rattle.hp_eval.specs.GoalViews.{term_at, goal_of, GoalBelow};
ghost use Rattle.hp_eval.specs.Growth.{Grows};
ghost use Rattle.hp_eval.specs.Slotted.{AreBelow, bindings_of};
ghost use Rattle.hp_world.specs.Stages.{StageBelow, state_of};
ghost use Rattle.hp_answers.specs.AnswerViews.{Finds};
ghost use Rattle.hp_satisfiers.specs.Places.{place_events, IsAtomBelow};

use hp_answers::answer::{Answer, only, satisfied, stopped};
use hp_cells::{Cell, Cells, View};
use hp_eval::{Goal, Slots, match_goal, meet, value};
use hp_syntax::Pat;
use hp_world::World;
use std::alloc::{AllocError, Global};

// Events of a variable that must stand for a term: it is bound to it, or must stand for an equal one.
fn met(
    alloc: Global,
    v: u32,
    cell: Cell,
    slots: &Slots,
    cells: &Cells,
) -> Result<Vec<Answer>, AllocError>
    requires slots { AreBelow (length cells.now) slots.now }
    requires cell { cell < length cells.now }
    ensures { IfOk result (λ found. Finds cells.now (length slots.now.values) found.items
        (plain.sat_if (meet v (term_at cells.now cell) (bindings_of cells.now slots.now)))) }
{
    let mut copy = slots.copy(alloc)?;
    if meet(v, cell, cells, &mut copy) {
        only(alloc, Answer::Sat(copy))
    } else {
        Ok(Vec::new(alloc))
    }
}

/// The events of an assignment.
pub fn assigned(
    alloc: Global,
    v: u32,
    pat: &Pat,
    slots: &Slots,
    cells: &mut Cells,
) -> Result<Vec<Answer>, AllocError>
    requires slots { AreBelow (length cells.old) slots.now }
    ensures found { IfOk result (λ found. Finds cells.new (length slots.now.values) found.items
        (plain.assigned (value (pattern_of pat.now) (bindings_of cells.old slots.now)) v
        (bindings_of cells.old slots.now))) }
    ensures cells { Grows cells.old cells.new }
{
    match value(alloc, pat, slots, cells) {
        Ok(cell) => met(alloc, v, cell, slots, cells),
        Err(stop) => stopped(alloc, stop),
    }
}

// The events of a call with this value: none if it is the empty list.
fn truth(alloc: Global, cell: Cell, slots: &Slots, cells: &Cells) -> Result<Vec<Answer>, AllocError>
    requires slots { AreBelow (length cells.now) slots.now }
    requires cell { cell < length cells.now }
    ensures { IfOk result (λ found. Finds cells.now (length slots.now.values) found.items
        (plain.tested (Ok (term_at cells.now cell)) (bindings_of cells.now slots.now))) }
{
    match cells.get(cell) {
        View::Nil => Ok(Vec::new(alloc)),
        View::Sym(_) | View::Num(_) | View::Cons(..) => satisfied(alloc, slots),
    }
}

/// The events of a call.
pub fn tested(
    alloc: Global,
    call: &Pat,
    slots: &Slots,
    cells: &mut Cells,
) -> Result<Vec<Answer>, AllocError>
    requires slots { AreBelow (length cells.old) slots.now }
    ensures found { IfOk result (λ found. Finds cells.new (length slots.now.values) found.items
        (plain.tested (value (pattern_of call.now) (bindings_of cells.old slots.now))
        (bindings_of cells.old slots.now))) }
    ensures cells { Grows cells.old cells.new }
{
    match value(alloc, call, slots, cells) {
        Ok(cell) => truth(alloc, cell, slots, cells),
        Err(stop) => stopped(alloc, stop),
    }
}

/// The events of a goal by one atom. The slots are as they were, unless the memory doesn't suffice.
pub fn matched(
    alloc: Global,
    goal: &Goal,
    atom: Cell,
    cells: &Cells,
    slots: &mut Slots,
) -> Result<Vec<Answer>, AllocError>
    requires slots { AreBelow (length cells.now) slots.old }
    requires goal { GoalBelow (length cells.now) goal.now }
    requires atom { atom < length cells.now }
    ensures found { IfOk result (λ found. Finds cells.now (length slots.old.values) found.items
        (plain.sat_if (match_goal (goal_of cells.now goal.now) (term_at cells.now atom)
        (bindings_of cells.now slots.old)))) }
    ensures slots { OnOk result (slots.new ≡ slots.old) }
{
    let mark = slots.mark();
    if !match_goal(goal, atom, cells, slots) {
        return Ok(Vec::new(alloc));
    }
    let found = satisfied(alloc, slots)?;
    slots.undo_to(mark);
    Ok(found)
}

// The events of a goal at a place of the world.
fn at_place(
    alloc: Global,
    goal: &Goal,
    atom: Option<Cell>,
    cells: &Cells,
    slots: &mut Slots,
) -> Result<Vec<Answer>, AllocError>
    requires slots { AreBelow (length cells.now) slots.old }
    requires goal { GoalBelow (length cells.now) goal.now }
    requires atom { IsAtomBelow (length cells.now) atom }
    ensures found { IfOk result (λ found. Finds cells.now (length slots.old.values) found.items
        (place_events cells.now (goal_of cells.now goal.now) (bindings_of cells.now slots.old) atom)) }
    ensures slots { OnOk result (slots.new ≡ slots.old) }
{
    match atom {
        Some(atom) => matched(alloc, goal, atom, cells, slots),
        None => Ok(Vec::new(alloc)),
    }
}

/// The events of a goal by the atoms of the world, in order of place.
pub fn state_events(
    alloc: Global,
    world: &World,
    goal: &Goal,
    slots: &Slots,
    cells: &Cells,
) -> Result<Vec<Answer>, AllocError>
    requires slots { AreBelow (length cells.now) slots.now }
    requires goal { GoalBelow (length cells.now) goal.now }
    requires world { StageBelow (length cells.now) world.now.now }
    ensures { IfOk result (λ found. Finds cells.now (length slots.now.values) found.items
        (plain.state_events (state_of cells.now world.now.now) (goal_of cells.now goal.now)
        (bindings_of cells.now slots.now))) }
{
    let mut own = slots.copy(alloc)?;
    let mut found = Vec::new(alloc);
    for place in 0..world.places() {
        let mut more = at_place(alloc, goal, world.at(place), cells, &mut own)?;
        found.append(&mut more)?;
    }
    Ok(found)
}
