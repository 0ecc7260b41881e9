//! Heads and goals that bind variables.
ghost use Rattle.std.specs.Prelude.{◌≡◌, ◌<◌, length};
ghost use Rattle.hp_eval.specs.GoalViews.{GoalBelow};
ghost use Rattle.hp_eval.specs.Slotted.{no_bindings};

use hp_cells::{Cell, Cells, View};
use hp_eval::{EvalStop, Goal, Slots, atom_value, fill_goal, match_atom, match_goal, start_goal};
use hp_fixtures::page::Page;
use hp_syntax::AtomPat;
use std::alloc::{AllocError, Global};

// The parts of a list: the first one, and the list of the others.
fn parts_of(cells: &Cells, list: Option<Cell>) -> (Option<Cell>, Option<Cell>) {
    match list {
        Some(list) if list.index() < cells.len() => match cells.get(list) {
            View::Cons(first, others) => (Some(first), Some(others)),
            _ => (None, None),
        },
        _ => (None, None),
    }
}

// Whether a head matches an atom, and ?0 then stands for its first argument.
fn is_head_matched(
    alloc: Global,
    cells: &mut Cells,
    unbound: &Slots,
    head: &AtomPat,
    atom: &AtomPat,
) -> Result<bool, EvalStop>
    requires { unbound.now ≡ no_bindings 0 }
{
    let atom = atom_value(alloc, atom, unbound, cells)?;
    let mut slots = Slots::new(alloc, 1)?;
    let matches = match_atom(head, atom, cells, &mut slots);
    let (_, args) = parts_of(cells, Some(atom));
    let (first, _) = parts_of(cells, args);
    Ok(matches && slots.value_of(0) == first)
}

// Whether a goal matches an atom, and ?0 then stands for its arguments.
fn is_goal_matched(
    alloc: Global,
    cells: &mut Cells,
    unbound: &Slots,
    goal: &AtomPat,
    atom: &AtomPat,
) -> Result<bool, EvalStop>
    requires { unbound.now ≡ no_bindings 0 }
{
    let mut slots = Slots::new(alloc, 1)?;
    let atom = atom_value(alloc, atom, unbound, cells)?;
    let goal = fill_goal(alloc, goal, unbound, cells)?;
    let matches = match_goal(&goal, atom, cells, &mut slots);
    let (_, args) = parts_of(cells, Some(atom));
    Ok(matches && slots.value_of(0) == args)
}

// The cell that ?0 stands for, where a head starts for a goal.
fn started(
    alloc: Global,
    cells: &mut Cells,
    head: &AtomPat,
    goal: &Goal,
) -> Result<Option<Cell>, AllocError>
    requires { GoalBelow (length cells.old) goal.now }
{
    let mut slots = Slots::new(alloc, 1)?;
    let starts = start_goal(head, goal, cells, &mut slots)?;
    Ok(if starts { slots.value_of(0) } else { None })
}

// Whether a head starts for an atom as a goal, and ?0 then stands for its first argument.
fn is_started(
    alloc: Global,
    cells: &mut Cells,
    unbound: &Slots,
    head: &AtomPat,
    atom: &AtomPat,
) -> Result<bool, EvalStop>
    requires { unbound.now ≡ no_bindings 0 }
{
    let cell = atom_value(alloc, atom, unbound, cells)?;
    let (_, args) = parts_of(cells, Some(cell));
    let (first, _) = parts_of(cells, args);
    let goal = fill_goal(alloc, atom, unbound, cells)?;
    let found = started(alloc, cells, head, &goal)?;
    Ok(found.is_some() && found == first)
}

/// Matching and starting: of an atom, of a head with a variable, and of a goal whose tail is one.
pub fn show_matches(
    page: &mut Page,
    alloc: Global,
    cells: &mut Cells,
    unbound: &Slots,
    atom: &AtomPat,
    head: &AtomPat,
    goal: &AtomPat,
)
    requires { unbound.now ≡ no_bindings 0 }
{
    page.title("Heads and goals bind variables");
    page.line(
        "(go ?0) matches (go (3))",
        &is_head_matched(alloc, cells, unbound, head, atom),
    );
    page.line(
        "(go . ?0) matches (go (3))",
        &is_goal_matched(alloc, cells, unbound, goal, atom),
    );
    page.line(
        "(go ?0) starts for (go (3))",
        &is_started(alloc, cells, unbound, head, atom),
    );
}
