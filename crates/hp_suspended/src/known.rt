//! Goals without free variables, and the only atom that such a goal matches.
ghost use Rattle.std.specs.Prelude.{◌≡◌, ℕ, true, Some, None, List, MatchOption, option_map, is_some, length, slice_get};
ghost use Rattle.hp_cells.specs.Cells.{AreCells, LooksUp, NamesList};
ghost use Rattle.hp_syntax.specs.Goals.{ground_parts};
ghost use Rattle.hp_syntax.specs.Terms.{Term, Terms, Symbol, Listed, More};
ghost use Rattle.hp_eval.specs.Attempts.{ground_part};
ghost use Rattle.hp_eval.specs.FillSteps.{AreFilledBelow, AreKnown, parts_at};
ghost use Rattle.hp_eval.specs.GoalViews.{filled_of, fillings_of, is_below, term_at, GoalBelow};
ghost use Rattle.hp_eval.specs.declared.goals.Filled.TheVariants.{Known};
ghost use Rattle.hp_suspended.specs.PlaceSteps.{IsGround, ground_of};

use hp_cells::{Cell, Cells};
use hp_eval::{Filled, Goal};

/// The cell of a part without free variables.
pub(crate) fn known_cell(part: &Filled) -> Option<Cell>
    ensures term { (terms : List Term) → ground_part (filled_of terms part.now) ≡ option_map (term_at terms) result }
    ensures known { MatchOption result ((cell : ℕ) → part.now ≡ Known cell → ⊥) (λ cell. part.now ≡ Known cell) }
{
    match part {
        Filled::Known(cell) => Some(*cell),
        Filled::Free(_) | Filled::List(..) => None,
    }
}

// Whether no part has a free variable.
fn are_known(parts: &[Filled]) -> bool
    ensures { (terms : List Term) → result ≡ is_some (ground_parts (fillings_of terms parts.now) None) }
{
    for part in parts {
        if known_cell(part).is_none() {
            return false;
        }
    }
    true
}

/// Whether a goal has no free variable.
pub(crate) fn is_ground(goal: &Goal) -> bool
    ensures { (terms : List Term) → result ≡ is_some (ground_of terms goal.now) }
{
    match goal.tail {
        Some(_) => false,
        None => are_known(goal.args.as_slice()),
    }
}

// The cell of the list of a known part and of those of the list behind it, if the list stands.
fn find_part(part: &Filled, list: Cell, cells: &Cells) -> Option<Cell>
    requires part { is_below (length cells.now) part.now ≡ true }
    requires list { NamesList cells.now list }
    ensures { (t : Term) → ground_part (filled_of cells.now part.now) ≡ Some t
        → LooksUp (Listed (More t (parts_at cells.now list))) cells.now result }
{
    match known_cell(part) {
        Some(cell) => cells.find_cons(cell, list),
        None => None,
    }
}

// The cell of the list of known parts, if the list stands.
fn find_parts(parts: &[Filled], cells: &Cells) -> Option<Cell>
    requires parts { AreFilledBelow (length cells.now) parts.now }
    requires known { AreKnown (fillings_of cells.now parts.now) }
    ensures { (ts : Terms) → ground_parts (fillings_of cells.now parts.now) None ≡ Some ts
        → LooksUp (Listed ts) cells.now result }
{
    // The parts of a list have cells, too.
    let _ = cells.len();
    let mut list = cells.nil();
    let mut left = parts.len();
    while left > 0 {
        left -= 1;
        list = find_part(&parts[left], list, cells)?;
    }
    Some(list)
}

/// The cell of the only atom that a goal without free variables matches, if the atom stands. The name is the cell of
/// the goal's name. No cell is made, and no memory is taken.
pub(crate) fn find_atom(goal: &Goal, name: Cell, cells: &Cells) -> Option<Cell>
    requires name { slice_get cells.now name ≡ Some (Symbol goal.now.name) }
    requires goal { GoalBelow (length cells.now) goal.now }
    requires ground { IsGround cells.now goal.now }
    ensures atom { (ts : Terms) → ground_of cells.now goal.now ≡ Some ts
        → LooksUp (Listed (More (Symbol goal.now.name) ts)) cells.now result }
    ensures cells { AreCells cells.now }
{
    // The parts of an atom have cells, too.
    let _ = cells.len();
    let list = find_parts(goal.args.as_slice(), cells)?;
    cells.find_cons(name, list)
}
