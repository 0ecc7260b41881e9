//! Atoms whose parts all stand for terms: they are looked for by their cells, and no goal is made.
ghost use Rattle.std.specs.Prelude.{◌≡◌, ◌<◌, ℕ, [], IfSome, Some, length, slice_get};
ghost use Rattle.hp_cells.specs.Cells.{LooksUp, NamesList};
ghost use Rattle.hp_syntax.specs.Events.{finding, negated};
ghost use Rattle.hp_syntax.specs.Terms.{Term, Terms, Symbol, Listed, More};
ghost use Rattle.hp_syntax.specs.Views.{atom_of, pattern_of, patterns_of};
ghost use Rattle.hp_eval.specs.Slotted.{AreBelow, bindings_of};
ghost use Rattle.hp_suspended.specs.Answering.{GivesOver};
ghost use Rattle.hp_suspended.specs.Beginning.{GivesTerms};
ghost use Rattle.hp_suspended.specs.Fitting.{IsExpressionAt};
ghost use Rattle.hp_suspended.specs.HeldAtoms.{IsHeld, IsListOf, IsShallowCellOf};
ghost use Rattle.hp_suspended.specs.Nodes.{atom_at};
ghost use Rattle.hp_suspended.specs.SceneViews.{IsReady, code_in, setting_of};
ghost use Rattle.hp_suspended.specs.Settings.{atoms_at, axioms_in, node_events, state_in};

use crate::scene::{Scene, is_concluded, node_at};
use crate::simple::{cell_of, has_free};
use hp_cells::{Cell, Cells};
use hp_code::Op;
use hp_eval::{Event, Slots};
use hp_syntax::limits::DEEPEST_TERM;
use hp_syntax::{AtomPat, Name, Pat};
use hp_world::World;

// The cell of what a pattern stands for, if it has one, and if a list may hold it.
fn shallow_cell(part: &Pat, cells: &Cells, slots: &Slots) -> Option<Cell>
    requires slots { AreBelow (length cells.now) slots.now }
    ensures { IfSome result (IsShallowCellOf cells.now (bindings_of cells.now slots.now) (pattern_of part.now)) }
{
    let cell = cell_of(part, cells, slots)?;
    if cells.depth(cell) < DEEPEST_TERM {
        Some(cell)
    } else {
        None
    }
}

// The cell of a list by that of its first part and that of the list of the others, if it stands: where that of the
// others doesn't, neither does the list.
fn find_longer(first: Cell, others: Option<Cell>, cells: &Cells) -> Option<Cell>
    requires first { first < length cells.now }
    requires others { IfSome others (NamesList cells.now) }
    ensures { (t : Term) (ts : Terms) → slice_get cells.now first ≡ Some t → LooksUp (Listed ts) cells.now others
        → LooksUp (Listed (More t ts)) cells.now result }
{
    // The parts of a list have cells, too.
    let _ = cells.len();
    cells.find_cons(first, others?)
}

// The cell of the list of what patterns stand for, if the list stands. There is no answer where one of them stands for
// nothing, has no cell or nests too deep.
fn find_list(parts: &[Pat], cells: &Cells, slots: &Slots) -> Option<Option<Cell>>
    requires slots { AreBelow (length cells.now) slots.now }
    ensures { IfSome result (IsListOf cells.now (bindings_of cells.now slots.now) (patterns_of parts.now)) }
{
    let mut list = Some(cells.nil());
    let mut left = parts.len();
    while left > 0 {
        left -= 1;
        let cell = shallow_cell(&parts[left], cells, slots)?;
        list = find_longer(cell, list, cells);
    }
    Some(list)
}

// The cell of the atom of a name and of the parts of a list, if it stands.
fn find_named(name: &Name, list: Option<Cell>, cells: &Cells) -> Option<Cell>
    requires { IfSome list (NamesList cells.now) }
    ensures { (ts : Terms) → LooksUp (Listed ts) cells.now list
        → LooksUp (Listed (More (Symbol name.now) ts)) cells.now result }
{
    // The parts of an atom have cells, too.
    let _ = cells.len();
    let list = list?;
    let name = cells.find_sym(name)?;
    cells.find_cons(name, list)
}

// Whether the world holds the atom of a name and of the parts of a list.
fn is_held(name: &Name, list: Option<Cell>, world: &World, cells: &Cells) -> bool
    requires { IfSome list (NamesList cells.now) }
    ensures { (ts : Terms) → LooksUp (Listed ts) cells.now list
        → IsHeld result cells.now world.now.now.places (Listed (More (Symbol name.now) ts)) }
{
    // No two cells name the same atom.
    let _ = cells.len();
    match find_named(name, list, cells) {
        Some(atom) => world.place_of(atom).is_some(),
        None => false,
    }
}

/// The event of a node's atom whose parts all stand for terms and whose name no axiom concludes, or its end: the world
/// holds it or doesn't. There is none for another atom, and for one of a part that has no cell or that nests too deep. No
/// cell is made, and no memory is taken.
pub(crate) fn held_event(
    node: usize,
    atom: &AtomPat,
    scene: &Scene<'_>,
    cells: &Cells,
    slots: &Slots,
) -> Option<Event>
    requires ready { IsReady scene.now cells.now slots.now }
    requires atom { atom_at (code_in scene.now) node ≡ Some (atom_of atom.now) }
    ensures { IfSome result (λ x. (n : ℕ) → GivesTerms cells.now slots.now x (λ terms.
        let w = setting_of scene.now terms in
        atoms_at (axioms_in w) n (state_in w) (atom_of atom.now) (bindings_of terms slots.now))) }
{
    let args = atom.args.as_slice();
    if atom.tail.is_some() || has_free(args, slots) || is_concluded(node, scene) {
        return None;
    }
    let list = find_list(args, cells, slots)?;
    if is_held(&atom.name, list, &scene.world, cells) {
        Some(Event::Sat)
    } else {
        Some(Event::End)
    }
}

/// The event of the negation of a node's atom, or its end, where the world alone tells it. There is none for another node
/// and for an atom of which `held_event` tells nothing. Nothing is suspended.
pub(crate) fn denied_atom(
    node: usize,
    scene: &Scene<'_>,
    cells: &Cells,
    slots: &Slots,
) -> Option<Event>
    requires ready { IsReady scene.now cells.now slots.now }
    requires node { IsExpressionAt (code_in scene.now) node }
    ensures { IfSome result (λ x. (n : ℕ) → GivesOver scene.now cells.now slots.now x
        (λ w. negated (finding (node_events w n node (bindings_of w.terms slots.now))) (bindings_of w.terms slots.now))
        (λ w. [])) }
{
    match &node_at(node, scene).op {
        Op::Atom(atom) => match held_event(node, atom, scene, cells, slots)? {
            Event::Sat => Some(Event::End),
            Event::End => Some(Event::Sat),
            Event::Cut | Event::Fault(_) => None,
        },
        _ => None,
    }
}

/// The event of a node, or its end, where the world alone tells it: that of an atom, or of the negation of one. Nothing is
/// suspended.
pub(crate) fn told_of(node: usize, scene: &Scene<'_>, cells: &Cells, slots: &Slots) -> Option<Event>
    requires ready { IsReady scene.now cells.now slots.now }
    requires node { IsExpressionAt (code_in scene.now) node }
    ensures { IfSome result (λ x. (n : ℕ) → GivesOver scene.now cells.now slots.now x
        (λ w. node_events w n node (bindings_of w.terms slots.now)) (λ w. [])) }
{
    match &node_at(node, scene).op {
        Op::Atom(atom) => held_event(node, atom, scene, cells, slots),
        Op::Not => denied_atom(node + 1, scene, cells, slots),
        _ => None,
    }
}
