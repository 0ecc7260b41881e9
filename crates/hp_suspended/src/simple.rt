//! Atoms of variables, symbols and numbers, which are matched with the atoms of places over the slots.
ghost use Rattle.std.specs.Prelude.{◌≡◌, ◌<◌, ◌≤◌, ◌∷◌, ℕ, true, IsTrue, IfOk, IfSome, IfNone, Some, List, [], length, slice_get};
ghost use Rattle.hp_syntax.specs.Events.{sat_if};
ghost use Rattle.hp_syntax.specs.Matching.{match_atom};
ghost use Rattle.hp_syntax.specs.Terms.{Term};
ghost use Rattle.hp_syntax.specs.Views.{atom_of, pattern_of, patterns_of};
ghost use Rattle.hp_eval.specs.GoalViews.{term_at};
ghost use Rattle.hp_eval.specs.Growth.{Grows};
ghost use Rattle.hp_eval.specs.Slotted.{AreBelow, bindings_of};
ghost use Rattle.hp_world.specs.Named.{IsNextAt};
ghost use Rattle.hp_world.specs.Recorded.{Knows};
ghost use Rattle.hp_world.specs.Stages.{AllBelow, live_atoms};
ghost use Rattle.hp_suspended.specs.Answering.{EndsAt, GivesOver, IsLookedAt, Keeps, LeavesOver, Moves};
ghost use Rattle.hp_suspended.specs.Beginning.{IsBegunAs};
ghost use Rattle.hp_suspended.specs.Filtered.{FilterBelow};
ghost use Rattle.hp_suspended.specs.Fitting.{Fits, IsAtomAt, base_of};
ghost use Rattle.hp_suspended.specs.Left.{left};
ghost use Rattle.hp_suspended.specs.Nodes.{atom_at};
ghost use Rattle.hp_suspended.specs.PlaceSteps.{BeginsWith, Bound};
ghost use Rattle.hp_suspended.specs.SceneViews.{IsReady, code_in, setting_of};
ghost use Rattle.hp_suspended.specs.SimpleAtoms.{IsBehindPlaces, IsCellOf, IsFilterOf, IsKnownAmong, PassesAt, TurnsPassing, are_simple, is_simple, some_free};
ghost use Rattle.hp_suspended.specs.Views.{view};

use crate::begins::begun_atom;
use crate::places::{AtomFilter, KnownPart};
use crate::scene::{Scene, is_concluded, node_at};
use crate::suspended::{SimpleAtom, Suspended};
use hp_cells::{Cell, Cells};
use hp_code::Op;
use hp_eval::{Event, Slots, match_atom};
use hp_syntax::{AtomPat, Pat, PatKind};
use hp_world::World;
use std::alloc::{AllocError, Global};

// Whether a pattern is a variable, a symbol or a number.
fn is_simple(part: &Pat) -> bool
    ensures { result ≡ is_simple (pattern_of part.now) }
{
    match &part.kind {
        PatKind::Var(_) => true,
        PatKind::Sym(_) => true,
        PatKind::Num(_) => true,
        PatKind::List(_, _) => false,
        PatKind::Call(_, _) => false,
    }
}

// Whether patterns are variables, symbols and numbers alone.
fn are_simple(parts: &[Pat]) -> bool
    ensures { result ≡ are_simple (patterns_of parts.now) }
{
    for part in parts {
        if !is_simple(part) {
            return false;
        }
    }
    true
}

// Whether a pattern is a variable that stands for nothing.
fn is_free(part: &Pat, slots: &Slots) -> bool
    ensures { IsTrue result → (terms : List Term) (parts : List Pat)
        → some_free (patterns_of (part.now ∷ parts)) (bindings_of terms slots.now) ≡ true }
{
    match &part.kind {
        PatKind::Var(v) => slots.value_of(*v).is_none(),
        PatKind::Sym(_) | PatKind::Num(_) | PatKind::List(_, _) | PatKind::Call(_, _) => false,
    }
}

/// Whether one of some patterns is a variable that stands for nothing.
pub(crate) fn has_free(parts: &[Pat], slots: &Slots) -> bool
    ensures { IsTrue result → (terms : List Term)
        → some_free (patterns_of parts.now) (bindings_of terms slots.now) ≡ true }
{
    for part in parts {
        if is_free(part, slots) {
            return true;
        }
    }
    false
}

/// The cell of what a pattern stands for: of a bound variable's term, of a symbol or of a number, if it has one.
pub(crate) fn cell_of(part: &Pat, cells: &Cells, slots: &Slots) -> Option<Cell>
    requires slots { AreBelow (length cells.now) slots.now }
    ensures { IfSome result (IsCellOf cells.now (bindings_of cells.now slots.now) (pattern_of part.now)) }
{
    match &part.kind {
        PatKind::Var(v) => slots.value_of(*v),
        PatKind::Sym(name) => cells.find_sym(name),
        PatKind::Num(n) => cells.find_num(*n),
        PatKind::List(_, _) | PatKind::Call(_, _) => None,
    }
}

// The first argument that has a cell.
fn known_among(parts: &[Pat], cells: &Cells, slots: &Slots) -> Option<KnownPart>
    requires slots { AreBelow (length cells.now) slots.now }
    ensures { IfSome result (IsKnownAmong cells.now (bindings_of cells.now slots.now) parts.now) }
{
    for number in 0..parts.len() {
        if let Some(cell) = cell_of(&parts[number], cells, slots) {
            return Some(KnownPart {
                number: number + 1,
                cell,
            });
        }
    }
    None
}

/// What the atoms have that an atom may match, if it is one of variables, symbols and numbers, without a tail, and one of
/// its variables stands for nothing. There is none for another atom, and where no cell names its name.
pub(crate) fn filter_of(atom: &AtomPat, cells: &Cells, slots: &Slots) -> Option<AtomFilter>
    requires slots { AreBelow (length cells.now) slots.now }
    ensures { IfSome result (IsFilterOf cells.now (bindings_of cells.now slots.now) atom.now) }
{
    let args = atom.args.as_slice();
    if atom.tail.is_some() || !are_simple(args) || !has_free(args, slots) {
        return None;
    }
    match cells.find_sym(&atom.name) {
        Some(name) => Some(AtomFilter {
            name,
            known: known_among(args, cells, slots),
        }),
        None => None,
    }
}

// The next place with an atom that passes a filter.
fn next_passing(world: &World, filter: &AtomFilter, from: usize, cells: &Cells) -> Option<usize>
    requires atoms { AllBelow (length cells.now) (live_atoms world.now.now.places) }
    requires known { Knows cells.now world.now }
    requires filter { FilterBelow (length cells.now) filter.now }
    ensures { IsNextAt (PassesAt cells.now filter.now world.now.now.places) from result }
{
    match filter.known {
        Some(part) => world.next_with(cells, filter.name, part.number, part.cell, from),
        None => world.next_named(cells, filter.name, from),
    }
}

// The event of an atom at a place.
fn match_at(
    atom: &AtomPat,
    place: usize,
    world: &World,
    cells: &Cells,
    slots: &mut Slots,
) -> Option<Event>
    requires place { place < length world.now.now.places }
    requires atoms { AllBelow (length cells.now) (live_atoms world.now.now.places) }
    requires slots { AreBelow (length cells.now) slots.old }
    ensures bound { Bound result slots.old slots.new }
    ensures gives { (held : ℕ) → slice_get world.now.now.places place ≡ Some (Some held)
        → BeginsWith result (sat_if (match_atom (atom_of atom.now) (term_at cells.now held)
        (bindings_of cells.now slots.old))) (bindings_of cells.now slots.new) [] }
    ensures below { AreBelow (length cells.now) slots.new }
{
    match world.at(place) {
        Some(held) => {
            if match_atom(atom, held, cells, slots) {
                Some(Event::Sat)
            } else {
                None
            }
        }
        None => None,
    }
}

// One turn at the places from one on: the next one with an atom that passes the filter is taken, and the place goes
// behind it. An event is a Sat; where there is none, the events that are left are the same. At the end the place is
// behind the last one.
fn turn_passing(
    atom: &AtomPat,
    filter: &AtomFilter,
    from: &mut usize,
    scene: &Scene<'_>,
    cells: &Cells,
    slots: &mut Slots,
) -> Option<Event>
    requires atoms { AllBelow (length cells.now) (live_atoms scene.now.world.now.places) }
    requires known { Knows cells.now scene.now.world }
    requires filter { FilterBelow (length cells.now) filter.now }
    requires slots { AreBelow (length cells.now) slots.old }
    ensures bound { Bound result slots.old slots.new }
    ensures left { (terms : List Term) → Grows cells.now terms
        → TurnsPassing result (setting_of scene.now terms) (atom_of atom.now) filter.now from.old from.new slots.old
        slots.new }
    ensures later { from.old < length scene.now.world.now.places → from.old < from.new }
    ensures below { AreBelow (length cells.now) slots.new }
{
    let end = scene.world.places();
    match next_passing(&scene.world, filter, *from, cells) {
        Some(place) => {
            *from = place + 1;
            match_at(atom, place, &scene.world, cells, slots)
        }
        None => {
            *from = end;
            None
        }
    }
}

// The next event of an atom by the atoms of the places from one on that pass a filter. Where there is none, the place
// is behind the last one.
fn next_match(
    atom: &AtomPat,
    filter: &AtomFilter,
    from: &mut usize,
    scene: &Scene<'_>,
    cells: &Cells,
    slots: &mut Slots,
) -> Option<Event>
    requires atoms { AllBelow (length cells.now) (live_atoms scene.now.world.now.places) }
    requires known { Knows cells.now scene.now.world }
    requires filter { FilterBelow (length cells.now) filter.now }
    requires slots { AreBelow (length cells.now) slots.old }
    ensures bound { Bound result slots.old slots.new }
    ensures left { (terms : List Term) → Grows cells.now terms
        → TurnsPassing result (setting_of scene.now terms) (atom_of atom.now) filter.now from.old from.new slots.old
        slots.new }
    ensures over { IfNone result (length scene.now.world.now.places ≤ from.new) }
    ensures below { AreBelow (length cells.now) slots.new }
{
    while *from < scene.world.places() {
        let turn = turn_passing(atom, filter, from, scene, cells, slots);
        if turn.is_some() {
            return turn;
        }
    }
    None
}

// The atom of a node.
fn pattern_at<'s>(node: usize, scene: &'s Scene<'_>) -> &'s AtomPat
    requires { IsAtomAt (code_in scene.now) node }
    ensures { atom_at (code_in scene.now) node ≡ Some (atom_of result.now) }
{
    match &node_at(node, scene).op {
        Op::Atom(atom) => atom,
        _ => unreachable!(),
    }
}

// What is left of an atom behind the places: its goal by the axioms, where any have its name.
fn behind_places(
    mark: usize,
    nest: u32,
    node: usize,
    atom: &AtomPat,
    alloc: Global,
    scene: &Scene<'_>,
    cells: &mut Cells,
    slots: &Slots,
) -> Result<Suspended, AllocError>
    requires slots { AreBelow (length cells.old) slots.now }
    requires mark { length slots.now.trail ≡ mark }
    requires atom { atom_at (code_in scene.now) node ≡ Some (atom_of atom.now) }
    ensures behind { IfOk result (λ s. IsBehindPlaces scene.now cells.new slots.now mark nest (atom_of atom.now)
        (view s)) }
    ensures cells { Grows cells.old cells.new }
{
    if is_concluded(node, scene) {
        let end = scene.world.places();
        return begun_atom(mark, nest, end, atom, alloc, cells, slots);
    }
    Ok(Suspended::One {
        mark,
        event: Event::End,
    })
}

impl Suspended {
    /// Goes along the places of an atom that isn't filled, up to its next event. Where there is none, what is left of it
    /// behind the places is begun.
    pub(crate) fn scan(
        &mut self,
        alloc: Global,
        scene: &Scene<'_>,
        cells: &mut Cells,
        slots: &mut Slots,
    ) -> Result<Option<Event>, AllocError>
        requires ready { IsReady scene.now cells.old slots.old }
        requires fits { Fits (code_in scene.now) (length cells.old) (length slots.old.trail) (view self.old) }
        requires looked { IsLookedAt (view self.old) }
        ensures gives { IfOk result (λ o. IfSome o (λ x. GivesOver scene.now cells.new slots.new x
            (λ w. left w slots.old (view self.old)) (λ w. left w slots.new (view self.new)))) }
        ensures leaves { IfOk result (λ o. IfSome o (λ x. LeavesOver scene.now cells.new x
            (λ w. left w slots.new (view self.new)))) }
        ensures keeps { IfOk result (λ o. IfSome o (λ x. Keeps (code_in scene.now) (length cells.new) slots.new
            (view self.old) (view self.new))) }
        ensures ends { IfOk result (λ o. IfSome o (λ x. EndsAt x (base_of (view self.old)) slots.new)) }
        ensures begun { IfOk result (λ o. IfNone o (IsBegunAs scene.now cells.new slots.old slots.new
            (view self.old) (view self.new))) }
        ensures moves { Moves (base_of (view self.old)) cells.old cells.new slots.old slots.new }
    {
        let Some(simple) = self.simple() else {
            return Ok(None);
        };
        slots.undo_to(simple.mark);
        let atom = pattern_at(simple.node, scene);
        let mut from = simple.from;
        match next_match(atom, &simple.filter, &mut from, scene, cells, slots) {
            Some(event) => {
                self.put(Suspended::Simple(SimpleAtom { from, ..simple }));
                Ok(Some(event))
            }
            None => {
                let behind = behind_places(
                    simple.mark,
                    simple.nest,
                    simple.node,
                    atom,
                    alloc,
                    scene,
                    cells,
                    slots,
                )?;
                self.put(behind);
                Ok(None)
            }
        }
    }
}
