//! What parts of a conjunction find for a task, and how many of the first are satisfied one after another, by the head
//! of their rule.
ghost use Rattle.std.specs.Prelude.{◌≡◌, ◌≤◌, IfOk, List, Some, length};
ghost use Rattle.hp_syntax.specs.Events as plain;
ghost use Rattle.hp_syntax.specs.Events.{axioms_of, finding, sat};
ghost use Rattle.hp_syntax.specs.GroundPatterns.{IsGroundAtom, atom_said};
ghost use Rattle.hp_syntax.specs.declared.pattern.Span.{Span};
ghost use Rattle.hp_syntax.specs.Syntax.{And, Expression, Expressions, Rule};
ghost use Rattle.hp_syntax.specs.Views.{as_expressions, atom_of};
ghost use Rattle.hp_code.specs.CodeViews.{beside, rule_nodes, rules_in};
ghost use Rattle.hp_eval.specs.declared.event.Event.TheVariants as events;
ghost use Rattle.hp_eval.specs.Growth.{Grows};
ghost use Rattle.hp_eval.specs.Slotted.{bindings_of};
ghost use Rattle.hp_world.specs.Recorded.{Knows};
ghost use Rattle.hp_world.specs.Stages.{AllBelow, live_atoms};
ghost use Rattle.hp_suspended.specs.Fitting.{AreExpressionsIn, Fits, IsExpressionAt};
ghost use Rattle.hp_suspended.specs.Left.{left};
ghost use Rattle.hp_suspended.specs.Nodes.{expressions_in};
ghost use Rattle.hp_suspended.specs.SceneViews.{IsReady, code_in, setting_of};
ghost use Rattle.hp_suspended.specs.Settings.{node_events, state_in};
ghost use Rattle.hp_suspended.specs.Views as names;
ghost use Rattle.hp_suspended.specs.Views.{view};
ghost use Rattle.hp_choice.specs.Asking.{AreConjuncts, GoesBy, along, behind, finding_of, past};
ghost use Rattle.hp_choice.specs.Questions.{Finds, GoesAlong};
ghost use Rattle.hp_choice.specs.Starting.{CanStart};

use crate::opening::node_at;
use crate::starting::{Conjuncts, Start, begun, bound_by, levels_from};
use hp_cells::Cells;
use hp_eval::{Event, Slots};
use hp_suspended::{Scene, Suspended};
use hp_syntax::RunFault;
use std::alloc::{AllocError, Global};

/// What events come to.
#[derive(Clone, Copy, Debug, PartialEq, Eq)]
pub enum Finding {
    /// A satisfier comes before any fault.
    Satisfied,
    /// A fault comes before any satisfier.
    Faulty(RunFault),
    /// There is neither, and a limit of nesting is met.
    Undecided,
    /// There is no event at all.
    Nothing,
}

/// So many of the first parts of a conjunction, and the index of the code behind them.
#[derive(Clone, Copy, Debug)]
pub struct Prefix {
    pub count: usize,
    pub end: usize,
}

/// What no event comes to, where there may be a cut before it.
fn none_behind(is_cut: bool) -> Finding
    ensures { finding_of result ≡ behind is_cut plain.Nothing }
{
    if is_cut {
        Finding::Undecided
    } else {
        Finding::Nothing
    }
}

/// What the events that are left come to.
pub(crate) fn found_in(
    alloc: Global,
    scene: &Scene<'_>,
    parts: &mut Suspended,
    slots: &mut Slots,
    cells: &mut Cells,
) -> Result<Finding, AllocError>
    requires ready { IsReady scene.now cells.old slots.old }
    requires fits { Fits (code_in scene.now) (length cells.old) (length slots.old.trail) (view parts.old) }
    ensures found { IfOk result (λ f. finding_of f
        ≡ finding (left (setting_of scene.now cells.old) slots.old (view parts.old))) }
    ensures cells { Grows cells.old cells.new }
{
    let mut is_cut = false;
    loop {
        match parts.next(alloc, scene, cells, slots)? {
            Event::Sat => return Ok(Finding::Satisfied),
            Event::Fault(fault) => return Ok(Finding::Faulty(fault)),
            Event::Cut => is_cut = true,
            Event::End => return Ok(none_behind(is_cut)),
        }
    }
}

/// What parts together come to under bindings.
fn found_under(
    alloc: Global,
    scene: &Scene<'_>,
    nest: u32,
    asked: Conjuncts,
    slots: &mut Slots,
    cells: &mut Cells,
) -> Result<Finding, AllocError>
    requires parts { AreExpressionsIn (code_in scene.now) asked.first asked.end }
    requires ready { IsReady scene.now cells.old slots.old }
    ensures found { let c = code_in scene.now in IfOk result (λ f. (s : Span) (ps : Expressions)
        → expressions_in c asked.first asked.end ≡ Some ps → finding_of f ≡ finding (sat (axioms_of (rules_in c)) nest
        (state_in (setting_of scene.now cells.old)) (And s ps) (bindings_of cells.old slots.old))) }
    ensures cells { Grows cells.old cells.new }
{
    let mut parts = begun(alloc, nest, asked.first, asked.end, slots)?;
    found_in(alloc, scene, &mut parts, slots, cells)
}

/// What parts of a conjunction come to together in a scene, from the bindings of a start, with so many axiom levels, at
/// most 128; where there are no bindings, there is nothing. Only cells are added.
pub fn ask(
    alloc: Global,
    scene: &Scene<'_>,
    nest: u32,
    asked: Conjuncts,
    start: &Start<'_>,
    cells: &mut Cells,
) -> Result<Finding, AllocError>
    requires asked { AreConjuncts (code_in scene.now) asked }
    requires atoms { AllBelow (length cells.old) (live_atoms scene.now.world.now.places) }
    requires knows { Knows cells.old scene.now.world }
    requires start { CanStart (code_in scene.now) start.now }
    requires levels { nest ≤ 128 }
    ensures found { IfOk result (Finds (code_in scene.now) nest (state_in (setting_of scene.now cells.old)) asked
        start.now) }
    ensures cells { Grows cells.old cells.new }
{
    let levels = levels_from(nest, start);
    match bound_by(alloc, scene, nest, asked, start, cells)? {
        Some(mut slots) => found_under(alloc, scene, levels, asked, &mut slots, cells),
        None => Ok(Finding::Nothing),
    }
}

/// Whether the first event of a node's expression is a satisfier, whose bindings stand then.
fn first_satisfies(
    alloc: Global,
    scene: &Scene<'_>,
    nest: u32,
    node: usize,
    slots: &mut Slots,
    cells: &mut Cells,
) -> Result<bool, AllocError>
    requires part { IsExpressionAt (code_in scene.now) node }
    requires ready { IsReady scene.now cells.old slots.old }
    ensures first { IfOk result (λ b. GoesBy b (bindings_of cells.new slots.new)
        (node_events (setting_of scene.now cells.old) nest node (bindings_of cells.old slots.old))) }
    ensures ready { IsReady scene.now cells.new slots.new }
    ensures cells { Grows cells.old cells.new }
{
    let mark = slots.mark();
    let mut part = Suspended::Fresh { mark, nest, node };
    match part.next(alloc, scene, cells, slots)? {
        Event::Sat => Ok(true),
        Event::Fault(_) | Event::Cut | Event::End => Ok(false),
    }
}

/// How many of the first parts are satisfied one after another, from bindings on.
fn satisfied_along(
    alloc: Global,
    scene: &Scene<'_>,
    nest: u32,
    asked: Conjuncts,
    slots: &mut Slots,
    cells: &mut Cells,
) -> Result<Prefix, AllocError>
    requires parts { AreExpressionsIn (code_in scene.now) asked.first asked.end }
    requires ready { IsReady scene.now cells.old slots.old }
    ensures count { let c = code_in scene.now in IfOk result (λ p. (ps : List Expression)
        → expressions_in c asked.first asked.end ≡ Some (as_expressions ps) → p.count ≡ along (axioms_of (rules_in c))
        nest (state_in (setting_of scene.now cells.old)) ps (bindings_of cells.old slots.old)) }
    ensures end { IfOk result (λ p. p.end ≡ past (code_in scene.now).nodes asked.first p.count) }
    ensures cells { Grows cells.old cells.new }
{
    let mut count = 0;
    let mut next = asked.first;
    while next < asked.end {
        if !first_satisfies(alloc, scene, nest, next, slots, cells)? {
            return Ok(Prefix { count, end: next });
        }
        next = node_at(next, scene).to;
        count += 1;
    }
    Ok(Prefix { count, end: next })
}

/// How many of the first parts of a conjunction are satisfied one after another in a scene, and the index behind them:
/// the first by its first event under the bindings of a start, each other under those that the one before gave, with so
/// many axiom levels, at most 128. There is no answer where there are no bindings to start from. Only cells are added.
pub fn ask_along(
    alloc: Global,
    scene: &Scene<'_>,
    nest: u32,
    asked: Conjuncts,
    start: &Start<'_>,
    cells: &mut Cells,
) -> Result<Option<Prefix>, AllocError>
    requires asked { AreConjuncts (code_in scene.now) asked }
    requires atoms { AllBelow (length cells.old) (live_atoms scene.now.world.now.places) }
    requires knows { Knows cells.old scene.now.world }
    requires start { CanStart (code_in scene.now) start.now }
    requires levels { nest ≤ 128 }
    ensures along { IfOk result (GoesAlong (code_in scene.now) nest (state_in (setting_of scene.now cells.old)) asked
        start.now) }
    ensures cells { Grows cells.old cells.new }
{
    let levels = levels_from(nest, start);
    match bound_by(alloc, scene, nest, asked, start, cells)? {
        Some(mut slots) => {
            let prefix = satisfied_along(alloc, scene, levels, asked, &mut slots, cells)?;
            Ok(Some(prefix))
        }
        None => Ok(None),
    }
}
