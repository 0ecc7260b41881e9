//! The values of the variables of a rule by the first satisfier of parts of its conjunction that passes a test.
ghost use Rattle.std.specs.Prelude.{◌≡◌, ◌≤◌, ◌<◌, ℕ, Bool, IfOk, Some, length, slice_get};
ghost use Rattle.std.specs.Option.{option_map};
ghost use Rattle.hp_syntax.specs.Events.{axioms_of, finding, sat};
ghost use Rattle.hp_syntax.specs.GroundViews.{ground_of};
ghost use Rattle.hp_syntax.specs.declared.pattern.Span.{Span};
ghost use Rattle.hp_syntax.specs.Syntax.{And, Expressions};
ghost use Rattle.hp_syntax.specs.Values.{Bindings, value};
ghost use Rattle.hp_syntax.specs.Views.{pattern_of};
ghost use Rattle.hp_code.specs.CodeViews.{rules_in};
ghost use Rattle.hp_eval.specs.Growth.{Grows};
ghost use Rattle.hp_eval.specs.Slotted.{AreBelow, bindings_of};
ghost use Rattle.hp_world.specs.Recorded.{Knows};
ghost use Rattle.hp_world.specs.Stages.{AllBelow, live_atoms};
ghost use Rattle.hp_suspended.specs.Fitting.{AreExpressionsIn, Fits, IsExpressionAt};
ghost use Rattle.hp_suspended.specs.Left.{left};
ghost use Rattle.hp_suspended.specs.Nodes.{expressions_in};
ghost use Rattle.hp_suspended.specs.SceneViews.{IsReady, code_in, setting_of};
ghost use Rattle.hp_suspended.specs.Settings.{node_events, state_in};
ghost use Rattle.hp_suspended.specs.Views.{view};
ghost use Rattle.hp_choice.specs.Asking.{AreConjuncts, finding_of};
ghost use Rattle.hp_choice.specs.FirstSatisfier.{first_that, values_of};
ghost use Rattle.hp_choice.specs.Questions.{GivesFirst};
ghost use Rattle.hp_choice.specs.Starting.{CanStart, ReachesFirst};
ghost use Rattle.hp_choice.specs.Tests.{CanTest, Passes, are_alike, is_fault_of, is_nothing, kind_number};

use crate::asking::{Finding, found_in};
use crate::starting::{Conjuncts, Start, begun, bound_by, levels_from};
use hp_best::to_ground;
use hp_cells::Cells;
use hp_eval::{EvalStop, Event, Slots, value};
use hp_suspended::{Scene, Suspended};
use hp_syntax::{FaultKind, Ground, Pat, RunFault};
use std::alloc::{AllocError, Global};

/// What a satisfier must pass.
#[derive(Clone, Copy)]
pub enum Test<'a> {
    /// Each one passes.
    Any,
    /// Under its bindings nothing satisfies the expression of a node, and no limit of nesting and no fault is met.
    Nothing(usize),
    /// Under its bindings valuing a pattern is this fault.
    Fault(&'a Pat, RunFault),
}

/// A number for each kind of fault.
fn kind_number(kind: FaultKind) -> u8
    ensures { result ≡ kind_number kind }
{
    match kind {
        FaultKind::NotGround => 1,
        FaultKind::NotNumber => 2,
        FaultKind::Overflow => 3,
        FaultKind::ZeroDivisor => 4,
        FaultKind::NegativePower => 5,
        FaultKind::NotList => 6,
        FaultKind::TooDeep => 7,
        FaultKind::FractionPower => 8,
    }
}

/// Whether faults are of one kind, at one place.
fn are_alike(f: RunFault, g: RunFault) -> bool
    ensures { result ≡ are_alike f g }
{
    kind_number(f.kind) == kind_number(g.kind)
        && (f.span.from == g.span.from && f.span.to == g.span.to)
}

/// Whether nothing satisfies the expression of a node.
fn is_unmet(
    alloc: Global,
    scene: &Scene<'_>,
    nest: u32,
    node: usize,
    slots: &Slots,
    cells: &mut Cells,
) -> Result<bool, AllocError>
    requires part { IsExpressionAt (code_in scene.now) node }
    requires ready { IsReady scene.now cells.old slots.now }
    ensures is { IfOk result (λ b. b ≡ is_nothing (finding
        (node_events (setting_of scene.now cells.old) nest node (bindings_of cells.old slots.now)))) }
    ensures cells { Grows cells.old cells.new }
{
    let mut own = slots.copy(alloc)?;
    let mark = own.mark();
    let mut part = Suspended::Fresh { mark, nest, node };
    match found_in(alloc, scene, &mut part, &mut own, cells)? {
        Finding::Satisfied => Ok(false),
        Finding::Faulty(_) => Ok(false),
        Finding::Undecided => Ok(false),
        Finding::Nothing => Ok(true),
    }
}

/// Whether valuing a pattern is a fault.
fn is_fault(
    alloc: Global,
    pattern: &Pat,
    fault: RunFault,
    slots: &Slots,
    cells: &mut Cells,
) -> Result<bool, AllocError>
    requires below { AreBelow (length cells.old) slots.now }
    ensures is { IfOk result (λ b. b
        ≡ is_fault_of fault (value (pattern_of pattern.now) (bindings_of cells.old slots.now))) }
    ensures cells { Grows cells.old cells.new }
{
    match value(alloc, pattern, slots, cells) {
        Ok(_) => Ok(false),
        Err(EvalStop::Fault(own)) => Ok(are_alike(fault, own)),
        Err(EvalStop::NoMemory) => Err(AllocError),
    }
}

/// Whether bindings pass a test.
fn is_passed(
    alloc: Global,
    scene: &Scene<'_>,
    nest: u32,
    test: &Test<'_>,
    slots: &Slots,
    cells: &mut Cells,
) -> Result<bool, AllocError>
    requires test { CanTest (code_in scene.now) test.now }
    requires ready { IsReady scene.now cells.old slots.now }
    ensures is { IfOk result (λ b. (passes : Bindings → Bool)
        → Passes (code_in scene.now) nest (state_in (setting_of scene.now cells.old)) test.now passes
        → b ≡ passes (bindings_of cells.old slots.now)) }
    ensures cells { Grows cells.old cells.new }
{
    match test {
        Test::Any => Ok(true),
        Test::Nothing(node) => is_unmet(alloc, scene, nest, *node, slots, cells),
        Test::Fault(pattern, fault) => is_fault(alloc, pattern, *fault, slots, cells),
    }
}

/// Whether a satisfier that passes a test comes before any fault among the events that are left. The bindings of the
/// first one stand then.
pub(crate) fn reach_passing(
    alloc: Global,
    scene: &Scene<'_>,
    nest: u32,
    test: &Test<'_>,
    parts: &mut Suspended,
    slots: &mut Slots,
    cells: &mut Cells,
) -> Result<bool, AllocError>
    requires test { CanTest (code_in scene.now) test.now }
    requires ready { IsReady scene.now cells.old slots.old }
    requires fits { Fits (code_in scene.now) (length cells.old) (length slots.old.trail) (view parts.old) }
    ensures first { IfOk result (λ b. (passes : Bindings → Bool)
        → Passes (code_in scene.now) nest (state_in (setting_of scene.now cells.old)) test.now passes
        → ReachesFirst (first_that passes (left (setting_of scene.now cells.old) slots.old (view parts.old)))
        (bindings_of cells.new slots.new) b) }
    ensures below { AreBelow (length cells.new) slots.new }
    ensures cells { Grows cells.old cells.new }
{
    loop {
        match parts.next(alloc, scene, cells, slots)? {
            Event::Sat => {
                if is_passed(alloc, scene, nest, test, slots, cells)? {
                    return Ok(true);
                }
            }
            Event::Fault(_) | Event::End => return Ok(false),
            Event::Cut => {}
        }
    }
}

/// The value of a variable, if it has one, in memory of its own.
fn value_at(
    alloc: Global,
    variable: u32,
    slots: &Slots,
    cells: &Cells,
) -> Result<Option<Ground>, AllocError>
    requires variable { variable < length slots.now.values }
    requires below { AreBelow (length cells.now) slots.now }
    ensures { IfOk result (λ o. slice_get (bindings_of cells.now slots.now) variable ≡ Some (option_map ground_of o)) }
{
    match slots.get(variable) {
        Some(cell) => {
            let value = to_ground(alloc, cells, cell)?;
            Ok(Some(value))
        }
        None => Ok(None),
    }
}

/// The values of all variables, in memory of their own.
fn values_in(alloc: Global, slots: &Slots, cells: &Cells) -> Result<Vec<Option<Ground>>, AllocError>
    requires { AreBelow (length cells.now) slots.now }
    ensures { IfOk result (λ v. values_of v ≡ bindings_of cells.now slots.now) }
{
    let vars = slots.vars();
    let mut values = Vec::with_capacity(alloc, vars)?;
    for variable in 0..vars as u32 {
        let value = value_at(alloc, variable, slots, cells)?;
        values.push_reserved(value);
    }
    Ok(values)
}

/// The values by the first satisfier of parts together under bindings that passes a test, if no fault comes before it.
fn first_under(
    alloc: Global,
    scene: &Scene<'_>,
    nest: u32,
    asked: Conjuncts,
    test: &Test<'_>,
    slots: &mut Slots,
    cells: &mut Cells,
) -> Result<Option<Vec<Option<Ground>>>, AllocError>
    requires parts { AreExpressionsIn (code_in scene.now) asked.first asked.end }
    requires test { CanTest (code_in scene.now) test.now }
    requires ready { IsReady scene.now cells.old slots.old }
    ensures values { let c = code_in scene.now in IfOk result (λ o. (s : Span) (ps : Expressions)
        (passes : Bindings → Bool) → expressions_in c asked.first asked.end ≡ Some ps
        → Passes c nest (state_in (setting_of scene.now cells.old)) test.now passes
        → option_map values_of o ≡ first_that passes (sat (axioms_of (rules_in c)) nest
        (state_in (setting_of scene.now cells.old)) (And s ps) (bindings_of cells.old slots.old))) }
    ensures cells { Grows cells.old cells.new }
{
    let mut parts = begun(alloc, nest, asked.first, asked.end, slots)?;
    if !reach_passing(alloc, scene, nest, test, &mut parts, slots, cells)? {
        return Ok(None);
    }
    let values = values_in(alloc, slots, cells)?;
    Ok(Some(values))
}

/// The values of the variables of a rule by the first satisfier of parts of its conjunction together that passes a test,
/// in a scene, from the bindings of a start, with so many axiom levels, at most 128. There are none where no such
/// satisfier comes before a fault, and where there are no bindings to start from. Only cells are added.
pub fn first_satisfier(
    alloc: Global,
    scene: &Scene<'_>,
    nest: u32,
    asked: Conjuncts,
    start: &Start<'_>,
    test: &Test<'_>,
    cells: &mut Cells,
) -> Result<Option<Vec<Option<Ground>>>, AllocError>
    requires asked { AreConjuncts (code_in scene.now) asked }
    requires atoms { AllBelow (length cells.old) (live_atoms scene.now.world.now.places) }
    requires knows { Knows cells.old scene.now.world }
    requires start { CanStart (code_in scene.now) start.now }
    requires test { CanTest (code_in scene.now) test.now }
    requires levels { nest ≤ 128 }
    ensures values { IfOk result (GivesFirst (code_in scene.now) nest (state_in (setting_of scene.now cells.old)) asked
        start.now test.now) }
    ensures cells { Grows cells.old cells.new }
{
    let levels = levels_from(nest, start);
    match bound_by(alloc, scene, nest, asked, start, cells)? {
        Some(mut slots) => first_under(alloc, scene, levels, asked, test, &mut slots, cells),
        None => Ok(None),
    }
}
