//! Bindings under which parts of a rule are asked for: by the task that its head matches, by the first satisfier of
//! other parts, or by an atom from which the head of an axiom starts.
ghost use Rattle.std.specs.Prelude.{◌≡◌, ◌≤◌, IfOk, Ok, Some, length};
ghost use Rattle.hp_syntax.specs.GroundPatterns.{IsGroundAtom, atom_said};
ghost use Rattle.hp_syntax.specs.Goals.{fill_goal};
ghost use Rattle.hp_syntax.specs.Syntax.{Rule};
ghost use Rattle.hp_syntax.specs.Views.{atom_of};
ghost use Rattle.hp_code.specs.CodeViews.{beside, rule_nodes, rules_in};
ghost use Rattle.hp_eval.specs.GoalViews.{GoalBelow, goal_of};
ghost use Rattle.hp_eval.specs.Growth.{Grows};
ghost use Rattle.hp_eval.specs.Slotted.{AreBelow, bindings_of};
ghost use Rattle.hp_suspended.specs.Fitting.{AreExpressionsIn};
ghost use Rattle.hp_suspended.specs.SceneViews.{IsReady, code_in, setting_of};
ghost use Rattle.hp_suspended.specs.Settings.{state_in};
ghost use Rattle.hp_suspended.specs.Views as names;
ghost use Rattle.hp_suspended.specs.Views.{view};
ghost use Rattle.hp_eval.specs.declared.event.Event.TheVariants as events;
ghost use Rattle.hp_world.specs.Recorded.{Knows};
ghost use Rattle.hp_world.specs.Stages.{AllBelow, live_atoms};
ghost use Rattle.hp_choice.specs.Asking.{AreConjuncts, head_of};
ghost use Rattle.hp_choice.specs.Starting as plain;
ghost use Rattle.hp_choice.specs.Starting.{BindsFirst, BindsGoal, CanStart, IsBoundBy, IsBoundByTask};

use crate::first::{Test, reach_passing};
use crate::opening::{matched, node_at};
use hp_cells::Cells;
use hp_code::Op;
use hp_eval::{EvalStop, Event, Goal, Slots, fill_goal, ground_atom, start_goal};
use hp_suspended::{Scene, Suspended};
use hp_syntax::AtomPat;
use std::alloc::{AllocError, Global};

/// Parts of a conjunction by nodes of a code: that of their rule, the first of theirs, and the index behind them.
#[derive(Clone, Copy, Debug)]
pub struct Conjuncts {
    pub rule: usize,
    pub first: usize,
    pub end: usize,
}

/// The bindings from which parts of a rule are asked for. A task is an atom without variables and calls.
#[derive(Clone, Copy)]
pub enum Start<'a> {
    /// Those under which the head of the rule matches a task.
    Task(&'a AtomPat),
    /// Those by the first satisfier of parts together for a task.
    After(&'a AtomPat, Conjuncts),
    /// Those with which the head of the rule starts from an atom that another rule asks for: this is filled under the
    /// bindings by the first satisfier of parts of that rule together for a task. The parts are asked for one axiom
    /// level further down.
    Goal(&'a AtomPat, Conjuncts, &'a AtomPat),
}

/// How many axiom levels there are for parts that are asked for from a start.
pub(crate) fn levels_from(nest: u32, start: &Start<'_>) -> u32
    ensures { result ≡ plain.levels_from nest start.now }
{
    match start {
        Start::Task(_) => nest,
        Start::After(_, _) => nest,
        Start::Goal(_, _, _) => nest.saturating_sub(1),
    }
}

/// All satisfiers of parts together, which are begun at the first.
pub(crate) fn begun(
    alloc: Global,
    nest: u32,
    first: usize,
    end: usize,
    slots: &Slots,
) -> Result<Suspended, AllocError>
    ensures { let mark = length slots.now.trail in IfOk result (λ s. view s
        ≡ names.Conj mark nest first end names.Bare (names.One mark events.Sat)) }
{
    let mark = slots.mark();
    let before = Suspended::One {
        mark,
        event: Event::Sat,
    };
    let here = Box::new(alloc, before)?;
    Ok(Suspended::Conj {
        mark,
        nest,
        next: first,
        end,
        outer: Vec::new(alloc),
        here,
    })
}

/// The head of a rule, by its node.
fn head_of<'s>(rule: usize, scene: &'s Scene<'_>) -> &'s AtomPat
    requires { let c = code_in scene.now in
        (r : Rule) × (beside rule (rule_nodes c) (rules_in c) ≡ Some r) }
    ensures { let c = code_in scene.now in
        (r : Rule) → beside rule (rule_nodes c) (rules_in c) ≡ Some r → atom_of result.now ≡ head_of r }
{
    match &node_at(rule, scene).op {
        Op::Operator(head) => head,
        Op::Method(head) => head,
        Op::Axiom(head) => head,
        _ => unreachable!(),
    }
}

/// The bindings under which the head of the rule of parts matches a task, if it does. The task is an atom without
/// variables and calls. Only cells are added.
fn bound_by_task(
    alloc: Global,
    scene: &Scene<'_>,
    asked: Conjuncts,
    task: &AtomPat,
    cells: &mut Cells,
) -> Result<Option<Slots>, AllocError>
    requires asked { AreConjuncts (code_in scene.now) asked }
    requires task { IsGroundAtom (atom_of task.now) }
    ensures bound { IfOk result (IsBoundByTask (code_in scene.now) asked (atom_said (atom_of task.now)) cells.new) }
    ensures cells { Grows cells.old cells.new }
{
    let cell = ground_atom(alloc, task, cells)?;
    let vars = scene.code.vars(asked.rule).len();
    matched(alloc, head_of(asked.rule, scene), vars, cell, cells)
}

/// The bindings by the first satisfier of parts together under bindings, if no fault comes before it.
fn first_from(
    alloc: Global,
    scene: &Scene<'_>,
    nest: u32,
    parts: Conjuncts,
    slots: Slots,
    cells: &mut Cells,
) -> Result<Option<Slots>, AllocError>
    requires parts { AreExpressionsIn (code_in scene.now) parts.first parts.end }
    requires ready { IsReady scene.now cells.old slots }
    ensures first { IfOk result (BindsFirst (setting_of scene.now cells.old) nest parts
        (bindings_of cells.old slots) cells.new) }
    ensures cells { Grows cells.old cells.new }
{
    let mut own = slots;
    let mut all = begun(alloc, nest, parts.first, parts.end, &own)?;
    if reach_passing(alloc, scene, nest, &Test::Any, &mut all, &mut own, cells)? {
        Ok(Some(own))
    } else {
        Ok(None)
    }
}

/// The bindings by the first satisfier of parts together for a task.
fn bound_after(
    alloc: Global,
    scene: &Scene<'_>,
    nest: u32,
    parts: Conjuncts,
    task: &AtomPat,
    cells: &mut Cells,
) -> Result<Option<Slots>, AllocError>
    requires parts { AreConjuncts (code_in scene.now) parts }
    requires atoms { AllBelow (length cells.old) (live_atoms scene.now.world.now.places) }
    requires knows { Knows cells.old scene.now.world }
    requires task { IsGroundAtom (atom_of task.now) }
    requires levels { nest ≤ 128 }
    ensures bound { IfOk result (plain.IsBoundAfter (code_in scene.now) nest
        (state_in (setting_of scene.now cells.old)) parts (atom_said (atom_of task.now)) cells.new) }
    ensures cells { Grows cells.old cells.new }
{
    match bound_by_task(alloc, scene, parts, task, cells)? {
        Some(slots) => first_from(alloc, scene, nest, parts, slots, cells),
        None => Ok(None),
    }
}

/// The bindings with which the head of a rule starts from an atom that is filled.
fn started_by(
    alloc: Global,
    scene: &Scene<'_>,
    rule: usize,
    goal: &Goal,
    cells: &mut Cells,
) -> Result<Option<Slots>, AllocError>
    requires rule { let c = code_in scene.now in
        (r : Rule) × (beside rule (rule_nodes c) (rules_in c) ≡ Some r) }
    requires below { GoalBelow (length cells.old) goal.now }
    ensures bound { IfOk result (BindsGoal (code_in scene.now) rule (Ok (goal_of cells.old goal.now)) cells.new) }
    ensures cells { Grows cells.old cells.new }
{
    let vars = scene.code.vars(rule).len();
    let mut own = Slots::new(alloc, vars)?;
    if start_goal(head_of(rule, scene), goal, cells, &mut own)? {
        Ok(Some(own))
    } else {
        Ok(None)
    }
}

/// The bindings with which the head of a rule starts from an atom that is to be filled under bindings.
fn bound_by_goal(
    alloc: Global,
    scene: &Scene<'_>,
    rule: usize,
    goal: &AtomPat,
    slots: &Slots,
    cells: &mut Cells,
) -> Result<Option<Slots>, AllocError>
    requires rule { let c = code_in scene.now in
        (r : Rule) × (beside rule (rule_nodes c) (rules_in c) ≡ Some r) }
    requires below { AreBelow (length cells.old) slots.now }
    ensures bound { IfOk result (BindsGoal (code_in scene.now) rule
        (fill_goal (atom_of goal.now) (bindings_of cells.old slots.now)) cells.new) }
    ensures cells { Grows cells.old cells.new }
{
    match fill_goal(alloc, goal, slots, cells) {
        Ok(filled) => started_by(alloc, scene, rule, &filled, cells),
        Err(EvalStop::Fault(_)) => Ok(None),
        Err(EvalStop::NoMemory) => Err(AllocError),
    }
}

/// The bindings from which parts of a rule are asked for, if there are any. Only cells are added.
pub(crate) fn bound_by(
    alloc: Global,
    scene: &Scene<'_>,
    nest: u32,
    asked: Conjuncts,
    start: &Start<'_>,
    cells: &mut Cells,
) -> Result<Option<Slots>, AllocError>
    requires asked { AreConjuncts (code_in scene.now) asked }
    requires atoms { AllBelow (length cells.old) (live_atoms scene.now.world.now.places) }
    requires knows { Knows cells.old scene.now.world }
    requires start { CanStart (code_in scene.now) start.now }
    requires levels { nest ≤ 128 }
    ensures bound { IfOk result (IsBoundBy (code_in scene.now) nest (state_in (setting_of scene.now cells.old)) asked
        start.now cells.new) }
    ensures cells { Grows cells.old cells.new }
{
    match start {
        Start::Task(task) => bound_by_task(alloc, scene, asked, task, cells),
        Start::After(task, parts) => bound_after(alloc, scene, nest, *parts, task, cells),
        Start::Goal(task, parts, goal) => {
            match bound_after(alloc, scene, nest, *parts, task, cells)? {
                Some(slots) => bound_by_goal(alloc, scene, asked.rule, goal, &slots, cells),
                None => Ok(None),
            }
        }
    }
}
