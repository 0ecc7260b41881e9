//! What is suspended as it begins, and steps without a recursion.
ghost use Rattle.std.specs.Prelude.{◌≡◌, ◌<◌, ◌≤◌, ◌++◌, ◌+◌, [], Some, IfOk, IfSome, IfNone, OnOk, OnErr, Ok, length, slice_get};
ghost use Rattle.hp_eval.specs.declared.event.Event.TheVariants as events;
ghost use Rattle.hp_eval.specs.Growth.{Grows};
ghost use Rattle.hp_eval.specs.GoalViews.{goal_of, GoalBelow};
ghost use Rattle.hp_eval.specs.Slotted.{AreBelow, Binds, bindings_of};
ghost use Rattle.hp_suspended.specs.Answering.{EndsAt, GivesOver, Moves};
ghost use Rattle.hp_nodes.specs.Trees.{And, Laid, Or};
ghost use Rattle.hp_suspended.specs.Beginning.{Begins, BeginsAt, BeginsFilled, BeginsRule, DoesAt, GivesTerms, IsNamedAt, MayGive, MeetsRule, begun_level};
ghost use Rattle.hp_suspended.specs.Branching.{IsLastingAt, IsNoEnd, search_turns};
ghost use Rattle.hp_suspended.specs.Fitting.{IsAxiomAt, IsExpressionAt, RunningFits, running_weight};
ghost use Rattle.hp_suspended.specs.Nodes.{head_at};
ghost use Rattle.hp_suspended.specs.SceneViews.{IsReady, code_in};
ghost use Rattle.hp_suspended.specs.Settings.{head_concludes};
ghost use Rattle.hp_suspended.specs.Views.{Idle, level_at, view, running_view};
ghost use Rattle.hp_syntax.specs.Events as plain;
ghost use Rattle.hp_syntax.specs.Goals.{fill_goal};
ghost use Rattle.hp_syntax.specs.Values.{value};
ghost use Rattle.hp_syntax.specs.Views.{pattern_of, atom_of};

use crate::scene::{Scene, node_at};
use crate::simple::filter_of;
use crate::suspended::{Running, SimpleAtom, Suspended};
use hp_cells::{Cells, View};
use hp_code::Op;
use hp_eval::{EvalStop, Event, Goal, Slots, conclude, fill_goal, meet, start_goal, value};
use hp_syntax::{AtomPat, Pat};
use std::alloc::{AllocError, Global};

/// The event of an assignment, or its end.
pub(crate) fn assigned(
    v: u32,
    pattern: &Pat,
    alloc: Global,
    cells: &mut Cells,
    slots: &mut Slots,
) -> Result<Event, AllocError>
    requires slots { AreBelow (length cells.old) slots.old }
    ensures gives { IfOk result (λ x. GivesTerms cells.new slots.new x (λ terms. plain.assigned
        (value (pattern_of pattern.now) (bindings_of terms slots.old)) v (bindings_of terms slots.old))) }
    ensures ends { IfOk result (λ x. EndsAt x (length slots.old.trail) slots.new) }
    ensures moves { Moves (length slots.old.trail) cells.old cells.new slots.old slots.new }
{
    let mark = slots.mark();
    match value(alloc, pattern, slots, cells) {
        Ok(cell) => {
            if meet(v, cell, cells, slots) {
                Ok(Event::Sat)
            } else {
                slots.undo_to(mark);
                Ok(Event::End)
            }
        }
        Err(EvalStop::Fault(fault)) => Ok(Event::Fault(fault)),
        Err(EvalStop::NoMemory) => Err(AllocError),
    }
}

/// The event of a call, or its end: it is true unless its value is the empty list.
pub(crate) fn tested(
    call: &Pat,
    alloc: Global,
    cells: &mut Cells,
    slots: &mut Slots,
) -> Result<Event, AllocError>
    requires slots { AreBelow (length cells.old) slots.old }
    ensures gives { IfOk result (λ x. GivesTerms cells.new slots.new x (λ terms.
        plain.tested (value (pattern_of call.now) (bindings_of terms slots.old)) (bindings_of terms slots.old))) }
    ensures same { slots.new ≡ slots.old }
    ensures cells { Grows cells.old cells.new }
{
    match value(alloc, call, slots, cells) {
        Ok(cell) => match cells.get(cell) {
            View::Nil => Ok(Event::End),
            View::Sym(_) | View::Num(_) | View::Cons(..) => Ok(Event::Sat),
        },
        Err(EvalStop::Fault(fault)) => Ok(Event::Fault(fault)),
        Err(EvalStop::NoMemory) => Err(AllocError),
    }
}

// The head of the axiom of a node.
fn head_of<'s>(node: usize, scene: &'s Scene<'_>) -> &'s AtomPat
    requires { IsAxiomAt (code_in scene.now) node }
    ensures { head_at (code_in scene.now) node ≡ Some (atom_of result.now) }
{
    match &node_at(node, scene).op {
        Op::Axiom(head) => head,
        _ => unreachable!(),
    }
}

/// The event of a goal by the conclusion of an axiom's bindings; `None` where they conclude nothing.
pub(crate) fn conclusion(
    run: &Running,
    goal: &Goal,
    alloc: Global,
    scene: &Scene<'_>,
    cells: &mut Cells,
    slots: &mut Slots,
) -> Result<Option<Event>, AllocError>
    requires slots { AreBelow (length cells.old) slots.old }
    requires own { AreBelow (length cells.old) (level_at run.now).own }
    requires goal { GoalBelow (length cells.old) goal.now }
    requires head { IsAxiomAt (code_in scene.now) (level_at run.now).head }
    ensures gives { IfOk result (λ o. MayGive o cells.new slots.new (λ terms.
        head_concludes (head_at (code_in scene.now) (level_at run.now).head) (goal_of terms goal.now)
        (bindings_of terms slots.old) (bindings_of terms (level_at run.now).own))) }
    ensures event { IfOk result (λ o. IfSome o IsNoEnd) }
    ensures same { IfOk result (λ o. IfNone o (slots.new ≡ slots.old)) }
    ensures moves { Moves (length slots.old.trail) cells.old cells.new slots.old slots.new }
{
    let head = head_of(run.head, scene);
    match conclude(alloc, head, &run.own, goal, slots, cells) {
        Ok(true) => Ok(Some(Event::Sat)),
        Ok(false) => Ok(None),
        Err(EvalStop::Fault(fault)) => Ok(Some(Event::Fault(fault))),
        Err(EvalStop::NoMemory) => Err(AllocError),
    }
}

// An axiom whose head has started in slots of its own: a cut where no level is left, else its branches.
fn running_of(node: usize, nest: u32, own: Slots, scene: &Scene<'_>) -> Running
    requires { IsAxiomAt (code_in scene.now) node }
    ensures { (l : Laid) → slice_get (code_in scene.now).nodes node ≡ Some l
        → level_at result ≡ begun_level nest node l.to own }
{
    let start = own.mark();
    let end = node_at(node, scene).to;
    if nest == 0 {
        return Running {
            head: node,
            own,
            start,
            next: end,
            end,
            here: Suspended::One {
                mark: start,
                event: Event::Cut,
            },
        };
    }
    Running {
        head: node,
        own,
        start,
        next: node + 1,
        end,
        here: Suspended::One {
            mark: start,
            event: Event::End,
        },
    }
}

// The axiom of a node, where its head starts for a goal.
fn started(
    node: usize,
    nest: u32,
    goal: &Goal,
    alloc: Global,
    scene: &Scene<'_>,
    cells: &mut Cells,
) -> Result<Option<Box<Running>>, AllocError>
    requires goal { GoalBelow (length cells.old) goal.now }
    requires named { IsNamedAt (code_in scene.now) goal.now.name node }
    ensures begins { IfOk result (λ o. BeginsRule scene.now cells.new nest goal.now node (running_view o)) }
    ensures cells { Grows cells.old cells.new }
{
    let vars = scene.code.vars(node).len();
    let mut own = Slots::new(alloc, vars)?;
    if !start_goal(head_of(node, scene), goal, cells, &mut own)? {
        return Ok(None);
    }
    let run = Box::new(alloc, running_of(node, nest, own, scene))?;
    Ok(Some(run))
}

/// Begins the next axiom, where one is left: the end where none is.
pub(crate) fn rule_turn(
    nest: u32,
    goal: &Goal,
    rule: &mut usize,
    running: &mut Option<Box<Running>>,
    alloc: Global,
    scene: &Scene<'_>,
    cells: &mut Cells,
) -> Result<Option<Event>, AllocError>
    requires goal { GoalBelow (length cells.old) goal.now }
    requires idle { running_view running.old ≡ Idle }
    ensures end { IfOk result (λ o. IfSome o (λ x. (x ≡ events.End)
        × (length ((code_in scene.now).axiom_rules goal.now.name) ≤ rule.old))) }
    ensures next { IfOk result (λ o. IfNone o ((rule.old < length ((code_in scene.now).axiom_rules goal.now.name))
        × (rule.new ≡ rule.old + 1))) }
    ensures same { IfOk result (λ o. IfNone o (MeetsRule scene.now cells.new nest goal.now rule.old rule.new
        (running_view running.new))) }
    ensures fits { IfOk result (λ o. IfNone o (RunningFits (code_in scene.now) (length cells.new) nest
        (running_view running.new))) }
    ensures weight { IfOk result (λ o. IfNone o (running_weight (length (code_in scene.now).nodes)
        (running_view running.new) ≡ 0)) }
    ensures cells { Grows cells.old cells.new }
{
    let rules = scene.code.axiom_rules(&goal.name);
    if *rule >= rules.len() {
        return Ok(Some(Event::End));
    }
    *running = started(rules[*rule], nest, goal, alloc, scene, cells)?;
    *rule += 1;
    Ok(None)
}

/// An atom that is filled, from a place on, or the fault of filling it.
pub(crate) fn begun_atom(
    mark: usize,
    nest: u32,
    from: usize,
    atom: &AtomPat,
    alloc: Global,
    cells: &mut Cells,
    slots: &Slots,
) -> Result<Suspended, AllocError>
    requires slots { AreBelow (length cells.old) slots.now }
    ensures begins { IfOk result (λ s. BeginsFilled (length cells.new) mark nest from (view s) (goal_of cells.new)
        (fill_goal (atom_of atom.now) (bindings_of cells.old slots.now))) }
    ensures cells { Grows cells.old cells.new }
{
    match fill_goal(alloc, atom, slots, cells) {
        Ok(goal) => Ok(Suspended::Search {
            mark,
            nest,
            goal,
            at: from,
            rule: 0,
            running: None,
        }),
        Err(EvalStop::Fault(fault)) => Ok(Suspended::One {
            mark,
            event: Event::Fault(fault),
        }),
        Err(EvalStop::NoMemory) => Err(AllocError),
    }
}

// A conjunction as it begins: its first part, where it has one.
fn begun_all(
    mark: usize,
    nest: u32,
    node: usize,
    alloc: Global,
    scene: &Scene<'_>,
) -> Result<Suspended, AllocError>
    requires node { IsExpressionAt (code_in scene.now) node }
    requires and { DoesAt (code_in scene.now) node And }
    ensures begins { IfOk result (λ s. BeginsAt scene.now mark nest node (view s)) }
{
    let end = node_at(node, scene).to;
    if node + 1 == end {
        return Ok(Suspended::One {
            mark,
            event: Event::Sat,
        });
    }
    let first = Suspended::Fresh {
        mark,
        nest,
        node: node + 1,
    };
    let here = Box::new(alloc, first)?;
    Ok(Suspended::Conj {
        mark,
        nest,
        next: node_at(node + 1, scene).to,
        end,
        outer: Vec::new(alloc),
        here,
    })
}

// A disjunction as it begins.
fn begun_any(
    mark: usize,
    nest: u32,
    node: usize,
    alloc: Global,
    scene: &Scene<'_>,
) -> Result<Suspended, AllocError>
    requires node { IsExpressionAt (code_in scene.now) node }
    requires or { DoesAt (code_in scene.now) node Or }
    ensures begins { IfOk result (λ s. BeginsAt scene.now mark nest node (view s)) }
{
    let end = node_at(node, scene).to;
    let none = Suspended::One {
        mark,
        event: Event::End,
    };
    let here = Box::new(alloc, none)?;
    Ok(Suspended::Disj {
        mark,
        nest,
        next: node + 1,
        end,
        here,
    })
}

/// The expression of a node as it begins, where it may give more than one event.
pub(crate) fn begun(
    mark: usize,
    nest: u32,
    node: usize,
    alloc: Global,
    scene: &Scene<'_>,
    cells: &mut Cells,
    slots: &Slots,
) -> Result<Suspended, AllocError>
    requires ready { IsReady scene.now cells.old slots.now }
    requires mark { length slots.now.trail ≡ mark }
    requires node { IsExpressionAt (code_in scene.now) node }
    requires lasting { IsLastingAt (code_in scene.now) node }
    ensures begins { IfOk result (λ s. Begins scene.now cells.new slots.now mark nest node (view s)) }
    ensures cells { Grows cells.old cells.new }
{
    match &node_at(node, scene).op {
        Op::Atom(atom) => match filter_of(atom, cells, slots) {
            Some(filter) => Ok(Suspended::Simple(SimpleAtom {
                mark,
                nest,
                node,
                from: 0,
                filter,
            })),
            None => begun_atom(mark, nest, 0, atom, alloc, cells, slots),
        },
        Op::And => begun_all(mark, nest, node, alloc, scene),
        Op::Or => begun_any(mark, nest, node, alloc, scene),
        _ => Ok(Suspended::One {
            mark,
            event: Event::End,
        }),
    }
}
