//! Going on with what is suspended, from one event to the next.
//!
//! Calls recur by the nesting of expressions and by axiom levels alone; parts, branches, axioms and atoms are gone
//! through by loops, one turn a function.
ghost use Rattle.std.specs.Prelude.{◌≡◌, ◌<◌, ◌≤◌, ◌-◌, [], Some, IfOk, IfSome, IfNone, OnOk, length, slice_get};
ghost use Rattle.hp_nodes.specs.Trees.{Laid};
ghost use Rattle.hp_eval.specs.declared.event.Event.TheVariants as events;
ghost use Rattle.hp_eval.specs.Growth.{Grows};
ghost use Rattle.hp_eval.specs.GoalViews.{goal_of, GoalBelow};
ghost use Rattle.hp_eval.specs.Slotted.{bindings_of};
ghost use Rattle.hp_suspended.specs.Answering.{EndsAt, EndsAtEnd, GivesOver, GoesOn, GoesOnOver, IsBegun, Keeps, KeepsPair, LeavesOver, MayGoOn, Moves, PairFits, ShorterOver, pair_left, put_upon};
ghost use Rattle.hp_suspended.specs.Beginning.{IsBegunAs};
ghost use Rattle.hp_suspended.specs.Branching.{IsLastingAt, IsNextBranch, IsNoEnd, KeepsAxiom, axiom_left, branch_left, counters, search_turns, under};
ghost use Rattle.hp_suspended.specs.Fitting.{Fits, IsExpressionAt, RunningFits, base_of};
ghost use Rattle.hp_suspended.specs.Left.{left};
ghost use Rattle.hp_suspended.specs.SceneViews.{IsReady, code_in};
ghost use Rattle.hp_suspended.specs.Settings.{node_events};
ghost use Rattle.hp_suspended.specs.Turning.{pair_turns};
ghost use Rattle.hp_suspended.specs.Views as names;
ghost use Rattle.hp_suspended.specs.Views.{level_at, running_view, view, views};
ghost use Rattle.hp_syntax.specs.Events.{finding, negated};
ghost use Rattle.hp_world.specs.Recorded.{Knows};
ghost use Rattle.hp_world.specs.Stages.{AllBelow, live_atoms};

use crate::begins::{assigned, begun, conclusion, rule_turn, tested};
use crate::held::{denied_atom, held_event, told_of};
use crate::places::turn_at_places;
use crate::scene::{Scene, node_at};
use crate::suspended::{Part, Running, Suspended};
use hp_cells::Cells;
use hp_code::Op;
use hp_eval::{Event, Goal, Slots};
use std::alloc::{AllocError, Global};
use std::mem;

// Looks at the next part, and puts the one that has given a Sat upon the others, unless it is over: then the others
// alone can give more.
fn push_part(
    nest: u32,
    next: &mut usize,
    outer: &mut Vec<Part>,
    here: &mut Suspended,
    scene: &Scene<'_>,
    slots: &Slots,
) -> Result<(), AllocError>
    requires node { next.old < length (code_in scene.now).nodes }
    ensures outer { OnOk result (views outer.new.items
        ≡ put_upon (length slots.now.trail) (views outer.old.items) next.old (view here.old)) }
    ensures here { OnOk result (view here.new ≡ names.Fresh (length slots.now.trail) nest next.old) }
    ensures next { OnOk result ((l : Laid) → slice_get (code_in scene.now).nodes next.old ≡ Some l → next.new ≡ l.to) }
{
    let mark = slots.mark();
    if here.is_over(mark) {
        next_part(mark, nest, next, here, scene);
        return Ok(());
    }
    let node = *next;
    let part = mem::replace(here, Suspended::Fresh { mark, nest, node });
    outer.push(Part { next: node, part })?;
    *next = node_at(node, scene).to;
    Ok(())
}

// Goes on with a part that was left.
fn pop_part(last: Part, next: &mut usize, here: &mut Suspended)
    ensures next { next.new ≡ last.next }
    ensures here { here.new ≡ last.part }
{
    let (node, part) = last.into_pair();
    *next = node;
    here.put(part);
}

// Looks at the next part of a conjunction or of a disjunction.
fn next_part(mark: usize, nest: u32, next: &mut usize, here: &mut Suspended, scene: &Scene<'_>)
    requires node { next.old < length (code_in scene.now).nodes }
    ensures here { view here.new ≡ names.Fresh mark nest next.old }
    ensures next { (l : Laid) → slice_get (code_in scene.now).nodes next.old ≡ Some l → next.new ≡ l.to }
{
    let node = *next;
    here.put(Suspended::Fresh { mark, nest, node });
    *next = node_at(node, scene).to;
}

// Looks at the next branch of an axiom, one level down.
fn next_branch(nest: u32, run: &mut Running, scene: &Scene<'_>)
    requires node { (level_at run.old).next < length (code_in scene.now).nodes }
    requires level { 0 < nest }
    ensures same { IsNextBranch nest (level_at run.old) (level_at run.new) }
    ensures next { (l : Laid) → slice_get (code_in scene.now).nodes (level_at run.old).next ≡ Some l
        → (level_at run.new).next ≡ l.to }
{
    let node = run.next;
    let to = node_at(node, scene).to;
    run.here.put(Suspended::Fresh {
        mark: run.start,
        nest: nest - 1,
        node: node + 1,
    });
    run.next = to;
}

// An event, but for the end.
fn but_the_end(event: Event) -> Option<Event>
    ensures some { IfSome result (λ x. (x ≡ event) × IsNoEnd event) }
    ensures none { IfNone result (event ≡ events.End) }
{
    match event {
        Event::End => None,
        Event::Sat | Event::Cut | Event::Fault(_) => Some(event),
    }
}

impl Suspended {
    /// The next event, or the end.
    #[cycle(search)]
    pub fn next(
        &mut self,
        alloc: Global,
        scene: &Scene<'_>,
        cells: &mut Cells,
        slots: &mut Slots,
    ) -> Result<Event, AllocError>
        requires ready { IsReady scene.now cells.old slots.old }
        requires fits { Fits (code_in scene.now) (length cells.old) (length slots.old.trail) (view self.old) }
        ensures gives { IfOk result (λ x. GivesOver scene.now cells.new slots.new x
            (λ w. left w slots.old (view self.old)) (λ w. left w slots.new (view self.new))) }
        ensures leaves { IfOk result (λ x. LeavesOver scene.now cells.new x (λ w. left w slots.new (view self.new))) }
        ensures keeps { OnOk result (Keeps (code_in scene.now) (length cells.new) slots.new (view self.old)
            (view self.new)) }
        ensures ends { IfOk result (λ x. EndsAt x (base_of (view self.old)) slots.new) }
        ensures moves { Moves (base_of (view self.old)) cells.old cells.new slots.old slots.new }
    {
        match self.begin(alloc, scene, cells, slots)? {
            Some(event) => Ok(event),
            None => {
                let event = self.step(alloc, scene, cells, slots)?;
                self.settle(event, slots);
                Ok(event)
            }
        }
    }

    // Begins an expression that wasn't looked at: its event or its end, where it gives one at most. An atom that isn't
    // filled has its events by places here.
    #[cycle(search)]
    fn begin(
        &mut self,
        alloc: Global,
        scene: &Scene<'_>,
        cells: &mut Cells,
        slots: &mut Slots,
    ) -> Result<Option<Event>, AllocError>
        requires ready { IsReady scene.now cells.old slots.old }
        requires fits { Fits (code_in scene.now) (length cells.old) (length slots.old.trail) (view self.old) }
        ensures gives { IfOk result (λ o. IfSome o (λ x. GivesOver scene.now cells.new slots.new x
            (λ w. left w slots.old (view self.old)) (λ w. left w slots.new (view self.new)))) }
        ensures leaves { IfOk result (λ o. IfSome o (λ x. LeavesOver scene.now cells.new x
            (λ w. left w slots.new (view self.new)))) }
        ensures keeps { IfOk result (λ o. IfSome o (λ x. Keeps (code_in scene.now) (length cells.new) slots.new
            (view self.old) (view self.new))) }
        ensures ends { IfOk result (λ o. IfSome o (λ x. EndsAt x (base_of (view self.old)) slots.new)) }
        ensures begun { IfOk result (λ o. IfNone o (IsBegunAs scene.now cells.new slots.old slots.new
            (view self.old) (view self.new))) }
        ensures moves { Moves (base_of (view self.old)) cells.old cells.new slots.old slots.new }
    {
        if let Some(start) = self.unbegun() {
            let event = once(
                start.mark, start.nest, start.node, alloc, scene, cells, slots,
            )?;
            if event.is_some() {
                self.end(start.mark);
                return Ok(event);
            }
            let begun = begun(
                start.mark, start.nest, start.node, alloc, scene, cells, slots,
            )?;
            self.put(begun);
        }
        self.scan(alloc, scene, cells, slots)
    }

    // The next event of what was begun.
    #[cycle(search)]
    fn step(
        &mut self,
        alloc: Global,
        scene: &Scene<'_>,
        cells: &mut Cells,
        slots: &mut Slots,
    ) -> Result<Event, AllocError>
        requires ready { IsReady scene.now cells.old slots.old }
        requires fits { Fits (code_in scene.now) (length cells.old) (length slots.old.trail) (view self.old) }
        requires begun { IsBegun (view self.old) }
        ensures gives { IfOk result (λ x. GivesOver scene.now cells.new slots.new x
            (λ w. left w slots.old (view self.old)) (λ w. left w slots.new (view self.new))) }
        ensures keeps { IfOk result (λ x. GoesOn x
            (Keeps (code_in scene.now) (length cells.new) slots.new (view self.old) (view self.new))) }
        ensures start { OnOk result (base_of (view self.new) ≡ base_of (view self.old)) }
        ensures moves { Moves (base_of (view self.old)) cells.old cells.new slots.old slots.new }
    {
        match self {
            Suspended::One { mark, event } => {
                slots.undo_to(*mark);
                let given = mem::replace(event, Event::End);
                Ok(given)
            }
            Suspended::Fresh {
                mark: _,
                nest: _,
                node: _,
            } => unreachable!(),
            Suspended::Simple(_) => unreachable!(),
            Suspended::Search {
                mark,
                nest,
                goal,
                at,
                rule,
                running,
            } => {
                let event = search_next(
                    *mark, *nest, goal, at, rule, running, alloc, scene, cells, slots,
                )?;
                Ok(event)
            }
            Suspended::Conj {
                mark,
                nest,
                next,
                end,
                outer,
                here,
            } => {
                let event = conj_next(
                    *mark, *nest, next, *end, outer, here, alloc, scene, cells, slots,
                )?;
                Ok(event)
            }
            Suspended::Disj {
                mark,
                nest,
                next,
                end,
                here,
            } => {
                let event = disj_next(*mark, *nest, next, *end, here, alloc, scene, cells, slots)?;
                Ok(event)
            }
        }
    }
}

// One turn of a conjunction; `None` where another turn is to follow. A part behind a Sat that the world tells is not
// suspended, and where it gives nothing the parts stay as they are.
#[cycle(search)]
fn conj_turn(
    mark: usize,
    nest: u32,
    next: &mut usize,
    end: usize,
    outer: &mut Vec<Part>,
    here: &mut Suspended,
    alloc: Global,
    scene: &Scene<'_>,
    cells: &mut Cells,
    slots: &mut Slots,
) -> Result<Option<Event>, AllocError>
    requires ready { IsReady scene.now cells.old slots.old }
    requires fits { PairFits (code_in scene.now) (length cells.old) mark end next.old (length slots.old.trail)
        (views outer.old.items) (view here.old) }
    ensures gives { IfOk result (λ o. IfSome o (λ x. GivesOver scene.now cells.new slots.new x
        (λ w. pair_left w nest next.old end slots.old (views outer.old.items) (view here.old))
        (λ w. pair_left w nest next.new end slots.new (views outer.new.items) (view here.new)))) }
    ensures more { IfOk result (λ o. IfNone o (GoesOnOver scene.now cells.new
        (λ w. pair_left w nest next.old end slots.old (views outer.old.items) (view here.old))
        (λ w. pair_left w nest next.new end slots.new (views outer.new.items) (view here.new))
        (λ w. pair_turns w nest next.old end slots.old (views outer.old.items) (view here.old))
        (λ w. pair_turns w nest next.new end slots.new (views outer.new.items) (view here.new)))) }
    ensures keeps { IfOk result (λ o. MayGoOn o (KeepsPair (code_in scene.now) (length cells.new) nest mark end
        slots.new
        next.old next.new (views outer.old.items) (views outer.new.items) (view here.old) (view here.new))) }
    ensures moves { Moves mark cells.old cells.new slots.old slots.new }
{
    match here.next(alloc, scene, cells, slots)? {
        Event::Sat => {
            if *next == end {
                return Ok(Some(Event::Sat));
            }
            let told = told_of(*next, scene, cells, slots);
            if let Some(Event::End) = told {
                return Ok(None);
            }
            let mark = slots.mark();
            push_part(nest, next, outer, here, scene, slots)?;
            here.tell(mark, told);
            Ok(None)
        }
        Event::Cut => Ok(Some(Event::Cut)),
        Event::Fault(fault) => Ok(Some(Event::Fault(fault))),
        Event::End => match outer.pop() {
            None => Ok(Some(Event::End)),
            Some(last) => {
                pop_part(last, next, here);
                Ok(None)
            }
        },
    }
}

#[cycle(search)]
fn conj_next(
    mark: usize,
    nest: u32,
    next: &mut usize,
    end: usize,
    outer: &mut Vec<Part>,
    here: &mut Suspended,
    alloc: Global,
    scene: &Scene<'_>,
    cells: &mut Cells,
    slots: &mut Slots,
) -> Result<Event, AllocError>
    requires ready { IsReady scene.now cells.old slots.old }
    requires fits { PairFits (code_in scene.now) (length cells.old) mark end next.old (length slots.old.trail)
        (views outer.old.items) (view here.old) }
    ensures gives { IfOk result (λ x. GivesOver scene.now cells.new slots.new x
        (λ w. pair_left w nest next.old end slots.old (views outer.old.items) (view here.old))
        (λ w. pair_left w nest next.new end slots.new (views outer.new.items) (view here.new))) }
    ensures keeps { IfOk result (λ x. GoesOn x (KeepsPair (code_in scene.now) (length cells.new) nest mark end slots.new
        next.old next.new (views outer.old.items) (views outer.new.items) (view here.old) (view here.new))) }
    ensures moves { Moves mark cells.old cells.new slots.old slots.new }
{
    loop {
        let turn = conj_turn(
            mark, nest, next, end, outer, here, alloc, scene, cells, slots,
        )?;
        if let Some(event) = turn {
            return Ok(event);
        }
    }
}

// One turn of a disjunction; `None` where another turn is to follow.
#[cycle(search)]
fn disj_turn(
    mark: usize,
    nest: u32,
    next: &mut usize,
    end: usize,
    here: &mut Suspended,
    alloc: Global,
    scene: &Scene<'_>,
    cells: &mut Cells,
    slots: &mut Slots,
) -> Result<Option<Event>, AllocError>
    requires ready { IsReady scene.now cells.old slots.old }
    requires fits { Fits (code_in scene.now) (length cells.old) (length slots.old.trail)
        (names.Disj mark nest next.old end (view here.old)) }
    ensures gives { IfOk result (λ o. IfSome o (λ x. GivesOver scene.now cells.new slots.new x
        (λ w. left w slots.old (names.Disj mark nest next.old end (view here.old)))
        (λ w. left w slots.new (names.Disj mark nest next.new end (view here.new))))) }
    ensures more { IfOk result (λ o. IfNone o (GoesOnOver scene.now cells.new
        (λ w. left w slots.old (names.Disj mark nest next.old end (view here.old)))
        (λ w. left w slots.new (names.Disj mark nest next.new end (view here.new)))
        (λ w. end - next.old) (λ w. end - next.new))) }
    ensures keeps { IfOk result (λ o. MayGoOn o (Keeps (code_in scene.now) (length cells.new) slots.new
        (names.Disj mark nest next.old end (view here.old)) (names.Disj mark nest next.new end (view here.new)))) }
    ensures moves { Moves mark cells.old cells.new slots.old slots.new }
{
    match here.next(alloc, scene, cells, slots)? {
        Event::End => {
            if *next == end {
                return Ok(Some(Event::End));
            }
            next_part(mark, nest, next, here, scene);
            Ok(None)
        }
        event => Ok(Some(event)),
    }
}

#[cycle(search)]
fn disj_next(
    mark: usize,
    nest: u32,
    next: &mut usize,
    end: usize,
    here: &mut Suspended,
    alloc: Global,
    scene: &Scene<'_>,
    cells: &mut Cells,
    slots: &mut Slots,
) -> Result<Event, AllocError>
    requires ready { IsReady scene.now cells.old slots.old }
    requires fits { Fits (code_in scene.now) (length cells.old) (length slots.old.trail)
        (names.Disj mark nest next.old end (view here.old)) }
    ensures gives { IfOk result (λ x. GivesOver scene.now cells.new slots.new x
        (λ w. left w slots.old (names.Disj mark nest next.old end (view here.old)))
        (λ w. left w slots.new (names.Disj mark nest next.new end (view here.new)))) }
    ensures keeps { IfOk result (λ x. GoesOn x (Keeps (code_in scene.now) (length cells.new) slots.new
        (names.Disj mark nest next.old end (view here.old)) (names.Disj mark nest next.new end (view here.new)))) }
    ensures moves { Moves mark cells.old cells.new slots.old slots.new }
{
    loop {
        let turn = disj_turn(mark, nest, next, end, here, alloc, scene, cells, slots)?;
        if let Some(event) = turn {
            return Ok(event);
        }
    }
}

// One turn of an axiom's branches, of which the first that gives an event is the last; `None` where another turn is to
// follow.
#[cycle(search)]
fn branch_turn(
    nest: u32,
    run: &mut Running,
    alloc: Global,
    scene: &Scene<'_>,
    cells: &mut Cells,
) -> Result<Option<Event>, AllocError>
    requires atoms { AllBelow (length cells.old) (live_atoms scene.now.world.now.places) }
    requires knows { Knows cells.old scene.now.world }
    requires fits { RunningFits (code_in scene.now) (length cells.old) nest (under (level_at run.old)) }
    ensures gives { IfOk result (λ o. IfSome o (λ x. GivesOver scene.now cells.new (level_at run.new).own x
        (λ w. branch_left w nest (level_at run.old)) (λ w. branch_left w nest (level_at run.new)))) }
    ensures more { IfOk result (λ o. IfNone o (GoesOnOver scene.now cells.new
        (λ w. branch_left w nest (level_at run.old)) (λ w. branch_left w nest (level_at run.new))
        (λ w. (level_at run.old).end - (level_at run.old).next)
        (λ w. (level_at run.new).end - (level_at run.new).next))) }
    ensures keeps { IfOk result (λ o. MayGoOn o (KeepsAxiom (code_in scene.now) (length cells.new) nest
        (level_at run.old) (level_at run.new))) }
    ensures cells { Grows cells.old cells.new }
{
    match run.here.next(alloc, scene, cells, &mut run.own)? {
        Event::End => {
            if run.next == run.end {
                return Ok(Some(Event::End));
            }
            next_branch(nest, run, scene);
            Ok(None)
        }
        event => {
            run.next = run.end;
            Ok(Some(event))
        }
    }
}

#[cycle(search)]
fn branch_next(
    nest: u32,
    run: &mut Running,
    alloc: Global,
    scene: &Scene<'_>,
    cells: &mut Cells,
) -> Result<Event, AllocError>
    requires atoms { AllBelow (length cells.old) (live_atoms scene.now.world.now.places) }
    requires knows { Knows cells.old scene.now.world }
    requires fits { RunningFits (code_in scene.now) (length cells.old) nest (under (level_at run.old)) }
    ensures gives { IfOk result (λ x. GivesOver scene.now cells.new (level_at run.new).own x
        (λ w. branch_left w nest (level_at run.old)) (λ w. branch_left w nest (level_at run.new))) }
    ensures keeps { IfOk result (λ x. GoesOn x (KeepsAxiom (code_in scene.now) (length cells.new) nest
        (level_at run.old) (level_at run.new))) }
    ensures cells { Grows cells.old cells.new }
{
    loop {
        let turn = branch_turn(nest, run, alloc, scene, cells)?;
        if let Some(event) = turn {
            return Ok(event);
        }
    }
}

// One turn of an axiom that is looked at; `None` where another turn is to follow.
#[cycle(search)]
fn axiom_turn(
    nest: u32,
    goal: &Goal,
    run: &mut Running,
    alloc: Global,
    scene: &Scene<'_>,
    cells: &mut Cells,
    slots: &mut Slots,
) -> Result<Option<Event>, AllocError>
    requires ready { IsReady scene.now cells.old slots.old }
    requires goal { GoalBelow (length cells.old) goal.now }
    requires fits { RunningFits (code_in scene.now) (length cells.old) nest (under (level_at run.old)) }
    ensures gives { IfOk result (λ o. IfSome o (λ x. GivesOver scene.now cells.new slots.new x
        (λ w. axiom_left w nest (goal_of w.terms goal.now) (bindings_of w.terms slots.old) (level_at run.old))
        (λ w. axiom_left w nest (goal_of w.terms goal.now) (bindings_of w.terms slots.old) (level_at run.new)))) }
    ensures more { IfOk result (λ o. IfNone o (GoesOnOver scene.now cells.new
        (λ w. axiom_left w nest (goal_of w.terms goal.now) (bindings_of w.terms slots.old) (level_at run.old))
        (λ w. axiom_left w nest (goal_of w.terms goal.now) (bindings_of w.terms slots.old) (level_at run.new))
        (λ w. length (branch_left w nest (level_at run.old))) (λ w. length (branch_left w nest (level_at run.new))))) }
    ensures same { IfOk result (λ o. IfNone o (slots.new ≡ slots.old)) }
    ensures keeps { IfOk result (λ o. MayGoOn o (KeepsAxiom (code_in scene.now) (length cells.new) nest
        (level_at run.old) (level_at run.new))) }
    ensures moves { Moves (length slots.old.trail) cells.old cells.new slots.old slots.new }
{
    match branch_next(nest, run, alloc, scene, cells)? {
        Event::Sat => conclusion(run, goal, alloc, scene, cells, slots),
        event => Ok(Some(event)),
    }
}

// The next event of an axiom that is looked at, or its end.
#[cycle(search)]
fn axiom_next(
    nest: u32,
    goal: &Goal,
    run: &mut Running,
    alloc: Global,
    scene: &Scene<'_>,
    cells: &mut Cells,
    slots: &mut Slots,
) -> Result<Event, AllocError>
    requires ready { IsReady scene.now cells.old slots.old }
    requires goal { GoalBelow (length cells.old) goal.now }
    requires fits { RunningFits (code_in scene.now) (length cells.old) nest (under (level_at run.old)) }
    ensures gives { IfOk result (λ x. GivesOver scene.now cells.new slots.new x
        (λ w. axiom_left w nest (goal_of w.terms goal.now) (bindings_of w.terms slots.old) (level_at run.old))
        (λ w. axiom_left w nest (goal_of w.terms goal.now) (bindings_of w.terms slots.old) (level_at run.new))) }
    ensures keeps { IfOk result (λ x. GoesOn x (KeepsAxiom (code_in scene.now) (length cells.new) nest
        (level_at run.old) (level_at run.new))) }
    ensures moves { Moves (length slots.old.trail) cells.old cells.new slots.old slots.new }
{
    loop {
        let turn = axiom_turn(nest, goal, run, alloc, scene, cells, slots)?;
        if let Some(event) = turn {
            return Ok(event);
        }
    }
}

// One turn of an atom: a place, an axiom that is looked at, or the beginning of the next one; `None` where another turn
// is to follow.
#[cycle(search)]
fn search_turn(
    mark: usize,
    nest: u32,
    goal: &Goal,
    at: &mut usize,
    rule: &mut usize,
    running: &mut Option<Box<Running>>,
    alloc: Global,
    scene: &Scene<'_>,
    cells: &mut Cells,
    slots: &mut Slots,
) -> Result<Option<Event>, AllocError>
    requires ready { IsReady scene.now cells.old slots.old }
    requires fits { Fits (code_in scene.now) (length cells.old) (length slots.old.trail)
        (names.Search mark nest goal.now at.old rule.old (running_view running.old)) }
    ensures gives { IfOk result (λ o. IfSome o (λ x. GivesOver scene.now cells.new slots.new x
        (λ w. left w slots.old (names.Search mark nest goal.now at.old rule.old (running_view running.old)))
        (λ w. left w slots.new (names.Search mark nest goal.now at.new rule.new (running_view running.new))))) }
    ensures more { IfOk result (λ o. IfNone o (GoesOnOver scene.now cells.new
        (λ w. left w slots.old (names.Search mark nest goal.now at.old rule.old (running_view running.old)))
        (λ w. left w slots.new (names.Search mark nest goal.now at.new rule.new (running_view running.new)))
        (λ w. search_turns (length w.places) (length (w.code.axiom_rules goal.now.name)) at.old rule.old
        (running_view running.old))
        (λ w. search_turns (length w.places) (length (w.code.axiom_rules goal.now.name)) at.new rule.new
        (running_view running.new)))) }
    ensures keeps { IfOk result (λ o. MayGoOn o (Keeps (code_in scene.now) (length cells.new) slots.new
        (names.Search mark nest goal.now at.old rule.old (running_view running.old))
        (names.Search mark nest goal.now at.new rule.new (running_view running.new)))) }
    ensures moves { Moves mark cells.old cells.new slots.old slots.new }
{
    slots.undo_to(mark);
    if *at < scene.world.places() {
        return Ok(turn_at_places(goal, at, scene, cells, slots));
    }
    let Some(run) = running else {
        return rule_turn(nest, goal, rule, running, alloc, scene, cells);
    };
    match axiom_next(nest, goal, run, alloc, scene, cells, slots)? {
        Event::End => {
            *running = None;
            Ok(None)
        }
        event => Ok(Some(event)),
    }
}

#[cycle(search)]
fn search_next(
    mark: usize,
    nest: u32,
    goal: &Goal,
    at: &mut usize,
    rule: &mut usize,
    running: &mut Option<Box<Running>>,
    alloc: Global,
    scene: &Scene<'_>,
    cells: &mut Cells,
    slots: &mut Slots,
) -> Result<Event, AllocError>
    requires ready { IsReady scene.now cells.old slots.old }
    requires fits { Fits (code_in scene.now) (length cells.old) (length slots.old.trail)
        (names.Search mark nest goal.now at.old rule.old (running_view running.old)) }
    ensures gives { IfOk result (λ x. GivesOver scene.now cells.new slots.new x
        (λ w. left w slots.old (names.Search mark nest goal.now at.old rule.old (running_view running.old)))
        (λ w. left w slots.new (names.Search mark nest goal.now at.new rule.new (running_view running.new)))) }
    ensures keeps { IfOk result (λ x. GoesOn x (Keeps (code_in scene.now) (length cells.new) slots.new
        (names.Search mark nest goal.now at.old rule.old (running_view running.old))
        (names.Search mark nest goal.now at.new rule.new (running_view running.new)))) }
    ensures moves { Moves mark cells.old cells.new slots.old slots.new }
{
    loop {
        let turn = search_turn(
            mark, nest, goal, at, rule, running, alloc, scene, cells, slots,
        )?;
        if let Some(event) = turn {
            return Ok(event);
        }
    }
}

// The event of a negation, or its end.
#[cycle(search)]
fn denied(
    mark: usize,
    nest: u32,
    node: usize,
    alloc: Global,
    scene: &Scene<'_>,
    cells: &mut Cells,
    slots: &mut Slots,
) -> Result<Event, AllocError>
    requires ready { IsReady scene.now cells.old slots.old }
    requires mark { length slots.old.trail ≡ mark }
    requires node { IsExpressionAt (code_in scene.now) node }
    ensures gives { IfOk result (λ x. GivesOver scene.now cells.new slots.new x
        (λ w. negated (finding (node_events w nest node (bindings_of w.terms slots.old)))
        (bindings_of w.terms slots.old))
        (λ w. [])) }
    ensures ends { OnOk result (slots.new ≡ slots.old) }
    ensures moves { Moves mark cells.old cells.new slots.old slots.new }
{
    if let Some(event) = denied_atom(node, scene, cells, slots) {
        return Ok(event);
    }
    let mut inner = Suspended::Fresh { mark, nest, node };
    let mut cut = false;
    loop {
        match inner.next(alloc, scene, cells, slots)? {
            Event::Sat => {
                slots.undo_to(mark);
                return Ok(Event::End);
            }
            Event::Cut => cut = true,
            Event::Fault(fault) => return Ok(Event::Fault(fault)),
            Event::End => return Ok(if cut { Event::Cut } else { Event::Sat }),
        }
    }
}

// One turn of what a `forall` denies: what satisfies the range and not what must hold for it; `None` where another turn
// is to follow.
#[cycle(search)]
fn counter_turn(
    inner: &mut Suspended,
    nest: u32,
    then: usize,
    alloc: Global,
    scene: &Scene<'_>,
    cells: &mut Cells,
    slots: &mut Slots,
) -> Result<Option<Event>, AllocError>
    requires ready { IsReady scene.now cells.old slots.old }
    requires fits { Fits (code_in scene.now) (length cells.old) (length slots.old.trail) (view inner.old) }
    requires then { IsExpressionAt (code_in scene.now) then }
    ensures gives { IfOk result (λ o. IfSome o (λ x. GivesOver scene.now cells.new slots.new x
        (λ w. counters w nest then (left w slots.old (view inner.old)))
        (λ w. counters w nest then (left w slots.new (view inner.new))))) }
    ensures more { IfOk result (λ o. IfNone o (GoesOnOver scene.now cells.new
        (λ w. counters w nest then (left w slots.old (view inner.old)))
        (λ w. counters w nest then (left w slots.new (view inner.new)))
        (λ w. length (left w slots.old (view inner.old))) (λ w. length (left w slots.new (view inner.new))))) }
    ensures shorter { IfOk result (λ o. IfSome o (λ x. ShorterOver scene.now cells.new x
        (λ w. length (left w slots.old (view inner.old))) (λ w. length (left w slots.new (view inner.new))))) }
    ensures keeps { OnOk result (Keeps (code_in scene.now) (length cells.new) slots.new (view inner.old)
        (view inner.new)) }
    ensures ends { IfOk result (λ o. IfSome o (λ x. EndsAtEnd x (base_of (view inner.old)) slots.new)) }
    ensures moves { Moves (base_of (view inner.old)) cells.old cells.new slots.old slots.new }
{
    match inner.next(alloc, scene, cells, slots)? {
        Event::Sat => {
            let mark = slots.mark();
            let event = denied(mark, nest, then, alloc, scene, cells, slots)?;
            Ok(but_the_end(event))
        }
        event => Ok(Some(event)),
    }
}

// The event of a `forall`, or its end: of the negation of what it denies.
#[cycle(search)]
fn for_all(
    mark: usize,
    nest: u32,
    range: usize,
    then: usize,
    alloc: Global,
    scene: &Scene<'_>,
    cells: &mut Cells,
    slots: &mut Slots,
) -> Result<Event, AllocError>
    requires ready { IsReady scene.now cells.old slots.old }
    requires mark { length slots.old.trail ≡ mark }
    requires range { IsExpressionAt (code_in scene.now) range }
    requires then { IsExpressionAt (code_in scene.now) then }
    requires order { range < then }
    ensures gives { IfOk result (λ x. GivesOver scene.now cells.new slots.new x
        (λ w. negated (finding (counters w nest then (node_events w nest range (bindings_of w.terms slots.old))))
        (bindings_of w.terms slots.old))
        (λ w. [])) }
    ensures ends { OnOk result (slots.new ≡ slots.old) }
    ensures moves { Moves mark cells.old cells.new slots.old slots.new }
{
    let mut inner = Suspended::Fresh {
        mark,
        nest,
        node: range,
    };
    let mut cut = false;
    loop {
        match counter_turn(&mut inner, nest, then, alloc, scene, cells, slots)? {
            Some(Event::Sat) => {
                slots.undo_to(mark);
                return Ok(Event::End);
            }
            Some(Event::Cut) => cut = true,
            Some(Event::Fault(fault)) => {
                slots.undo_to(mark);
                return Ok(Event::Fault(fault));
            }
            Some(Event::End) => return Ok(if cut { Event::Cut } else { Event::Sat }),
            None => {}
        }
    }
}

// The event of an expression that gives one at most, or its end; `None` for another expression.
#[cycle(search)]
fn once(
    mark: usize,
    nest: u32,
    node: usize,
    alloc: Global,
    scene: &Scene<'_>,
    cells: &mut Cells,
    slots: &mut Slots,
) -> Result<Option<Event>, AllocError>
    requires ready { IsReady scene.now cells.old slots.old }
    requires mark { length slots.old.trail ≡ mark }
    requires node { IsExpressionAt (code_in scene.now) node }
    ensures gives { IfOk result (λ o. IfSome o (λ x. GivesOver scene.now cells.new slots.new x
        (λ w. node_events w nest node (bindings_of w.terms slots.old)) (λ w. []))) }
    ensures lasting { IfOk result (λ o. IfNone o (IsLastingAt (code_in scene.now) node × (slots.new ≡ slots.old))) }
    ensures ends { IfOk result (λ o. IfSome o (λ x. EndsAt x mark slots.new)) }
    ensures moves { Moves mark cells.old cells.new slots.old slots.new }
{
    match &node_at(node, scene).op {
        Op::Not => {
            let event = denied(mark, nest, node + 1, alloc, scene, cells, slots)?;
            Ok(Some(event))
        }
        Op::Forall => {
            let then = node_at(node + 1, scene).to;
            let event = for_all(mark, nest, node + 1, then, alloc, scene, cells, slots)?;
            Ok(Some(event))
        }
        Op::Assign(v, pattern) => {
            let event = assigned(*v, pattern, alloc, cells, slots)?;
            Ok(Some(event))
        }
        Op::Call(call) => {
            let event = tested(call, alloc, cells, slots)?;
            Ok(Some(event))
        }
        Op::Atom(atom) => Ok(held_event(node, atom, scene, cells, slots)),
        _ => Ok(None),
    }
}
