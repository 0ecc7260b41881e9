//! What is left of the choice of a rule at a task, and its next child.
ghost use Rattle.std.specs.Prelude.{◌≡◌, ◌<◌, ◌+◌, ◌^◌, ◌≤◌, [], None, Some, IfOk, OnOk, is_some, length, slice_get, true};
ghost use Rattle.hp_syntax.specs.Views.{tasks_of};
ghost use Rattle.hp_eval.specs.Events.{event_of, left_after, AreOfFirst};
ghost use Rattle.hp_eval.specs.Growth.{Grows};
ghost use Rattle.hp_eval.specs.Slotted.{bindings_of};
ghost use Rattle.hp_nodes.specs.NodeViews.{laid_of};
ghost use Rattle.hp_world.specs.Pasts.{PastsBelow};
ghost use Rattle.hp_world.specs.Recorded.{IndexedBelow, Knows, history_in};
ghost use Rattle.hp_suspended.specs.SceneViews.{code_in};
ghost use Rattle.hp_operator.specs.Bodies.{IsBodyIn};
ghost use Rattle.hp_method.specs.Branches.{tasks_at};
ghost use Rattle.hp_precondition.specs.Picks.{picked_kept};
ghost use Rattle.hp_tree.specs.Children.{IsCandidate};
ghost use Rattle.hp_site.specs.Sites.{IsSite, Keeps, held_now, mark_now};
ghost use Rattle.hp_choice.specs.declared.choice.Deed.TheVariants as deeds;
ghost use Rattle.hp_choice.specs.Choices.{Gives, GivesEvent, IsChoice, IsFloor, StaysUnless, Takes, events_left, floor_of};
ghost use Rattle.hp_choice.specs.Served.{ServesStill};

use hp_cells::{Cell, Cells};
use hp_code::{CodeNode, Op};
use hp_effect::Obstacle;
use hp_eval::{EvalStop, Event, Sats, Slots, tasks_value};
use hp_gen::Scene;
use hp_net::TaskId;
use hp_operator::effects;
use hp_precondition::Picked;
use hp_site::Site;
use hp_syntax::{NetPat, RunFault};
use hp_world::Applied;
use std::alloc::{AllocError, Global};

/// What each satisfier of a rule's precondition leads to: the effects and the cost of an operator, the nodes from one
/// index up to another, or the tasks of a method's branch, by their node.
#[derive(Clone, Copy)]
pub enum Deed {
    Operate { start: usize, end: usize },
    Decompose { tasks: usize },
}

/// The choice of a rule at a task: the rule by its node and the number of its branch, 0 for an operator; what its
/// satisfiers lead to, their bindings, the satisfiers that are left, and the event that was heard before it was asked
/// for, if there is one.
pub struct Choice {
    pub id: TaskId,
    pub task: Cell,
    pub rule: usize,
    pub branch: usize,
    pub deed: Deed,
    pub slots: Slots,
    pub sats: Picked,
    pub first: Option<Event>,
}

impl Drop for Choice {
    fn drop(self) {
        let Choice {
            id: _,
            task: _,
            rule: _,
            branch: _,
            deed: _,
            slots,
            sats,
            first: _,
        } = self;
        drop(slots);
        drop(sats);
    }
}

/// A child. Of a decomposition it tells how many cells stood before its terms were made.
#[derive(Clone, Copy)]
pub enum Given {
    Did(usize),
    Cut,
    Fault(RunFault),
}

// The node of an index.
fn node_at<'s>(node: usize, scene: &'s Scene<'_>) -> &'s CodeNode
    requires { node < length (code_in scene.now).nodes }
    ensures is { slice_get (code_in scene.now).nodes node ≡ Some (laid_of result.now) }
    ensures small { node + 1 < 2 ^ 64 }
{
    let nodes = scene.code.nodes();
    let _ = nodes.len();
    &nodes[node]
}

// The tasks of a node.
fn tasks_of<'s>(node: usize, scene: &'s Scene<'_>) -> &'s NetPat
    requires { is_some (tasks_at (code_in scene.now) node) ≡ true }
    ensures { tasks_at (code_in scene.now) node ≡ Some (tasks_of result.now) }
{
    match &node_at(node, scene).op {
        Op::Tasks(tasks) => tasks,
        _ => unreachable!(),
    }
}

impl Choice {
    // The next event.
    fn next_event(&mut self, scene: &Scene<'_>, cells: &mut Cells) -> Result<Event, AllocError>
        requires choice { IsChoice scene.now cells.old (length cells.old) scene.now.world.now self.old }
        requires knows { Knows cells.old scene.now.world }
        requires indexes { IndexedBelow (picked_kept self.old.sats) scene.now.world }
        ensures event { IfOk result (λ x. x
            ≡ event_of (events_left scene.now cells.old scene.now.world.now self.old)) }
        ensures left { OnOk result (events_left scene.now cells.new scene.now.world.now self.new
            ≡ left_after (events_left scene.now cells.old scene.now.world.now self.old)) }
        ensures sat { OnOk result (AreOfFirst (events_left scene.now cells.old scene.now.world.now self.old)
            (bindings_of cells.new self.new.slots)) }
        ensures choice { OnOk result (IsChoice scene.now cells.new (length cells.new) scene.now.world.now self.new) }
        ensures kept { OnOk result (picked_kept self.old.sats ≤ picked_kept self.new.sats) }
        ensures id { self.new.id ≡ self.old.id }
        ensures task { self.new.task ≡ self.old.task }
        ensures deed { self.new.deed ≡ self.old.deed }
        ensures served { ServesStill self.old self.new }
        ensures cells { Grows cells.old cells.new }
    {
        match self.first {
            Some(event) => {
                self.first = None;
                Ok(event)
            }
            None => self.sats.next(scene, cells, &mut self.slots),
        }
    }

    // The child that the bindings of the slots give by an operator, unless it is guarded.
    fn operated(
        &mut self,
        alloc: Global,
        nest: u32,
        start: usize,
        end: usize,
        site: &mut Site<'_>,
        cells: &mut Cells,
    ) -> Result<Option<Given>, AllocError>
        requires choice { IsChoice site.old.scene cells.old (length cells.old) (held_now site.old).stage self.old }
        requires body { IsBodyIn (code_in site.old.scene) start end }
        requires candidate { IsCandidate site.old.net.now self.old.id }
        requires site { IsSite cells.old site.old }
        requires deep { 0 < site.old.depth }
        requires levels { nest ≤ 128 }
        ensures gives { IfOk result (λ given. Gives site.old nest cells.old cells.new self.old
            (deeds.Operate start end) given site.new) }
        ensures same { self.new ≡ self.old }
        ensures site { OnOk result (IsSite cells.new site.new) }
        ensures keeps { Keeps (mark_now site.old) site.old site.new }
        ensures cells { Grows cells.old cells.new }
    {
        let floor = cells.len();
        match effects(alloc, &site.scene, nest, start, end, &mut self.slots, cells) {
            Ok((changes, cost)) => {
                match site.operate(self.id, self.task, &changes, cost, cells)? {
                    Applied::Done => Ok(Some(Given::Did(floor))),
                    Applied::Guarded(_) => Ok(None),
                }
            }
            Err(Obstacle::Cut) => Ok(Some(Given::Cut)),
            Err(Obstacle::Fault(fault)) => Ok(Some(Given::Fault(fault))),
            Err(Obstacle::NoMemory) => Err(AllocError),
        }
    }

    // The child that the bindings of the slots give by the tasks of a branch.
    fn decomposed(
        &self,
        alloc: Global,
        nest: u32,
        tasks: usize,
        site: &mut Site<'_>,
        cells: &mut Cells,
    ) -> Result<Option<Given>, AllocError>
        requires choice { IsChoice site.old.scene cells.old (length cells.old) (held_now site.old).stage self.now }
        requires tasks { is_some (tasks_at (code_in site.old.scene) tasks) ≡ true }
        requires candidate { IsCandidate site.old.net.now self.now.id }
        requires site { IsSite cells.old site.old }
        requires deep { 0 < site.old.depth }
        requires levels { nest ≤ 128 }
        ensures gives { IfOk result (λ given. Gives site.old nest cells.old cells.new self.now
            (deeds.Decompose tasks) given site.new) }
        ensures site { OnOk result (IsSite cells.new site.new) }
        ensures keeps { Keeps (mark_now site.old) site.old site.new }
        ensures cells { Grows cells.old cells.new }
    {
        let floor = cells.len();
        match tasks_value(alloc, tasks_of(tasks, &site.scene), &self.slots, cells) {
            Ok(tree) => {
                site.decompose(self.id, &tree, cells)?;
                Ok(Some(Given::Did(floor)))
            }
            Err(EvalStop::Fault(fault)) => Ok(Some(Given::Fault(fault))),
            Err(EvalStop::NoMemory) => Err(AllocError),
        }
    }

    // The child that the bindings of the slots give, unless it is guarded.
    fn satisfied(
        &mut self,
        alloc: Global,
        nest: u32,
        site: &mut Site<'_>,
        cells: &mut Cells,
    ) -> Result<Option<Given>, AllocError>
        requires choice { IsChoice site.old.scene cells.old (length cells.old) (held_now site.old).stage self.old }
        requires candidate { IsCandidate site.old.net.now self.old.id }
        requires site { IsSite cells.old site.old }
        requires deep { 0 < site.old.depth }
        requires levels { nest ≤ 128 }
        ensures gives { IfOk result (λ given. Gives site.old nest cells.old cells.new self.old self.old.deed given
            site.new) }
        ensures same { self.new ≡ self.old }
        ensures site { OnOk result (IsSite cells.new site.new) }
        ensures keeps { Keeps (mark_now site.old) site.old site.new }
        ensures cells { Grows cells.old cells.new }
    {
        match self.deed {
            Deed::Operate { start, end } => self.operated(alloc, nest, start, end, site, cells),
            Deed::Decompose { tasks } => self.decomposed(alloc, nest, tasks, site, cells),
        }
    }

    // The child that an event gives, if it gives one.
    fn given(
        &mut self,
        event: Event,
        alloc: Global,
        nest: u32,
        site: &mut Site<'_>,
        cells: &mut Cells,
    ) -> Result<Option<Given>, AllocError>
        requires choice { IsChoice site.old.scene cells.old (length cells.old) (held_now site.old).stage self.old }
        requires candidate { IsCandidate site.old.net.now self.old.id }
        requires site { IsSite cells.old site.old }
        requires deep { 0 < site.old.depth }
        requires levels { nest ≤ 128 }
        ensures gives { IfOk result (λ given. GivesEvent site.old nest cells.old cells.new self.old event given
            site.new) }
        ensures same { self.new ≡ self.old }
        ensures site { OnOk result (IsSite cells.new site.new) }
        ensures keeps { Keeps (mark_now site.old) site.old site.new }
        ensures cells { Grows cells.old cells.new }
    {
        match event {
            Event::Sat => self.satisfied(alloc, nest, site, cells),
            Event::Cut => Ok(Some(Given::Cut)),
            Event::Fault(fault) => Ok(Some(Given::Fault(fault))),
            Event::End => Ok(None),
        }
    }

    /// The next child. A decomposition is made in place, and the search node is the child then; else it stays.
    pub fn next(
        &mut self,
        alloc: Global,
        nest: u32,
        site: &mut Site<'_>,
        cells: &mut Cells,
    ) -> Result<Option<Given>, AllocError>
        requires choice { IsChoice site.old.scene cells.old (length cells.old) (held_now site.old).stage self.old }
        requires candidate { IsCandidate site.old.net.now self.old.id }
        requires site { IsSite cells.old site.old }
        requires pasts { PastsBelow (picked_kept self.old.sats) (history_in site.old.scene.world) }
        requires deep { 0 < site.old.depth }
        requires levels { nest ≤ 128 }
        ensures takes { IfOk result (λ given. Takes site.old.scene nest cells.old cells.new (held_now site.old)
            self.old given (held_now site.new) self.new) }
        ensures choice { IfOk result (λ given. IsChoice site.old.scene cells.new (floor_of given (length cells.new))
            (held_now site.old).stage self.new) }
        ensures floor { IfOk result (λ given. IsFloor given (length cells.old) (length cells.new)) }
        ensures stays { IfOk result (λ given. StaysUnless given site.old site.new) }
        ensures kept { OnOk result (picked_kept self.old.sats ≤ picked_kept self.new.sats) }
        ensures id { self.new.id ≡ self.old.id }
        ensures served { OnOk result (ServesStill self.old self.new) }
        ensures site { OnOk result (IsSite cells.new site.new) }
        ensures keeps { Keeps (mark_now site.old) site.old site.new }
        ensures cells { Grows cells.old cells.new }
    {
        loop {
            let event = self.next_event(&site.scene, cells)?;
            if event == Event::End {
                return Ok(None);
            }
            let given = self.given(event, alloc, nest, site, cells)?;
            if given.is_some() {
                return Ok(given);
            }
        }
    }
}
