//! The children of a node that are left.
ghost use Rattle.std.specs.Prelude.{◌≡◌, ◌<◌, ◌++◌, IfOk, OnOk, Some, length, option_map, slice_get};
ghost use Rattle.std.specs.List.{All};
ghost use Rattle.hp_syntax.specs.Checks.{HasFewVariables};
ghost use Rattle.hp_syntax.specs.Networks.{part_at};
ghost use Rattle.hp_eval.specs.Growth.{Grows};
ghost use Rattle.hp_laws.specs.RulesByName.{relevant_to};
ghost use Rattle.hp_tree.specs.Children.{place_in, one_by, IsCandidate};
ghost use Rattle.hp_plain.specs.SearchNodes.{node_in, IsSearchNode};
ghost use Rattle.hp_plain.specs.Agendas.{rules_of, choice_children, if_open, queue_children, agenda_children, work_left, IsChoice, MaybeChoice, IsQueue, IsAgenda, Takes};

use crate::candidate::{Candidate, Child, Choice, Context};
use crate::search_node::SearchNode;
use hp_cells::{Cell, Cells};
use hp_net::TaskId;
use hp_satisfiers::expressions::Scene;
use std::alloc::AllocError;

/// The events by a rule at a candidate, of which those from a place on are left.
pub(crate) struct OpenChoice {
    pub(crate) id: TaskId,
    pub(crate) task: Cell,
    pub(crate) rule: usize,
    pub(crate) choice: Choice,
    pub(crate) next: usize,
}

impl Drop for OpenChoice {
    fn drop(self) {
        let OpenChoice {
            id: _,
            task: _,
            rule: _,
            choice,
            next: _,
        } = self;
        drop(choice);
    }
}

/// Candidates, of which those from a place on are left, and how many of the rules relevant to the first of these were
/// tried.
pub(crate) struct CandidateQueue {
    pub(crate) candidates: Vec<TaskId>,
    pub(crate) at: usize,
    pub(crate) tried: usize,
}

impl Drop for CandidateQueue {
    fn drop(self) {
        let CandidateQueue {
            candidates,
            at: _,
            tried: _,
        } = self;
        drop(candidates);
    }
}

/// The children of a node that are left: those of the choice that is open, and then those by the rules and candidates
/// behind it.
pub(crate) struct Agenda {
    pub(crate) open: Option<OpenChoice>,
    pub(crate) queue: CandidateQueue,
}

impl Drop for Agenda {
    fn drop(self) {
        let Agenda { open, queue } = self;
        drop(open);
        drop(queue);
    }
}

impl OpenChoice {
    // The next child that an event of the choice gives.
    fn next(
        &mut self,
        context: &Context,
        node: &SearchNode,
        cells: &mut Cells,
    ) -> Result<Option<Child>, AllocError>
        requires node { IsSearchNode (length cells.old) node.now }
        requires few { All HasFewVariables (rules_of context.now) }
        requires choice { IsChoice (length cells.old) node.now self.old }
        ensures takes { IfOk result (λ child. Takes cells.new child
            (choice_children (rules_of context.now) context.now.nest cells.old node.now self.old)
            (choice_children (rules_of context.now) context.now.nest cells.new node.now self.new)) }
        ensures choice { OnOk result (IsChoice (length cells.new) node.now self.new) }
        ensures cells { Grows cells.old cells.new }
    {
        let candidate = Candidate {
            context,
            node,
            scene: Scene {
                alloc: context.alloc,
                book: context.book,
                world: &node.world,
            },
            id: self.id,
            task: self.task,
        };
        while self.next < self.choice.found.len() {
            let found = &self.choice.found[self.next];
            let child = candidate.child(self.rule, self.choice.branch, found, cells)?;
            self.next += 1;
            if child.is_some() {
                return Ok(child);
            }
        }
        Ok(None)
    }
}

// The place of the rule of a number among those that are relevant to a candidate, if there are so many.
fn relevant_rule(
    context: &Context,
    node: &SearchNode,
    id: TaskId,
    number: usize,
    cells: &Cells,
) -> Option<usize>
    requires node { IsSearchNode (length cells.now) node.now }
    requires candidate { IsCandidate node.now.net.now id }
    ensures { option_map (slice_get (rules_of context.now)) result
        ≡ option_map Some (slice_get (relevant_to (part_at (node_in cells.now node.now).network
        (place_in node.now.net.now id)) (rules_of context.now)) number) }
{
    let task = node.net.task(id);
    context.book.relevant_at(task, number, cells)
}

// The choice of a rule at a candidate, with all its events left.
fn opened(
    context: &Context,
    node: &SearchNode,
    id: TaskId,
    rule: usize,
    cells: &mut Cells,
) -> Result<OpenChoice, AllocError>
    requires node { IsSearchNode (length cells.old) node.now }
    requires few { All HasFewVariables (rules_of context.now) }
    requires candidate { IsCandidate node.now.net.now id }
    requires deep { 0 < node.now.depth }
    ensures children { IfOk result (λ choice. let n = node_in cells.old node.now in
        let p = place_in node.now.net.now id in
        choice_children (rules_of context.now) context.now.nest cells.new node.now choice
        ≡ one_by (rules_of context.now) context.now.nest n p (part_at n.network p)
        (slice_get (rules_of context.now) rule)) }
    ensures choice { IfOk result (λ choice. IsChoice (length cells.new) node.now choice) }
    ensures cells { Grows cells.old cells.new }
{
    let task = node.net.task(id);
    let candidate = Candidate {
        context,
        node,
        scene: Scene {
            alloc: context.alloc,
            book: context.book,
            world: &node.world,
        },
        id,
        task,
    };
    let choice = candidate.choice(rule, cells)?;
    Ok(OpenChoice {
        id,
        task,
        rule,
        choice,
        next: 0,
    })
}

impl CandidateQueue {
    // The choice of the next rule that is relevant to the first candidate, if there is one; else the candidate is left.
    fn advance(
        &mut self,
        context: &Context,
        node: &SearchNode,
        cells: &mut Cells,
    ) -> Result<Option<OpenChoice>, AllocError>
        requires node { IsSearchNode (length cells.old) node.now }
        requires few { All HasFewVariables (rules_of context.now) }
        requires queue { IsQueue (rules_of context.now) node.now self.old }
        requires some { self.old.at < length self.old.candidates.items }
        ensures left { IfOk result (λ choice.
            queue_children (rules_of context.now) context.now.nest cells.old node.now self.old
            ≡ if_open (rules_of context.now) context.now.nest cells.new node.now choice
            ++ queue_children (rules_of context.now) context.now.nest cells.new node.now self.new) }
        ensures choice { IfOk result (λ choice. MaybeChoice (length cells.new) node.now choice) }
        ensures queue { OnOk result (IsQueue (rules_of context.now) node.now self.new) }
        ensures less { OnOk result (work_left (rules_of context.now) self.new
            < work_left (rules_of context.now) self.old) }
        ensures cells { Grows cells.old cells.new }
    {
        let id = self.candidates[self.at];
        match relevant_rule(context, node, id, self.tried, cells) {
            Some(rule) => {
                let choice = opened(context, node, id, rule, cells)?;
                self.tried += 1;
                Ok(Some(choice))
            }
            None => {
                self.at += 1;
                self.tried = 0;
                Ok(None)
            }
        }
    }
}

impl Agenda {
    // The next child of the choice that is open, if there is one.
    fn next_of_open(
        &mut self,
        context: &Context,
        node: &SearchNode,
        cells: &mut Cells,
    ) -> Result<Option<Child>, AllocError>
        requires node { IsSearchNode (length cells.old) node.now }
        requires few { All HasFewVariables (rules_of context.now) }
        requires agenda { IsAgenda (rules_of context.now) (length cells.old) node.now self.old }
        ensures takes { IfOk result (λ child. Takes cells.new child
            (if_open (rules_of context.now) context.now.nest cells.old node.now self.old.open)
            (if_open (rules_of context.now) context.now.nest cells.new node.now self.new.open)) }
        ensures choice { OnOk result (MaybeChoice (length cells.new) node.now self.new.open) }
        ensures queue { self.new.queue ≡ self.old.queue }
        ensures cells { Grows cells.old cells.new }
    {
        match &mut self.open {
            Some(choice) => choice.next(context, node, cells),
            None => Ok(None),
        }
    }

    // Opens the choice of the next rule that is relevant to the first candidate.
    fn advance(
        &mut self,
        context: &Context,
        node: &SearchNode,
        cells: &mut Cells,
    ) -> Result<(), AllocError>
        requires node { IsSearchNode (length cells.old) node.now }
        requires few { All HasFewVariables (rules_of context.now) }
        requires agenda { IsAgenda (rules_of context.now) (length cells.old) node.now self.old }
        requires some { self.old.queue.at < length self.old.queue.candidates.items }
        ensures left { OnOk result (queue_children (rules_of context.now) context.now.nest cells.old node.now
            self.old.queue ≡ agenda_children (rules_of context.now) context.now.nest cells.new node.now self.new) }
        ensures agenda { OnOk result (IsAgenda (rules_of context.now) (length cells.new) node.now self.new) }
        ensures less { OnOk result (work_left (rules_of context.now) self.new.queue
            < work_left (rules_of context.now) self.old.queue) }
        ensures cells { Grows cells.old cells.new }
    {
        self.open = self.queue.advance(context, node, cells)?;
        Ok(())
    }

    /// The next child, if there is one.
    pub(crate) fn next(
        &mut self,
        context: &Context,
        node: &SearchNode,
        cells: &mut Cells,
    ) -> Result<Option<Child>, AllocError>
        requires node { IsSearchNode (length cells.old) node.now }
        requires few { All HasFewVariables (rules_of context.now) }
        requires agenda { IsAgenda (rules_of context.now) (length cells.old) node.now self.old }
        ensures takes { IfOk result (λ child. Takes cells.new child
            (agenda_children (rules_of context.now) context.now.nest cells.old node.now self.old)
            (agenda_children (rules_of context.now) context.now.nest cells.new node.now self.new)) }
        ensures agenda { OnOk result (IsAgenda (rules_of context.now) (length cells.new) node.now self.new) }
        ensures cells { Grows cells.old cells.new }
    {
        loop {
            let child = self.next_of_open(context, node, cells)?;
            if child.is_some() {
                return Ok(child);
            }
            if self.queue.at >= self.queue.candidates.len() {
                return Ok(None);
            }
            self.advance(context, node, cells)?;
        }
    }
}
