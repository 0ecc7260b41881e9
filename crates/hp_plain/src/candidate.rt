//! The children of a node by one of the tasks that may be done next.
ghost use Rattle.std.specs.Prelude.{◌≡◌, ◌<◌, ◌≤◌, [], map, Ok, IfOk, length, slice_get};
ghost use Rattle.std.specs.Option.{option_map_or};
ghost use Rattle.hp_syntax.specs.declared.limits.TheConstants.{MOST_VARIABLES};
ghost use Rattle.hp_syntax.specs.Applying.{Now};
ghost use Rattle.hp_syntax.specs.Changes as plain;
ghost use Rattle.hp_syntax.specs.Events.{axioms_of};
ghost use Rattle.hp_syntax.specs.Matching.{match_atom};
ghost use Rattle.hp_syntax.specs.Networks.{tasks_value};
ghost use Rattle.hp_syntax.specs.Preconditions.{precondition_events};
ghost use Rattle.hp_syntax.specs.Values.{unbound};
ghost use Rattle.hp_syntax.specs.Views.{atom_of, branch_of, method_of, operator_of, precondition_of, tasks_of};
ghost use Rattle.hp_syntax.specs.Walk.{operated, after_effects, decomposed, child_of, chosen_branch, branch_children, method_children};
ghost use Rattle.hp_eval.specs.GoalViews.{network_of, TreeBelow};
ghost use Rattle.hp_eval.specs.Growth.{Grows};
ghost use Rattle.hp_eval.specs.Slotted.{AreBelow, bindings_of};
ghost use Rattle.hp_world.specs.Stages.{ChangesBelow, StageBelow, changes_of, state_of, guards_of};
ghost use Rattle.hp_answers.specs.AnswerViews.{answer_event, BindsBelow, MeetsHead};
ghost use Rattle.hp_tree.specs.Children.{branch_done};
ghost use Rattle.hp_plain.specs.Candidates.{rules_at, nest_at, own_node, place_at, own_task, done_at, children_at, CandidateFits};
ghost use Rattle.hp_plain.specs.Children.{Makes, FindsBelow, ChoosesBranch, Chooses};

use crate::search_node::SearchNode;
use hp_answers::answer::Answer;
use hp_answers::rule_index::RuleIndex;
use hp_cells::{Cell, Cells};
use hp_effect::Changes;
use hp_eval::{EvalStop, Slots, TaskTree, match_atom, tasks_value};
use hp_net::TaskId;
use hp_satisfiers::effects::EffectsOutcome;
use hp_satisfiers::expressions::Scene;
use hp_syntax::{AtomPat, Branch, Method, NetPat, Operator, Rule, RunFault};
use hp_world::{Applied, World};
use std::alloc::{AllocError, Global};

/// The rules of a walk, and how deep axioms may call one another.
#[derive(Drop)]
pub(crate) struct Context<'a> {
    pub(crate) alloc: Global,
    pub(crate) book: &'a RuleIndex<'a>,
    pub(crate) nest: u32,
}

/// A task of a node that may be done next, and the scene of the node, in which rules are looked at.
#[derive(Drop)]
pub(crate) struct Candidate<'a> {
    pub(crate) context: &'a Context<'a>,
    pub(crate) node: &'a SearchNode,
    pub(crate) scene: Scene<'a>,
    pub(crate) id: TaskId,
    pub(crate) task: Cell,
}

/// The events of a rule's precondition; where the rule is a method, that of the branch of this number.
pub(crate) struct Choice {
    pub(crate) branch: usize,
    pub(crate) found: Vec<Answer>,
}

impl Drop for Choice {
    fn drop(self) {
        let Choice { branch: _, found } = self;
        drop(found);
    }
}

/// A child of a node.
#[derive(Drop)]
pub(crate) enum Child {
    Cut,
    Fault(RunFault),
    Did(SearchNode),
}

impl Candidate<'_> {
    // The child after the task is done at this cost, where this holds then.
    fn finished(&self, world: World, cost: i64, cells: &Cells) -> Result<Option<Child>, AllocError>
        requires candidate { CandidateFits (length cells.now) self.now }
        requires world { StageBelow (length cells.now) world.now }
        ensures { IfOk result (λ child. Makes cells.now child
            (operated (own_node cells.now self.now) (place_at self.now) (own_task cells.now self.now) cost
            (Now (state_of cells.now world.now) (guards_of cells.now world.now)))) }
    {
        let mut net = self.node.net.copy()?;
        net.finish(self.id)?;
        let mut steps = Vec::from_slice(self.context.alloc, self.node.steps.as_slice())?;
        steps.push(self.task)?;
        Ok(Some(Child::Did(SearchNode {
            world,
            net,
            steps,
            cost: self.node.cost + i128::from(cost),
            depth: self.node.depth - 1,
        })))
    }

    // The child by changes and a cost: none where they delete what is protected.
    fn applied(
        &self,
        changes: &Changes,
        cost: i64,
        cells: &Cells,
    ) -> Result<Option<Child>, AllocError>
        requires candidate { CandidateFits (length cells.now) self.now }
        requires changes { ChangesBelow (length cells.now) changes.now }
        ensures { IfOk result (λ child. let n = own_node cells.now self.now in
            Makes cells.now child (operated n (place_at self.now) (own_task cells.now self.now) cost
            (plain.apply n.state n.guards (changes_of cells.now changes.now)))) }
    {
        prove!(cells.len() > 0);
        let mut world = self.node.world.copy()?;
        match changes.apply_to(&mut world)? {
            Applied::Done => self.finished(world, cost, cells),
            Applied::Guarded(_) => Ok(None),
        }
    }

    // The child that a satisfier of an operator's precondition gives.
    fn operated(
        &self,
        operator: &Operator,
        slots: &Slots,
        cells: &mut Cells,
    ) -> Result<Option<Child>, AllocError>
        requires candidate { CandidateFits (length cells.old) self.now }
        requires slots { AreBelow (length cells.old) slots.now }
        ensures makes { IfOk result (λ child. let n = own_node cells.old self.now in
            Makes cells.new child (after_effects n (place_at self.now) (own_task cells.old self.now)
            (plain.effects (axioms_of (rules_at self.now)) (nest_at self.now) n.state (operator_of operator.now)
            (bindings_of cells.old slots.now)))) }
        ensures cells { Grows cells.old cells.new }
    {
        match self
            .scene
            .effects(operator, slots, self.context.nest, cells)?
        {
            EffectsOutcome::Went(changes, cost) => self.applied(&changes, cost, cells),
            EffectsOutcome::Cut => Ok(Some(Child::Cut)),
            EffectsOutcome::Fault(fault) => Ok(Some(Child::Fault(fault))),
        }
    }

    // The child after subtasks stand in the place of the task.
    fn expanded(&self, tree: &TaskTree, cells: &Cells) -> Result<Option<Child>, AllocError>
        requires candidate { CandidateFits (length cells.now) self.now }
        requires tree { TreeBelow (length cells.now) tree.now }
        ensures { IfOk result (λ child. Makes cells.now child (decomposed (own_node cells.now self.now)
            (place_at self.now) (Ok (network_of cells.now tree.now)))) }
    {
        let world = self.node.world.copy()?;
        let mut net = self.node.net.copy()?;
        net.expand(self.id, tree)?;
        let steps = Vec::from_slice(self.context.alloc, self.node.steps.as_slice())?;
        Ok(Some(Child::Did(SearchNode {
            world,
            net,
            steps,
            cost: self.node.cost,
            depth: self.node.depth - 1,
        })))
    }

    // The child that a satisfier of the precondition of a method's branch gives.
    fn refined(
        &self,
        tasks: &NetPat,
        slots: &Slots,
        cells: &mut Cells,
    ) -> Result<Option<Child>, AllocError>
        requires candidate { CandidateFits (length cells.old) self.now }
        requires slots { AreBelow (length cells.old) slots.now }
        ensures makes { IfOk result (λ child. Makes cells.new child (decomposed (own_node cells.old self.now)
            (place_at self.now) (tasks_value (tasks_of tasks.now) (bindings_of cells.old slots.now)))) }
        ensures cells { Grows cells.old cells.new }
    {
        match tasks_value(self.context.alloc, tasks, slots, cells) {
            Ok(tree) => self.expanded(&tree, cells),
            Err(EvalStop::Fault(fault)) => Ok(Some(Child::Fault(fault))),
            Err(EvalStop::NoMemory) => Err(AllocError),
        }
    }

    // The child that a satisfier gives by the branch of a number of a method, if there is one.
    fn by_branch(
        &self,
        method: &Method,
        branch: usize,
        slots: &Slots,
        cells: &mut Cells,
    ) -> Result<Option<Child>, AllocError>
        requires candidate { CandidateFits (length cells.old) self.now }
        requires slots { AreBelow (length cells.old) slots.now }
        ensures makes { IfOk result (λ child. Makes cells.new child
            (branch_done (own_node cells.old self.now) (place_at self.now)
            (slice_get (method_of method.now).branches branch) (bindings_of cells.old slots.now))) }
        ensures cells { Grows cells.old cells.new }
    {
        match method.branches.get(branch) {
            Some(branch) => self.refined(&branch.tasks, slots, cells),
            None => Ok(None),
        }
    }

    // The child that a satisfier gives, for the rule and the branch of these numbers.
    fn satisfied(
        &self,
        rule: usize,
        branch: usize,
        slots: &Slots,
        cells: &mut Cells,
    ) -> Result<Option<Child>, AllocError>
        requires candidate { CandidateFits (length cells.old) self.now }
        requires slots { AreBelow (length cells.old) slots.now }
        ensures makes { IfOk result (λ child. Makes cells.new child
            (done_at cells.old self.now rule branch (bindings_of cells.old slots.now))) }
        ensures cells { Grows cells.old cells.new }
    {
        match self.context.book.domain.rules.get(rule) {
            Some(Rule::Operator(operator)) => self.operated(operator, slots, cells),
            Some(Rule::Method(method)) => self.by_branch(method, branch, slots, cells),
            Some(Rule::Axiom(_)) => Ok(None),
            None => Ok(None),
        }
    }

    /// The child that an event gives, for the rule and the branch of these numbers, if it gives one.
    pub(crate) fn child(
        &self,
        rule: usize,
        branch: usize,
        found: &Answer,
        cells: &mut Cells,
    ) -> Result<Option<Child>, AllocError>
        requires candidate { CandidateFits (length cells.old) self.now }
        requires found { BindsBelow (length cells.old) found.now }
        ensures makes { IfOk result (λ child. Makes cells.new child
            (child_of (done_at cells.old self.now rule branch) (answer_event cells.old found.now))) }
        ensures cells { Grows cells.old cells.new }
    {
        match found {
            Answer::Sat(slots) => self.satisfied(rule, branch, slots, cells),
            Answer::Cut => Ok(Some(Child::Cut)),
            Answer::Fault(fault) => Ok(Some(Child::Fault(*fault))),
        }
    }

    // The bindings under which a head matches the task.
    fn matched(
        &self,
        head: &AtomPat,
        vars: usize,
        cells: &Cells,
    ) -> Result<Option<Slots>, AllocError>
        requires candidate { CandidateFits (length cells.now) self.now }
        requires few { vars ≤ MOST_VARIABLES }
        ensures { IfOk result (λ slots. MeetsHead cells.now vars slots
            (match_atom (atom_of head.now) (own_task cells.now self.now) (unbound vars))) }
    {
        let mut slots = Slots::new(self.context.alloc, vars)?;
        if match_atom(head, self.task, cells, &mut slots) {
            Ok(Some(slots))
        } else {
            Ok(None)
        }
    }

    // The events of an operator's precondition, where its head matches the task.
    fn by_operator(&self, operator: &Operator, cells: &mut Cells) -> Result<Vec<Answer>, AllocError>
        requires candidate { CandidateFits (length cells.old) self.now }
        requires few { length operator.now.vars.items ≤ MOST_VARIABLES }
        ensures finds { IfOk result (λ v. FindsBelow cells.new v.items
            (option_map_or (precondition_events (axioms_of (rules_at self.now)) (nest_at self.now)
            (own_node cells.old self.now).state (precondition_of operator.now.pre))
            (match_atom (atom_of operator.now.head) (own_task cells.old self.now)
            (unbound (length operator.now.vars.items))) [])) }
        ensures cells { Grows cells.old cells.new }
    {
        match self.matched(&operator.head, operator.vars.len(), cells)? {
            Some(slots) => self
                .scene
                .precondition(&operator.pre, &slots, self.context.nest, cells),
            None => Ok(Vec::new(self.context.alloc)),
        }
    }

    // The first branch of a method whose precondition has events, with these.
    fn first_branch(
        &self,
        branches: &[Branch],
        slots: &Slots,
        cells: &mut Cells,
    ) -> Result<Choice, AllocError>
        requires candidate { CandidateFits (length cells.old) self.now }
        requires slots { AreBelow (length cells.old) slots.now }
        ensures chooses { IfOk result (λ c. let n = own_node cells.old self.now in
            ChoosesBranch cells.new n (place_at self.now) (map branch_of branches.now) c
            (branch_children n (place_at self.now)
            (chosen_branch (rules_at self.now) (nest_at self.now) n.state (map branch_of branches.now)
            (bindings_of cells.old slots.now)))) }
        ensures cells { Grows cells.old cells.new }
    {
        for (i, branch) in branches.iter().enumerate() {
            let found = self
                .scene
                .precondition(&branch.pre, slots, self.context.nest, cells)?;
            if !found.is_empty() {
                return Ok(Choice { branch: i, found });
            }
        }
        Ok(self.no_choice())
    }

    // No events.
    fn no_choice(&self) -> Choice
        ensures { result.found.items ≡ [] }
    {
        Choice {
            branch: 0,
            found: Vec::new(self.context.alloc),
        }
    }

    // The branch of a method that is chosen, where its head matches the task.
    fn by_method(&self, method: &Method, cells: &mut Cells) -> Result<Choice, AllocError>
        requires candidate { CandidateFits (length cells.old) self.now }
        requires few { length method.now.vars.items ≤ MOST_VARIABLES }
        ensures chooses { IfOk result (λ c. let n = own_node cells.old self.now in
            ChoosesBranch cells.new n (place_at self.now) (method_of method.now).branches c
            (method_children (rules_at self.now) (nest_at self.now) n (place_at self.now) (method_of method.now)
            (match_atom (atom_of method.now.head) (own_task cells.old self.now)
            (unbound (length method.now.vars.items))))) }
        ensures cells { Grows cells.old cells.new }
    {
        match self.matched(&method.head, method.vars.len(), cells)? {
            Some(slots) => self.first_branch(method.branches.as_slice(), &slots, cells),
            None => Ok(self.no_choice()),
        }
    }

    /// The events by the rule of a number.
    pub(crate) fn choice(&self, rule: usize, cells: &mut Cells) -> Result<Choice, AllocError>
        requires candidate { CandidateFits (length cells.old) self.now }
        ensures chooses { IfOk result (λ c. Chooses cells.new self.now rule c (children_at cells.old self.now rule)) }
        ensures cells { Grows cells.old cells.new }
    {
        match self.context.book.domain.rules.get(rule) {
            Some(Rule::Operator(operator)) => {
                let found = self.by_operator(operator, cells)?;
                Ok(Choice { branch: 0, found })
            }
            Some(Rule::Method(method)) => self.by_method(method, cells),
            Some(Rule::Axiom(_)) => Ok(self.no_choice()),
            None => Ok(self.no_choice()),
        }
    }
}
