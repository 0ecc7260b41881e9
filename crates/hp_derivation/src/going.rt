//! The network on the way to a plan, gone through once more with numbers in place of its tasks.

ghost use Rattle.std.specs.Prelude.{◌≡◌, ◌<◌, List, IfOk, IfSome, OnOk, Some, length, option_map, slice_get};
ghost use Rattle.hp_syntax.specs.Networks.{Place, candidates, part_at};
ghost use Rattle.hp_syntax.specs.Terms.{Term};
ghost use Rattle.hp_syntax.specs.Views.{branch_of, domain_of, rule_of, tasks_of};
ghost use Rattle.hp_links.specs.Linked.{focused, place_of, NamesTask};
ghost use Rattle.hp_way.specs.Ways.{deed_of};
ghost use Rattle.hp_derivation.specs.Derived as plain;
ghost use Rattle.hp_derivation.specs.Derived.{Stage, by_branch, by_rule, come_from, expanded, fared, finished, first_stage, taken_at};
ghost use Rattle.hp_derivation.specs.Numbering.{number_in};
ghost use Rattle.hp_derivation.specs.Goings.{Fares, Finds, IsAt, IsFaring, Stands, Takes, fate_of, parts_of};

use crate::derivation::Derivation;
use crate::numbering::{number_at, numbered};
use crate::roll::{Roll, Stood};
use hp_cells::Cells;
use hp_net::{Net, TaskId};
use hp_syntax::{Branch, Domain, NetPat, Rule};
use hp_way::Deed;
use std::alloc::{AllocError, Global};

/// What becomes of a task.
#[derive(Clone, Copy)]
pub(crate) enum Fate<'a> {
    /// An operator does it.
    Done,
    /// A branch of a method puts these in its place.
    Into(&'a NetPat),
}

/// A task that a deed takes.
#[derive(Clone, Copy)]
pub(crate) struct Taken<'a> {
    pub(crate) id: TaskId,
    pub(crate) number: usize,
    /// What it was so far.
    pub(crate) task: Stood,
    pub(crate) fate: Fate<'a>,
}

/// What becomes of a task by a branch, where it is there.
fn by_branch(branch: Option<&Branch>) -> Option<Fate<'_>>
    ensures { option_map fate_of result ≡ by_branch (option_map (λ b. branch_of b.now) branch.entry) }
{
    match branch {
        Some(branch) => Some(Fate::Into(&branch.tasks)),
        None => None,
    }
}

/// What becomes of a task by a rule, and of its branches the one of a number.
fn by_rule(rule: &Rule, branch: usize) -> Option<Fate<'_>>
    ensures { option_map fate_of result ≡ by_rule branch (Some (rule_of rule.now)) }
{
    match rule {
        Rule::Operator(_) => Some(Fate::Done),
        Rule::Method(method) => by_branch(method.branches.get(branch)),
        Rule::Axiom(_) => None,
    }
}

/// What becomes of a task by a deed.
fn by_deed<'a>(domain: &'a Domain, deed: &Deed) -> Option<Fate<'a>>
    ensures { option_map fate_of result
        ≡ by_rule (deed_of deed.now).branch (slice_get (domain_of domain.now).rules (deed_of deed.now).rule) }
{
    match domain.rules.get(deed.rule) {
        Some(rule) => by_rule(rule, deed.branch),
        None => None,
    }
}

/// A task that is taken, with what becomes of it, where that is known.
fn faring<'a>(fate: Option<Fate<'a>>, id: TaskId, number: usize, task: Stood) -> Option<Taken<'a>>
    ensures { IsFaring result id number task (option_map fate_of fate.entry) }
{
    match fate {
        Some(fate) => Some(Taken {
            id,
            number,
            task,
            fate,
        }),
        None => None,
    }
}

/// A task that isn't done yet.
fn come_from(parent: Option<usize>, level: usize) -> Stood
    ensures { result ≡ come_from parent level }
{
    Stood {
        parent,
        level,
        deed: None,
    }
}

/// The network that is left, with the numbers of its tasks, and the roll of all tasks so far.
pub(crate) struct Going {
    cells: Cells,
    net: Net,
    next: u32,
    roll: Roll,
}

impl Drop for Going {
    fn drop(self) {
        let Going {
            cells,
            net,
            next: _,
            roll,
        } = self;
        drop(cells);
        drop(net);
        drop(roll);
    }
}

impl Going {
    /// Before the first deed.
    pub(crate) fn new(alloc: Global, tasks: &NetPat) -> Result<Going, AllocError>
        ensures { IfOk result (λ g. Stands g (first_stage (tasks_of tasks.now))) }
    {
        let mut cells = Cells::new(alloc)?;
        let mut next = 0;
        let tree = numbered(alloc, tasks, &mut next, &mut cells)?;
        let net = Net::new(alloc, &tree)?;
        let mut roll = Roll::new(alloc);
        roll.put_all(come_from(None, 0), next as usize)?;
        Ok(Going {
            cells,
            net,
            next,
            roll,
        })
    }

    /// The task at the candidate of a place, if there is one.
    fn candidate(&self, alloc: Global, place: usize) -> Result<Option<TaskId>, AllocError>
        ensures { IfOk result (λ o. (terms : List Term) → IsAt self.now.net.now o (slice_get (candidates
            (focused terms self.now.net.now).0 (focused terms self.now.net.now).1) place)) }
    {
        let found = self.net.candidates(alloc)?;
        if place < found.len() {
            Ok(Some(found[place]))
        } else {
            Ok(None)
        }
    }

    /// What a deed takes, by the number of the task.
    fn numbered<'a>(
        &self,
        domain: &'a Domain,
        deed: &Deed,
        id: TaskId,
        number: usize,
    ) -> Option<Taken<'a>>
        ensures finds { (s : Stage) (p : Place) → Stands self.now s → place_of self.now.net.now id ≡ Some p
            → number_in (part_at s.network p) ≡ Some number
            → Finds self.now result (taken_at (domain_of domain.now).rules (deed_of deed.now) s p) }
        ensures within { IfSome result (λ t. (t.id ≡ id) × (t.number < length self.now.roll.tasks.items)) }
    {
        match self.roll.get(number) {
            Some(task) => faring(by_deed(domain, deed), id, number, task),
            None => None,
        }
    }

    /// What a deed takes at a candidate.
    fn taken<'a>(&self, domain: &'a Domain, deed: &Deed, id: TaskId) -> Option<Taken<'a>>
        requires names { NamesTask self.now.net.now id }
        ensures finds { (s : Stage) (p : Place) → Stands self.now s → place_of self.now.net.now id ≡ Some p
            → Finds self.now result (taken_at (domain_of domain.now).rules (deed_of deed.now) s p) }
        ensures within { IfSome result (λ t. (t.id ≡ id) × (t.number < length self.now.roll.tasks.items)) }
    {
        match number_at(&self.cells, self.net.task(id)) {
            Some(number) => self.numbered(domain, deed, id, number),
            None => None,
        }
    }

    /// A task is done by an operator.
    fn finish(&mut self, number: usize, taken: &Taken) -> Result<(), AllocError>
        requires names { NamesTask self.old.net.now taken.now.id }
        requires within { taken.now.number < length self.old.roll.tasks.items }
        ensures { OnOk result ((s : Stage) (t : plain.Taken) → Stands self.old s → Takes self.old taken.now t
            → Stands self.new (finished number t s)) }
    {
        self.net.finish(taken.id)?;
        self.roll.note(taken.number, taken.task, number);
        Ok(())
    }

    /// Tasks stand in the place of a task.
    fn expand(
        &mut self,
        alloc: Global,
        number: usize,
        taken: &Taken,
        tasks: &NetPat,
    ) -> Result<(), AllocError>
        requires names { NamesTask self.old.net.now taken.now.id }
        requires within { taken.now.number < length self.old.roll.tasks.items }
        ensures { OnOk result ((s : Stage) (t : plain.Taken) → Stands self.old s → Takes self.old taken.now t
            → Stands self.new (expanded number t (tasks_of tasks.now) s)) }
    {
        let Some(level) = taken.task.level.checked_add(1) else {
            return Err(AllocError);
        };
        let before = self.next;
        let tree = numbered(alloc, tasks, &mut self.next, &mut self.cells)?;
        self.net.expand(taken.id, &tree)?;
        self.roll.note(taken.number, taken.task, number);
        let subtask = come_from(Some(taken.number), level);
        self.roll.put_all(subtask, (self.next - before) as usize)?;
        Ok(())
    }

    /// A task fares as a deed has it.
    fn fare(&mut self, alloc: Global, number: usize, taken: &Taken) -> Result<(), AllocError>
        requires names { NamesTask self.old.net.now taken.now.id }
        requires within { taken.now.number < length self.old.roll.tasks.items }
        ensures { OnOk result ((s : Stage) (t : plain.Taken) → Stands self.old s → Takes self.old taken.now t
            → Stands self.new (fared number t t.fate s)) }
    {
        match taken.fate {
            Fate::Done => self.finish(number, taken),
            Fate::Into(tasks) => self.expand(alloc, number, taken, tasks),
        }
    }

    /// Follows a deed at a candidate, if there is what it takes.
    fn follow_at(
        &mut self,
        alloc: Global,
        domain: &Domain,
        number: usize,
        deed: &Deed,
        id: TaskId,
    ) -> Result<bool, AllocError>
        requires names { NamesTask self.old.net.now id }
        ensures { IfOk result (λ b. (s : Stage) (p : Place) → Stands self.old s
            → place_of self.old.net.now id ≡ Some p
            → Fares b self.new number s (taken_at (domain_of domain.now).rules (deed_of deed.now) s p)) }
    {
        match self.taken(domain, deed, id) {
            Some(taken) => {
                self.fare(alloc, number, &taken)?;
                Ok(true)
            }
            None => Ok(false),
        }
    }

    /// Follows a deed, by its number, if there is what it takes. After an error the network is lost.
    pub(crate) fn follow(
        &mut self,
        alloc: Global,
        domain: &Domain,
        number: usize,
        deed: &Deed,
    ) -> Result<bool, AllocError>
        ensures { IfOk result (λ b. (s : Stage) → Stands self.old s
            → Fares b self.new number s (plain.taken (domain_of domain.now).rules (deed_of deed.now) s)) }
    {
        match self.candidate(alloc, deed.candidate)? {
            Some(id) => self.follow_at(alloc, domain, number, deed, id),
            None => Ok(false),
        }
    }

    /// All tasks in the order in which they are read.
    pub(crate) fn order(&self, alloc: Global) -> Result<Vec<usize>, AllocError>
        ensures { IfOk result (λ order. (s : Stage) → Stands self.now s → order.items ≡ s.order) }
    {
        self.roll.chain.list(alloc)
    }

    /// What is told in the end.
    pub(crate) fn end(self, order: Vec<usize>) -> Derivation
        ensures { parts_of result ≡ (self.roll.tasks.items, order.items) }
    {
        let Going {
            cells,
            net,
            next: _,
            roll,
        } = self;
        drop(cells);
        drop(net);
        Derivation {
            tasks: roll.into_tasks(),
            order,
        }
    }
}
