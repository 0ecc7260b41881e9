//! The tasks that no rule serves.

ghost use Rattle.std.specs.Prelude.{◌≡◌, ◌++◌, ◌∷◌, [], true, false, IfOk, OnOk, map};
ghost use Rattle.std.specs.List.{flat_map};
ghost use Rattle.hp_syntax.specs.Notes.{served_by, task_atoms, task_list_atoms, branch_atoms, rule_atoms, pair_atoms, domain_atoms, problem_atoms, note_if_unserved};
ghost use Rattle.hp_syntax.specs.Notes as plain;
ghost use Rattle.hp_syntax.specs.Views.{atom_of, tasks_of, task_list_of, rule_of, branch_of, pair_of, domain_of, problem_of};
ghost use Rattle.hp_check.specs.NoteViews.{note_of, Noted, SameNames};

use crate::Note;
use hp_syntax::{AtomPat, Branch, Domain, Name, NetPat, Pair, Problem, Rule};
use indexmap::IndexSet;
use std::alloc::{AllocError, Global};

fn add_name(names: &mut IndexSet<Name>, alloc: Global, name: &Name) -> Result<(), AllocError>
    ensures { OnOk result (SameNames names.new.keys (names.old.keys ++ name.now ∷ [])) }
{
    names.insert_full(name.copy(alloc)?)?;
    Ok(())
}

/// Adds the name of the tasks that a rule serves, if it serves any.
fn add_served(names: &mut IndexSet<Name>, alloc: Global, rule: &Rule) -> Result<(), AllocError>
    ensures { OnOk result (SameNames names.new.keys (names.old.keys ++ served_by (rule_of rule.now))) }
{
    match rule {
        Rule::Operator(operator) => add_name(names, alloc, &operator.head.name),
        Rule::Method(method) => add_name(names, alloc, &method.head.name),
        Rule::Axiom(_) => Ok(()),
    }
}

/// The names of the tasks that rules serve.
fn served(alloc: Global, rules: &[Rule]) -> Result<IndexSet<Name>, AllocError>
    ensures { IfOk result (λ names. SameNames names.keys (flat_map served_by (map rule_of rules.now))) }
{
    let mut names = IndexSet::new(alloc);
    for rule in rules {
        add_served(&mut names, alloc, rule)?;
    }
    Ok(names)
}

/// The notes so far, of a domain or of a problem, by the names of the tasks that are served.
struct Survey {
    alloc: Global,
    served: IndexSet<Name>,
    list: Vec<Note>,
}

impl Drop for Survey {
    fn drop(self) {
        let Survey {
            alloc: _,
            served,
            list,
        } = self;
        drop(served);
        drop(list);
    }
}

impl Survey {
    /// Notes a task that no rule serves.
    #[inline(never)]
    fn task(&mut self, in_problem: bool, atom: &AtomPat) -> Result<(), AllocError>
        ensures noted { OnOk result (Noted self.old.served.keys in_problem (atom_of atom.now ∷ [])
            self.old.list.items self.new.list.items) }
        ensures served { self.new.served ≡ self.old.served }
    {
        if !self.served.contains(&atom.name) {
            self.list.push(Note {
                name: atom.name.copy(self.alloc)?,
                span: atom.span,
                in_problem,
            })?;
        }
        Ok(())
    }

    /// Each task of tasks.
    #[cycle(tasks)]
    #[tactic(auto, unfolding(hp_syntax::specs::Views::tasks_of, hp_syntax::specs::Notes::task_atoms))]
    #[inline(always)]
    fn tasks(&mut self, in_problem: bool, tasks: &NetPat) -> Result<(), AllocError>
        ensures noted { OnOk result (Noted self.old.served.keys in_problem (task_atoms (tasks_of tasks.now))
            self.old.list.items self.new.list.items) }
        ensures served { self.new.served ≡ self.old.served }
    {
        match tasks {
            NetPat::Task(task) => self.task(in_problem, &task.atom),
            NetPat::Ordered(parts) | NetPat::Unordered(parts) => self.task_list(
                in_problem,
                parts.as_slice(),
            ),
        }
    }

    #[cycle(tasks)]
    #[tactic(auto, unfolding(hp_syntax::specs::Views::tasks_of, hp_syntax::specs::Notes::task_atoms))]
    #[inline(never)]
    fn task_list(&mut self, in_problem: bool, parts: &[NetPat]) -> Result<(), AllocError>
        ensures noted { OnOk result (Noted self.old.served.keys in_problem (task_list_atoms (task_list_of parts.now))
            self.old.list.items self.new.list.items) }
        ensures served { self.new.served ≡ self.old.served }
    {
        for part in parts {
            self.tasks(in_problem, part)?;
        }
        Ok(())
    }

    /// Each task of a method's branches.
    fn branches(&mut self, branches: &[Branch]) -> Result<(), AllocError>
        ensures noted { OnOk result (Noted self.old.served.keys false
            (flat_map branch_atoms (map branch_of branches.now)) self.old.list.items self.new.list.items) }
        ensures served { self.new.served ≡ self.old.served }
    {
        for branch in branches {
            self.tasks(false, &branch.tasks)?;
        }
        Ok(())
    }

    /// Each task of a rule.
    fn rule(&mut self, rule: &Rule) -> Result<(), AllocError>
        ensures noted { OnOk result (Noted self.old.served.keys false (rule_atoms (rule_of rule.now))
            self.old.list.items self.new.list.items) }
        ensures served { self.new.served ≡ self.old.served }
    {
        match rule {
            Rule::Method(method) => self.branches(method.branches.as_slice()),
            Rule::Operator(_) | Rule::Axiom(_) => Ok(()),
        }
    }

    /// Each task of rules.
    fn rules(&mut self, rules: &[Rule]) -> Result<(), AllocError>
        ensures noted { OnOk result (Noted self.old.served.keys false (flat_map rule_atoms (map rule_of rules.now))
            self.old.list.items self.new.list.items) }
        ensures served { self.new.served ≡ self.old.served }
    {
        for rule in rules {
            self.rule(rule)?;
        }
        Ok(())
    }

    /// Each task of a problem's pairs.
    fn pairs(&mut self, pairs: &[Pair]) -> Result<(), AllocError>
        ensures noted { OnOk result (Noted self.old.served.keys true (flat_map pair_atoms (map pair_of pairs.now))
            self.old.list.items self.new.list.items) }
        ensures served { self.new.served ≡ self.old.served }
    {
        for pair in pairs {
            self.tasks(true, &pair.tasks)?;
        }
        Ok(())
    }

    /// Each task of a domain, and then of a problem.
    fn texts(&mut self, domain: &Domain, problem: &Problem) -> Result<(), AllocError>
        ensures { OnOk result (map note_of self.new.list.items ≡ map note_of self.old.list.items
            ++ (flat_map (note_if_unserved self.old.served.keys false) (domain_atoms (domain_of domain.now))
            ++ flat_map (note_if_unserved self.old.served.keys true) (problem_atoms (problem_of problem.now)))) }
    {
        self.rules(domain.rules.as_slice())?;
        self.pairs(problem.pairs.as_slice())
    }

    /// The notes, without the names.
    fn into_list(self) -> Vec<Note>
        ensures { result ≡ self.list }
    {
        let Survey {
            alloc: _,
            served: _,
            list,
        } = self;
        list
    }
}

/// The tasks of a domain and a problem that no rule of the domain serves, in the order of the texts.
#[tactic(auto, unfolding(hp_syntax::specs::Notes::notes))]
pub fn unserved(alloc: Global, domain: &Domain, problem: &Problem) -> Result<Vec<Note>, AllocError>
    ensures { IfOk result (λ list. map note_of list.items
        ≡ plain.notes (domain_of domain.now) (problem_of problem.now)) }
{
    let mut survey = Survey {
        alloc,
        served: served(alloc, domain.rules.as_slice())?,
        list: Vec::new(alloc),
    };
    survey.texts(domain, problem)?;
    Ok(survey.into_list())
}
