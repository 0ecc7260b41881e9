//! Tasks, and the rules that may do them.

ghost use Rattle.std.specs.Prelude.{◌≡◌, IfOk, OnOk, map};
ghost use Rattle.std.specs.List.{flat_map};
ghost use Rattle.hp_syntax.specs.Notes as notes;
ghost use Rattle.hp_syntax.specs.Views.{atom_of, tasks_of, task_list_of, branch_of, rule_of, pair_of};
ghost use Rattle.hp_lint.specs.Serving.{task_head, on_task, on_operator};
ghost use Rattle.hp_lint.specs.LintViews.{accepts_atom, lent_atoms, Lists, Told};

use crate::report::{Concern, Report};
use crate::table::Table;
use hp_syntax::{AtomPat, Branch, NetPat, Pair, Rule};
use std::alloc::{AllocError, Global};

/// Each task of tasks.
#[cycle(tasks)]
#[tactic(auto, unfolding(hp_syntax::specs::Views::tasks_of, hp_syntax::specs::Notes::task_atoms))]
#[inline(always)]
pub fn tasks<'a>(list: &mut Vec<&'a AtomPat>, part: &'a NetPat) -> Result<(), AllocError>
    ensures { OnOk result (Lists (notes.task_atoms (tasks_of part.now)) list.old.items list.new.items) }
{
    match part {
        NetPat::Task(task) => {
            list.push(&task.atom)?;
            Ok(())
        }
        NetPat::Ordered(parts) | NetPat::Unordered(parts) => task_list(list, parts.as_slice()),
    }
}

#[cycle(tasks)]
#[tactic(auto, unfolding(hp_syntax::specs::Views::tasks_of, hp_syntax::specs::Notes::task_atoms))]
#[inline(never)]
fn task_list<'a>(list: &mut Vec<&'a AtomPat>, parts: &'a [NetPat]) -> Result<(), AllocError>
    ensures { OnOk result (Lists (notes.task_list_atoms (task_list_of parts.now)) list.old.items list.new.items) }
{
    for part in parts {
        tasks(list, part)?;
    }
    Ok(())
}

fn branches_tasks<'a>(list: &mut Vec<&'a AtomPat>, branches: &'a [Branch]) -> Result<(), AllocError>
    ensures { OnOk result (Lists (flat_map notes.branch_atoms (map branch_of branches.now))
        list.old.items list.new.items) }
{
    for branch in branches {
        tasks(list, &branch.tasks)?;
    }
    Ok(())
}

fn rule_tasks<'a>(list: &mut Vec<&'a AtomPat>, rule: &'a Rule) -> Result<(), AllocError>
    ensures { OnOk result (Lists (notes.rule_atoms (rule_of rule.now)) list.old.items list.new.items) }
{
    match rule {
        Rule::Method(method) => branches_tasks(list, method.branches.as_slice()),
        Rule::Operator(_) | Rule::Axiom(_) => Ok(()),
    }
}

/// The tasks of a domain's methods.
pub fn domain_tasks(alloc: Global, rules: &[Rule]) -> Result<Vec<&AtomPat>, AllocError>
    ensures { IfOk result (λ list. lent_atoms list.items ≡ flat_map notes.rule_atoms (map rule_of rules.now)) }
{
    let mut list = Vec::new(alloc);
    for rule in rules {
        rule_tasks(&mut list, rule)?;
    }
    Ok(list)
}

/// The tasks of a problem's pairs.
pub fn problem_tasks(alloc: Global, pairs: &[Pair]) -> Result<Vec<&AtomPat>, AllocError>
    ensures { IfOk result (λ list. lent_atoms list.items ≡ flat_map notes.pair_atoms (map pair_of pairs.now)) }
{
    let mut list = Vec::new(alloc);
    for pair in pairs {
        tasks(&mut list, &pair.tasks)?;
    }
    Ok(list)
}

fn rule_head<'a>(list: &mut Vec<&'a AtomPat>, rule: &'a Rule) -> Result<(), AllocError>
    ensures { OnOk result (Lists (task_head (rule_of rule.now)) list.old.items list.new.items) }
{
    match rule {
        Rule::Operator(operator) => list.push(&operator.head)?,
        Rule::Method(method) => list.push(&method.head)?,
        Rule::Axiom(_) => {}
    }
    Ok(())
}

/// The heads of the rules that do tasks.
pub fn task_heads(alloc: Global, rules: &[Rule]) -> Result<Vec<&AtomPat>, AllocError>
    ensures { IfOk result (λ list. lent_atoms list.items ≡ flat_map task_head (map rule_of rules.now)) }
{
    let mut list = Vec::new(alloc);
    for rule in rules {
        rule_head(&mut list, rule)?;
    }
    Ok(list)
}

fn tell_task(
    report: &mut Report,
    in_problem: bool,
    heads: &Table,
    task: &AtomPat,
) -> Result<(), AllocError>
    ensures { OnOk result (Told (on_task in_problem (accepts_atom heads.now) (atom_of task.now))
        report.old.list.items report.new.list.items) }
{
    if !heads.fits(task) {
        report.tell(Concern::NoRule, in_problem, task.span, Some(&task.name))?;
    }
    Ok(())
}

/// Tells of each task that fits none of the heads that a table knows.
pub fn tell_tasks(
    report: &mut Report,
    in_problem: bool,
    heads: &Table,
    tasks: &[&AtomPat],
) -> Result<(), AllocError>
    ensures { OnOk result (Told (flat_map (on_task in_problem (accepts_atom heads.now)) (lent_atoms tasks.now))
        report.old.list.items report.new.list.items) }
{
    for task in tasks {
        tell_task(report, in_problem, heads, task)?;
    }
    Ok(())
}

fn tell_operator(report: &mut Report, tasks: &Table, rule: &Rule) -> Result<(), AllocError>
    ensures { OnOk result (Told (on_operator (accepts_atom tasks.now) (rule_of rule.now))
        report.old.list.items report.new.list.items) }
{
    if let Rule::Operator(operator) = rule {
        let head = &operator.head;
        if !tasks.fits(head) {
            report.tell(Concern::NeverAsked, false, head.span, Some(&head.name))?;
        }
    }
    Ok(())
}

/// Tells of each operator whose head fits none of the tasks that a table knows.
pub fn tell_operators(report: &mut Report, tasks: &Table, rules: &[Rule]) -> Result<(), AllocError>
    ensures { OnOk result (Told (flat_map (on_operator (accepts_atom tasks.now)) (map rule_of rules.now))
        report.old.list.items report.new.list.items) }
{
    for rule in rules {
        tell_operator(report, tasks, rule)?;
    }
    Ok(())
}
