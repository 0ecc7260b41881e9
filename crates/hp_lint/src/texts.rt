//! All remarks on a domain, and all on a problem.

ghost use Rattle.std.specs.Prelude.{◌≡◌, IfOk, OnOk, false};
ghost use Rattle.std.specs.List.{flat_map};
ghost use Rattle.hp_syntax.specs.Notes.{domain_atoms};
ghost use Rattle.hp_syntax.specs.Views.{domain_of, problem_of};
ghost use Rattle.hp_lint.specs.Asking as asking;
ghost use Rattle.hp_lint.specs.Serving as serving;
ghost use Rattle.hp_lint.specs.Remarks as plain;
ghost use Rattle.hp_lint.specs.Fitting.{fits_any};
ghost use Rattle.hp_lint.specs.LintViews.{Knows, Told};

use crate::asking::{all_asked, given_by_pairs, given_by_rules, tell_atoms};
use crate::branches::tell_hidden;
use crate::report::Report;
use crate::serving::{domain_tasks, problem_tasks, task_heads, tell_operators, tell_tasks};
use crate::table::Table;
use crate::variables::{tell_once, tell_unbound};
use hp_syntax::{Domain, Problem};
use std::alloc::{AllocError, Global};

/// What a domain and a problem give.
fn given(alloc: Global, domain: &Domain, problem: &Problem) -> Result<Table, AllocError>
    ensures { IfOk result (Knows (asking.given (domain_of domain.now) (problem_of problem.now))) }
{
    let by_rules = given_by_rules(alloc, domain.rules.as_slice())?;
    let by_pairs = given_by_pairs(alloc, problem.pairs.as_slice())?;
    Table::of_both(alloc, by_rules.as_slice(), by_pairs.as_slice())
}

/// The heads of the rules that do tasks.
fn heads(alloc: Global, domain: &Domain) -> Result<Table, AllocError>
    ensures { IfOk result (Knows (flat_map serving.task_head (domain_of domain.now).rules)) }
{
    let heads = task_heads(alloc, domain.rules.as_slice())?;
    Table::of(alloc, heads.as_slice())
}

/// All tasks of a domain and a problem.
fn all_tasks(alloc: Global, domain: &Domain, problem: &Problem) -> Result<Table, AllocError>
    ensures { IfOk result (Knows (serving.all_tasks (domain_of domain.now) (problem_of problem.now))) }
{
    let of_domain = domain_tasks(alloc, domain.rules.as_slice())?;
    let of_problem = problem_tasks(alloc, problem.pairs.as_slice())?;
    Table::of_both(alloc, of_domain.as_slice(), of_problem.as_slice())
}

fn tell_asked(report: &mut Report, domain: &Domain, problem: &Problem) -> Result<(), AllocError>
    ensures { OnOk result (Told (flat_map (asking.on_asked
        (fits_any (asking.given (domain_of domain.now) (problem_of problem.now)))
        (asking.has_name (asking.given (domain_of domain.now) (problem_of problem.now))))
        (flat_map asking.asked_by (domain_of domain.now).rules)) report.old.list.items report.new.list.items) }
{
    let given = given(report.alloc, domain, problem)?;
    let asked = all_asked(report.alloc, domain.rules.as_slice())?;
    tell_atoms(report, &given, asked.as_slice())
}

fn tell_domain_tasks(report: &mut Report, domain: &Domain) -> Result<(), AllocError>
    ensures { OnOk result (Told (flat_map
        (serving.on_task false (fits_any (flat_map serving.task_head (domain_of domain.now).rules)))
        (domain_atoms (domain_of domain.now))) report.old.list.items report.new.list.items) }
{
    let heads = heads(report.alloc, domain)?;
    let tasks = domain_tasks(report.alloc, domain.rules.as_slice())?;
    tell_tasks(report, false, &heads, tasks.as_slice())
}

fn tell_unasked(report: &mut Report, domain: &Domain, problem: &Problem) -> Result<(), AllocError>
    ensures { OnOk result (Told (flat_map
        (serving.on_operator (fits_any (serving.all_tasks (domain_of domain.now) (problem_of problem.now))))
        (domain_of domain.now).rules) report.old.list.items report.new.list.items) }
{
    let tasks = all_tasks(report.alloc, domain, problem)?;
    tell_operators(report, &tasks, domain.rules.as_slice())
}

/// Tells all that is to be told of a domain.
pub fn tell_domain(
    report: &mut Report,
    domain: &Domain,
    problem: &Problem,
) -> Result<(), AllocError>
    ensures { OnOk result (Told (plain.domain_remarks (domain_of domain.now) (problem_of problem.now))
        report.old.list.items report.new.list.items) }
{
    let rules = domain.rules.as_slice();
    tell_asked(report, domain, problem)?;
    tell_domain_tasks(report, domain)?;
    tell_once(report, rules)?;
    tell_unbound(report, rules)?;
    tell_hidden(report, rules)?;
    tell_unasked(report, domain, problem)
}

/// Tells all that is to be told of a problem.
pub fn tell_problem(
    report: &mut Report,
    domain: &Domain,
    problem: &Problem,
) -> Result<(), AllocError>
    ensures { OnOk result (Told (plain.problem_remarks (domain_of domain.now) (problem_of problem.now))
        report.old.list.items report.new.list.items) }
{
    let heads = heads(report.alloc, domain)?;
    let tasks = problem_tasks(report.alloc, problem.pairs.as_slice())?;
    tell_tasks(report, true, &heads, tasks.as_slice())
}
