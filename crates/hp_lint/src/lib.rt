//! What looks wrong in a domain and a problem, though both are accepted: each place of a few kinds, in the order of the
//! texts. None of them is guessed at; what each kind means and doesn't mean, `Concern` says.
#![tactic(auto)]

ghost use Rattle.std.specs.Prelude.{◌≡◌, [], IfOk, map};
ghost use Rattle.hp_syntax.specs.Views.{domain_of, problem_of};
ghost use Rattle.hp_lint.specs.LintViews.{remark_of};
ghost use Rattle.hp_lint.specs.Remarks as plain;

mod asking;
mod branches;
mod order;
mod report;
mod serving;
mod table;
mod texts;
mod uses;
mod variables;

use crate::order::sort;
use crate::report::Report;
pub use crate::report::{Concern, Remark};
pub use crate::serving::{domain_tasks, problem_tasks, task_heads};
pub use crate::table::Table;
use crate::texts::{tell_domain, tell_problem};
pub use crate::uses::{Use, Uses};
pub use crate::variables::{Counts, bound_by_head};
use hp_syntax::{Domain, Problem};
use std::alloc::{AllocError, Global};

fn domain_remarks(
    alloc: Global,
    domain: &Domain,
    problem: &Problem,
) -> Result<Vec<Remark>, AllocError>
    ensures { IfOk result (λ list. map remark_of list.items
        ≡ plain.in_order (plain.domain_remarks (domain_of domain.now) (problem_of problem.now))) }
{
    let mut report = Report::new(alloc);
    tell_domain(&mut report, domain, problem)?;
    sort(report)
}

fn problem_remarks(
    alloc: Global,
    domain: &Domain,
    problem: &Problem,
) -> Result<Vec<Remark>, AllocError>
    ensures { IfOk result (λ list. map remark_of list.items
        ≡ plain.in_order (plain.problem_remarks (domain_of domain.now) (problem_of problem.now))) }
{
    let mut report = Report::new(alloc);
    tell_problem(&mut report, domain, problem)?;
    sort(report)
}

/// What looks wrong in a domain, and then in a problem of it.
#[tactic(auto, unfolding(crate::specs::Remarks::remarks))]
pub fn lint(alloc: Global, domain: &Domain, problem: &Problem) -> Result<Vec<Remark>, AllocError>
    ensures { IfOk result (λ list. map remark_of list.items
        ≡ plain.remarks (domain_of domain.now) (problem_of problem.now)) }
{
    let mut list = domain_remarks(alloc, domain, problem)?;
    let mut more = problem_remarks(alloc, domain, problem)?;
    list.append(&mut more)?;
    Ok(list)
}
