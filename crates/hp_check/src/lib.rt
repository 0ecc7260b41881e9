//! The checks of a domain and a problem that have their forms, before any plan is looked for.
#![tactic(auto, using(crate::proofs::FaultLemmas::joined))]

ghost use Rattle.std.specs.Prelude.{◌≡◌, ◌++◌, None, Some, IfOk, IfErr, IsOk, map};
ghost use Rattle.hp_syntax.specs.Checks.{domain_faults, problem_faults, first_of};
ghost use Rattle.hp_syntax.specs.Notes as plain;
ghost use Rattle.hp_syntax.specs.Views.{domain_of, problem_of};
ghost use Rattle.hp_check.specs.NoteViews.{note_of};
ghost use Rattle.hp_check.specs.Refusals.{Stops};

mod calls;
mod expressions;
pub mod laws;
mod patterns;
mod rules;
mod survey;
mod tasks;
mod watch;

use crate::rules::{domain_part, problem_part};
use crate::survey::unserved;
use crate::watch::Watch;
use hp_syntax::{Domain, Name, Problem, Span};
pub use hp_syntax::{CheckFault, CheckKind};
use std::alloc::{AllocError, Global};

/// A task of which no rule of the domain has the name.
pub struct Note {
    pub name: Name,
    pub span: Span,
    pub in_problem: bool,
}

impl Drop for Note {
    fn drop(self) {
        let Note {
            name,
            span: _,
            in_problem: _,
        } = self;
        drop(name);
    }
}

/// The notes on an accepted domain and problem.
pub struct Notes {
    pub list: Vec<Note>,
}

impl Drop for Notes {
    fn drop(self) {
        let Notes { list } = self;
        drop(list);
    }
}

/// Why a domain and a problem aren't accepted.
#[derive(Clone, Copy, Debug, PartialEq, Eq)]
pub enum CheckRefusal {
    /// The first fault in the order of the texts, the domain's before the problem's.
    Fault(CheckFault),
    /// Memory ran out.
    NoMemory,
}

/// The first fault that a check finds in a domain. It takes no memory.
pub fn check_domain(domain: &Domain) -> Option<CheckFault>
    ensures { result ≡ first_of (domain_faults (domain_of domain.now)) }
{
    let mut watch = Watch::new();
    domain_part(&mut watch, domain);
    watch.first
}

/// The first fault that the checks of a domain and a problem of it find. It takes no memory.
pub fn first_fault(domain: &Domain, problem: &Problem) -> Option<CheckFault>
    ensures { result ≡ first_of (domain_faults (domain_of domain.now)
        ++ problem_faults (domain_of domain.now) (problem_of problem.now)) }
{
    let mut watch = Watch::new();
    domain_part(&mut watch, domain);
    problem_part(&mut watch, domain, problem);
    watch.first
}

/// The tasks of a domain and a problem of it that no rule serves.
pub fn unserved_tasks(
    alloc: Global,
    domain: &Domain,
    problem: &Problem,
) -> Result<Notes, AllocError>
    ensures { IfOk result (λ notes. map note_of notes.list.items
        ≡ plain.notes (domain_of domain.now) (problem_of problem.now)) }
{
    let list = unserved(alloc, domain, problem)?;
    Ok(Notes { list })
}

/// Checks a domain and a problem of it, and notes the tasks that no rule serves.
pub fn check(alloc: Global, domain: &Domain, problem: &Problem) -> Result<Notes, CheckRefusal>
    ensures accepted { IsOk result → first_of (domain_faults (domain_of domain.now)
        ++ problem_faults (domain_of domain.now) (problem_of problem.now)) ≡ None }
    ensures notes { IfOk result (λ notes. map note_of notes.list.items
        ≡ plain.notes (domain_of domain.now) (problem_of problem.now)) }
    ensures refused { IfErr result (Stops (first_of (domain_faults (domain_of domain.now)
        ++ problem_faults (domain_of domain.now) (problem_of problem.now)))) }
{
    if let Some(fault) = first_fault(domain, problem) {
        return Err(CheckRefusal::Fault(fault));
    }
    match unserved_tasks(alloc, domain, problem) {
        Ok(notes) => Ok(notes),
        Err(_) => Err(CheckRefusal::NoMemory),
    }
}
