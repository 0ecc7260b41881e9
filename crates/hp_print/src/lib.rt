//! Canonical text: one text for each domain, problem, term, atom and task list, with single spaces and a line for each
//! rule. What is read of it is the same, up to the places where things stand.
//!
//! The names of variables are those of the rule or the problem that the part belongs to, by number. A number beyond the
//! names has no text.
#![tactic(auto)]

ghost use Rattle.std.specs.Prelude.{◌≡◌, IfOk};
ghost use Rattle.hp_syntax.specs.GroundViews.{ground_of};
ghost use Rattle.hp_syntax.specs.TermTexts.{term_text};
ghost use Rattle.hp_syntax.specs.Views.{pattern_of, atom_of, tasks_of, domain_of, problem_of};
ghost use Rattle.hp_syntax.specs.Written as written;
ghost use Rattle.hp_syntax.specs.Written.{node_text};

mod effects;
mod expressions;
mod files;
mod grounds;
pub mod laws;
mod rules;
pub mod samples;
mod tasks;
mod terms;
pub mod words;

use hp_syntax::{AtomPat, Domain, Ground, Name, NetPat, Pat, Problem};
use std::alloc::{AllocError, Global};

/// The text of a domain: a line for each rule, between a first and a last one.
pub fn domain_text(alloc: Global, domain: &Domain) -> Result<Vec<u8>, AllocError>
    ensures { IfOk result (λ text. text.items ≡ written.domain_text (domain_of domain.now)) }
{
    let mut text = Vec::new(alloc);
    files::push_domain(&mut text, domain)?;
    Ok(text)
}

/// The text of a problem: a line for the atoms of each pair and one for its tasks, between a first and a last one.
pub fn problem_text(alloc: Global, problem: &Problem) -> Result<Vec<u8>, AllocError>
    ensures { IfOk result (λ text. text.items ≡ written.problem_text (problem_of problem.now)) }
{
    let mut text = Vec::new(alloc);
    files::push_problem(&mut text, problem)?;
    Ok(text)
}

/// The text of a term without variables.
pub fn ground_text(alloc: Global, term: &Ground) -> Result<Vec<u8>, AllocError>
    ensures { IfOk result (λ text. text.items ≡ term_text (ground_of term.now)) }
{
    let mut text = Vec::new(alloc);
    grounds::push_ground(&mut text, term)?;
    Ok(text)
}

/// The text of a term of a rule.
pub fn pat_text(alloc: Global, pat: &Pat, vars: &[Name]) -> Result<Vec<u8>, AllocError>
    ensures { IfOk result (λ text. text.items ≡ node_text (written.pattern vars.now (pattern_of pat.now))) }
{
    let mut text = Vec::new(alloc);
    terms::push_pattern(&mut text, vars, pat)?;
    Ok(text)
}

/// The text of an atom of a rule.
pub fn atom_pat_text(alloc: Global, atom: &AtomPat, vars: &[Name]) -> Result<Vec<u8>, AllocError>
    ensures { IfOk result (λ text. text.items ≡ node_text (written.atom vars.now (atom_of atom.now))) }
{
    let mut text = Vec::new(alloc);
    terms::push_atom(&mut text, vars, atom)?;
    Ok(text)
}

/// The text of a task or a list of tasks.
pub fn tasks_text(alloc: Global, tasks: &NetPat, vars: &[Name]) -> Result<Vec<u8>, AllocError>
    ensures { IfOk result (λ text. text.items ≡ node_text (written.tasks vars.now (tasks_of tasks.now))) }
{
    let mut text = Vec::new(alloc);
    tasks::push_tasks(&mut text, vars, tasks)?;
    Ok(text)
}
