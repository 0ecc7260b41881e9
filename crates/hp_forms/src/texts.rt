//! The domain or the problem that a text is.

ghost use Rattle.std.specs.Prelude.{IfOk, IfErr};
ghost use Rattle.hp_syntax.specs.Grammar as grammar;
ghost use Rattle.hp_syntax.specs.TextForms.{IsRead};
ghost use Rattle.hp_syntax.specs.Views.{domain_of, problem_of};
ghost use Rattle.hp_forms.specs.Files.{RefusesFile};

use crate::{files, stepwise};
use hp_syntax::{Domain, Problem};
use hp_terms::FormRefusal;
use hp_text::{TextRefusal, read};
use std::alloc::Global;

/// Why a text is no domain, or no problem.
#[derive(Clone, Copy, Debug, PartialEq, Eq)]
pub enum FileRefusal {
    /// The text is refused.
    Text(TextRefusal),
    /// The forest that the text spells is refused.
    Form(FormRefusal),
}

// The domain that a text is, by the forest of the whole.
fn whole_domain(alloc: Global, bytes: &[u8]) -> Result<Domain, FileRefusal>
    ensures domain { IfOk result (λ d. IsRead grammar.domain_form bytes.now (domain_of d)) }
    ensures refused { IfErr result (RefusesFile grammar.domain_form bytes.now) }
{
    match read(alloc, bytes) {
        Ok(forest) => match files::domain(alloc, forest) {
            Ok(domain) => Ok(domain),
            Err(refusal) => Err(FileRefusal::Form(refusal)),
        },
        Err(refusal) => Err(FileRefusal::Text(refusal)),
    }
}

// The problem that a text is, by the forest of the whole.
fn whole_problem(alloc: Global, bytes: &[u8]) -> Result<Problem, FileRefusal>
    ensures problem { IfOk result (λ p. IsRead grammar.problem_form bytes.now (problem_of p)) }
    ensures refused { IfErr result (RefusesFile grammar.problem_form bytes.now) }
{
    match read(alloc, bytes) {
        Ok(forest) => match files::problem(alloc, forest) {
            Ok(problem) => Ok(problem),
            Err(refusal) => Err(FileRefusal::Form(refusal)),
        },
        Err(refusal) => Err(FileRefusal::Text(refusal)),
    }
}

/// The domain that a text is.
pub fn domain(alloc: Global, bytes: &[u8]) -> Result<Domain, FileRefusal>
    ensures domain { IfOk result (λ d. IsRead grammar.domain_form bytes.now (domain_of d)) }
    ensures refused { IfErr result (RefusesFile grammar.domain_form bytes.now) }
{
    match stepwise::domain(alloc, bytes) {
        Ok(Some(domain)) => Ok(domain),
        Ok(None) => whole_domain(alloc, bytes),
        Err(_) => Err(FileRefusal::Text(TextRefusal::NoMemory)),
    }
}

/// The problem that a text is.
pub fn problem(alloc: Global, bytes: &[u8]) -> Result<Problem, FileRefusal>
    ensures problem { IfOk result (λ p. IsRead grammar.problem_form bytes.now (problem_of p)) }
    ensures refused { IfErr result (RefusesFile grammar.problem_form bytes.now) }
{
    match stepwise::problem(alloc, bytes) {
        Ok(Some(problem)) => Ok(problem),
        Ok(None) => whole_problem(alloc, bytes),
        Err(_) => Err(FileRefusal::Text(TextRefusal::NoMemory)),
    }
}
