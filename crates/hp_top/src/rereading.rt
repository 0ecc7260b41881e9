//! Canonical text reads back: texts that are read, written and read again.

ghost use Rattle.std.specs.Prelude.{◌≡◌, IfOk, IsErrOf};
ghost use Rattle.hp_syntax.specs.Grammar.{domain_form, problem_form};
ghost use Rattle.hp_syntax.specs.Syntax as plain;
ghost use Rattle.hp_syntax.specs.TextForms.{IsRead};
ghost use Rattle.hp_syntax.specs.Unplaced as unplaced;
ghost use Rattle.hp_syntax.specs.Views.{domain_of, problem_of};
ghost use Rattle.hp_syntax.specs.Written as written;
ghost use Rattle.hp_top.specs.Outcome.{Why, IsUnreadable};
ghost use Rattle.hp_top.specs.Rereading.{IsPastLimits, cause_unless_memory};
ghost use Rattle.hp_top.specs.declared.rereading.RereadError.TheVariants.{NoMemory};

use crate::loading::{LoadError, domain_in, problem_in};
use hp_print::laws::written_texts_read_back;
use hp_print::{domain_text, problem_text};
use hp_syntax::laws::{no_text_is_both, texts_have_one_refusal, texts_spell_one_forest};
use hp_syntax::{Domain, Problem};
use std::alloc::{AllocError, Global};

/// Why a text isn't read twice.
#[derive(Clone, Copy, Debug, PartialEq, Eq)]
pub enum RereadError {
    NoMemory,
    /// The text is read as nothing.
    Unreadable,
    /// The canonical text goes past the limits of a text.
    TooLong,
}

impl From<AllocError> for RereadError {
    ghost from_gives = { λ _ e. e ≡ NoMemory };

    fn from(_error: AllocError) -> RereadError {
        RereadError::NoMemory
    }
}

/// A domain as its text is read, and as its canonical text is.
pub struct RereadDomain {
    pub first: Domain,
    pub second: Domain,
}

impl Drop for RereadDomain {
    fn drop(self) {
        let RereadDomain { first, second } = self;
        drop(first);
        drop(second);
    }
}

/// A problem as its text is read, and as its canonical text is.
pub struct RereadProblem {
    pub first: Problem,
    pub second: Problem,
}

impl Drop for RereadProblem {
    fn drop(self) {
        let RereadProblem { first, second } = self;
        drop(first);
        drop(second);
    }
}

/// The error for a text that is read as nothing, unless memory is wanting.
fn unless_memory(cause: LoadError, error: RereadError) -> RereadError
    ensures { result ≡ cause_unless_memory cause error }
{
    match cause {
        LoadError::NoMemory => RereadError::NoMemory,
        LoadError::Refused(_) => error,
    }
}

/// The domain that a text is read as, and the one that its canonical text is read as. They are equal up to the places
/// where things stand.
pub fn reread_domain(alloc: Global, text: &[u8]) -> Result<RereadDomain, RereadError>
    ensures first { IfOk result (λ r. IsRead domain_form text.now (domain_of r.first)) }
    ensures second { IfOk result (λ r. IsRead domain_form (written.domain_text (domain_of r.first))
        (domain_of r.second)) }
    ensures same { IfOk result (λ r. unplaced.domain (domain_of r.second) ≡ unplaced.domain (domain_of r.first)) }
    ensures unreadable { IsErrOf result RereadError.Unreadable
        → (why : Why) × IsUnreadable domain_form text.now why }
    ensures too_long { IsErrOf result RereadError.TooLong → (d : plain.Domain)
        × (IsRead domain_form text.now d × IsPastLimits (written.domain_text d) (written.domain d)) }
{
    // Nothing runs here: the laws make known that a text is read as one domain, and that canonical text reads back.
    texts_spell_one_forest();
    texts_have_one_refusal();
    no_text_is_both();
    written_texts_read_back();
    let first = match domain_in(alloc, Vec::from_slice(alloc, text)?) {
        Ok(first) => first,
        Err(cause) => return Err(unless_memory(cause, RereadError::Unreadable)),
    };
    let canonical = domain_text(alloc, &first)?;
    match domain_in(alloc, canonical) {
        Ok(second) => Ok(RereadDomain { first, second }),
        Err(cause) => Err(unless_memory(cause, RereadError::TooLong)),
    }
}

/// The problem that a text is read as, and the one that its canonical text is read as. They are equal up to the places
/// where things stand.
pub fn reread_problem(alloc: Global, text: &[u8]) -> Result<RereadProblem, RereadError>
    ensures first { IfOk result (λ r. IsRead problem_form text.now (problem_of r.first)) }
    ensures second { IfOk result (λ r. IsRead problem_form (written.problem_text (problem_of r.first))
        (problem_of r.second)) }
    ensures same { IfOk result (λ r. unplaced.problem (problem_of r.second) ≡ unplaced.problem (problem_of r.first)) }
    ensures unreadable { IsErrOf result RereadError.Unreadable
        → (why : Why) × IsUnreadable problem_form text.now why }
    ensures too_long { IsErrOf result RereadError.TooLong → (p : plain.Problem)
        × (IsRead problem_form text.now p × IsPastLimits (written.problem_text p) (written.problem p)) }
{
    // Nothing runs here: the laws make known that a text is read as one problem, and that canonical text reads back.
    texts_spell_one_forest();
    texts_have_one_refusal();
    no_text_is_both();
    written_texts_read_back();
    let first = match problem_in(alloc, Vec::from_slice(alloc, text)?) {
        Ok(first) => first,
        Err(cause) => return Err(unless_memory(cause, RereadError::Unreadable)),
    };
    let canonical = problem_text(alloc, &first)?;
    match problem_in(alloc, canonical) {
        Ok(second) => Ok(RereadProblem { first, second }),
        Err(cause) => Err(unless_memory(cause, RereadError::TooLong)),
    }
}
