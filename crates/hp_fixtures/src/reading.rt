//! Domains and problems that are read and formed.

use hp_check::check_domain;
use hp_code::{Code, lower};
use hp_forms::{domain, problem};
use hp_syntax::{Domain, Problem};
use hp_text::read;
use std::alloc::Global;

/// The domain that a text is, if it is one.
pub fn domain_of(alloc: Global, text: &str) -> Option<Domain> {
    let forest = read(alloc, text.as_bytes()).ok()?;
    domain(alloc, &forest).ok()
}

/// Whether a text is a domain.
pub fn is_domain(alloc: Global, text: &str) -> bool {
    domain_of(alloc, text).is_some()
}

/// The problem that a text is, if it is one.
pub fn problem_of(alloc: Global, text: &str) -> Option<Problem> {
    let forest = read(alloc, text.as_bytes()).ok()?;
    problem(alloc, &forest).ok()
}

/// Whether a text is a problem.
pub fn is_problem(alloc: Global, text: &str) -> bool {
    problem_of(alloc, text).is_some()
}

/// The code of the domain that a text is, if it is one in which the checks find nothing.
pub fn code_of(alloc: Global, text: &str) -> Option<Code> {
    let Ok(forest) = read(alloc, text.as_bytes()) else {
        return None;
    };
    let Ok(domain) = domain(alloc, &forest) else {
        return None;
    };
    if check_domain(&domain).is_some() {
        return None;
    }
    lower(alloc, &domain).ok()
}
