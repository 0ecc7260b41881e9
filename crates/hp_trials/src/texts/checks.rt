//! Domains and problems that are checked.

use hp_check::{CheckFault, CheckRefusal, check, check_domain};
use hp_fixtures::page::Page;
use hp_fixtures::reading::{domain_of, problem_of};
use std::alloc::Global;

const PLAIN: &str = "(defdomain basic ((:operator (!go) () () () 1)))";

/// No call has this name.
const UNKNOWN: &str = "(defdomain basic ((:operator (!go) () () () (call sqrt))))";

/// The call has too few arguments.
const NARROW: &str = "(defdomain basic ((:operator (!go) () () () (call abs))))";

const SAME: &str = "(defproblem problem basic () ())";

/// A problem of another domain.
const OTHER: &str = "(defproblem problem basics () ())";

/// What the check finds in a domain.
fn fault_of(alloc: Global, domain: &str) -> Option<Option<CheckFault>> {
    let domain = domain_of(alloc, domain)?;
    Some(check_domain(&domain))
}

/// How many notes the check gives on a domain and a problem.
fn notes_of(alloc: Global, domain: &str, problem: &str) -> Option<Result<usize, CheckRefusal>> {
    let domain = domain_of(alloc, domain)?;
    let problem = problem_of(alloc, problem)?;
    Some(check(alloc, &domain, &problem).map(|notes| notes.list.len()))
}

/// Checks of a domain alone, and of a domain and a problem.
pub fn show_checks(page: &mut Page, alloc: Global) {
    page.title("A domain is checked");
    for domain in [PLAIN, UNKNOWN, NARROW] {
        page.line(domain, &fault_of(alloc, domain));
    }
    page.title("A problem is checked with the first or the second of them");
    for (domain, problem) in [(PLAIN, SAME), (PLAIN, OTHER), (UNKNOWN, OTHER)] {
        page.line(problem, &notes_of(alloc, domain, problem));
    }
}
