//! Canonical text reads back: what a text is read as, written and read again.

use crate::runs::trial::tell;
use hp_fixtures::repeats::with_repeats;
use hp_print::{domain_text, problem_text};
use hp_top::rereading::{RereadError, reread_domain, reread_problem};
use std::alloc::{AllocError, Global};

/// Operators, axioms and methods of a town, with each construct of the language.
const ERRANDS: &str = "; a comment
(defdomain errands (
  (:operator (!walk ?from ?to)
    ((at me ?from) (street ?from ?to ?metres)) ((at me ?from)) ((at me ?to)) (call / ?metres 100))
  (:operator (!buy ?thing ?shop) (and (at me ?shop) (call >= ?coins 1)) () ((purse ?coins)))
  (:operator (!unlock ?door) () ((:protection (open ?door))) ())
  (:operator (!!tidy) nil ((forall (?thing) ((have ?thing) (not (wanted ?thing))) ((have ?thing)))) () 0)
  (:- (reachable ?a ?b) here ((call = ?a ?b)) street-by-street ((street ?a ?c ?m) (reachable ?c ?b)))
  (:- (ready) (imply (wanted ?thing) (have ?thing)))
  (:method (fetch ?thing)
    nearest (:sort-by ?metres < ((at me ?here) (street ?here ?shop ?metres))) ((go ?shop) (!buy ?thing ?shop)))
  (:method (go ?place)
    there ((at me ?place)) ()
    on-foot (:first (at me ?here) (or (near ?here ?place) (assign ?x 1))) (:ordered (!walk ?here ?place)))
  (:method (fetch-all (?thing . ?others)) () (:unordered (fetch ?thing) (fetch-all ?others)))
  (:method (fetch-all ()) nil nil)
  (:method (leave ?door)
    (forall (?thing) (wanted ?thing) (have ?thing)) ((:immediate !unlock ?door) (:ordered (!!tidy))))
))";

const SATURDAY: &str = "(defproblem saturday errands
  ((at me home) (purse -20) (list (bread apples . (milk))))
  (:unordered (fetch-all (bread apples)) (leave front-door)))";

/// Tries domains, problems, and texts that are not read twice.
pub fn try_all(alloc: Global, out: &mut Vec<u8>) -> Result<(), AllocError> {
    for text in [
        "(defdomain d ())",
        "(defdomain d nil) ; and no more",
        ERRANDS,
        "(defdomain d",
        "(defproblem p d () ())",
    ] {
        tell_reread(out, domain_is_kept(alloc, text.as_bytes()))?;
    }
    for text in [
        "(defproblem p d () ())",
        "(defproblem p d ((a . nil)) (nil))",
        SATURDAY,
    ] {
        tell_reread(out, problem_is_kept(alloc, text.as_bytes()))?;
    }
    // Its brackets nest too deep once each `imply` is written as an `or` of a `not`.
    let deep = with_repeats(alloc, "(defdomain d ((:- (p) {40 (imply }(q){40  (q))})))")?;
    tell_reread(out, domain_is_kept(alloc, deep.as_bytes()))
}

fn tell_reread(out: &mut Vec<u8>, is_kept: Result<bool, RereadError>) -> Result<(), AllocError> {
    let line = match is_kept {
        Ok(true) => "# read back: the same",
        Ok(false) => "# read back: another",
        Err(RereadError::NoMemory) => "# not read back: no memory",
        Err(RereadError::Unreadable) => "# not read back: unreadable",
        Err(RereadError::TooLong) => "# not read back: too long",
    };
    tell(out, line)
}

/// Whether a domain and what is read of its canonical text have the same canonical text.
fn domain_is_kept(alloc: Global, text: &[u8]) -> Result<bool, RereadError> {
    let read = reread_domain(alloc, text)?;
    let first = domain_text(alloc, &read.first)?;
    let second = domain_text(alloc, &read.second)?;
    Ok(first.as_slice() == second.as_slice())
}

/// Whether a problem and what is read of its canonical text have the same canonical text.
fn problem_is_kept(alloc: Global, text: &[u8]) -> Result<bool, RereadError> {
    let read = reread_problem(alloc, text)?;
    let first = problem_text(alloc, &read.first)?;
    let second = problem_text(alloc, &read.second)?;
    Ok(first.as_slice() == second.as_slice())
}
