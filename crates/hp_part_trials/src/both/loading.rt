//! From two texts to walks of both engines.
ghost use Rattle.std.specs.List.{All};
ghost use Rattle.std.specs.Prelude.{◌≡◌, ◌≤◌, None, pos, true, IfOk, IfSome};
ghost use Rattle.hp_syntax.specs.declared.limits.TheConstants.{GREATEST_DEPTH, GREATEST_PLAIN_DEPTH, MOST_LEVELS};
ghost use Rattle.hp_syntax.specs.Checks.{domain_faults, first_of};
ghost use Rattle.hp_syntax.specs.Grammar.{problem_form};
ghost use Rattle.hp_syntax.specs.GroundPatterns.{IsGroundPair};
ghost use Rattle.hp_syntax.specs.Numbered.{IsNumberedDomain};
ghost use Rattle.hp_syntax.specs.TextForms.{IsRead};
ghost use Rattle.hp_syntax.specs.Views.{domain_of, pair_of, problem_of};
ghost use Rattle.hp_code.specs.CodeViews.{IsCodeOf};
ghost use Rattle.hp_code.specs.Codes.{code_of};
ghost use Rattle.hp_search.specs.Planned.{tree_planned};
ghost use Rattle.hp_part_trials.specs.Accepted.{IsAccepted};

use hp_check::first_fault;
use hp_code::{Code, lower};
use hp_forms::{into_domain, into_problem};
use hp_laws::pair_laws::{accepted_domains_are_checked, accepted_pairs_are_ground};
use hp_plain::PlainWalk;
use hp_search::Planner;
use hp_syntax::{Domain, Pair, Problem};
use hp_text::read;
use std::alloc::{AllocError, Global};

/// An accepted domain, the first pair of an accepted problem, and the code of the domain.
pub struct Loaded {
    pub domain: Domain,
    pub pair: Pair,
    pub code: Code,
}

impl Drop for Loaded {
    fn drop(self) {
        let Loaded { domain, pair, code } = self;
        drop(domain);
        drop(pair);
        drop(code);
    }
}

fn domain_in(alloc: Global, text: &str) -> Option<Domain>
    ensures { IfSome result (λ d. IsNumberedDomain (domain_of d)) }
{
    match read(alloc, text.as_bytes()) {
        Ok(forest) => into_domain(alloc, forest).ok(),
        Err(_) => None,
    }
}

fn problem_in(alloc: Global, text: &str) -> Option<Problem>
    ensures { IfSome result (λ p. IsRead problem_form text.now (problem_of p)) }
{
    match read(alloc, text.as_bytes()) {
        Ok(forest) => into_problem(alloc, forest).ok(),
        Err(_) => None,
    }
}

/// The first pair of a problem, if it has one.
fn first_pair(mut problem: Problem) -> Option<Pair>
    requires { All IsGroundPair (problem_of problem).pairs }
    ensures { IfSome result (λ p. IsGroundPair (pair_of p)) }
{
    if problem.pairs.is_empty() {
        return None;
    }
    Some(problem.pairs.remove(0))
}

/// What is loaded of a domain and a problem that are accepted.
fn loaded_of(alloc: Global, domain: Domain, problem: Problem) -> Option<Loaded>
    requires numbered { IsNumberedDomain (domain_of domain) }
    requires checked { first_of (domain_faults (domain_of domain)) ≡ None }
    requires ground { All IsGroundPair (problem_of problem).pairs }
    ensures accepted { IfSome result (λ l. IsAccepted (domain_of l.domain) (pair_of l.pair)) }
    ensures code { IfSome result (λ l. IsCodeOf (domain_of l.domain).rules (code_of l.code)) }
{
    let code = lower(alloc, &domain).ok()?;
    let pair = first_pair(problem)?;
    Some(Loaded { domain, pair, code })
}

/// The domain and the first pair of the problem that two texts are, if they are accepted and there is memory for them.
pub fn load(alloc: Global, domain: &str, problem: &str) -> Option<Loaded>
    ensures accepted { IfSome result (λ l. IsAccepted (domain_of l.domain) (pair_of l.pair)) }
    ensures code { IfSome result (λ l. IsCodeOf (domain_of l.domain).rules (code_of l.code)) }
{
    // Nothing runs here: the laws make known that what is accepted can be walked.
    accepted_domains_are_checked();
    accepted_pairs_are_ground();
    let domain = domain_in(alloc, domain)?;
    let problem = problem_in(alloc, problem)?;
    match first_fault(&domain, &problem) {
        None => loaded_of(alloc, domain, problem),
        Some(_) => None,
    }
}

/// A walk in place, with all visits left. At its root nothing has cost anything.
pub fn walk_in_place(
    alloc: Global,
    loaded: &Loaded,
    depth: u32,
    levels: u32,
) -> Result<Planner<'_>, AllocError>
    requires accepted { IsAccepted (domain_of loaded.now.domain) (pair_of loaded.now.pair) }
    requires depth { depth ≤ GREATEST_DEPTH }
    requires levels { levels ≤ MOST_LEVELS }
    ensures live { IfOk result (λ p. p.live ≡ true) }
    ensures cost { IfOk result (λ p. (tree_planned p).root.cost ≡ pos 0) }
{
    Planner::new(alloc, &loaded.code, &loaded.pair, depth, levels)
}

/// A walk by copies, with all visits left.
pub fn walk_by_copies(
    alloc: Global,
    loaded: &Loaded,
    depth: u32,
    levels: u32,
) -> Result<PlainWalk<'_>, AllocError>
    requires accepted { IsAccepted (domain_of loaded.now.domain) (pair_of loaded.now.pair) }
    requires depth { depth ≤ GREATEST_PLAIN_DEPTH }
    requires levels { levels ≤ MOST_LEVELS }
    ensures { IfOk result (λ w. w.live ≡ true) }
{
    PlainWalk::new(alloc, &loaded.domain, &loaded.pair, depth, levels)
}
