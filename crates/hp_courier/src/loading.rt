//! From two texts to the walks of their pairs.
ghost use Rattle.std.specs.Prelude.{◌≡◌, ◌≤◌, [], true, false, None, IfOk};
ghost use Rattle.std.specs.List.{All};
ghost use Rattle.hp_net.specs.Standings.{standing, IsAtItsNode};
ghost use Rattle.hp_plain.specs.Walked.{stands_walked, tree_walked};
ghost use Rattle.hp_syntax.specs.Checks.{domain_faults, first_of};
ghost use Rattle.hp_syntax.specs.Grammar.{domain_form, problem_form};
ghost use Rattle.hp_syntax.specs.GroundPatterns.{IsGroundPair};
ghost use Rattle.hp_syntax.specs.TextForms.{IsRead};
ghost use Rattle.hp_syntax.specs.Views.{domain_of, pair_of, problem_of};
ghost use Rattle.hp_syntax.specs.Walk.{root, visits};

use hp_check::{CheckFault, first_fault};
use hp_forms::{FormRefusal, into_domain, into_problem};
use hp_laws::pair_laws::{accepted_domains_are_checked, accepted_pairs_are_ground};
use hp_laws::tree_laws::visits_are_in_the_tree;
use hp_plain::PlainWalk;
use hp_syntax::limits::{GREATEST_PLAIN_DEPTH, USUAL_LEVELS};
use hp_syntax::{Domain, Pair, Problem};
use hp_text::{TextRefusal, read};
use std::alloc::{AllocError, Global};
use thiserror::Error;

/// Why two texts can't be walked.
#[derive(Clone, Copy, Debug, Error)]
pub enum InputError {
    #[error("a text is refused")]
    Text(TextRefusal),
    #[error("a form is refused")]
    Form(FormRefusal),
    #[error("the checks found a fault")]
    Check(CheckFault),
}

fn domain_in(alloc: Global, text: &str) -> Result<Domain, InputError>
    ensures { IfOk result (λ d. IsRead domain_form text.now (domain_of d)) }
{
    match read(alloc, text.as_bytes()) {
        Ok(forest) => into_domain(alloc, forest).map_err(InputError::Form),
        Err(refusal) => Err(InputError::Text(refusal)),
    }
}

fn problem_in(alloc: Global, text: &str) -> Result<Problem, InputError>
    ensures { IfOk result (λ p. IsRead problem_form text.now (problem_of p)) }
{
    match read(alloc, text.as_bytes()) {
        Ok(forest) => into_problem(alloc, forest).map_err(InputError::Form),
        Err(refusal) => Err(InputError::Text(refusal)),
    }
}

/// Reads two texts, and checks them.
pub fn accepted(alloc: Global, domain: &str, problem: &str) -> Result<(Domain, Problem), InputError>
    ensures checked { IfOk result (λ r. first_of (domain_faults (domain_of r.0)) ≡ None) }
    ensures ground { IfOk result (λ r. All IsGroundPair (problem_of r.1).pairs) }
{
    // Nothing runs here: the laws make known that what is accepted can be walked.
    accepted_domains_are_checked();
    accepted_pairs_are_ground();
    let domain = domain_in(alloc, domain)?;
    let problem = problem_in(alloc, problem)?;
    match first_fault(&domain, &problem) {
        None => Ok((domain, problem)),
        Some(fault) => Err(InputError::Check(fault)),
    }
}

/// A walk of a pair down to a depth, with all visits left.
pub fn walk<'a>(
    alloc: Global,
    domain: &'a Domain,
    pair: &Pair,
    depth: u32,
) -> Result<PlainWalk<'a>, AllocError>
    requires checked { first_of (domain_faults (domain_of domain.now)) ≡ None }
    requires pair { IsGroundPair (pair_of pair.now) }
    requires depth { depth ≤ GREATEST_PLAIN_DEPTH }
    ensures tree { IfOk result (λ w. tree_walked w ≡ record {
      rules = (domain_of domain.now).rules;
      nest = USUAL_LEVELS;
      root = root (pair_of pair.now) depth;
    }) }
    ensures stands { IfOk result (λ w. stands_walked w ≡ standing []
        (visits (tree_walked w).rules (tree_walked w).nest (tree_walked w).root []) false) }
    ensures live { IfOk result (λ w. w.live ≡ true) }
    ensures at { IfOk result (λ w. All (IsAtItsNode (tree_walked w)) (stands_walked w).rest) }
{
    // Nothing runs here: the law makes known that each visit's path reaches its node.
    visits_are_in_the_tree();
    PlainWalk::new(alloc, domain, pair, depth, USUAL_LEVELS)
}
