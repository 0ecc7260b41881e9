//! Where in an operator, or in a branch of a method, a pattern stands that has a span.
ghost use Rattle.std.specs.Prelude.{◌≡◌, map, option_map};
ghost use Rattle.hp_syntax.specs.Views.{domain_of, expression_of, operator_of, pattern_of, rule_of};
ghost use Rattle.hp_blame.specs.Sites as plain;
ghost use Rattle.hp_blame.specs.Sites.{site_of};

use crate::patterns::{in_effects, in_part, in_tasks, pattern_at};
use hp_syntax::{Domain, Expr, Operator, Pat, Rule, Span};

/// A pattern of an operator or of a branch of a method.
#[derive(Clone, Copy)]
pub struct Site<'a> {
    /// How many parts of the precondition come before it.
    pub before: usize,
    pub pattern: &'a Pat,
}

/// A pattern with so many parts before it, where there is one.
fn with_before(before: usize, pattern: Option<&Pat>) -> Option<Site<'_>>
    ensures { option_map site_of result ≡ option_map (λ p. plain.site before (pattern_of p.now)) pattern.entry }
{
    match pattern {
        Some(pattern) => Some(Site { before, pattern }),
        None => None,
    }
}

fn in_part_at(parts: &[Expr], place: usize, span: Span) -> Option<Site<'_>>
    ensures { option_map site_of result ≡ plain.in_part_at span (map expression_of parts.now) place }
{
    match parts.get(place) {
        Some(part) => with_before(place, in_part(part, span)),
        None => None,
    }
}

fn in_parts(parts: &[Expr], span: Span) -> Option<Site<'_>>
    ensures { option_map site_of result ≡ plain.in_parts span (map expression_of parts.now) }
{
    for place in 0..parts.len() {
        match in_part_at(parts, place, span) {
            Some(site) => return Some(site),
            None => {}
        }
    }
    None
}

fn in_operator(operator: &Operator, span: Span) -> Option<&Pat>
    ensures { option_map (λ p. pattern_of p.now) result ≡ plain.in_operator span (operator_of operator.now) }
{
    pattern_at(&operator.cost, span)
        .or(in_effects(operator.dels.as_slice(), span))
        .or(in_effects(operator.adds.as_slice(), span))
}

fn after_by(rule: &Rule, branch: usize, span: Span) -> Option<&Pat>
    ensures { option_map (λ p. pattern_of p.now) result ≡ plain.after_by span branch (rule_of rule.now) }
{
    match rule {
        Rule::Operator(operator) => in_operator(operator, span),
        Rule::Method(method) => match method.branches.get(branch) {
            Some(own) => in_tasks(&own.tasks, span),
            None => None,
        },
        Rule::Axiom(_) => None,
    }
}

fn after_parts(domain: &Domain, rule: usize, branch: usize, span: Span) -> Option<&Pat>
    ensures { option_map (λ p. pattern_of p.now) result
        ≡ plain.after_parts span (domain_of domain.now).rules rule branch }
{
    match domain.rules.get(rule) {
        Some(own) => after_by(own, branch, span),
        None => None,
    }
}

/// Where the first pattern stands that has a span: in the parts of a precondition, or after them all.
pub fn site_at<'a>(
    domain: &'a Domain,
    parts: &'a [Expr],
    rule: usize,
    branch: usize,
    span: Span,
) -> Option<Site<'a>>
    ensures { option_map site_of result
        ≡ plain.site_at span (domain_of domain.now).rules rule branch (map expression_of parts.now) }
{
    match in_parts(parts, span) {
        Some(site) => Some(site),
        None => with_before(parts.len(), after_parts(domain, rule, branch, span)),
    }
}
