//! Where preconditions stand.
ghost use Rattle.std.specs.Prelude.{◌≡◌, map, option_map, slice_get};
ghost use Rattle.hp_syntax.specs.Views.{branch_of, clause_of, domain_of, precondition_of, rule_of};
ghost use Rattle.hp_lint.specs.Branches as spans;
ghost use Rattle.hp_doctor_why.specs.Said as plain;

use hp_syntax::{Branch, Clause, Domain, Pre, Rule, Span};
use hp_unmet::part_at;

fn precondition_span(pre: &Pre) -> Span
    ensures { result ≡ spans.precondition_span (precondition_of pre.now) }
{
    match pre {
        Pre::Plain(whole) | Pre::First(whole) | Pre::Sorted(_, whole) => whole.span,
    }
}

fn branch_span(branches: &[Branch], branch: usize) -> Option<Span>
    ensures { result
        ≡ option_map (λ b. spans.precondition_span b.pre) (slice_get (map branch_of branches.now) branch) }
{
    match branches.get(branch) {
        Some(branch) => Some(precondition_span(&branch.pre)),
        None => None,
    }
}

fn clause_span(clauses: &[Clause], branch: usize) -> Option<Span>
    ensures { result
        ≡ option_map (λ c. spans.expression_span c.body) (slice_get (map clause_of clauses.now) branch) }
{
    match clauses.get(branch) {
        Some(clause) => Some(clause.body.span),
        None => None,
    }
}

fn span_in(rule: &Rule, branch: usize) -> Option<Span>
    ensures { result ≡ plain.span_in branch (rule_of rule.now) }
{
    match rule {
        Rule::Operator(operator) => Some(precondition_span(&operator.pre)),
        Rule::Method(method) => branch_span(method.branches.as_slice(), branch),
        Rule::Axiom(axiom) => clause_span(axiom.clauses.as_slice(), branch),
    }
}

/// Where the precondition of a rule stands, of a method and of an axiom that of a branch.
pub fn span_at(domain: &Domain, rule: usize, branch: usize) -> Option<Span>
    ensures { result ≡ plain.span_at (domain_of domain.now) rule branch }
{
    match domain.rules.get(rule) {
        Some(rule) => span_in(rule, branch),
        None => None,
    }
}

/// Where a part of that precondition stands, by its place.
pub fn part_span_at(domain: &Domain, rule: usize, branch: usize, place: usize) -> Option<Span>
    ensures { result ≡ plain.part_span_at (domain_of domain.now) rule branch place }
{
    match part_at(domain, rule, branch, place) {
        Some(part) => Some(part.span),
        None => None,
    }
}

fn head_span(rule: &Rule) -> Span
    ensures { result ≡ plain.head_span (rule_of rule.now) }
{
    match rule {
        Rule::Operator(operator) => operator.head.span,
        Rule::Method(method) => method.head.span,
        Rule::Axiom(axiom) => axiom.head.span,
    }
}

/// Where the head of a rule stands.
pub fn head_span_at(domain: &Domain, rule: usize) -> Option<Span>
    ensures { result ≡ plain.head_span_at (domain_of domain.now) rule }
{
    match domain.rules.get(rule) {
        Some(rule) => Some(head_span(rule)),
        None => None,
    }
}
