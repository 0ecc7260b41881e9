//! The parts of the preconditions of a domain.
ghost use Rattle.std.specs.Prelude.{◌≡◌, map, option_map};
ghost use Rattle.hp_syntax.specs.Views.{axiom_of, branch_of, clause_of, domain_of, expression_of, method_of, operator_of, precondition_of, rule_of};
ghost use Rattle.hp_unmet.specs.Conjunctions as plain;
ghost use Rattle.hp_unmet.specs.Trials.{conjunction_of};

use hp_syntax::{
    AtomPat, Axiom, Branch, Clause, Domain, Expr, ExprKind, Method, Name, Operator, Pre, Rule, Span,
};
use std::slice;

/// The parts of a precondition, with the span, the variables and the head of its rule. A branch of an axiom asks for its
/// expression.
#[derive(Clone, Copy)]
pub struct Parts<'a> {
    pub span: Span,
    pub vars: &'a [Name],
    pub head: &'a AtomPat,
    pub parts: &'a [Expr],
}

/// The expression of a precondition.
fn body_of(pre: &Pre) -> &Expr
    ensures { expression_of result.now ≡ plain.body_of (precondition_of pre.now) }
{
    match pre {
        Pre::Plain(body) => body,
        Pre::First(body) => body,
        Pre::Sorted(_, body) => body,
    }
}

/// The parts of a conjunction; any other expression is its only part.
fn conjuncts(body: &Expr) -> &[Expr]
    ensures { map expression_of result.now ≡ plain.conjuncts (expression_of body.now) }
{
    match &body.kind {
        ExprKind::And(parts) => parts.as_slice(),
        ExprKind::Atom(_) => slice::from_ref(body),
        ExprKind::Or(_) => slice::from_ref(body),
        ExprKind::Not(_) => slice::from_ref(body),
        ExprKind::Forall(_, _, _) => slice::from_ref(body),
        ExprKind::Assign(_, _) => slice::from_ref(body),
        ExprKind::Call(_) => slice::from_ref(body),
    }
}

fn of_operator(operator: &Operator) -> Parts<'_>
    ensures { let o = operator_of operator.now in
        conjunction_of result ≡ plain.conjunction o.span o.vars o.head o.pre }
{
    Parts {
        span: operator.span,
        vars: operator.vars.as_slice(),
        head: &operator.head,
        parts: conjuncts(body_of(&operator.pre)),
    }
}

fn of_branch<'a>(method: &'a Method, branch: &'a Branch) -> Parts<'a>
    ensures { conjunction_of result ≡ plain.in_branch (method_of method.now) (branch_of branch.now) }
{
    Parts {
        span: method.span,
        vars: method.vars.as_slice(),
        head: &method.head,
        parts: conjuncts(body_of(&branch.pre)),
    }
}

fn of_clause<'a>(rule: &'a Axiom, clause: &'a Clause) -> Parts<'a>
    ensures { conjunction_of result ≡ plain.in_clause (axiom_of rule.now) (clause_of clause.now) }
{
    Parts {
        span: rule.span,
        vars: rule.vars.as_slice(),
        head: &rule.head,
        parts: conjuncts(&clause.body),
    }
}

fn asked_by(rule: &Rule, branch: usize) -> Option<Parts<'_>>
    ensures { option_map conjunction_of result ≡ plain.asked_by branch (rule_of rule.now) }
{
    match rule {
        Rule::Operator(operator) => Some(of_operator(operator)),
        Rule::Method(method) => match method.branches.get(branch) {
            Some(own) => Some(of_branch(method, own)),
            None => None,
        },
        Rule::Axiom(concluding) => match concluding.clauses.get(branch) {
            Some(own) => Some(of_clause(concluding, own)),
            None => None,
        },
    }
}

/// The parts of the precondition of an operator, or of a branch of a method or of an axiom, by their places.
pub fn asked_in(domain: &Domain, rule: usize, branch: usize) -> Option<Parts<'_>>
    ensures { option_map conjunction_of result ≡ plain.asked_in (domain_of domain.now).rules rule branch }
{
    match domain.rules.get(rule) {
        Some(own) => asked_by(own, branch),
        None => None,
    }
}

/// The part that stands at a place, of the precondition of an operator or of a branch of a method or of an axiom.
pub fn part_at(domain: &Domain, rule: usize, branch: usize, place: usize) -> Option<&Expr>
    ensures { option_map (λ e. expression_of e.now) result
        ≡ plain.part_at (domain_of domain.now).rules rule branch place }
{
    match asked_in(domain, rule, branch) {
        Some(asked) => asked.parts.get(place),
        None => None,
    }
}
