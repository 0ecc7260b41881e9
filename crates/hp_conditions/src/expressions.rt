//! Logical expressions.

ghost use Rattle.std.specs.Prelude.{◌≡◌, false};
ghost use Rattle.hp_syntax.specs.declared.pattern.Span.{Span};
ghost use Rattle.hp_syntax.specs.Forest.{Word, Grow};
ghost use Rattle.hp_syntax.specs.Steps as steps;
ghost use Rattle.hp_syntax.specs.Steps.{and_then, pure};
ghost use Rattle.hp_syntax.specs.Syntax.{And};
ghost use Rattle.hp_syntax.specs.Grammar as grammar;
ghost use Rattle.hp_syntax.specs.Views.{expression_of, expressions_of};
ghost use Rattle.hp_text.specs.Nodes.{node_of, nodes_of};
ghost use Rattle.hp_terms.specs.FormReads.{Reads};

use hp_syntax::{Expr, ExprKind, Name, Span, What, implication};
use hp_terms::FormRefusal;
use hp_terms::names::{is, is_plain};
use hp_terms::nodes::{closing, ended, expected, next};
use hp_terms::scope::Scope;
use hp_terms::terms::{Setting, called, named_atom, term};
use hp_text::{Node, NodeKind};

/// The expression that a node is.
#[cycle(expression)]
#[tactic(auto, unfolding(hp_syntax::specs::Grammar::expression, hp_syntax::specs::Views::expression_of))]
pub fn expression(scope: &mut Scope, node: &Node) -> Result<Expr, FormRefusal>
    ensures { Reads expression_of result (grammar.expression (node_of node.now))
        scope.old.names.keys scope.new.names.keys }
{
    match &node.kind {
        NodeKind::List(nodes) => list_expression(scope, node.span, nodes.as_slice()),
        NodeKind::Name(name) if is(name, b"nil") => Ok(Expr {
            span: node.span,
            kind: ExprKind::And(Vec::new(scope.alloc)),
        }),
        _ => expected(What::Expr, node.span),
    }
}

/// The expression that a list is.
#[cycle(expression)]
#[tactic(auto, unfolding(hp_syntax::specs::Views::expression_of))]
pub fn list_expression(scope: &mut Scope, span: Span, nodes: &[Node]) -> Result<Expr, FormRefusal>
    ensures { Reads expression_of result (grammar.list_expression span (nodes_of nodes.now))
        scope.old.names.keys scope.new.names.keys }
{
    let kind = list_kind(scope, span, nodes)?;
    Ok(Expr { span, kind })
}

/// By what a list begins with: a list or `nil` begins a conjunction.
#[cycle(expression)]
#[tactic(auto, unfolding(hp_syntax::specs::Grammar::list_expression, hp_syntax::specs::Views::expression_of))]
fn list_kind(scope: &mut Scope, span: Span, nodes: &[Node]) -> Result<ExprKind, FormRefusal>
    ensures { Reads (λ kind. expression_of (record { span = span; kind = kind })) result
        (grammar.list_expression span (nodes_of nodes.now)) scope.old.names.keys scope.new.names.keys }
{
    let Some((first, rest)) = nodes.split_first() else {
        return Ok(ExprKind::And(Vec::new(scope.alloc)));
    };
    match &first.kind {
        NodeKind::List(_) => conjunction(scope, span, nodes),
        NodeKind::Num(_) => expected(What::Expr, span),
        NodeKind::Name(key) if is(key, b"nil") => conjunction(scope, span, nodes),
        NodeKind::Name(key) => keyed(scope, span, key, rest),
    }
}

/// Each node as an expression, all in one. The list has this span.
#[cycle(expression)]
#[tactic(auto, unfolding(hp_syntax::specs::Views::expression_of))]
fn conjunction(scope: &mut Scope, span: Span, nodes: &[Node]) -> Result<ExprKind, FormRefusal>
    ensures { Reads (λ kind. expression_of (record { span = span; kind = kind })) result
        (λ names. and_then (grammar.expressions (nodes_of nodes.now) names) (λ all. pure (And span all)))
        scope.old.names.keys scope.new.names.keys }
{
    Ok(ExprKind::And(expressions(scope, nodes)?))
}

/// A list that begins with a name other than `nil`, by that name.
#[cycle(expression)]
#[tactic(auto, unfolding(hp_syntax::specs::Grammar::list_expression, hp_syntax::specs::Views::expression_of))]
fn keyed(scope: &mut Scope, span: Span, key: &Name, rest: &[Node]) -> Result<ExprKind, FormRefusal>
    requires { grammar.is_nil key.now ≡ false }
    ensures { (t : Span) → Reads (λ kind. expression_of (record { span = span; kind = kind })) result
        (grammar.list_expression span (Grow (Word t key.now) (nodes_of rest.now)))
        scope.old.names.keys scope.new.names.keys }
{
    if is(key, b"and") {
        conjunction(scope, span, rest)
    } else if is(key, b"or") {
        Ok(ExprKind::Or(expressions(scope, rest)?))
    } else if is(key, b"not") {
        let part = one_expression(scope, closing(span), rest)?;
        Ok(ExprKind::Not(Box::new(scope.alloc, part)?))
    } else if is(key, b"imply") {
        implied(scope, span, rest)
    } else if is(key, b"forall") {
        quantified(scope, span, rest)
    } else if is(key, b"assign") {
        assigned(scope, span, rest)
    } else if is(key, b"call") {
        Ok(ExprKind::Call(called(scope, Setting::Rule, span, rest)?))
    } else if is_plain(key) {
        Ok(ExprKind::Atom(named_atom(scope, Setting::Rule, span, key, rest)?))
    } else {
        expected(What::Expr, span)
    }
}

/// Each node as an expression.
#[cycle(expression)]
#[tactic(auto, unfolding(hp_syntax::specs::Grammar::expressions))]
pub fn expressions(scope: &mut Scope, nodes: &[Node]) -> Result<Vec<Expr>, FormRefusal>
    ensures { Reads (λ es. expressions_of es.items) result (grammar.expressions (nodes_of nodes.now))
        scope.old.names.keys scope.new.names.keys }
{
    let mut expressions = Vec::with_capacity(scope.alloc, nodes.len())?;
    for node in nodes {
        expressions.push(expression(scope, node)?)?;
    }
    Ok(expressions)
}

#[cycle(expression)]
#[tactic(auto, unfolding(hp_syntax::specs::Grammar::one_expression))]
fn one_expression(scope: &mut Scope, end: Span, nodes: &[Node]) -> Result<Expr, FormRefusal>
    ensures { Reads expression_of result (grammar.one_expression end (nodes_of nodes.now))
        scope.old.names.keys scope.new.names.keys }
{
    match nodes {
        [] => expected(What::Expr, end),
        [only] => expression(scope, only),
        [first, second, ..] => {
            expression(scope, first)?;
            expected(What::End, second.span)
        }
    }
}

#[cycle(expression)]
#[tactic(auto, unfolding(hp_syntax::specs::Grammar::two_expressions))]
fn two_expressions(
    scope: &mut Scope,
    end: Span,
    nodes: &[Node],
) -> Result<(Expr, Expr), FormRefusal>
    ensures { Reads (λ both. (expression_of both.0, expression_of both.1)) result
        (grammar.two_expressions end (nodes_of nodes.now)) scope.old.names.keys scope.new.names.keys }
{
    let (first, rest) = next(What::Expr, end, nodes)?;
    let first = expression(scope, first)?;
    let second = one_expression(scope, end, rest)?;
    Ok((first, second))
}

/// `(imply Y Z)` is that Y doesn't hold or Z does.
#[cycle(expression)]
#[tactic(auto, unfolding(hp_syntax::specs::Grammar::two_expressions, hp_syntax::specs::Views::expression_of))]
fn implied(scope: &mut Scope, span: Span, rest: &[Node]) -> Result<ExprKind, FormRefusal>
    ensures { Reads (λ kind. expression_of (record { span = span; kind = kind })) result
        (λ names. and_then (grammar.two_expressions (steps.closing span) (nodes_of rest.now) names)
        (λ both. pure (grammar.implied span both)))
        scope.old.names.keys scope.new.names.keys }
{
    let (first, second) = two_expressions(scope, closing(span), rest)?;
    Ok(implication(scope.alloc, span, first, second)?)
}

/// `(forall VARIABLES expression expression)`
#[cycle(expression)]
#[tactic(auto, unfolding(hp_syntax::specs::Grammar::quantified, hp_syntax::specs::Views::expression_of))]
fn quantified(scope: &mut Scope, span: Span, rest: &[Node]) -> Result<ExprKind, FormRefusal>
    ensures { Reads (λ kind. expression_of (record { span = span; kind = kind })) result
        (grammar.quantified span (nodes_of rest.now)) scope.old.names.keys scope.new.names.keys }
{
    let (first, rest) = next(What::Variable, closing(span), rest)?;
    let variables = scope.variables(first)?;
    let (range, body) = two_expressions(scope, closing(span), rest)?;
    Ok(ExprKind::Forall(
        variables,
        Box::new(scope.alloc, range)?,
        Box::new(scope.alloc, body)?,
    ))
}

/// `(assign VARIABLE term)`
#[tactic(auto, unfolding(hp_syntax::specs::Grammar::assigned, hp_syntax::specs::Views::expression_of))]
fn assigned(scope: &mut Scope, span: Span, rest: &[Node]) -> Result<ExprKind, FormRefusal>
    ensures { Reads (λ kind. expression_of (record { span = span; kind = kind })) result
        (grammar.assigned span (nodes_of rest.now)) scope.old.names.keys scope.new.names.keys }
{
    let (left, rest) = next(What::Variable, closing(span), rest)?;
    let variable = scope.variable(left)?;
    let (right, rest) = next(What::Term, closing(span), rest)?;
    let value = term(scope, Setting::Rule, right)?;
    ended(rest)?;
    Ok(ExprKind::Assign(variable, value))
}
