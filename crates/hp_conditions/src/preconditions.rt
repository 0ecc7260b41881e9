//! Preconditions.

ghost use Rattle.std.specs.Prelude.{◌≡◌, Ok};
ghost use Rattle.hp_syntax.specs.Steps.{and_then, pure};
ghost use Rattle.hp_syntax.specs.Syntax.{First};
ghost use Rattle.hp_syntax.specs.Grammar as grammar;
ghost use Rattle.hp_syntax.specs.Views.{expression_of, expressions_of, order_of, precondition_of};
ghost use Rattle.hp_text.specs.Nodes.{node_of, nodes_of};
ghost use Rattle.hp_terms.specs.FormReads.{Reads, Gives};

use crate::expressions::{expressions, list_expression};
use hp_syntax::{Expr, ExprKind, Pre, SortKey, SortOrder, Span, What};
use hp_terms::FormRefusal;
use hp_terms::names::is;
use hp_terms::nodes::{behind, closing, expected, next};
use hp_terms::orders::order_named;
use hp_terms::scope::Scope;
use hp_text::{Node, NodeKind};

/// One expression is itself, another number of them their conjunction.
#[tactic(auto, unfolding(hp_syntax::specs::Views::expression_of))]
fn gathered(span: Span, mut expressions: Vec<Expr>) -> Expr
    ensures { expression_of result ≡ grammar.gathered span (expressions_of expressions.items) }
{
    if expressions.len() == 1 {
        expressions.remove(0)
    } else {
        Expr {
            span,
            kind: ExprKind::And(expressions),
        }
    }
}

/// The order that a sort names, and what follows; without a name it is upwards.
#[tactic(auto, unfolding(hp_syntax::specs::Grammar::order))]
fn order<'a>(scope: &Scope, nodes: &'a [Node]) -> Result<(SortOrder, &'a [Node]), FormRefusal>
    ensures { Gives (λ x. (order_of x.0, nodes_of x.1.now)) result (Ok (grammar.order (nodes_of nodes.now))) }
{
    let [first, rest @ ..] = nodes else {
        return Ok((SortOrder::Up, nodes));
    };
    match &first.kind {
        NodeKind::Name(name) if !is(name, b"nil") => {
            Ok((order_named(scope, first.span, name)?, rest))
        }
        _ => Ok((SortOrder::Up, nodes)),
    }
}

/// `(:sort-by VARIABLE order expression ..)`
#[tactic(auto, unfolding(hp_syntax::specs::Grammar::sorted))]
fn sorted(scope: &mut Scope, span: Span, rest: &[Node]) -> Result<Pre, FormRefusal>
    ensures { Reads precondition_of result (grammar.sorted span (nodes_of rest.now))
        scope.old.names.keys scope.new.names.keys }
{
    let (by, rest) = next(What::Variable, closing(span), rest)?;
    let var = scope.variable(by)?;
    let (order, rest) = order(scope, rest)?;
    let parts = expressions(scope, rest)?;
    let key = SortKey {
        span: by.span,
        var,
        order,
    };
    Ok(Pre::Sorted(key, gathered(span, parts)))
}

/// `(:first expression ..)`
fn first(scope: &mut Scope, span: Span, rest: &[Node]) -> Result<Pre, FormRefusal>
    ensures { Reads precondition_of result
        (λ names. and_then (grammar.expressions (nodes_of rest.now) names)
        (λ all. pure (First (grammar.gathered span all))))
        scope.old.names.keys scope.new.names.keys }
{
    Ok(Pre::First(gathered(span, expressions(scope, rest)?)))
}

/// A list as a precondition.
fn list_precondition(scope: &mut Scope, span: Span, nodes: &[Node]) -> Result<Pre, FormRefusal>
    ensures { Reads precondition_of result (grammar.list_precondition span (nodes_of nodes.now))
        scope.old.names.keys scope.new.names.keys }
{
    if let Some(rest) = behind(b":first", nodes) {
        return first(scope, span, rest);
    }
    if let Some(rest) = behind(b":sort-by", nodes) {
        return sorted(scope, span, rest);
    }
    Ok(Pre::Plain(list_expression(scope, span, nodes)?))
}

/// The precondition that a node is.
#[tactic(auto, unfolding(hp_syntax::specs::Grammar::precondition, hp_syntax::specs::Views::expression_of))]
pub fn precondition(scope: &mut Scope, node: &Node) -> Result<Pre, FormRefusal>
    ensures { Reads precondition_of result (grammar.precondition (node_of node.now))
        scope.old.names.keys scope.new.names.keys }
{
    match &node.kind {
        NodeKind::List(nodes) => list_precondition(scope, node.span, nodes.as_slice()),
        NodeKind::Name(name) if is(name, b"nil") => Ok(Pre::Plain(Expr {
            span: node.span,
            kind: ExprKind::And(Vec::new(scope.alloc)),
        })),
        _ => expected(What::Pre, node.span),
    }
}
