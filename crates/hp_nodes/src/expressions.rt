//! Expressions and preconditions.
ghost use Rattle.std.specs.Prelude.{OnOk};
ghost use Rattle.hp_syntax.specs.Views.{atom_of, pattern_of, expression_of, expressions_of, precondition_of};
ghost use Rattle.hp_nodes.specs.Compiled as compiled;
ghost use Rattle.hp_nodes.specs.Compiled.{only, expression_tree, expression_trees, precondition_tree};
ghost use Rattle.hp_nodes.specs.Laying.{Lays};
ghost use Rattle.hp_nodes.specs.NodeViews.{operation_of};
ghost use Rattle.hp_nodes.specs.Trees.{Node, Holds, Assign, Test};

use crate::laying::{close_node, leaf, open_node};
use crate::node::{CodeNode, Op};
use hp_syntax::{AtomPat, Expr, ExprKind, Pat, Pre, Span};
use std::alloc::{AllocError, Global};

/// An atom that must hold.
fn lay_atom(
    nodes: &mut Vec<CodeNode>,
    alloc: Global,
    span: Span,
    atom: &AtomPat,
) -> Result<(), AllocError>
    ensures { OnOk result (Lays (only (compiled.leaf (Holds (atom_of atom.now)) span))
        nodes.old.items nodes.new.items) }
{
    let op = Op::Atom(atom.copy(alloc)?);
    leaf(nodes, op, span)
}

/// An assignment.
fn lay_assigned(
    nodes: &mut Vec<CodeNode>,
    alloc: Global,
    span: Span,
    v: u32,
    value: &Pat,
) -> Result<(), AllocError>
    ensures { OnOk result (Lays (only (compiled.leaf (Assign v (pattern_of value.now)) span))
        nodes.old.items nodes.new.items) }
{
    let op = Op::Assign(v, value.copy(alloc)?);
    leaf(nodes, op, span)
}

/// A call that must give a true value.
fn lay_tested(
    nodes: &mut Vec<CodeNode>,
    alloc: Global,
    span: Span,
    call: &Pat,
) -> Result<(), AllocError>
    ensures { OnOk result (Lays (only (compiled.leaf (Test (pattern_of call.now)) span))
        nodes.old.items nodes.new.items) }
{
    let op = Op::Call(call.copy(alloc)?);
    leaf(nodes, op, span)
}

/// Lays an expression down behind the nodes that there are.
#[cycle(expression)]
#[tactic(auto, unfolding(hp_syntax::specs::Views::expression_of, crate::specs::Compiled::expression_tree))]
pub(crate) fn lay_expression(
    nodes: &mut Vec<CodeNode>,
    alloc: Global,
    expr: &Expr,
) -> Result<(), AllocError>
    ensures { OnOk result (Lays (only (expression_tree (expression_of expr.now))) nodes.old.items nodes.new.items) }
{
    let span = expr.span;
    match &expr.kind {
        ExprKind::Atom(atom) => lay_atom(nodes, alloc, span, atom),
        ExprKind::And(parts) => lay_parts(nodes, alloc, Op::And, span, parts.as_slice()),
        ExprKind::Or(parts) => lay_parts(nodes, alloc, Op::Or, span, parts.as_slice()),
        ExprKind::Not(part) => lay_part(nodes, alloc, Op::Not, span, part),
        ExprKind::Forall(_, range, body) => {
            let at = open_node(nodes, Op::Forall, span)?;
            lay_expression(nodes, alloc, range)?;
            lay_expression(nodes, alloc, body)?;
            close_node(nodes, at);
            Ok(())
        }
        ExprKind::Assign(v, value) => lay_assigned(nodes, alloc, span, *v, value),
        ExprKind::Call(call) => lay_tested(nodes, alloc, span, call),
    }
}

/// Expressions one behind the other.
#[cycle(expression)]
fn lay_expressions(
    nodes: &mut Vec<CodeNode>,
    alloc: Global,
    parts: &[Expr],
) -> Result<(), AllocError>
    ensures { OnOk result (Lays (expression_trees (expressions_of parts.now)) nodes.old.items nodes.new.items) }
{
    for part in parts {
        lay_expression(nodes, alloc, part)?;
    }
    Ok(())
}

/// A node with expressions below it.
#[cycle(expression)]
fn lay_parts(
    nodes: &mut Vec<CodeNode>,
    alloc: Global,
    op: Op,
    span: Span,
    parts: &[Expr],
) -> Result<(), AllocError>
    ensures { OnOk result (Lays (only (Node (operation_of op) span (expression_trees (expressions_of parts.now))))
        nodes.old.items nodes.new.items) }
{
    let at = open_node(nodes, op, span)?;
    lay_expressions(nodes, alloc, parts)?;
    close_node(nodes, at);
    Ok(())
}

/// Lays down a node with one expression below it.
#[cycle(expression)]
pub(crate) fn lay_part(
    nodes: &mut Vec<CodeNode>,
    alloc: Global,
    op: Op,
    span: Span,
    part: &Expr,
) -> Result<(), AllocError>
    ensures { OnOk result (Lays (only (Node (operation_of op) span (only (expression_tree (expression_of part.now)))))
        nodes.old.items nodes.new.items) }
{
    let at = open_node(nodes, op, span)?;
    lay_expression(nodes, alloc, part)?;
    close_node(nodes, at);
    Ok(())
}

/// Lays down the precondition of a rule that stands here.
pub(crate) fn lay_precondition(
    nodes: &mut Vec<CodeNode>,
    alloc: Global,
    span: Span,
    pre: &Pre,
) -> Result<(), AllocError>
    ensures { OnOk result (Lays (only (precondition_tree span (precondition_of pre.now)))
        nodes.old.items nodes.new.items) }
{
    match pre {
        Pre::Plain(expr) => lay_part(nodes, alloc, Op::Plain, span, expr),
        Pre::First(expr) => lay_part(nodes, alloc, Op::First, span, expr),
        Pre::Sorted(key, expr) => {
            let op = Op::Sort(key.copy(alloc)?);
            lay_part(nodes, alloc, op, key.span, expr)
        }
    }
}
