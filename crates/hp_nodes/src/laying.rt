//! Nodes with those below them, laid down one behind the other.
ghost use Rattle.std.specs.Prelude.{◌<◌, IfOk, OnOk, length};
ghost use Rattle.hp_nodes.specs.Compiled as compiled;
ghost use Rattle.hp_nodes.specs.Compiled.{only};
ghost use Rattle.hp_nodes.specs.Laying.{Closes, Lays, Opens};
ghost use Rattle.hp_nodes.specs.NodeViews.{operation_of};

use crate::node::{CodeNode, Op};
use hp_syntax::Span;
use std::alloc::AllocError;

/// Opens a node behind those that there are, and returns its index. What is laid down from now on is below it, until it
/// is closed.
pub(crate) fn open_node(nodes: &mut Vec<CodeNode>, op: Op, span: Span) -> Result<usize, AllocError>
    ensures { IfOk result (λ at. Opens (operation_of op) span at nodes.old.items nodes.new.items) }
{
    let at = nodes.len();
    nodes.push(CodeNode { op, to: 0, span })?;
    Ok(at)
}

/// Closes the node with this index: it ends behind all nodes.
pub(crate) fn close_node(nodes: &mut Vec<CodeNode>, at: usize)
    requires { at < length nodes.old.items }
    ensures { Closes at nodes.old.items nodes.new.items }
{
    let to = nodes.len();
    nodes[at].to = to;
}

/// Lays down a node with nothing below it.
pub(crate) fn leaf(nodes: &mut Vec<CodeNode>, op: Op, span: Span) -> Result<(), AllocError>
    ensures { OnOk result (Lays (only (compiled.leaf (operation_of op) span)) nodes.old.items nodes.new.items) }
{
    let at = open_node(nodes, op, span)?;
    close_node(nodes, at);
    Ok(())
}
