//! What an operator deletes and adds.
ghost use Rattle.std.specs.Prelude.{◌≡◌, IfOk, OnOk, map};
ghost use Rattle.hp_syntax.specs.Views.{atom_of, atoms_of, expression_of, effect_of};
ghost use Rattle.hp_nodes.specs.Compiled as compiled;
ghost use Rattle.hp_nodes.specs.Compiled.{only, change_op, protection_op, change_trees, effect_tree, effect_trees, expression_tree};
ghost use Rattle.hp_nodes.specs.Laying.{Lays};
ghost use Rattle.hp_nodes.specs.NodeViews.{operation_of};
ghost use Rattle.hp_nodes.specs.Trees.{Node, NoTree, More, Each};

use crate::expressions::lay_expression;
use crate::laying::{close_node, leaf, open_node};
use crate::node::{CodeNode, Op};
use hp_syntax::{AtomPat, Effect, Expr, Side, Span};
use std::alloc::{AllocError, Global};

/// What is done with an atom of a list.
fn change(alloc: Global, side: Side, atom: &AtomPat) -> Result<Op, AllocError>
    ensures { IfOk result (λ op. operation_of op ≡ change_op side (atom_of atom.now)) }
{
    let copy = atom.copy(alloc)?;
    Ok(match side {
        Side::Deletes => Op::Delete(copy),
        Side::Adds => Op::Add(copy),
    })
}

/// What is done with a protection of a list.
fn protection(alloc: Global, side: Side, atom: &AtomPat) -> Result<Op, AllocError>
    ensures { IfOk result (λ op. operation_of op ≡ protection_op side (atom_of atom.now)) }
{
    let copy = atom.copy(alloc)?;
    Ok(match side {
        Side::Deletes => Op::Unguard(copy),
        Side::Adds => Op::Guard(copy),
    })
}

/// An atom that is deleted or added.
fn lay_change(
    nodes: &mut Vec<CodeNode>,
    alloc: Global,
    side: Side,
    atom: &AtomPat,
) -> Result<(), AllocError>
    ensures { OnOk result (Lays (only (compiled.leaf (change_op side (atom_of atom.now)) atom.now.span))
        nodes.old.items nodes.new.items) }
{
    let op = change(alloc, side, atom)?;
    leaf(nodes, op, atom.span)
}

/// Atoms that are deleted or added, one behind the other.
fn lay_changes(
    nodes: &mut Vec<CodeNode>,
    alloc: Global,
    side: Side,
    atoms: &[AtomPat],
) -> Result<(), AllocError>
    ensures { OnOk result (Lays (change_trees side (atoms_of atoms.now)) nodes.old.items nodes.new.items) }
{
    for atom in atoms {
        lay_change(nodes, alloc, side, atom)?;
    }
    Ok(())
}

/// A protection that is taken away or put.
fn lay_protection(
    nodes: &mut Vec<CodeNode>,
    alloc: Global,
    side: Side,
    atom: &AtomPat,
) -> Result<(), AllocError>
    ensures { OnOk result (Lays (only (compiled.leaf (protection_op side (atom_of atom.now)) atom.now.span))
        nodes.old.items nodes.new.items) }
{
    let op = protection(alloc, side, atom)?;
    leaf(nodes, op, atom.span)
}

/// Atoms for each satisfier of an expression.
fn lay_each(
    nodes: &mut Vec<CodeNode>,
    alloc: Global,
    side: Side,
    span: Span,
    expr: &Expr,
    atoms: &[AtomPat],
) -> Result<(), AllocError>
    ensures { OnOk result (Lays (only (Node Each span (More (expression_tree (expression_of expr.now))
        (change_trees side (atoms_of atoms.now))))) nodes.old.items nodes.new.items) }
{
    let at = open_node(nodes, Op::Each, span)?;
    lay_expression(nodes, alloc, expr)?;
    lay_changes(nodes, alloc, side, atoms)?;
    close_node(nodes, at);
    Ok(())
}

/// An effect of an operator that stands here.
fn lay_effect(
    nodes: &mut Vec<CodeNode>,
    alloc: Global,
    side: Side,
    span: Span,
    effect: &Effect,
) -> Result<(), AllocError>
    ensures { OnOk result (Lays (only (effect_tree side span (effect_of effect.now)))
        nodes.old.items nodes.new.items) }
{
    match effect {
        Effect::Atom(atom) => lay_change(nodes, alloc, side, atom),
        Effect::Protection(atom) => lay_protection(nodes, alloc, side, atom),
        Effect::Forall(_, expr, atoms) => {
            lay_each(nodes, alloc, side, span, expr, atoms.as_slice())
        }
    }
}

/// Lays down the effects of a list of an operator that stands here.
pub(crate) fn lay_effects(
    nodes: &mut Vec<CodeNode>,
    alloc: Global,
    side: Side,
    span: Span,
    effects: &[Effect],
) -> Result<(), AllocError>
    ensures { OnOk result (Lays (effect_trees side span (map effect_of effects.now) NoTree)
        nodes.old.items nodes.new.items) }
{
    for effect in effects {
        lay_effect(nodes, alloc, side, span, effect)?;
    }
    Ok(())
}
