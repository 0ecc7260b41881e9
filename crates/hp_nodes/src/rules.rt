//! Operators, methods and axioms.
ghost use Rattle.std.specs.Prelude.{◌≡◌, IfOk, OnOk, map};
ghost use Rattle.hp_syntax.specs.Changes.{pattern_span};
ghost use Rattle.hp_syntax.specs.Views.{pattern_of, precondition_of, tasks_of, operator_of, branch_of, method_of, clause_of, axiom_of, rule_of};
ghost use Rattle.hp_syntax.specs.Syntax as syntax;
ghost use Rattle.hp_nodes.specs.Compiled as compiled;
ghost use Rattle.hp_nodes.specs.Compiled.{only, effect_trees, operator_tree, branch_tree, branch_trees, clause_tree, clause_trees, rule_tree};
ghost use Rattle.hp_nodes.specs.Laying.{Lays};
ghost use Rattle.hp_nodes.specs.NodeViews.{laid_of, operation_of};
ghost use Rattle.hp_nodes.specs.Trees.{BranchOf, CostOf, TasksOf};

use crate::effects::lay_effects;
use crate::expressions::{lay_part, lay_precondition};
use crate::laying::{close_node, leaf, open_node};
use crate::node::{CodeNode, Op};
use hp_syntax::{
    Axiom, Branch, Clause, Method, Name, NetPat, Operator, Pat, Pre, Rule, Side, Span,
};
use std::alloc::{AllocError, Global};

/// What an operator costs.
fn lay_cost(nodes: &mut Vec<CodeNode>, alloc: Global, cost: &Pat) -> Result<(), AllocError>
    ensures { OnOk result (let plain = pattern_of cost.now in
        Lays (only (compiled.leaf (CostOf plain) (pattern_span plain))) nodes.old.items nodes.new.items) }
{
    let op = Op::Cost(cost.copy(alloc)?);
    leaf(nodes, op, cost.span)
}

/// What an operator deletes, then what it adds, and then its cost.
fn lay_effects_and_cost(
    nodes: &mut Vec<CodeNode>,
    alloc: Global,
    operator: &Operator,
) -> Result<(), AllocError>
    ensures { OnOk result (let o = operator_of operator.now in
        Lays (effect_trees Side.Deletes o.span o.dels (effect_trees Side.Adds o.span o.adds
        (only (compiled.leaf (CostOf o.cost) (pattern_span o.cost))))) nodes.old.items nodes.new.items) }
{
    let span = operator.span;
    lay_effects(nodes, alloc, Side::Deletes, span, operator.dels.as_slice())?;
    lay_effects(nodes, alloc, Side::Adds, span, operator.adds.as_slice())?;
    lay_cost(nodes, alloc, &operator.cost)
}

/// An operator.
fn lay_operator(
    nodes: &mut Vec<CodeNode>,
    alloc: Global,
    operator: &Operator,
) -> Result<(), AllocError>
    ensures { OnOk result (Lays (only (operator_tree (operator_of operator.now)))
        nodes.old.items nodes.new.items) }
{
    let op = Op::Operator(operator.head.copy(alloc)?);
    let at = open_node(nodes, op, operator.span)?;
    lay_precondition(nodes, alloc, operator.span, &operator.pre)?;
    lay_effects_and_cost(nodes, alloc, operator)?;
    close_node(nodes, at);
    Ok(())
}

/// The tasks of a branch.
fn lay_tasks(
    nodes: &mut Vec<CodeNode>,
    alloc: Global,
    span: Span,
    tasks: &NetPat,
) -> Result<(), AllocError>
    ensures { OnOk result (Lays (only (compiled.leaf (TasksOf (tasks_of tasks.now)) span))
        nodes.old.items nodes.new.items) }
{
    let op = Op::Tasks(tasks.copy(alloc)?);
    leaf(nodes, op, span)
}

/// A branch of this name.
fn named(alloc: Global, name: &Option<Name>) -> Result<Op, AllocError>
    ensures { IfOk result (λ op. operation_of op ≡ BranchOf name.now) }
{
    Ok(Op::Branch(match name {
        Some(name) => Some(name.copy(alloc)?),
        None => None,
    }))
}

/// A branch of a method that stands here.
fn lay_branch(
    nodes: &mut Vec<CodeNode>,
    alloc: Global,
    span: Span,
    branch: &Branch,
) -> Result<(), AllocError>
    ensures { OnOk result (Lays (only (branch_tree span (branch_of branch.now)))
        nodes.old.items nodes.new.items) }
{
    let op = named(alloc, &branch.name)?;
    let at = open_node(nodes, op, span)?;
    lay_precondition(nodes, alloc, span, &branch.pre)?;
    lay_tasks(nodes, alloc, span, &branch.tasks)?;
    close_node(nodes, at);
    Ok(())
}

/// The branches of a method that stands here.
fn lay_branches(
    nodes: &mut Vec<CodeNode>,
    alloc: Global,
    span: Span,
    branches: &[Branch],
) -> Result<(), AllocError>
    ensures { OnOk result (Lays (branch_trees span (map branch_of branches.now))
        nodes.old.items nodes.new.items) }
{
    for branch in branches {
        lay_branch(nodes, alloc, span, branch)?;
    }
    Ok(())
}

/// A method.
fn lay_method(nodes: &mut Vec<CodeNode>, alloc: Global, method: &Method) -> Result<(), AllocError>
    ensures { OnOk result (Lays (only (rule_tree (syntax.Refines (method_of method.now))))
        nodes.old.items nodes.new.items) }
{
    let op = Op::Method(method.head.copy(alloc)?);
    let at = open_node(nodes, op, method.span)?;
    lay_branches(nodes, alloc, method.span, method.branches.as_slice())?;
    close_node(nodes, at);
    Ok(())
}

/// A branch of an axiom that stands here.
fn lay_clause(
    nodes: &mut Vec<CodeNode>,
    alloc: Global,
    span: Span,
    clause: &Clause,
) -> Result<(), AllocError>
    ensures { OnOk result (Lays (only (clause_tree span (clause_of clause.now)))
        nodes.old.items nodes.new.items) }
{
    let op = named(alloc, &clause.name)?;
    lay_part(nodes, alloc, op, span, &clause.body)
}

/// The branches of an axiom that stands here.
fn lay_clauses(
    nodes: &mut Vec<CodeNode>,
    alloc: Global,
    span: Span,
    clauses: &[Clause],
) -> Result<(), AllocError>
    ensures { OnOk result (Lays (clause_trees span (map clause_of clauses.now))
        nodes.old.items nodes.new.items) }
{
    for clause in clauses {
        lay_clause(nodes, alloc, span, clause)?;
    }
    Ok(())
}

/// An axiom.
fn lay_axiom(nodes: &mut Vec<CodeNode>, alloc: Global, rule: &Axiom) -> Result<(), AllocError>
    ensures { OnOk result (Lays (only (rule_tree (syntax.Concludes (axiom_of rule.now))))
        nodes.old.items nodes.new.items) }
{
    let op = Op::Axiom(rule.head.copy(alloc)?);
    let at = open_node(nodes, op, rule.span)?;
    lay_clauses(nodes, alloc, rule.span, rule.clauses.as_slice())?;
    close_node(nodes, at);
    Ok(())
}

/// Lays a rule down behind the nodes that there are.
pub fn lay_rule(nodes: &mut Vec<CodeNode>, alloc: Global, rule: &Rule) -> Result<(), AllocError>
    ensures { OnOk result (Lays (only (rule_tree (rule_of rule.now))) nodes.old.items nodes.new.items) }
{
    match rule {
        Rule::Operator(operator) => lay_operator(nodes, alloc, operator),
        Rule::Method(method) => lay_method(nodes, alloc, method),
        Rule::Axiom(axiom) => lay_axiom(nodes, alloc, axiom),
    }
}
