//! Where the parts of preconditions stand in a code.
ghost use Rattle.std.specs.Prelude.{◌≡◌, ◌+◌, ◌<◌, ℕ, List, Some, length, slice_get};
ghost use Rattle.hp_choice.specs.Asking as plain;
ghost use Rattle.hp_code.specs.Codes.{code_of};
ghost use Rattle.hp_nodes.specs.NodeViews.{laid_of};
ghost use Rattle.hp_suspended.specs.Nodes.{expression_at};
ghost use Rattle.hp_syntax.specs.Syntax.{Expression, Precondition, Rule};
ghost use Rattle.hp_syntax.specs.Views.{domain_of};
ghost use Rattle.hp_unmet.specs.Conjunctions.{asked_in, body_of, conjuncts};
ghost use Rattle.hp_unmet.specs.PartNodes.{AsksFor, HasPrecondition, IsAtBranch, IsSpot, ServesFor, StandBetween, StandIn};
ghost use Rattle.hp_unmet.specs.Trials.{conjunction_of};

use crate::parts::Parts;
use hp_choice::Conjuncts;
use hp_code::{Code, CodeNode, Op};
use hp_syntax::Domain;

/// An operator, or a branch of a method or of an axiom, by its places in a domain and its nodes in a code.
#[derive(Clone, Copy, Debug)]
pub struct Spot {
    /// The place of the operator, method or axiom among the rules of the domain.
    pub rule: usize,
    /// The place of the branch among those of the rule, 0 for an operator.
    pub branch: usize,
    /// The node of the operator, method or axiom.
    pub node: usize,
    /// The node of the branch. The first one stands right after the node of its rule.
    pub branch_node: usize,
}

/// The node of an index.
fn node_at(code: &Code, node: usize) -> &CodeNode
    requires { node < length (code_of code.now).nodes }
    ensures is { slice_get (code_of code.now).nodes node ≡ Some (laid_of result.now) }
{
    &code.nodes()[node]
}

/// The index behind the tree of a node; where there is no node, the index itself.
fn next_tree(code: &Code, node: usize) -> usize
    ensures { result ≡ plain.next_tree (slice_get (code_of code.now).nodes node) node }
{
    match code.nodes().get(node) {
        Some(own) => own.to,
        None => node,
    }
}

/// The index past so many trees from one on, as far as there are nodes.
pub fn past(code: &Code, node: usize, count: usize) -> usize
    ensures { result ≡ plain.past (code_of code.now).nodes node count }
{
    let mut next = node;
    for _ in 0..count {
        next = next_tree(code, next);
    }
    next
}

/// The node of the first branch of a rule, by the node of the rule.
pub fn first_branch(code: &Code, node: usize) -> usize
    requires { (rules : List Rule) × (rule : ℕ) × ServesFor rules rule (code_of code.now) node }
    ensures { result ≡ node + 1 }
{
    let _ = code.nodes();
    node + 1
}

/// The node of the branch after another one of the same rule, if there is one.
pub fn branch_after(code: &Code, branch_node: usize) -> usize
    ensures { result ≡ plain.next_tree (slice_get (code_of code.now).nodes branch_node) branch_node }
{
    next_tree(code, branch_node)
}

/// The node of the expression for which an operator, or a branch of a method or of an axiom, asks.
fn expression_node(code: &Code, spot: Spot) -> usize
    requires has { (p : Precondition) × HasPrecondition (code_of code.now) spot.node spot.branch p }
    requires at { IsAtBranch (code_of code.now) spot }
    ensures { (p : Precondition) → HasPrecondition (code_of code.now) spot.node spot.branch p
        → expression_at (code_of code.now) result ≡ Some (body_of p) }
{
    match &node_at(code, spot.node).op {
        // A branch of a method stands before its precondition, and that before its expression.
        Op::Method(_) => spot.branch_node + 2,
        // A branch of an axiom stands before its expression.
        Op::Axiom(_) => spot.branch_node + 1,
        _ => spot.node + 2,
    }
}

/// The nodes of the parts of an expression, by its node, for a rule.
fn parts_at(code: &Code, rule: usize, expression: usize) -> Conjuncts
    requires { (e : Expression) × (expression_at (code_of code.now) expression ≡ Some e) }
    ensures parts { (e : Expression) → expression_at (code_of code.now) expression ≡ Some e
        → StandBetween (code_of code.now) result.first result.end (conjuncts e) }
    ensures rule { result.rule ≡ rule }
{
    let own = node_at(code, expression);
    match &own.op {
        // The parts of a conjunction stand after its own node.
        Op::And => Conjuncts {
            rule,
            first: expression + 1,
            end: own.to,
        },
        _ => Conjuncts {
            rule,
            first: expression,
            end: own.to,
        },
    }
}

/// The nodes of the parts for which an operator, or a branch of a method or of an axiom, asks together.
pub fn parts_asked(code: &Code, spot: Spot) -> Conjuncts
    requires asks { (parts : List Expression) × AsksFor (code_of code.now) spot.node spot.branch parts }
    requires at { IsAtBranch (code_of code.now) spot }
    ensures parts { (parts : List Expression) → AsksFor (code_of code.now) spot.node spot.branch parts
        → StandBetween (code_of code.now) result.first result.end parts }
    ensures rule { result.rule ≡ spot.node }
{
    parts_at(code, spot.node, expression_node(code, spot))
}

/// The nodes of the parts of an operator or a branch of a domain.
pub fn nodes_asked(domain: &Domain, code: &Code, spot: Spot, asked: Parts<'_>) -> Conjuncts
    requires spot { IsSpot (domain_of domain.now).rules (code_of code.now) spot }
    requires asked { asked_in (domain_of domain.now).rules spot.rule spot.branch ≡ Some (conjunction_of asked) }
    ensures { StandIn (domain_of domain.now).rules (code_of code.now) (conjunction_of asked.entry) result }
{
    let _ = domain;
    let _ = asked.parts.len();
    parts_asked(code, spot)
}
