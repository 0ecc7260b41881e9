//! Operators, methods and axioms.

ghost use Rattle.std.specs.Prelude.{◌≡◌, ◌++◌, OnOk, codes, map, Option};
ghost use Rattle.hp_syntax.specs.Views.{operator_of, branch_of, method_of, clause_of, axiom_of, rule_of};
ghost use Rattle.hp_syntax.specs.Written as written;
ghost use Rattle.hp_syntax.specs.Written.{node_text, rest_text};

use crate::effects::push_effects;
use crate::expressions::{push_expression, push_precondition};
use crate::tasks::push_tasks;
use crate::terms::{push_atom, push_pattern};
use crate::words::{push_all, push_begun};
use hp_syntax::{Axiom, Branch, Clause, Method, Name, Operator, Rule};
use std::alloc::AllocError;

/// `(:operator head precondition deletes adds cost)`
#[tactic(auto, unfolding(hp_syntax::specs::Written::operator, hp_syntax::specs::Written::node_text))]
fn push_operator(text: &mut Vec<u8>, operator: &Operator) -> Result<(), AllocError>
    ensures { OnOk result (text.new.items ≡ text.old.items
        ++ node_text (written.operator (operator_of operator.now))) }
{
    let vars = operator.vars.as_slice();
    push_begun(text, b":operator ")?;
    push_atom(text, vars, &operator.head)?;
    text.push(b' ')?;
    push_precondition(text, vars, &operator.pre)?;
    text.push(b' ')?;
    push_effects(text, vars, operator.dels.as_slice())?;
    text.push(b' ')?;
    push_effects(text, vars, operator.adds.as_slice())?;
    text.push(b' ')?;
    push_pattern(text, vars, &operator.cost)?;
    text.extend_from_slice(b")")
}

/// The name of a branch, where it has one, as what follows in a list.
#[tactic(auto, unfolding(hp_syntax::specs::Written::rest_text))]
fn push_name(text: &mut Vec<u8>, name: &Option<Name>) -> Result<(), AllocError>
    ensures { OnOk result (text.new.items ≡ text.old.items ++ rest_text (written.branch_name name.now)) }
{
    match name {
        None => Ok(()),
        Some(name) => push_all(text, &[b" ", name.bytes()]),
    }
}

/// A branch of a method, as what follows in a list.
#[tactic(auto, using(crate::proofs::WrittenTexts::rest_of_joined), unfolding(hp_syntax::specs::Written::rest_text))]
fn push_branch(text: &mut Vec<u8>, vars: &[Name], branch: &Branch) -> Result<(), AllocError>
    ensures { OnOk result (text.new.items ≡ text.old.items
        ++ rest_text (written.branch vars.now (branch_of branch.now))) }
{
    push_name(text, &branch.name)?;
    text.push(b' ')?;
    push_precondition(text, vars, &branch.pre)?;
    text.push(b' ')?;
    push_tasks(text, vars, &branch.tasks)
}

/// The branches of a method, and the closing bracket.
fn push_branches(text: &mut Vec<u8>, vars: &[Name], list: &[Branch]) -> Result<(), AllocError>
    ensures { OnOk result (text.new.items ≡ text.old.items
        ++ rest_text (written.branches vars.now (map branch_of list.now)) ++ codes ")") }
{
    for branch in list {
        push_branch(text, vars, branch)?;
    }
    text.extend_from_slice(b")")
}

/// `(:method head branch ..)`
#[tactic(auto, unfolding(hp_syntax::specs::Written::method, hp_syntax::specs::Written::node_text))]
fn push_method(text: &mut Vec<u8>, method: &Method) -> Result<(), AllocError>
    ensures { OnOk result (text.new.items ≡ text.old.items
        ++ node_text (written.method (method_of method.now))) }
{
    let vars = method.vars.as_slice();
    push_begun(text, b":method ")?;
    push_atom(text, vars, &method.head)?;
    push_branches(text, vars, method.branches.as_slice())
}

/// A branch of an axiom, as what follows in a list.
#[tactic(auto, using(crate::proofs::WrittenTexts::rest_of_joined), unfolding(hp_syntax::specs::Written::rest_text))]
fn push_clause(text: &mut Vec<u8>, vars: &[Name], clause: &Clause) -> Result<(), AllocError>
    ensures { OnOk result (text.new.items ≡ text.old.items
        ++ rest_text (written.clause vars.now (clause_of clause.now))) }
{
    push_name(text, &clause.name)?;
    text.push(b' ')?;
    push_expression(text, vars, &clause.body)
}

/// The branches of an axiom, and the closing bracket.
fn push_clauses(text: &mut Vec<u8>, vars: &[Name], list: &[Clause]) -> Result<(), AllocError>
    ensures { OnOk result (text.new.items ≡ text.old.items
        ++ rest_text (written.clauses vars.now (map clause_of list.now)) ++ codes ")") }
{
    for clause in list {
        push_clause(text, vars, clause)?;
    }
    text.extend_from_slice(b")")
}

/// `(:- head branch ..)`
#[tactic(auto, unfolding(hp_syntax::specs::Written::axiom_rule, hp_syntax::specs::Written::node_text))]
fn push_axiom(text: &mut Vec<u8>, rule: &Axiom) -> Result<(), AllocError>
    ensures { OnOk result (text.new.items ≡ text.old.items
        ++ node_text (written.axiom_rule (axiom_of rule.now))) }
{
    let vars = rule.vars.as_slice();
    push_begun(text, b":- ")?;
    push_atom(text, vars, &rule.head)?;
    push_clauses(text, vars, rule.clauses.as_slice())
}

/// A rule.
#[tactic(auto, unfolding(hp_syntax::specs::Written::rule))]
pub fn push_rule(text: &mut Vec<u8>, rule: &Rule) -> Result<(), AllocError>
    ensures { OnOk result (text.new.items ≡ text.old.items ++ node_text (written.rule (rule_of rule.now))) }
{
    match rule {
        Rule::Operator(operator) => push_operator(text, operator),
        Rule::Method(method) => push_method(text, method),
        Rule::Axiom(axiom) => push_axiom(text, axiom),
    }
}
