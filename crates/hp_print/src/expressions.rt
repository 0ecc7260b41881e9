//! Expressions and preconditions.

ghost use Rattle.std.specs.Prelude.{◌≡◌, ◌++◌, OnOk, codes};
ghost use Rattle.hp_syntax.specs.Views.{pattern_of, expression_of, expressions_of, order_of, precondition_of};
ghost use Rattle.hp_syntax.specs.Written as written;
ghost use Rattle.hp_syntax.specs.Written.{name_of, node_text, rest_text};

use crate::terms::{push_atom, push_begun_forall, push_pattern};
use crate::words::{order_word, push_all, push_begun, variable_name};
use hp_syntax::{Expr, ExprKind, Name, Pat, Pre, SortKey};
use std::alloc::AllocError;

/// `(assign VARIABLE term)`
#[tactic(auto, unfolding(hp_syntax::specs::Written::node_text))]
fn push_assigned(text: &mut Vec<u8>, vars: &[Name], v: u32, value: &Pat) -> Result<(), AllocError>
    ensures { OnOk result (text.new.items ≡ text.old.items
        ++ node_text (written.assigned vars.now v (pattern_of value.now))) }
{
    push_all(text, &[b"(assign ", variable_name(vars, v), b" "])?;
    push_pattern(text, vars, value)?;
    text.extend_from_slice(b")")
}

/// An expression.
#[cycle(expression)]
#[tactic(auto, unfolding(hp_syntax::specs::Views::expression_of, hp_syntax::specs::Written::expression))]
pub fn push_expression(text: &mut Vec<u8>, vars: &[Name], expr: &Expr) -> Result<(), AllocError>
    ensures { OnOk result (text.new.items ≡ text.old.items
        ++ node_text (written.expression vars.now (expression_of expr.now))) }
{
    match &expr.kind {
        ExprKind::Atom(atom) => push_atom(text, vars, atom),
        ExprKind::And(parts) => push_conjunction(text, vars, parts.as_slice()),
        ExprKind::Or(parts) => {
            push_begun(text, b"or")?;
            push_expressions(text, vars, parts.as_slice())
        }
        ExprKind::Not(part) => {
            push_begun(text, b"not ")?;
            push_expression(text, vars, part)?;
            text.extend_from_slice(b")")
        }
        ExprKind::Forall(list, range, body) => {
            push_begun_forall(text, vars, list.as_slice())?;
            push_expression(text, vars, range)?;
            text.push(b' ')?;
            push_expression(text, vars, body)?;
            text.extend_from_slice(b")")
        }
        ExprKind::Assign(v, value) => push_assigned(text, vars, *v, value),
        ExprKind::Call(call) => push_pattern(text, vars, call),
    }
}

/// The list of nothing.
fn push_nothing(text: &mut Vec<u8>) -> Result<(), AllocError>
    ensures { OnOk result (text.new.items ≡ text.old.items ++ codes "()") }
{
    text.extend_from_slice(b"()")
}

/// A conjunction; that of nothing is the empty list.
#[cycle(expression)]
#[tactic(auto, unfolding(hp_syntax::specs::Written::expression, hp_syntax::specs::Written::node_text))]
fn push_conjunction(text: &mut Vec<u8>, vars: &[Name], parts: &[Expr]) -> Result<(), AllocError>
    ensures { OnOk result (text.new.items ≡ text.old.items
        ++ node_text (written.conjunction vars.now (expressions_of parts.now))) }
{
    if parts.is_empty() {
        return push_nothing(text);
    }
    push_begun(text, b"and")?;
    push_expressions(text, vars, parts)
}

/// Expressions that follow in a list, and the closing bracket.
#[cycle(expression)]
#[tactic(auto, unfolding(hp_syntax::specs::Written::expression, hp_syntax::specs::Written::rest_text))]
fn push_expressions(text: &mut Vec<u8>, vars: &[Name], parts: &[Expr]) -> Result<(), AllocError>
    ensures { OnOk result (text.new.items ≡ text.old.items
        ++ rest_text (written.expressions vars.now (expressions_of parts.now)) ++ codes ")") }
{
    for part in parts {
        text.push(b' ')?;
        push_expression(text, vars, part)?;
    }
    text.extend_from_slice(b")")
}

/// The beginning of what is sorted: `(:sort-by VARIABLE order `
fn push_key(text: &mut Vec<u8>, vars: &[Name], key: &SortKey) -> Result<(), AllocError>
    ensures { OnOk result (text.new.items ≡ text.old.items ++ codes "(:sort-by " ++ name_of vars.now key.now.var
        ++ codes " " ++ written.order_word (order_of key.now.order) ++ codes " ") }
{
    push_all(
        text,
        &[
            b"(:sort-by ",
            variable_name(vars, key.var),
            b" ",
            order_word(&key.order),
            b" ",
        ],
    )
}

/// `(:sort-by VARIABLE order expression)`
#[tactic(auto, unfolding(hp_syntax::specs::Written::precondition, hp_syntax::specs::Written::node_text))]
fn push_sorted(
    text: &mut Vec<u8>,
    vars: &[Name],
    key: &SortKey,
    expr: &Expr,
) -> Result<(), AllocError>
    ensures { OnOk result (text.new.items ≡ text.old.items
        ++ node_text (written.precondition vars.now (precondition_of (Pre.Sorted key.now expr.now)))) }
{
    push_key(text, vars, key)?;
    push_expression(text, vars, expr)?;
    text.extend_from_slice(b")")
}

/// A precondition.
#[tactic(auto, unfolding(hp_syntax::specs::Written::precondition, hp_syntax::specs::Written::node_text))]
pub fn push_precondition(text: &mut Vec<u8>, vars: &[Name], pre: &Pre) -> Result<(), AllocError>
    ensures { OnOk result (text.new.items ≡ text.old.items
        ++ node_text (written.precondition vars.now (precondition_of pre.now))) }
{
    match pre {
        Pre::Plain(expr) => push_expression(text, vars, expr),
        Pre::First(expr) => {
            push_begun(text, b":first ")?;
            push_expression(text, vars, expr)?;
            text.extend_from_slice(b")")
        }
        Pre::Sorted(key, expr) => push_sorted(text, vars, key, expr),
    }
}
