//! Expressions and preconditions.

ghost use Rattle.std.specs.Prelude.{◌≡◌};
ghost use Rattle.hp_syntax.specs.Checks as checks;
ghost use Rattle.hp_syntax.specs.Checks.{earlier, first_of};
ghost use Rattle.hp_syntax.specs.Views.{expression_of, expressions_of, order_of, precondition_of};

use crate::patterns::{atom, pattern};
use crate::watch::{Region, Watch};
use hp_syntax::limits::DEEPEST_EXPRESSION;
use hp_syntax::{CheckKind, Expr, ExprKind, Pre, SortOrder};

/// An expression at a level. Levels are counted up to the end of their type, which is far too deep.
#[cycle(expression)]
pub fn expression(watch: &mut Watch, level: usize, part: &Expr)
    ensures { watch.new.first ≡ earlier watch.old.first
        (first_of (checks.expression_faults level (expression_of part.now))) }
{
    let too_deep = level == DEEPEST_EXPRESSION + 1;
    watch.found_if(too_deep, CheckKind::ExprNested, Region::Body, part.span);
    let deeper = level.saturating_add(1);
    match &part.kind {
        ExprKind::Atom(held) => atom(watch, Region::Body, held),
        ExprKind::And(parts) | ExprKind::Or(parts) => expressions(watch, deeper, parts.as_slice()),
        ExprKind::Not(part) => expression(watch, deeper, part),
        ExprKind::Forall(_, range, body) => {
            expression(watch, deeper, range);
            expression(watch, deeper, body);
        }
        ExprKind::Assign(_, value) => pattern(watch, Region::Body, value),
        ExprKind::Call(call) => pattern(watch, Region::Body, call),
    }
}

#[cycle(expression)]
fn expressions(watch: &mut Watch, level: usize, parts: &[Expr])
    ensures { watch.new.first ≡ earlier watch.old.first
        (first_of (checks.expressions_faults level (expressions_of parts.now))) }
{
    for part in parts {
        expression(watch, level, part);
    }
}

fn order(watch: &mut Watch, order: &SortOrder)
    ensures { watch.new.first ≡ earlier watch.old.first (first_of (checks.order_faults (order_of order.now))) }
{
    if let SortOrder::Unknown(_, span) = order {
        watch.found(CheckKind::UnknownOrder, Region::Body, *span);
    }
}

/// A precondition.
pub fn precondition(watch: &mut Watch, pre: &Pre)
    ensures { watch.new.first ≡ earlier watch.old.first
        (first_of (checks.precondition_faults (precondition_of pre.now))) }
{
    match pre {
        Pre::Plain(whole) | Pre::First(whole) => expression(watch, 1, whole),
        Pre::Sorted(key, whole) => {
            order(watch, &key.order);
            expression(watch, 1, whole);
        }
    }
}
