//! What `imply` stands for.
ghost use Rattle.std.specs.Prelude.{◌≡◌, IfOk};
ghost use Rattle.hp_syntax.specs.Grammar as grammar;
ghost use Rattle.hp_syntax.specs.Views.{expression_of};

use crate::expression::{Expr, ExprKind};
use crate::pattern::Span;
use std::alloc::{AllocError, Global};

/// That one expression doesn't hold or another does, as `(imply Y Z)` is read.
pub fn implication(
    alloc: Global,
    span: Span,
    first: Expr,
    second: Expr,
) -> Result<ExprKind, AllocError>
    ensures { IfOk result (λ kind. expression_of (record { span = span; kind = kind })
        ≡ grammar.implied span (expression_of first, expression_of second)) }
{
    let not = Expr {
        span,
        kind: ExprKind::Not(Box::new(alloc, first)?),
    };
    let parts = vec![in alloc; not, second]?;
    Ok(ExprKind::Or(parts))
}
