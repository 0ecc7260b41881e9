//! Orders of sorting, by their names.

ghost use Rattle.std.specs.Prelude.{Ok};
ghost use Rattle.hp_syntax.specs.Grammar as grammar;
ghost use Rattle.hp_syntax.specs.Views.{order_of};
ghost use Rattle.hp_terms.specs.FormReads.{Gives};

use crate::names::is;
use crate::refusal::FormRefusal;
use crate::scope::Scope;
use hp_syntax::{Name, SortOrder, Span};

/// The order that a name is, which stands at this span.
pub fn order_named(scope: &Scope, span: Span, name: &Name) -> Result<SortOrder, FormRefusal>
    ensures { Gives order_of result (Ok (grammar.order_named span name.now)) }
{
    if is(name, b"<") || is(name, b"<=") {
        Ok(SortOrder::Up)
    } else if is(name, b">") || is(name, b">=") {
        Ok(SortOrder::Down)
    } else {
        Ok(SortOrder::Unknown(name.copy(scope.alloc)?, span))
    }
}
