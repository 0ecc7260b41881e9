//! What of a head doesn't match.
ghost use Rattle.std.specs.Prelude.{◌≡◌};
ghost use Rattle.hp_syntax.specs.Views.{pattern_of};
ghost use Rattle.hp_mismatch.specs.Mismatch as plain;

use hp_syntax::{Pat, PatKind, Span};

/// The place of an argument that doesn't match, by what the head has there: a name or a number, a variable, or a list
/// or a call.
#[derive(Clone, Copy, Debug)]
pub enum Misfit {
    Value(Span),
    Variable(Span),
    List(Span),
}

/// What is said of a pattern that doesn't match.
pub(crate) fn misfit_of(pat: &Pat) -> Misfit
    ensures { result ≡ plain.misfit_of (pattern_of pat.now) }
{
    match &pat.kind {
        PatKind::Var(_) => Misfit::Variable(pat.span),
        PatKind::Sym(_) => Misfit::Value(pat.span),
        PatKind::Num(_) => Misfit::Value(pat.span),
        PatKind::List(_, _) => Misfit::List(pat.span),
        PatKind::Call(_, _) => Misfit::List(pat.span),
    }
}
