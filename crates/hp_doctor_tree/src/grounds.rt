//! The texts of terms.

ghost use Rattle.std.specs.Prelude.{◌≡◌, ◌++◌, OnOk};
ghost use Rattle.hp_syntax.specs.GroundViews.{ground_of, grounds_of};
ghost use Rattle.hp_syntax.specs.Terms.{Listed};
ghost use Rattle.hp_syntax.specs.TermTexts.{term_text, terms_text};

use crate::words::push_amount;
use hp_syntax::Ground;
use std::alloc::AllocError;

/// A term as the planner prints it.
#[cycle(ground)]
pub fn push_ground(out: &mut Vec<u8>, term: &Ground) -> Result<(), AllocError>
    ensures { OnOk result (out.new.items ≡ out.old.items ++ term_text (ground_of term.now)) }
{
    match term {
        Ground::Sym(name) => out.extend_from_slice(name.bytes()),
        Ground::Num(n) => push_amount(out, i128::from(*n)),
        Ground::List(parts) => push_list(out, parts.as_slice()),
    }
}

/// A list, which begins with its first part.
#[cycle(ground)]
fn push_list(out: &mut Vec<u8>, parts: &[Ground]) -> Result<(), AllocError>
    ensures { OnOk result (out.new.items ≡ out.old.items ++ term_text (Listed (grounds_of parts.now))) }
{
    match parts {
        [] => out.extend_from_slice(b"()"),
        [first, others @ ..] => {
            out.extend_from_slice(b"(")?;
            push_ground(out, first)?;
            push_others(out, others)
        }
    }
}

/// What follows in a list: its parts behind the first, and the closing bracket. However many the parts are, no call
/// waits for the next part.
#[cycle(ground)]
fn push_others(out: &mut Vec<u8>, parts: &[Ground]) -> Result<(), AllocError>
    ensures { OnOk result (out.new.items ≡ out.old.items ++ terms_text (grounds_of parts.now)) }
{
    for part in parts {
        out.extend_from_slice(b" ")?;
        push_ground(out, part)?;
    }
    out.extend_from_slice(b")")
}
