//! Terms without variables.

ghost use Rattle.std.specs.Prelude.{◌≡◌, ◌++◌, OnOk};
ghost use Rattle.hp_syntax.specs.GroundViews.{ground_of, grounds_of};
ghost use Rattle.hp_syntax.specs.TermTexts.{term_text, terms_text};
ghost use Rattle.hp_syntax.specs.Terms.{Listed};

use crate::words::push_number;
use hp_syntax::Ground;
use std::alloc::AllocError;

/// A term.
#[cycle(ground)]
#[tactic(auto, unfolding(hp_syntax::specs::GroundViews::ground_of))]
pub fn push_ground(text: &mut Vec<u8>, term: &Ground) -> Result<(), AllocError>
    ensures { OnOk result (text.new.items ≡ text.old.items ++ term_text (ground_of term.now)) }
{
    match term {
        Ground::Sym(name) => text.extend_from_slice(name.bytes()),
        Ground::Num(n) => push_number(text, *n),
        Ground::List(parts) => push_list(text, parts.as_slice()),
    }
}

/// A list, which begins with its first part.
#[cycle(ground)]
fn push_list(text: &mut Vec<u8>, parts: &[Ground]) -> Result<(), AllocError>
    ensures { OnOk result (text.new.items ≡ text.old.items ++ term_text (Listed (grounds_of parts.now))) }
{
    text.push(b'(')?;
    match parts {
        [] => text.extend_from_slice(b")"),
        [first, rest @ ..] => {
            push_ground(text, first)?;
            push_more(text, rest)
        }
    }
}

/// More parts of a list, and its closing bracket.
#[cycle(ground)]
#[tactic(auto, unfolding(hp_syntax::specs::GroundViews::ground_of))]
fn push_more(text: &mut Vec<u8>, parts: &[Ground]) -> Result<(), AllocError>
    ensures { OnOk result (text.new.items ≡ text.old.items ++ terms_text (grounds_of parts.now)) }
{
    for part in parts {
        text.push(b' ')?;
        push_ground(text, part)?;
    }
    text.extend_from_slice(b")")
}
