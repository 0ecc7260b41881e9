//! What is said of each remark, in one sentence for those who begin.

ghost use Rattle.std.specs.Prelude.{◌≡◌, ◌++◌, OnOk, codes, decimal};
ghost use Rattle.std.specs.Option.{option_copied};
ghost use Rattle.hp_doctor.specs.Linted.{closing, count_line, opening, quoted, remark_sentence, remark_text};
ghost use Rattle.hp_doctor.specs.Texts.{texts_of};
ghost use Rattle.hp_lint.specs.LintViews.{remark_of};

use crate::notes::push_in;
use crate::texts::Texts;
use hp_lint::{Concern, Remark};
use hp_out::text_of;
use hp_syntax::Name;
use itoa::Buffer;
use std::alloc::AllocError;

/// What stands before a name.
const GIVES: &[u8] = b"no fact, add list or axiom gives";

const DOES: &[u8] = b"no operator or method does";

const VARIABLE: &[u8] = b"variable";

const BRANCH: &[u8] = b"branch";

const ASKS: &[u8] = b"no task asks for operator";

/// What stands behind a name.
const WITH_ARGUMENTS: &[u8] = b" with this number of arguments";

const ONCE: &[u8] = b" stands only once in its rule: is it spelled so elsewhere too?";

const UNBOUND: &[u8] = b" needs a value here, and nothing before it gives it one";

const LIKE_CALL: &[u8] = b": to calculate or compare, write `call` in front of it";

const HIDDEN: &[u8] = b" is never reached: one before it always applies";

/// Puts a remark at its place behind other bytes.
pub fn push_remark(out: &mut Vec<u8>, files: &Texts, remark: &Remark) -> Result<(), AllocError>
    ensures { OnOk result (out.new.items ≡ out.old.items ++ remark_text (texts_of files.now) (remark_of remark.now)) }
{
    let mut says = Vec::new(*out.allocator());
    push_sentence(&mut says, remark)?;
    let file = files.of(text_of(remark.in_problem));
    push_in(out, file, Some(remark.span), says.as_slice())
}

fn push_sentence(out: &mut Vec<u8>, remark: &Remark) -> Result<(), AllocError>
    ensures { OnOk result (out.new.items ≡ out.old.items ++ remark_sentence (remark_of remark.now)) }
{
    out.extend_from_slice(opening(remark.concern))?;
    push_quoted(out, remark.name.as_ref())?;
    out.extend_from_slice(closing(remark.concern))
}

fn push_quoted(out: &mut Vec<u8>, name: Option<&Name>) -> Result<(), AllocError>
    ensures { OnOk result (out.new.items ≡ out.old.items ++ quoted (option_copied name.entry)) }
{
    match name {
        None => Ok(()),
        Some(name) => {
            out.extend_from_slice(b" `")?;
            out.extend_from_slice(name.bytes())?;
            out.extend_from_slice(b"`")
        }
    }
}

fn opening(concern: Concern) -> &'static [u8]
    ensures { result.now ≡ opening concern }
{
    match concern {
        Concern::NothingGives | Concern::NamedLikeCall => GIVES,
        Concern::NoRule => DOES,
        Concern::StandsOnce | Concern::Unbound => VARIABLE,
        Concern::NeverReached => BRANCH,
        Concern::NeverAsked => ASKS,
    }
}

fn closing(concern: Concern) -> &'static [u8]
    ensures { result.now ≡ closing concern }
{
    match concern {
        Concern::NothingGives | Concern::NoRule | Concern::NeverAsked => WITH_ARGUMENTS,
        Concern::StandsOnce => ONCE,
        Concern::Unbound => UNBOUND,
        Concern::NamedLikeCall => LIKE_CALL,
        Concern::NeverReached => HIDDEN,
    }
}

/// Puts the line that says how many remarks there are behind other bytes.
pub fn push_count(out: &mut Vec<u8>, count: usize) -> Result<(), AllocError>
    ensures { OnOk result (out.new.items ≡ out.old.items ++ count_line count) }
{
    let mut buffer = Buffer::new();
    out.extend_from_slice(b"remarks ")?;
    out.extend_from_slice(buffer.format(count).as_bytes())?;
    out.extend_from_slice(b"\n")
}
