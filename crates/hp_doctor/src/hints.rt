//! Where a bracket may be missing or one too many.

ghost use Rattle.std.specs.Prelude.{◌≡◌, ◌++◌, ◌<◌, OnOk, Some, decimal, option_map, replicate};
ghost use Rattle.hp_doctor.specs.Explained.{are_unpaired, hint, mended_by, mended_text, named_text, nested_sentence};
ghost use Rattle.hp_doctor.specs.Explained.{nested_text, read_sentence, refused_opening, unpaired_by, unpaired_in};
ghost use Rattle.hp_doctor.specs.Explained.{unpaired_text};
ghost use Rattle.hp_doctor.specs.Nesting.{nested_rule};
ghost use Rattle.hp_doctor.specs.Texts.{file_of, texts_of};
ghost use Rattle.hp_syntax.specs.declared.limits.TheConstants.{LARGEST_TEXT};

use crate::finding::Finding;
use crate::mending::{Mend, Mended, push_closings};
use crate::nesting::{Nested, nested_rule};
use crate::notes::{push_located, push_named};
use crate::sentences::sentence;
use crate::texts::{Text, Texts};
use hp_out::Refusal;
use hp_places::{Lines, push_shown};
use hp_syntax::{Span, TextKind};
use itoa::Buffer;
use std::alloc::AllocError;

/// What is said of a rule inside another one, before the line of that one and behind it.
const NESTED: &[u8] = b"a rule begins here inside the rule of line ";

const MISSING: &[u8] = b", where a bracket may be missing";

/// What is said of a file that would be read with closing brackets at its end, before them and behind them.
const WITH: &[u8] = b"with `";

const READ: &[u8] = b"` at its end this file would be read";

/// What is said of one that would be read in front of a bracket that closes nothing.
const CUT_READ: &[u8] =
    b"cut off in front of the bracket that closes nothing, this file would be read";

/// What is said of files that would be refused so, before the reason.
const CLOSED: &[u8] = b"with all brackets closed at its end, this file would be refused here: ";

const CUT: &[u8] =
    b"cut off in front of the bracket that closes nothing, this file would be refused here: ";

/// Puts behind a finding where a bracket may be missing, if the brackets of the text aren't in pairs.
pub fn push_hint(out: &mut Vec<u8>, files: &Texts, finding: Finding) -> Result<(), AllocError>
    ensures { OnOk result (out.new.items ≡ out.old.items ++ hint (texts_of files.now) finding) }
{
    match finding {
        Finding::Refused(Refusal::Text(which, kind, _)) if are_unpaired(kind) => {
            push_unpaired_in(out, files.of(which))
        }
        _ => Ok(()),
    }
}

/// Whether brackets are open at the end, or one closes nothing.
fn are_unpaired(kind: TextKind) -> bool
    ensures { result ≡ are_unpaired kind }
{
    matches!(kind, TextKind::Unclosed | TextKind::ExtraClose)
}

/// One more place of a file whose brackets aren't in pairs.
fn push_unpaired_in(out: &mut Vec<u8>, found: Option<&Text>) -> Result<(), AllocError>
    ensures { OnOk result (out.new.items
        ≡ out.old.items ++ unpaired_in (option_map (λ t. file_of t.now) found.entry)) }
{
    match found {
        None => Ok(()),
        Some(text) => push_unpaired(out, text),
    }
}

/// The same, where the text is there.
fn push_unpaired(out: &mut Vec<u8>, text: &Text) -> Result<(), AllocError>
    ensures { OnOk result (out.new.items
        ≡ out.old.items ++ unpaired_text (file_of text.now) (file_of text.now).text) }
{
    match &text.lines {
        None => Ok(()),
        Some(lines) => push_unpaired_by(out, text, lines),
    }
}

/// The first rule inside another one, or else what would be said of the file if its brackets were in pairs.
fn push_unpaired_by(out: &mut Vec<u8>, text: &Text, lines: &Lines) -> Result<(), AllocError>
    ensures { OnOk result (out.new.items ≡ out.old.items
        ++ unpaired_by (file_of text.now) lines.now.text.items (nested_rule lines.now.text.items)) }
{
    match nested_rule(lines.text()) {
        None => push_mended(out, text),
        Some(nested) => push_nested(out, text.name, lines, nested),
    }
}

fn push_nested(
    out: &mut Vec<u8>,
    name: &[u8],
    lines: &Lines,
    nested: Nested,
) -> Result<(), AllocError>
    requires { nested.inner < LARGEST_TEXT }
    ensures { OnOk result (out.new.items
        ≡ out.old.items ++ nested_text name.now lines.now.text.items nested) }
{
    let mut says = Vec::new(*out.allocator());
    push_sentence(&mut says, lines.place(nested.outer).line)?;
    let span = Span {
        from: nested.inner as u32,
        to: nested.inner as u32 + 1,
    };
    push_shown(out, name, lines, span, says.as_slice())
}

/// What would be said of a file if its brackets were in pairs, where they aren't.
fn push_mended(out: &mut Vec<u8>, text: &Text) -> Result<(), AllocError>
    ensures { OnOk result (out.new.items
        ≡ out.old.items ++ mended_text (file_of text.now) (file_of text.now).mended) }
{
    match text.mended {
        None => Ok(()),
        Some(mended) => push_mended_by(out, text, mended),
    }
}

fn push_mended_by(out: &mut Vec<u8>, text: &Text, mended: Mended) -> Result<(), AllocError>
    ensures { OnOk result (out.new.items
        ≡ out.old.items ++ mended_by (file_of text.now) mended.mend mended.refusal) }
{
    match mended.refusal {
        None => push_read(out, text.name, mended.mend),
        Some(refusal) => push_refused(out, text, mended.mend, refusal),
    }
}

/// That a file would be read.
fn push_read(out: &mut Vec<u8>, name: &[u8], mend: Mend) -> Result<(), AllocError>
    ensures { OnOk result (out.new.items ≡ out.old.items ++ named_text name.now (read_sentence mend)) }
{
    let mut says = Vec::new(*out.allocator());
    push_read_sentence(&mut says, mend)?;
    push_named(out, name, says.as_slice())
}

fn push_read_sentence(out: &mut Vec<u8>, mend: Mend) -> Result<(), AllocError>
    ensures { OnOk result (out.new.items ≡ out.old.items ++ read_sentence mend) }
{
    match mend {
        Mend::Close(count) => push_with_closings(out, count),
        Mend::Cut(_) => out.extend_from_slice(CUT_READ),
    }
}

/// That a file would be read with so many closing brackets.
fn push_with_closings(out: &mut Vec<u8>, count: usize) -> Result<(), AllocError>
    ensures { OnOk result (out.new.items ≡ out.old.items ++ read_sentence (Mend.Close count)) }
{
    out.extend_from_slice(WITH)?;
    push_closings(out, count)?;
    out.extend_from_slice(READ)
}

/// Where a file would be refused, and why.
fn push_refused(
    out: &mut Vec<u8>,
    text: &Text,
    mend: Mend,
    refusal: Refusal,
) -> Result<(), AllocError>
    ensures { OnOk result (out.new.items ≡ out.old.items ++ mended_by (file_of text.now) mend (Some refusal)) }
{
    let finding = Finding::Refused(refusal);
    let mut says = Vec::new(*out.allocator());
    says.extend_from_slice(refused_opening(mend))?;
    says.extend_from_slice(sentence(finding))?;
    push_located(out, text, finding.aim().span, says.as_slice())
}

fn refused_opening(mend: Mend) -> &'static [u8]
    ensures { result.now ≡ refused_opening mend }
{
    match mend {
        Mend::Close(_) => CLOSED,
        Mend::Cut(_) => CUT,
    }
}

/// What is said of a rule inside that of a line.
fn push_sentence(out: &mut Vec<u8>, line: usize) -> Result<(), AllocError>
    ensures { OnOk result (out.new.items ≡ out.old.items ++ nested_sentence line) }
{
    push_around(out, NESTED, line, MISSING)
}

/// A number between two texts.
fn push_around(
    out: &mut Vec<u8>,
    before: &[u8],
    number: usize,
    behind: &[u8],
) -> Result<(), AllocError>
    ensures { OnOk result (out.new.items ≡ out.old.items ++ (before.now ++ decimal number ++ behind.now)) }
{
    let mut buffer = Buffer::new();
    out.extend_from_slice(before)?;
    out.extend_from_slice(buffer.format(number).as_bytes())?;
    out.extend_from_slice(behind)
}
