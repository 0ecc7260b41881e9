//! A place as it is shown.

ghost use Rattle.std.specs.Prelude.{◌≡◌, ◌++◌, ◌≤◌, OnOk, decimal, length, replicate};
ghost use Rattle.hp_places.specs.Shown.{caret_line, carets, dots, headline, indent, marked, marked_part, part_line};
ghost use Rattle.hp_places.specs.Shown.{shown};

use crate::lines::{Lines, Place};
use crate::stretch::{part_from, part_to};
use hp_syntax::Span;
use itoa::Buffer;
use std::alloc::AllocError;

/// Puts a span of a text, as it is shown, behind other bytes: a line with the name of the file, the place and a
/// sentence, then the line of the text in which the span begins, and carets below it. Of a long line the part around
/// that place is shown, between dots. The error is that memory ran out.
pub fn push_shown(
    out: &mut Vec<u8>,
    name: &[u8],
    lines: &Lines,
    span: Span,
    sentence: &[u8],
) -> Result<(), AllocError>
    ensures { OnOk result (out.new.items
        ≡ out.old.items ++ shown name.now lines.now.text.items span sentence.now) }
{
    let place = lines.place(span.from as usize);
    push_headline(out, name, place, sentence)?;
    push_marked(out, lines.line_at(span.from as usize), place.column, span)
}

/// The line that says where something is, and what.
fn push_headline(
    out: &mut Vec<u8>,
    name: &[u8],
    place: Place,
    sentence: &[u8],
) -> Result<(), AllocError>
    ensures { OnOk result (out.new.items
        ≡ out.old.items ++ headline name.now place.line place.column sentence.now) }
{
    out.extend_from_slice(name)?;
    out.extend_from_slice(b":")?;
    push_number(out, place.line)?;
    out.extend_from_slice(b":")?;
    push_number(out, place.column)?;
    out.extend_from_slice(b": ")?;
    out.extend_from_slice(sentence)?;
    out.extend_from_slice(b"\n")
}

/// A number in decimal.
fn push_number(out: &mut Vec<u8>, number: usize) -> Result<(), AllocError>
    ensures { OnOk result (out.new.items ≡ out.old.items ++ decimal number) }
{
    let mut buffer = Buffer::new();
    out.extend_from_slice(buffer.format(number).as_bytes())
}

/// The part of a line around a column, and the carets below it.
fn push_marked(out: &mut Vec<u8>, line: &[u8], column: usize, span: Span) -> Result<(), AllocError>
    requires { 1 ≤ column }
    ensures { OnOk result (out.new.items ≡ out.old.items ++ marked line.now column span) }
{
    let before = column - 1;
    let from = part_from(line, before);
    let width = span.to.saturating_sub(span.from) as usize;
    push_marked_part(out, line, from, before, width)
}

/// The part of a line that begins at an offset, and carets below the bytes behind so many of the line.
fn push_marked_part(
    out: &mut Vec<u8>,
    line: &[u8],
    from: usize,
    before: usize,
    width: usize,
) -> Result<(), AllocError>
    requires within { from ≤ length line.now }
    requires order { from ≤ before }
    ensures { OnOk result (out.new.items ≡ out.old.items ++ marked_part line.now from before width) }
{
    let to = part_to(line, from);
    push_part(out, line, from, to)?;
    push_indent(out, dots(0 < from))?;
    push_caret_line(out, &line[from..to], before - from, width)?;
    out.extend_from_slice(b"\n")
}

/// A part of a line, with dots where the line goes on.
fn push_part(out: &mut Vec<u8>, line: &[u8], from: usize, to: usize) -> Result<(), AllocError>
    requires order { from ≤ to }
    requires within { to ≤ length line.now }
    ensures { OnOk result (out.new.items ≡ out.old.items ++ part_line line.now from to) }
{
    out.extend_from_slice(dots(0 < from))?;
    out.extend_from_slice(&line[from..to])?;
    out.extend_from_slice(dots(to < line.len()))?;
    out.extend_from_slice(b"\n")
}

/// What stands where a line goes on.
fn dots(goes_on: bool) -> &'static [u8]
    ensures { result.now ≡ dots goes_on }
{
    if goes_on { b"..." } else { b"" }
}

/// Blanks below the first bytes of a line, and carets below those behind them.
fn push_caret_line(
    out: &mut Vec<u8>,
    line: &[u8],
    before: usize,
    width: usize,
) -> Result<(), AllocError>
    ensures { OnOk result (out.new.items ≡ out.old.items ++ caret_line line.now before width) }
{
    let inside = before.min(line.len());
    push_indent(out, &line[..inside])?;
    push_carets(out, width.min(line.len() - inside).max(1))
}

/// As many blanks as there are bytes, but a tab stays one.
fn push_indent(out: &mut Vec<u8>, bytes: &[u8]) -> Result<(), AllocError>
    ensures { OnOk result (out.new.items ≡ out.old.items ++ indent bytes.now) }
{
    for byte in bytes {
        out.push(if *byte == b'\t' { b'\t' } else { b' ' })?;
    }
    Ok(())
}

/// So many carets.
fn push_carets(out: &mut Vec<u8>, count: usize) -> Result<(), AllocError>
    ensures { OnOk result (out.new.items ≡ out.old.items ++ replicate count 94) }
{
    for _ in 0..count {
        out.push(b'^')?;
    }
    Ok(())
}
