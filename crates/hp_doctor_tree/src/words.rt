//! Words and numbers, behind other bytes.

ghost use Rattle.std.specs.Prelude.{◌≡◌, ◌++◌, OnOk, decimal, replicate};
ghost use Rattle.hp_doctor.specs.Texts.{file_of};
ghost use Rattle.hp_syntax.specs.TermTexts.{num_text};
ghost use Rattle.hp_doctor_tree.specs.Words.{escaped, escaped_byte, line_and_column, marked, place_text};

use hp_doctor::Text;
use hp_places::Lines;
use hp_syntax::{Decimals, sign};
use itoa::Buffer;
use std::alloc::AllocError;

/// So many blanks.
pub fn push_blanks(out: &mut Vec<u8>, count: usize) -> Result<(), AllocError>
    ensures { OnOk result (out.new.items ≡ out.old.items ++ replicate count 32) }
{
    for _ in 0..count {
        out.push(b' ')?;
    }
    Ok(())
}

/// A number in decimal.
pub fn push_number(out: &mut Vec<u8>, number: usize) -> Result<(), AllocError>
    ensures { OnOk result (out.new.items ≡ out.old.items ++ decimal number) }
{
    let mut buffer = Buffer::new();
    out.extend_from_slice(buffer.format(number).as_bytes())
}

/// A number by its count of thousandths.
pub(crate) fn push_amount(out: &mut Vec<u8>, amount: i128) -> Result<(), AllocError>
    ensures { OnOk result (out.new.items ≡ out.old.items ++ num_text amount) }
{
    let magnitude = amount.unsigned_abs();
    let decimals = Decimals::new((magnitude % 1000) as u32);
    let mut whole = Buffer::new();
    out.extend_from_slice(sign(amount < 0))?;
    out.extend_from_slice(whole.format(magnitude / 1000).as_bytes())?;
    out.extend_from_slice(decimals.as_bytes())?;
    Ok(())
}

/// Words behind a mark, where there are any.
pub(crate) fn push_marked(out: &mut Vec<u8>, mark: &[u8], words: &[u8]) -> Result<(), AllocError>
    ensures { OnOk result (out.new.items ≡ out.old.items ++ marked mark.now words.now) }
{
    if words.is_empty() {
        return Ok(());
    }
    out.extend_from_slice(mark)?;
    out.extend_from_slice(words)
}

/// Bytes as they stand between quotation marks in the language of graphs. No name holds such a mark.
pub(crate) fn push_escaped(out: &mut Vec<u8>, bytes: &[u8]) -> Result<(), AllocError>
    ensures { OnOk result (out.new.items ≡ out.old.items ++ escaped bytes.now) }
{
    for byte in bytes {
        push_escaped_byte(out, *byte)?;
    }
    Ok(())
}

fn push_escaped_byte(out: &mut Vec<u8>, byte: u8) -> Result<(), AllocError>
    ensures { OnOk result (out.new.items ≡ out.old.items ++ escaped_byte byte) }
{
    if byte == b'\\' {
        out.extend_from_slice(b"\\\\")
    } else {
        out.extend_from_slice(&[byte])
    }
}

/// Where an offset of a file is: its name, and the line and the column where its text is there.
pub fn push_place(out: &mut Vec<u8>, file: &Text, offset: u32) -> Result<(), AllocError>
    ensures { OnOk result (out.new.items ≡ out.old.items ++ place_text (file_of file.now) offset) }
{
    out.extend_from_slice(file.name)?;
    match &file.lines {
        Some(lines) => push_line_and_column(out, lines, offset),
        None => Ok(()),
    }
}

fn push_line_and_column(out: &mut Vec<u8>, lines: &Lines, offset: u32) -> Result<(), AllocError>
    ensures { OnOk result (out.new.items
        ≡ out.old.items ++ line_and_column lines.now.text.items offset) }
{
    let place = lines.place(offset as usize);
    out.extend_from_slice(b":")?;
    push_number(out, place.line)?;
    out.extend_from_slice(b":")?;
    push_number(out, place.column)
}
