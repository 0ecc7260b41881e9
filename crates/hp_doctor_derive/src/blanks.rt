//! The planner's own lines in the text of a plan, made blank.
ghost use Rattle.std.specs.Prelude.{◌≡◌, IfOk};
ghost use Rattle.hp_doctor.specs.Nesting.{starts};
ghost use Rattle.hp_doctor_derive.specs.Blanked.{begins_ending, begins_note, begins_plan, blanked, byte_in, is_own};
ghost use Rattle.hp_doctor_derive.specs.Blanked.{line_at, line_behind, no_line};

use std::alloc::{AllocError, Global};

/// What is known in a line: whether it is one of the planner's own, whether a plan began in it or before, and whether a
/// second one did.
#[derive(Clone, Copy, Debug)]
pub struct Line {
    pub own: bool,
    pub plan: bool,
    pub second: bool,
}

/// The text with the planner's own lines made blank, and all lines from the second plan on.
pub fn blanked(alloc: Global, text: &[u8]) -> Result<Vec<u8>, AllocError>
    ensures { IfOk result (λ v. v.items ≡ blanked text.now) }
{
    let mut out = Vec::new(alloc);
    let mut line = first_line(text);
    for (i, byte) in text.iter().enumerate() {
        out.push(byte_in(line, *byte))?;
        line = line_behind(line, *byte, &text[i + 1..]);
    }
    Ok(out)
}

/// What is known of the first line of a text.
fn first_line(text: &[u8]) -> Line
    ensures { result ≡ line_at no_line text.now }
{
    let before = Line {
        own: false,
        plan: false,
        second: false,
    };
    line_at(before, text)
}

/// What stands for a byte of a line.
fn byte_in(line: Line, byte: u8) -> u8
    ensures { result ≡ byte_in line byte }
{
    if (line.own || line.second) && byte != b'\n' {
        b' '
    } else {
        byte
    }
}

/// What is known behind a byte of a line, where this text is left.
fn line_behind(line: Line, byte: u8, left: &[u8]) -> Line
    ensures { result ≡ line_behind line byte left.now }
{
    if byte == b'\n' {
        line_at(line, left)
    } else {
        line
    }
}

/// What is known of the line that begins with this text.
fn line_at(before: Line, text: &[u8]) -> Line
    ensures { result ≡ line_at before text.now }
{
    let plan = starts(b"plan ", text);
    Line {
        own: plan || begins_ending(text) || begins_note(text),
        plan: before.plan || plan,
        second: before.second || (before.plan && plan),
    }
}

/// Whether the planner writes the line behind the steps of a plan.
fn begins_ending(text: &[u8]) -> bool
    ensures { result ≡ begins_ending text.now }
{
    starts(b"end ", text)
        || starts(b"cut ", text)
        || starts(b"stopped ", text)
        || starts(b"fault ", text)
}

/// Whether the planner writes the line before a plan or about it.
fn begins_note(text: &[u8]) -> bool
    ensures { result ≡ begins_note text.now }
{
    starts(b"path ", text)
        || starts(b"problem ", text)
        || starts(b"best ", text)
        || starts(b"depth ", text)
}

fn starts(word: &[u8], bytes: &[u8]) -> bool
    ensures { result ≡ starts word.now bytes.now }
{
    word.len() <= bytes.len() && &bytes[..word.len()] == word
}
