//! The gaps and tokens of a text.

ghost use Rattle.std.specs.Prelude.{◌≡◌, ◌<◌, false, length, slice_index};
ghost use Rattle.hp_syntax.specs.Text as text;
ghost use Rattle.hp_syntax.specs.Text.{NameByte, IsGap, IsToken, IsOutside, kind_at};
ghost use Rattle.hp_text.specs.Places.{IsBetween, IsStop};

use crate::byte::{is_blank, is_name_byte};

// The first place from `at` on at which no blank stands, or the end.
#[inline(always)]
fn skip_blanks(bytes: &[u8], at: usize) -> usize
    requires { IsBetween bytes.now at }
    ensures gap { IsGap bytes.now at result }
    ensures place { IsBetween bytes.now result }
    ensures stop { result < length bytes.now → text.is_blank (slice_index bytes.now result) ≡ false }
{
    let mut end = at;
    while end < bytes.len() && is_blank(bytes[end]) {
        end += 1;
    }
    end
}

// The place behind the line feed that ends the comment at `from`, or the end.
fn comment_end(bytes: &[u8], from: usize) -> usize
    requires within { from < length bytes.now }
    requires place { IsBetween bytes.now from }
    requires begins { slice_index bytes.now from ≡ 59 }
    ensures some { from < result }
    ensures gap { IsGap bytes.now from result }
    ensures place { IsBetween bytes.now result }
{
    let mut end = from + 1;
    while end < bytes.len() && bytes[end] != b'\n' {
        end += 1;
    }
    if end < bytes.len() { end + 1 } else { end }
}

/// The first place from `at` on that is neither blank nor in a comment, or the end.
#[inline(always)]
pub fn skip_gap(bytes: &[u8], at: usize) -> usize
    requires { IsBetween bytes.now at }
    ensures gap { IsGap bytes.now at result }
    ensures place { IsBetween bytes.now result }
    ensures stop { IsStop bytes.now result }
{
    let mut end = skip_blanks(bytes, at);
    while end < bytes.len() && bytes[end] == b';' {
        end = skip_blanks(bytes, comment_end(bytes, end));
    }
    end
}

/// The end of the run of name bytes that begins at `from`.
#[inline(always)]
pub fn token_end(bytes: &[u8], from: usize) -> usize
    requires within { from < length bytes.now }
    requires byte { kind_at bytes.now from ≡ NameByte }
    requires outside { IsOutside bytes.now from }
    ensures token { IsToken bytes.now from result }
    ensures place { IsBetween bytes.now result }
{
    let mut end = from + 1;
    for byte in &bytes[from + 1..] {
        if !is_name_byte(*byte) {
            return end;
        }
        end += 1;
    }
    end
}
