//! The kinds of a text's bytes.

ghost use Rattle.std.specs.Prelude.{◌≡◌};
ghost use Rattle.hp_syntax.specs.Text as text;

// Each name byte stands at its own place, and an opening bracket at every other place.
static NAME_BYTES: [u8; 256] = *b"\
    ((((((((((((((((((((((((((((((((\
    (!(#$%&'((*+,-./0123456789:(<=>?\
    @ABCDEFGHIJKLMNOPQRSTUVWXYZ[\\]^_\
    `abcdefghijklmnopqrstuvwxyz{|}~(\
    ((((((((((((((((((((((((((((((((\
    ((((((((((((((((((((((((((((((((\
    ((((((((((((((((((((((((((((((((\
    ((((((((((((((((((((((((((((((((";

#[inline(always)]
pub fn is_blank(byte: u8) -> bool
    ensures { result ≡ text.is_blank byte }
{
    byte <= b' ' && matches!(byte, b' ' | b'\t' | b'\r' | b'\n')
}

/// Whether a token may hold the byte.
#[inline(always)]
pub fn is_name_byte(byte: u8) -> bool
    ensures { result ≡ text.is_name_byte byte }
{
    NAME_BYTES[byte as usize] != b'('
}
