//! Kinds of names.

ghost use Rattle.std.specs.Prelude.{◌≡◌, bytes_eq};
ghost use Rattle.std.specs.List.{list_any};
ghost use Rattle.hp_syntax.specs.Names as names;
ghost use Rattle.hp_syntax.specs.Names.{reserved};

use hp_syntax::Name;

// Of most names the length tells already that they are others.
#[inline(always)]
fn are_same(bytes: &[u8], word: &[u8]) -> bool
    ensures { result ≡ bytes_eq bytes.now word.now }
{
    bytes.len() == word.len() && bytes == word
}

/// Whether the name is spelled so.
#[inline(always)]
pub fn is(name: &Name, word: &[u8]) -> bool
    ensures { result ≡ bytes_eq name.now word.now }
{
    are_same(name.bytes(), word)
}

fn begins_with(name: &Name, byte: u8) -> bool
    ensures { result ≡ names.begins_with byte name.now }
{
    match name.bytes() {
        [] => false,
        [first, ..] => *first == byte,
    }
}

/// Whether the name is a variable.
pub fn is_variable(name: &Name) -> bool
    ensures { result ≡ names.is_variable name.now }
{
    match name.bytes() {
        [first, _, ..] => *first == b'?',
        _ => false,
    }
}

fn is_reserved(bytes: &[u8]) -> bool
    ensures { result ≡ list_any (bytes_eq bytes.now) reserved }
{
    are_same(bytes, b".")
        || are_same(bytes, b"nil")
        || are_same(bytes, b"and")
        || are_same(bytes, b"or")
        || are_same(bytes, b"not")
        || are_same(bytes, b"imply")
        || are_same(bytes, b"forall")
        || are_same(bytes, b"assign")
        || are_same(bytes, b"call")
}

/// Whether the name may name an atom.
pub fn is_plain(name: &Name) -> bool
    ensures { result ≡ names.is_plain name.now }
{
    !(begins_with(name, b'?') || begins_with(name, b':') || is_reserved(name.bytes()))
}

/// Whether the name may name a branch.
pub fn is_branch_name(name: &Name) -> bool
    ensures { result ≡ names.is_branch_name name.now }
{
    is_plain(name)
        || is(name, b"and")
        || is(name, b"or")
        || is(name, b"not")
        || is(name, b"imply")
        || is(name, b"forall")
        || is(name, b"assign")
}

/// The kinds of names that may stand at the head of an atom.
#[derive(Clone, Copy)]
pub enum HeadKind {
    Plain,
    Primitive,
    Compound,
}

impl HeadKind {
    ghost use Rattle.hp_terms.specs.Heads.{fits_of};

    /// Whether the name may stand there.
    pub fn fits(self, name: &Name) -> bool
        ensures { result ≡ fits_of self name.now }
    {
        match self {
            HeadKind::Plain => is_plain(name),
            HeadKind::Primitive => is_plain(name) && begins_with(name, b'!'),
            HeadKind::Compound => is_plain(name) && !begins_with(name, b'!'),
        }
    }
}
