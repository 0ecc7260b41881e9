ghost use Rattle.std.specs.Prelude.{◌≡◌};
ghost use Rattle.std.specs.Option.{option_copied};
ghost use Rattle.hp_syntax.specs.Hints.{or_zero};

use smallvec::SmallVec;
use std::alloc::{AllocError, Global};
use std::hash::{Hash, Hasher};
use std::marker::Model;
use std::mem::size_of;

/// A name: of a symbol, a variable, a task or an operator. Contracts see it as its bytes, and two
/// names are equal exactly where their bytes are. One of at most 16 bytes needs no allocation.
#[derive(Debug)]
pub struct Name {
    // 16 bytes and their length fit where a longer name has its `Vec`, so they cost no room.
    bytes: SmallVec<u8, 16>,
}

const _: () = prove!(size_of::<Name>() == 32);

impl Drop for Name {
    fn drop(self) {
        let Name { bytes } = self;
        drop(bytes);
    }
}

impl Model for Name {
    ghost use Rattle.std.specs.Prelude.{List, ℕ};

    ghost Value = { List ℕ };

    ghost view = { λ a. a.bytes.items };
}

impl Name {
    ghost use Rattle.std.specs.Prelude.{◌≡◌, IfOk};
    ghost use Rattle.hp_syntax.specs.Hints.{hint_of};

    /// A name with a copy of these bytes.
    pub fn new(alloc: Global, bytes: &[u8]) -> Result<Name, AllocError>
        ensures same { IfOk result (λ name. name ≡ bytes.now) }
    {
        Ok(Name {
            bytes: SmallVec::from_slice(alloc, bytes)?,
        })
    }

    /// The bytes that it is spelled with.
    pub fn bytes(&self) -> &[u8]
        ensures same { result.now ≡ self.now }
    {
        self.bytes.as_slice()
    }

    /// A small number that tells most names apart, by their first and last bytes and their lengths: less than 256. It
    /// costs less than a hash, and serves to note where a name was found last.
    pub fn hint(&self) -> usize
        ensures { result ≡ hint_of self.now }
    {
        let bytes = self.bytes();
        let first = byte_or_zero(bytes.first());
        let last = byte_or_zero(bytes.last());
        (first + last * 8 + bytes.len() % 8 * 32) % 256
    }

    /// An equal name, in memory of its own.
    pub fn copy(&self, alloc: Global) -> Result<Name, AllocError>
        ensures same { IfOk result (λ name. name ≡ self.now) }
    {
        Name::new(alloc, self.bytes())
    }
}

// The byte that is found, if there is one.
fn byte_or_zero(byte: Option<&u8>) -> usize
    ensures { result ≡ or_zero (option_copied byte.entry) }
{
    match byte {
        Some(byte) => *byte as usize,
        None => 0,
    }
}

impl PartialEq for Name {
    ghost use Rattle.std.specs.Prelude.{bytes_eq};
    ghost use Rattle.std.proofs.Common.{rules};
    ghost use Rattle.std.specs.Cmp.Rules.{comparing};

    ghost eq = { bytes_eq };

    ghost laws = { Prim.search (comparing, rules) };

    fn eq(&self, other: &Name) -> bool {
        self.bytes() == other.bytes()
    }
}

impl Eq for Name {
    ghost use Rattle.std.proofs.Common.{rules};
    ghost use Rattle.std.specs.Cmp.Rules.{comparing};

    ghost laws = { Prim.search (comparing, rules) };
}

impl Hash for Name {
    ghost use Rattle.std.proofs.Common.{rules};
    ghost use Rattle.std.specs.Hash as fed;
    ghost use Rattle.std.specs.Cmp.Rules.{comparing, hashing};

    ghost hash_input = { fed.slice fed.u8 };

    ghost respects_eq = { Prim.search (hashing, rules) };

    fn hash<H: Hasher>(&self, state: &mut H) {
        self.bytes().hash(state);
    }
}
