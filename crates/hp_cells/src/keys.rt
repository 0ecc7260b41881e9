//! Cells, which name terms, and the keys at their places.
ghost use Rattle.std.specs.Prelude.{ℕ, List, length};
ghost use Rattle.hp_syntax.specs.Terms.{Term};
ghost use Rattle.hp_cells.specs.Keys.{Stands, KeepsBack, IsNumbered};
ghost use Rattle.hp_cells.specs.Shows.{Shows, LooksBack};

use hp_syntax::Name;
use std::hash::{Hash, Hasher};
use std::marker::Model;
use std::mem::size_of;

/// Names an interned term: a number, the place of the term among those of its `Cells`. Two cells of one `Cells` are
/// equal exactly where their terms are.
#[derive(Clone, Copy, Debug, PartialEq, Eq, Hash)]
pub struct Cell {
    pub(crate) place: u32,
}

const _: () = prove!(size_of::<(Cell, Cell)>() == 8);

impl Model for Cell {
    ghost use Rattle.std.specs.Prelude.{ℕ};

    ghost Value = { ℕ };

    ghost view = { λ a. a.place };

    ghost inverse = { λ n. record { place = n } };
}

impl Cell {
    ghost use Rattle.std.specs.Prelude.{◌≡◌};

    /// The place of the term, by which a table may be indexed.
    pub fn index(self) -> usize
        ensures { result ≡ self }
    {
        self.place as usize
    }
}

/// A term by its outermost form, without a walk through it: the empty list, a symbol, a number, or a list by its
/// first part and the list of the others.
#[derive(Clone, Copy, Debug)]
pub enum View<'a> {
    Nil,
    Sym(&'a Name),
    Num(i64),
    Cons(Cell, Cell),
}

// The key of a term, whose parts have earlier places. A symbol is told by the number of its name.
#[derive(Clone, Copy, PartialEq, Eq)]
pub(crate) enum Key {
    Nil,
    Sym(u32),
    Num(i64),
    Cons(Cell, Cell),
}

// What the first place of a list is multiplied by as it is hashed.
const HALF: u64 = 1 << 32;

// What is added to the number of a symbol as it is hashed.
const SYMBOL: u64 = 1 << 63;

impl Key {
    // The view of the term that the key stands for, among these names.
    pub(crate) fn view(self, names: &[Name]) -> View<'_>
        requires { IsNumbered (length names.now) self }
        ensures shows { (terms : List Term) (t : Term) → Stands names.now terms self t → Shows terms result t }
        ensures earlier { (cell : ℕ) → KeepsBack cell self → LooksBack cell result }
    {
        match self {
            Key::Nil => View::Nil,
            Key::Sym(number) => View::Sym(&names[number as usize]),
            Key::Num(n) => View::Num(n),
            Key::Cons(head, tail) => View::Cons(head, tail),
        }
    }
}

// A key is hashed as one number, which few others share: the places of a list are its halves, and the number of a symbol
// has the highest bit.
impl Hash for Key {
    ghost use Rattle.std.specs.Cmp.Rules.{comparing, hashing};
    ghost use Rattle.std.proofs.Common.{rules};
    ghost use Rattle.hp_cells.specs.Hashed.{hashed_key};

    ghost hash_input = { hashed_key };

    ghost respects_eq = { Prim.search (hashing, rules) };

    fn hash<H: Hasher>(&self, state: &mut H) {
        match *self {
            Key::Nil => state.write_u64(0),
            Key::Sym(number) => state.write_u64(SYMBOL + number as u64),
            Key::Num(n) => state.write_i64(n),
            Key::Cons(head, tail) => state.write_u64(head.place as u64 * HALF + tail.place as u64),
        }
    }
}
