//! The terms that cells name.
ghost use Rattle.std.specs.Prelude.{◌≡◌, ◌<◌, ◌≤◌, ◌^◌, [], ◌∷◌, Some, IfOk, OnErr, length, take, slice_get};
ghost use Rattle.hp_syntax.specs.Terms.{Term, Terms, Symbol, Number, Listed, NoTerm, More, term_nesting};
ghost use Rattle.hp_cells.specs.Cells.{AreCells, NamesList, LooksUp, Interns};
ghost use Rattle.hp_cells.specs.Compared.{is_symbol, is_number};
ghost use Rattle.hp_cells.specs.Shows.{Shows, LooksBack};

use crate::keys::{Cell, Key, View};
use crate::table::Table;
use hp_syntax::Name;
use std::alloc::{AllocError, Global};
use std::marker::Model;

/// The terms that cells name. Each ground term stands once, behind its parts, and the first is the empty list. The name
/// of a symbol is copied once, and stays when terms are given back. A look-up notes where a name's symbol stood, also
/// through a `&Cells`, for a later one to look there first. Contracts see the list of the terms, and nothing of notes.
pub struct Cells {
    table: Table,
}

impl Drop for Cells {
    fn drop(self) {
        let Cells { table } = self;
        drop(table);
    }
}

impl Model for Cells {
    ghost use Rattle.std.specs.Prelude.{List};
    ghost use Rattle.hp_syntax.specs.Terms.{Term};
    ghost use Rattle.hp_cells.specs.TermCode.{terms_code};

    ghost Value = { List Term };

    ghost coded = { terms_code };

    ghost use Rattle.hp_cells.specs.Tables.{terms_in, IsSound};

    ghost view = { λ a. terms_in a.table };

    ghost invariant = { λ a. IsSound a.table };
}

impl Cells {
    /// Cells that name the empty list alone.
    pub fn new(alloc: Global) -> Result<Cells, AllocError>
        ensures { IfOk result (λ c. c ≡ Listed NoTerm ∷ []) }
    {
        let table = Table::new(alloc)?;
        Ok(Cells { table })
    }

    /// The number of terms.
    pub fn len(&self) -> usize
        ensures count { result ≡ length self.now }
        ensures cells { AreCells self.now }
    {
        self.table.keys.len()
    }

    /// The cell of the empty list.
    pub fn nil(&self) -> Cell
        ensures first { result ≡ 0 }
        ensures names { slice_get self.now result ≡ Some (Listed NoTerm) }
    {
        let _ = &self.table;
        Cell { place: 0 }
    }

    /// The cell of the symbol of this name, which is copied where it is new. An error leaves the terms as they are:
    /// there is no memory for one more, or there are 2^32 - 1 of them, or of names.
    pub fn sym(&mut self, name: &Name) -> Result<Cell, AllocError>
        ensures ok { IfOk result (λ cell. Interns (Symbol name.now) cell self.old self.new) }
        ensures err { OnErr result (self.new ≡ self.old) }
    {
        if let Some(cell) = self.table.find_symbol(name) {
            return Ok(cell);
        }
        let number = self.table.number_of(name)?;
        self.table.intern(Key::Sym(number), 0)
    }

    /// The cell of a number. An error leaves the terms as they are: there is no memory for one more, or there are
    /// 2^32 - 1 of them.
    pub fn num(&mut self, n: i64) -> Result<Cell, AllocError>
        ensures ok { IfOk result (λ cell. Interns (Number n) cell self.old self.new) }
        ensures err { OnErr result (self.new ≡ self.old) }
    {
        self.table.intern(Key::Num(n), 0)
    }

    /// The cell of a list, by its first part and the list of the others. An error leaves the terms as they are: there
    /// is no memory for one more, or there are 2^32 - 1 of them.
    pub fn cons(&mut self, head: Cell, tail: Cell) -> Result<Cell, AllocError>
        requires head { head < length self.old }
        requires tail { NamesList self.old tail }
        ensures ok { IfOk result (λ cell. (x : Term) (xs : Terms) → slice_get self.old head ≡ Some x
            → slice_get self.old tail ≡ Some (Listed xs) → Interns (Listed (More x xs)) cell self.old self.new) }
        ensures err { OnErr result (self.new ≡ self.old) }
    {
        let depth = usize::max(self.depth(head) + 1, self.depth(tail));
        self.table.intern(Key::Cons(head, tail), depth)
    }

    /// The cell of the symbol of this name, if the symbol stands. No cell is made, and no memory is taken.
    pub fn find_sym(&self, name: &Name) -> Option<Cell>
        ensures { LooksUp (Symbol name.now) self.now result }
    {
        self.table.find_symbol(name)
    }

    /// The cell of a number, if the number stands. No cell is made, and no memory is taken.
    pub fn find_num(&self, n: i64) -> Option<Cell>
        ensures { LooksUp (Number n) self.now result }
    {
        self.table.find(Key::Num(n))
    }

    /// The cell of a list, by its first part and the list of the others, if the list stands. No cell is made, and no
    /// memory is taken.
    pub fn find_cons(&self, head: Cell, tail: Cell) -> Option<Cell>
        requires head { head < length self.now }
        requires tail { NamesList self.now tail }
        ensures { (x : Term) (xs : Terms) → slice_get self.now head ≡ Some x
            → slice_get self.now tail ≡ Some (Listed xs) → LooksUp (Listed (More x xs)) self.now result }
    {
        self.table.find(Key::Cons(head, tail))
    }

    /// The view of a cell's term.
    pub fn get(&self, cell: Cell) -> View<'_>
        requires { cell < length self.now }
        ensures shows { (t : Term) → slice_get self.now cell ≡ Some t → Shows self.now result t }
        ensures earlier { LooksBack cell result }
        ensures cells { AreCells self.now }
    {
        let key = self.table.keys.as_slice()[cell.place as usize];
        key.view(self.table.names.as_slice())
    }

    /// Whether the term of a cell is the symbol of this name. No cell is made for the name.
    pub fn is_symbol(&self, cell: Cell, name: &Name) -> bool
        requires { cell < length self.now }
        ensures { (t : Term) → slice_get self.now cell ≡ Some t → result ≡ is_symbol name.now t }
    {
        match self.get(cell) {
            View::Sym(own) => name == own,
            View::Nil | View::Num(_) | View::Cons(_, _) => false,
        }
    }

    /// Whether the term of a cell is this number. No cell is made for the number.
    pub fn is_number(&self, cell: Cell, n: i64) -> bool
        requires { cell < length self.now }
        ensures { (t : Term) → slice_get self.now cell ≡ Some t → result ≡ is_number n t }
    {
        match self.get(cell) {
            View::Num(own) => n == own,
            View::Nil | View::Sym(_) | View::Cons(_, _) => false,
        }
    }

    /// The depth of a cell's term: of a symbol or a number 0, of a list one more than that of its deepest part, of the
    /// empty one 1. It is found without a walk through the term.
    pub fn depth(&self, cell: Cell) -> usize
        requires { cell < length self.now }
        ensures depth { (t : Term) → slice_get self.now cell ≡ Some t → result ≡ term_nesting t }
        ensures fits { result < 2 ^ 32 }
    {
        self.table.depths[cell.place as usize] as usize
    }

    /// Takes back all terms but so many of the first, of which the empty list is one; the cells of the others then name
    /// none. It takes no memory.
    pub fn give_back(&mut self, mark: usize)
        requires some { 1 ≤ mark }
        requires within { mark ≤ length self.old }
        ensures { self.new ≡ take mark self.old }
    {
        self.table.truncate(mark);
    }
}
