//! Names with their numbers of arguments.

ghost use Rattle.std.specs.Prelude.{◌≡◌, ◌||◌, ◌∷◌, ◌++◌, [], IfOk, OnOk, List, ℕ, false, true, ◌↔◌};
ghost use Rattle.std.specs.List.{list_any};
ghost use Rattle.hp_syntax.specs.Views.{atom_of};
ghost use Rattle.hp_lint.specs.Fitting.{agree, width};
ghost use Rattle.hp_lint.specs.LintViews.{accepts, accepts_atom, accepts_name, lent_atoms, Knows, Learns};

use hp_syntax::{AtomPat, Name};
use indexmap::IndexMap;
use std::alloc::{AllocError, Global};

/// How many arguments an atom has, and whether there may be more, since a tail stands behind them.
#[derive(Clone, Copy)]
pub struct Width {
    pub count: usize,
    pub tailed: bool,
}

impl Width {
    /// That of an atom.
    pub fn of(atom: &AtomPat) -> Width
        ensures { result ≡ width (atom_of atom.now) }
    {
        Width {
            count: atom.args.len(),
            tailed: atom.tail.is_some(),
        }
    }

    /// Whether one number of arguments may be both.
    pub fn agrees(self, other: Width) -> bool
        ensures { result ≡ agree self other }
    {
        if self.tailed {
            other.tailed || self.count <= other.count
        } else if other.tailed {
            other.count <= self.count
        } else {
            self.count == other.count
        }
    }

    /// Whether they are the same.
    fn is(self, other: Width) -> bool
        ensures { result ≡ true ↔ self ≡ other }
    {
        self.count == other.count && self.tailed == other.tailed
    }
}

/// Puts one behind others, unless it is there.
fn add_width(widths: &mut Vec<Width>, more: Width) -> Result<(), AllocError>
    ensures { OnOk result ((w : Width) → list_any (agree w) widths.new.items
        ≡ (list_any (agree w) widths.old.items || agree w more)) }
{
    if !widths.iter().any(|known| more.is(*known)) {
        widths.push(more)?;
    }
    Ok(())
}

/// The numbers of arguments that stand under each name. There are few under one, since each is told once.
pub struct Table {
    widths: IndexMap<Name, Vec<Width>>,
}

impl Drop for Table {
    fn drop(self) {
        let Table { widths } = self;
        drop(widths);
    }
}

impl Table {
    fn new(alloc: Global) -> Table
        ensures { (name : List ℕ) (w : Width) → accepts result name w ≡ false }
    {
        Table {
            widths: IndexMap::new(alloc),
        }
    }

    fn add(&mut self, alloc: Global, atom: &AtomPat) -> Result<(), AllocError>
        ensures { OnOk result (Learns (atom_of atom.now ∷ []) self.old self.new) }
    {
        let width = Width::of(atom);
        match self.widths.get_mut(&atom.name) {
            Some(widths) => add_width(widths, width)?,
            None => {
                let widths = vec![in alloc; width]?;
                self.widths.insert(atom.name.copy(alloc)?, widths)?;
            }
        }
        Ok(())
    }

    /// Adds atoms to those that it knows.
    pub fn add_all(&mut self, alloc: Global, atoms: &[&AtomPat]) -> Result<(), AllocError>
        ensures { OnOk result (Learns (lent_atoms atoms.now) self.old self.new) }
    {
        for atom in atoms {
            self.add(alloc, atom)?;
        }
        Ok(())
    }

    /// A table of these atoms.
    pub fn of(alloc: Global, atoms: &[&AtomPat]) -> Result<Table, AllocError>
        ensures { IfOk result (Knows (lent_atoms atoms.now)) }
    {
        let mut table = Table::new(alloc);
        table.add_all(alloc, atoms)?;
        Ok(table)
    }

    /// A table of these atoms and those.
    pub fn of_both(
        alloc: Global,
        atoms: &[&AtomPat],
        more: &[&AtomPat],
    ) -> Result<Table, AllocError>
        ensures { IfOk result (Knows (lent_atoms atoms.now ++ lent_atoms more.now)) }
    {
        let mut table = Table::of(alloc, atoms)?;
        table.add_all(alloc, more)?;
        Ok(table)
    }

    /// Whether a number of arguments agrees with one under the name.
    fn accepts(&self, name: &Name, width: Width) -> bool
        ensures { result ≡ accepts self.now name.now width }
    {
        match self.widths.get(name) {
            Some(widths) => widths.iter().any(|known| width.agrees(*known)),
            None => false,
        }
    }

    /// Whether an atom fits one that it knows.
    pub fn fits(&self, atom: &AtomPat) -> bool
        ensures { result ≡ accepts_atom self.now (atom_of atom.now) }
    {
        self.accepts(&atom.name, Width::of(atom))
    }

    /// Whether an atom that it knows has the name.
    pub fn has_name(&self, name: &Name) -> bool
        ensures { result ≡ accepts_name self.now name.now }
    {
        self.accepts(name, ANY_WIDTH)
    }
}

// With no argument before a tail there may be any number of them.
const ANY_WIDTH: Width = Width {
    count: 0,
    tailed: true,
};
