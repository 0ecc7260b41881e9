//! The places of atoms by one of their parts.
ghost use Rattle.std.specs.Prelude.{◌≡◌, ◌<◌, [], ◌∷◌, ◌++◌, IfSome, OnOk, length};
ghost use Rattle.std.specs.List.{All, AllZip};
ghost use Rattle.hp_cells.specs.Cells.{AreCells};
ghost use Rattle.hp_chains.specs.Entries.{IsNext};
ghost use Rattle.hp_world.specs.Keyed.{Allows, Steps, IsAsRoomy, Awaits};
ghost use Rattle.hp_world.specs.Parts.{IsKeyOf};
ghost use Rattle.hp_world.specs.Stages.{AllBelow};

use hp_cells::{Cell, Cells, View};
use hp_chains::Chains;
use std::alloc::{AllocError, Global};
use std::marker::Model;

/// What becomes of places.
#[derive(Drop)]
pub enum Step {
    /// The atom of a place goes.
    Out(usize),
    /// The atom of a place comes back.
    Back(usize),
    /// An atom comes behind the others, with the key of a number among those that wait.
    More(Cell, usize),
    /// The last place goes.
    Fewer,
}

/// The places of atoms by one of their parts: the name is part 0, and the arguments are those behind it.
pub struct PartIndex {
    part: usize,
    // By place: the atom that was put there.
    atoms: Vec<Cell>,
    chains: Chains,
    // The keys of the atoms that room was made for.
    waiting: Vec<Option<u32>>,
}

impl Drop for PartIndex {
    fn drop(self) {
        let PartIndex {
            part: _,
            atoms,
            chains,
            waiting,
        } = self;
        drop(atoms);
        drop(chains);
        drop(waiting);
    }
}

impl Model for PartIndex {
    ghost use Rattle.hp_world.specs.Keyed.{Keyed};

    ghost Value = { Keyed };

    ghost use Rattle.hp_world.specs.Keyed.{keyed_of, AreAligned};

    ghost view = { keyed_of };

    ghost invariant = { AreAligned };
}

impl PartIndex {
    /// No places.
    pub fn new(alloc: Global, part: usize) -> PartIndex
        ensures part { result.part ≡ part }
        ensures atoms { result.atoms ≡ [] }
        ensures entries { result.entries ≡ [] }
    {
        PartIndex {
            part,
            atoms: Vec::new(alloc),
            chains: Chains::new(alloc),
            waiting: Vec::new(alloc),
        }
    }

    /// The part by which places are found.
    pub fn part(&self) -> usize
        ensures { result ≡ self.now.part }
    {
        self.part
    }

    /// Makes room for so many more atoms, and has their keys wait.
    pub fn prepare(&mut self, cells: &Cells, atoms: &[Cell]) -> Result<(), AllocError>
        requires { AllBelow (length cells.now) atoms.now }
        ensures same { IsAsRoomy self.old self.new }
        ensures awaits { OnOk result (Awaits cells.now atoms.now self.new) }
    {
        self.atoms.reserve(atoms.len())?;
        self.chains.reserve(atoms.len())?;
        self.waiting.clear();
        for atom in atoms {
            self.wait(key_of(cells, *atom, self.part))?;
        }
        Ok(())
    }

    // Has one more key wait.
    fn wait(&mut self, key: Option<u32>) -> Result<(), AllocError>
        ensures same { IsAsRoomy self.old self.new }
        ensures waits { OnOk result (self.new.waiting ≡ self.old.waiting ++ key ∷ []) }
        ensures below { OnOk result (IfSome key (λ k. k < self.new.keys)) }
    {
        if let Some(key) = key {
            self.chains.widen(key)?;
        }
        self.waiting.push(key)?;
        Ok(())
    }

    /// Follows what becomes of places.
    pub fn follow(&mut self, step: &Step)
        requires { Allows step.now self.old }
        ensures { Steps step.now self.old self.new }
    {
        match *step {
            Step::Out(place) => self.chains.unlink(place),
            Step::Back(place) => self.chains.relink(place),
            Step::More(atom, number) => {
                self.atoms.push_reserved(atom);
                self.chains.push(self.waiting[number]);
            }
            Step::Fewer => {
                let _ = self.atoms.pop();
                self.chains.pop();
            }
        }
    }

    /// The least place from one on whose atom has this part.
    pub fn next_of(&self, part: Cell, from: usize) -> Option<usize>
        ensures { IsNext part self.now.entries from result }
    {
        self.chains.next_of(part.index() as u32, from)
    }
}

/// The cell of an atom's part, if it has one.
pub fn key_of(cells: &Cells, atom: Cell, part: usize) -> Option<u32>
    requires { atom < length cells.now }
    ensures key { IsKeyOf cells.now part atom result }
    ensures cells { AreCells cells.now }
{
    let mut rest = atom;
    for number in 0..part {
        match cells.get(rest) {
            View::Cons(_, tail) => rest = tail,
            View::Nil | View::Sym(_) | View::Num(_) => return None,
        }
    }
    match cells.get(rest) {
        View::Cons(head, _) => Some(head.index() as u32),
        View::Nil | View::Sym(_) | View::Num(_) => None,
    }
}

/// Has all indexes follow what becomes of places.
pub fn follow_all(indexes: &mut Vec<PartIndex>, step: &Step)
    requires { All (Allows step.now) indexes.old.items }
    ensures { AllZip (Steps step.now) indexes.old.items indexes.new.items }
{
    follow_each(indexes, step);
}

fn follow_each(indexes: &mut [PartIndex], step: &Step)
    requires { All (Allows step.now) indexes.old }
    ensures { AllZip (Steps step.now) indexes.old indexes.new }
{
    for number in 0..indexes.len() {
        indexes[number].follow(step);
    }
}

/// Makes room in all indexes for so many more atoms, and has their keys wait.
pub fn prepare_all(
    indexes: &mut Vec<PartIndex>,
    cells: &Cells,
    atoms: &[Cell],
) -> Result<(), AllocError>
    requires { AllBelow (length cells.now) atoms.now }
    ensures same { AllZip IsAsRoomy indexes.old.items indexes.new.items }
    ensures awaits { OnOk result (All (Awaits cells.now atoms.now) indexes.new.items) }
{
    prepare_each(indexes, cells, atoms)
}

fn prepare_each(indexes: &mut [PartIndex], cells: &Cells, atoms: &[Cell]) -> Result<(), AllocError>
    requires { AllBelow (length cells.now) atoms.now }
    ensures same { AllZip IsAsRoomy indexes.old indexes.new }
    ensures awaits { OnOk result (All (Awaits cells.now atoms.now) indexes.new) }
{
    for number in 0..indexes.len() {
        indexes[number].prepare(cells, atoms)?;
    }
    Ok(())
}
