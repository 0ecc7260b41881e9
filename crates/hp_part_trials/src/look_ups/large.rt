//! Many changes of a large world, each of an atom that is looked up.
ghost use Rattle.std.specs.Prelude.{◌≤◌, IfOk, length};
ghost use Rattle.hp_world.specs.Recorded.{Knows};
ghost use Rattle.hp_world.specs.Stages.{StageBelow};

use crate::fixtures::symbol;
use crate::look_ups::rounds::atoms_of;
use hp_cells::{Cell, Cells};
use hp_world::World;
use std::alloc::{AllocError, Global};

// The atoms of a large world, by their first argument.
const ATOMS: u32 = 100_000;

/// An atom that takes the place of the first one of its name, or of its name and a first argument.
#[derive(Clone, Copy)]
struct Replacement {
    argument: Option<Cell>,
    atom: Cell,
}

// So many replacements, by atoms that are drawn, of those with the same first argument, which is an atom's number.
fn by_argument(
    alloc: Global,
    cells: &mut Cells,
    atoms: &[Cell],
    count: u32,
) -> Result<Vec<Replacement>, AllocError> {
    let mut replacements = Vec::new(alloc);
    let mut number = 0;
    for _round in 0..count {
        let argument = Some(cells.num(i64::from(number) * 1_000)?);
        if let Some(atom) = atoms.get(number as usize) {
            let atom = *atom;
            replacements.push(Replacement { argument, atom })?;
        }
        number = next(number, ATOMS);
    }
    Ok(replacements)
}

// The next of numbers that are drawn without order.
fn next(number: u32, most: u32) -> u32 {
    if 0 < most && number < 1_000_000 {
        (number + 7919) % most
    } else {
        0
    }
}

// Replacements of the one atom of a name.
fn by_name(alloc: Global, atoms: &[Cell]) -> Result<Vec<Replacement>, AllocError> {
    let mut replacements = Vec::new(alloc);
    for atom in atoms {
        replacements.push(Replacement {
            argument: None,
            atom: *atom,
        })?;
    }
    Ok(replacements)
}

// An atom is added.
fn add(cells: &Cells, world: &mut World, atom: Cell) -> Result<(), AllocError>
    requires knows { Knows cells.now world.old }
    requires below { StageBelow (length cells.now) world.old.now }
    ensures knows { Knows cells.now world.new }
    ensures below { StageBelow (length cells.now) world.new.now }
{
    if atom.index() < cells.len() {
        world.apply_in(cells, &[], &[], &[atom], &[])?;
    }
    Ok(())
}

/// Atoms are added, one after another.
pub fn add_each(cells: &Cells, world: &mut World, atoms: &[Cell]) -> Result<(), AllocError>
    requires knows { Knows cells.now world.old }
    requires below { StageBelow (length cells.now) world.old.now }
    ensures knows { Knows cells.now world.new }
    ensures below { StageBelow (length cells.now) world.new.now }
{
    for atom in atoms {
        add(cells, world, *atom)?;
    }
    Ok(())
}

// The atom at a place is deleted, and another is added: whether there is one.
fn replace(
    cells: &Cells,
    world: &mut World,
    place: Option<usize>,
    atom: Cell,
) -> Result<bool, AllocError>
    requires knows { Knows cells.now world.old }
    requires below { StageBelow (length cells.now) world.old.now }
    ensures knows { Knows cells.now world.new }
    ensures below { StageBelow (length cells.now) world.new.now }
{
    let gone = match place {
        Some(place) if place < world.places() => world.at(place),
        _ => None,
    };
    match gone {
        Some(gone) if gone.index() < cells.len() && atom.index() < cells.len() => {
            world.apply_in(cells, &[], &[gone], &[atom], &[])?;
            Ok(true)
        }
        _ => Ok(false),
    }
}

// The first place of a name, or of a name and a first argument.
fn place(cells: &Cells, world: &World, name: Cell, argument: Option<Cell>) -> Option<usize>
    requires knows { Knows cells.now world.now }
    requires below { StageBelow (length cells.now) world.now.now }
{
    if cells.len() <= name.index() {
        return None;
    }
    match argument {
        Some(argument) if argument.index() < cells.len() => {
            world.next_with(cells, name, 1, argument, 0)
        }
        Some(_) => None,
        None => world.next_named(cells, name, 0),
    }
}

// How many replacements find an atom.
fn replaced(
    cells: &Cells,
    world: &mut World,
    name: Cell,
    replacements: &[Replacement],
) -> Result<usize, AllocError>
    requires knows { Knows cells.now world.old }
    requires below { StageBelow (length cells.now) world.old.now }
    ensures { IfOk result (λ n. n ≤ length replacements.now) }
{
    let mut found = 0;
    for round in 0..replacements.len() {
        let Replacement { argument, atom } = replacements[round];
        let place = place(cells, world, name, argument);
        if replace(cells, world, place, atom)? {
            found += 1;
        }
    }
    Ok(found)
}

// How many replacements find an atom in a world of some atoms.
fn replaced_among(
    alloc: Global,
    cells: &Cells,
    name: Cell,
    atoms: &[Cell],
    replacements: &[Replacement],
    parts: &[usize],
) -> Result<usize, AllocError> {
    let mut world = World::indexed(alloc, parts)?;
    add_each(cells, &mut world, atoms)?;
    replaced(cells, &mut world, name, replacements)
}

/// How many of so many changes of a large world find their atoms by the name and an argument.
pub fn found_by_argument(
    alloc: Global,
    cells: &mut Cells,
    count: u32,
    parts: &[usize],
) -> Result<usize, AllocError> {
    let name = symbol(alloc, cells, b"at")?;
    let atoms = atoms_of(alloc, cells, "(defproblem p d ({100000 (at # 0)}) ())")?;
    let others = atoms_of(alloc, cells, "(defproblem p d ({100000 (at # 1)}) ())")?;
    let replacements = by_argument(alloc, cells, &others, count)?;
    replaced_among(alloc, cells, name, &atoms, &replacements, parts)
}

/// How many of 10,000 changes of a counter find it by its name.
pub fn found_by_name(
    alloc: Global,
    cells: &mut Cells,
    parts: &[usize],
) -> Result<usize, AllocError> {
    let name = symbol(alloc, cells, b"counter")?;
    let atoms = atoms_of(alloc, cells, "(defproblem p d ({10000 (counter # 0)}) ())")?;
    let replacements = by_name(alloc, &atoms)?;
    let first = atoms_of(alloc, cells, "(defproblem p d ((counter -1 0)) ())")?;
    replaced_among(alloc, cells, name, &first, &replacements, parts)
}
