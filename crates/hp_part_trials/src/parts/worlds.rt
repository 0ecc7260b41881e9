//! Worlds that are changed and undone, and changes and costs.
ghost use Rattle.std.specs.Prelude.{◌≡◌};
ghost use Rattle.hp_eval.specs.Slotted.{no_bindings};

use crate::fixtures::symbol;
use hp_cells::{Cell, Cells};
use hp_effect::{Changes, Part, cost};
use hp_eval::Slots;
use hp_fixtures::page::Page;
use hp_syntax::{AtomPat, Pat};
use hp_world::{Applied, World};
use std::alloc::{AllocError, Global};

// The world holds these atoms in this order, and no others.
fn holds(world: &World, atoms: &[Cell]) -> bool {
    let mut left = atoms;
    for place in 0..world.places() {
        if let Some(atom) = world.at(place) {
            match left {
                [first, rest @ ..] if *first == atom => left = rest,
                _ => return false,
            }
        }
    }
    left.is_empty() && world.live() == atoms.len()
}

fn undo(world: &mut World, mark: usize) {
    if mark <= world.mark() {
        world.undo_to(mark);
    }
}

fn apply(
    world: &mut World,
    unguard: &[Cell],
    del: &[Cell],
    add: &[Cell],
    guard: &[Cell],
) -> Result<Applied, AllocError> {
    world.apply(unguard, del, add, guard)
}

fn show_added(page: &mut Page, world: &mut World, a: Cell, b: Cell) {
    let added = apply(world, &[], &[], &[a, b], &[]);
    page.told("a and b are added", &added);
    page.line("a and b hold", &holds(world, &[a, b]));
}

// Of a and b, a is deleted and added again.
fn show_moved(page: &mut Page, world: &mut World, a: Cell, b: Cell) {
    let moved = apply(world, &[], &[a], &[a], &[]);
    page.told("a is deleted and added", &moved);
    page.line("b and a hold", &holds(world, &[b, a]));
}

// The copy has no trail and stays as it is, while the world goes back.
fn show_undone(page: &mut Page, world: &mut World, copy: &World, mark: usize, a: Cell, b: Cell) {
    undo(world, mark);
    page.line("a and b hold once that is undone", &holds(world, &[a, b]));
    page.line("b and a hold in a copy", &holds(copy, &[b, a]));
    page.line("changes to undo in the copy", &copy.mark());
}

fn show_places(page: &mut Page, world: &mut World, a: Cell, b: Cell) -> Result<(), AllocError> {
    page.title("A deleted atom comes back to its place");
    show_added(page, world, a, b);
    let mark = world.mark();
    show_moved(page, world, a, b);
    let copy = world.copy()?;
    show_undone(page, world, &copy, mark, a, b);
    Ok(())
}

// An atom is not deleted where it is protected.
fn show_kept(page: &mut Page, world: &mut World, a: Cell, add: &[Cell]) {
    let is_kept = match apply(world, &[], &[a], add, &[]) {
        Ok(applied) => applied == Applied::Guarded(a),
        Err(_) => false,
    };
    page.line("a is not deleted, being guarded", &is_kept);
}

// The protected a is not deleted.
fn show_guarded(page: &mut Page, world: &mut World, a: Cell, b: Cell) {
    let added = apply(world, &[], &[], &[a, b], &[a]);
    page.told("a and b are added, and a is guarded", &added);
    show_kept(page, world, a, &[b]);
    page.line("a and b hold", &holds(world, &[a, b]));
    page.line("a alone is guarded", &(world.guards() == [a].as_slice()));
}

fn show_unguarded(page: &mut Page, world: &mut World, a: Cell, b: Cell) {
    let freed = apply(world, &[a], &[a], &[], &[]);
    page.told("a is unguarded and deleted", &freed);
    page.line("b holds", &holds(world, &[b]));
    page.line("nothing is guarded", &world.guards().is_empty());
}

// Of two protections of a, one is cancelled.
fn show_guarded_once(page: &mut Page, world: &mut World, a: Cell) {
    let freed = apply(world, &[a], &[], &[], &[]);
    page.told("a is unguarded", &freed);
    page.line("a is guarded once", &(world.guards() == [a].as_slice()));
}

// The protection that is cancelled comes back.
fn show_twice_guarded(page: &mut Page, world: &mut World, a: Cell) {
    let added = apply(world, &[], &[], &[a], &[a, a]);
    page.told("a is added, and guarded twice", &added);
    let mark = world.mark();
    show_guarded_once(page, world, a);
    undo(world, mark);
    page.line(
        "a is guarded twice once that is undone",
        &(world.guards() == [a, a].as_slice()),
    );
    show_kept(page, world, a, &[]);
}

fn show_protected(page: &mut Page, world: &mut World, a: Cell, b: Cell) {
    page.title("A protected atom stays");
    show_guarded(page, world, a, b);
    show_unguarded(page, world, a, b);
}

fn add_numbers(cells: &mut Cells, numbers: &mut Vec<Cell>, count: i64) -> Result<(), AllocError> {
    for n in 0..count {
        numbers.push(cells.num(n)?)?;
    }
    Ok(())
}

// The world is empty.
fn show_many(
    page: &mut Page,
    alloc: Global,
    cells: &mut Cells,
    world: &mut World,
) -> Result<(), AllocError> {
    page.title("Many atoms are added at once");
    let mut numbers = Vec::new(alloc);
    add_numbers(cells, &mut numbers, 80_000)?;
    let _ = apply(world, &[], &[], numbers.as_slice(), &[]);
    page.line("atoms", &world.live());
    Ok(())
}

/// Worlds that are changed.
pub fn show_worlds(page: &mut Page, alloc: Global, cells: &mut Cells) -> Result<(), AllocError> {
    let a = symbol(alloc, cells, b"a")?;
    let b = symbol(alloc, cells, b"b")?;
    show_places(page, &mut World::new(alloc), a, b)?;
    show_protected(page, &mut World::new(alloc), a, b);
    page.title("A cancelled protection comes back");
    show_twice_guarded(page, &mut World::new(alloc), a);
    show_many(page, alloc, cells, &mut World::new(alloc))
}

/// An atom is put among changes, which are applied to an empty world, and a cost is told.
pub fn show_changes(
    page: &mut Page,
    alloc: Global,
    cells: &mut Cells,
    slots: &Slots,
    atom: &AtomPat,
    price: &Pat,
)
    requires { slots.now ≡ no_bindings 0 }
{
    page.title("Changes are put and applied, and costs are told");
    let mut changes = Changes::new(alloc);
    let put = changes.put(Part::Add, atom, slots, cells);
    page.line("(p a) is put among the atoms to add", &put);
    page.line("they are", &changes.list(Part::Add).len());
    let mut world = World::new(alloc);
    page.told("they are applied", &changes.apply_to(&mut world));
    page.line("(p a) holds", &holds(&world, changes.list(Part::Add)));
    page.line("cost of 7", &cost(alloc, price, slots, cells));
}
