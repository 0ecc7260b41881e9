//! Calls of generators, and of what picks among the satisfiers of one.
ghost use Rattle.std.specs.Prelude.{◌≡◌, ◌≤◌, ℕ, OnOk, length, true};
ghost use Rattle.hp_suspended.specs.Fitting.{IsExpressionAt};
ghost use Rattle.hp_suspended.specs.SceneViews.{IsReady, code_in};
ghost use Rattle.hp_world.specs.Recorded.{IndexedBelow, Knows, history_in};
ghost use Rattle.hp_world.specs.Stages.{StageBelow};

use crate::scenes::{body_named, scene_of};
use hp_cells::{Cell, Cells, View};
use hp_code::Code;
use hp_eval::{Event, Sats, Slots};
use hp_fixtures::page::Page;
use hp_fixtures::reading::code_of;
use hp_gen::Gen;
use hp_pick::{First, Sorted};
use hp_suspended::Scene;
use hp_syntax::{SortKey, SortOrder, Span};
use hp_world::World;
use std::alloc::{AllocError, Global};

// Expressions of two variables, each an axiom's only branch.
const RULES: &str = "(defdomain expressions (
  (:- (either ?x ?y) (or (p ?x) (p ?y)))
  (:- (weighs ?x ?n) ((w ?x ?n)))
  (:- (heavy ?x ?n) ((w ?x ?n) (call > ?n 1)))
))";

const WEIGHTS: &str = "(defproblem p d ((w a 3) (w b 1) (w c 3)) ())";

const DOWNWARD: SortKey = SortKey {
    span: Span { from: 0, to: 1 },
    var: 1,
    order: SortOrder::Down,
};

// What a variable stands for, a number by its thousandths.
#[derive(Clone, Copy, Debug)]
enum Value {
    Free,
    Letter(char),
    Number(i64),
    Other,
}

// An event, and with a Sat what the two variables stand for.
type Told = (Event, Option<(Value, Value)>);

fn value_of_cell(cells: &Cells, cell: Option<Cell>) -> Value {
    match cell {
        Some(cell) if cell.index() < cells.len() => match cells.get(cell) {
            View::Sym(name) => match name.bytes() {
                [byte] => Value::Letter(char::from(*byte)),
                _ => Value::Other,
            },
            View::Num(n) => Value::Number(n),
            View::Nil | View::Cons(..) => Value::Other,
        },
        Some(_) => Value::Other,
        None => Value::Free,
    }
}

// The next event.
fn next_told<B, S: Sats<B>>(
    sats: &mut S,
    base: &B,
    cells: &mut Cells,
    slots: &mut Slots,
) -> Result<Told, AllocError>
    requires live { S.is_live sats.old ≡ true }
    requires open { S.is_open sats.old ≡ true }
    requires base { S.suits sats.old base.now cells.old }
    requires slots { S.fits sats.old slots.old }
    requires cells { S.kept sats.old ≤ length cells.old }
    ensures live { OnOk result (S.is_live sats.new ≡ true) }
    ensures open { S.is_open sats.new ≡ true }
    ensures base { S.suits sats.new base.now cells.new }
    ensures slots { S.fits sats.new slots.new }
    ensures cells { S.kept sats.new ≤ length cells.new }
{
    let event = sats.next(base, cells, slots)?;
    let values = match event {
        Event::Sat => Some((
            value_of_cell(cells, slots.value_of(0)),
            value_of_cell(cells, slots.value_of(1)),
        )),
        Event::Cut | Event::Fault(_) | Event::End => None,
    };
    Ok((event, values))
}

// Four events of satisfiers, which are then closed.
fn four_told<B, S: Sats<B>>(
    sats: &mut S,
    base: &B,
    cells: &mut Cells,
    slots: &mut Slots,
) -> Result<[Told; 4], AllocError>
    requires live { S.is_live sats.old ≡ true }
    requires open { S.is_open sats.old ≡ true }
    requires base { S.suits sats.old base.now cells.old }
    requires slots { S.fits sats.old slots.old }
    requires cells { S.kept sats.old ≤ length cells.old }
{
    let first = next_told(sats, base, cells, slots)?;
    let second = next_told(sats, base, cells, slots)?;
    let third = next_told(sats, base, cells, slots)?;
    let fourth = next_told(sats, base, cells, slots)?;
    sats.close(slots);
    Ok([first, second, third, fourth])
}

// Which of the satisfiers are given, and in which order.
#[derive(Clone, Copy)]
enum Picked {
    All,
    First,
    Sorted,
}

// Four events of what is picked among satisfiers, which had no call yet.
fn four_picked<B, S: Sats<B> + Drop>(
    alloc: Global,
    mut sats: S,
    picked: Picked,
    base: &B,
    cells: &mut Cells,
    slots: &mut Slots,
) -> Result<[Told; 4], AllocError>
    requires live { S.is_live sats ≡ true }
    requires open { S.is_open sats ≡ true }
    requires base { S.suits sats base.now cells.old }
    requires slots { S.fits sats slots.old }
    requires start { S.start sats ≡ length slots.old.trail }
    requires cells { S.kept sats ≤ length cells.old }
{
    match picked {
        Picked::All => four_told(&mut sats, base, cells, slots),
        Picked::First => {
            let mut first = First::new::<B>(sats);
            four_told(&mut first, base, cells, slots)
        }
        Picked::Sorted => {
            let mut sorted = Sorted::new::<B>(alloc, sats, DOWNWARD, slots);
            four_told(&mut sorted, base, cells, slots)
        }
    }
}

// Four events of the expression of an axiom's branch, and how many bindings there are once they are closed.
fn four_of(
    alloc: Global,
    scene: &Scene<'_>,
    cells: &mut Cells,
    word: &[u8],
    picked: Picked,
) -> Result<Option<([Told; 4], usize)>, AllocError>
    requires knows { Knows cells.old scene.now.world }
    requires below { StageBelow (length cells.old) scene.now.world.now }
{
    let Some(node) = body_named(alloc, scene.code, word)? else {
        return Ok(None);
    };
    let mut slots = Slots::new(alloc, 2)?;
    let sats = Gen::start(alloc, scene, cells, node, 1, &slots)?;
    let told = four_picked(alloc, sats, picked, scene, cells, &mut slots)?;
    Ok(Some((told, slots.mark())))
}

// An atom is deleted, and comes back as that is undone: how many there were in between.
fn delete_for_a_while(cells: &Cells, world: &mut World, gone: Cell) -> Result<usize, AllocError>
    ensures same { OnOk result (history_in world.new ≡ history_in world.old) }
    ensures knows { Knows cells.now world.old → Knows cells.now world.new }
    ensures entries { (n : ℕ) → IndexedBelow n world.old → IndexedBelow n world.new }
{
    let mark = world.mark();
    world.apply_in(cells, &[], &[gone], &[], &[])?;
    let left = world.live();
    world.undo_to(mark);
    Ok(left)
}

// Three events of the expression of a node; behind the first one an atom is gone for a while.
fn three_about(
    alloc: Global,
    scene: &mut Scene<'_>,
    cells: &mut Cells,
    node: usize,
    gone: Cell,
    slots: &mut Slots,
) -> Result<([Told; 3], usize), AllocError>
    requires ready { IsReady scene.old cells.old slots.old }
    requires node { IsExpressionAt (code_in scene.old) node }
{
    let mut sats = Gen::start(alloc, scene, cells, node, 1, slots)?;
    let first = next_told(&mut sats, scene, cells, slots)?;
    let left = delete_for_a_while(cells, &mut scene.world, gone)?;
    let second = next_told(&mut sats, scene, cells, slots)?;
    let third = next_told(&mut sats, scene, cells, slots)?;
    sats.close(slots);
    Ok(([first, second, third], left))
}

// The atom at the last place.
fn last_atom(world: &World) -> Option<Cell> {
    match world.places().checked_sub(1) {
        Some(place) => world.at(place),
        None => None,
    }
}

// Three events of the heavy ones, behind the first of which the last atom is gone for a while; how many atoms there are
// then, and how many bindings in the end.
fn three_of(
    alloc: Global,
    scene: &mut Scene<'_>,
    cells: &mut Cells,
) -> Result<Option<([Told; 3], usize, usize)>, AllocError>
    requires knows { Knows cells.old scene.old.world }
    requires below { StageBelow (length cells.old) scene.old.world.now }
{
    let (Some(gone), Some(node)) = (
        last_atom(&scene.world),
        body_named(alloc, scene.code, b"heavy")?,
    ) else {
        return Ok(None);
    };
    let mut slots = Slots::new(alloc, 2)?;
    let (told, left) = three_about(alloc, scene, cells, node, gone, &mut slots)?;
    Ok(Some((told, left, slots.mark())))
}

// Four events of an expression in a state.
fn show_four(
    page: &mut Page,
    alloc: Global,
    cells: &mut Cells,
    code: &Code,
    asked: &str,
    problem: &str,
    word: &[u8],
    picked: Picked,
) -> Result<(), AllocError> {
    let scene = scene_of(alloc, code, cells, problem)?;
    page.told(asked, &four_of(alloc, &scene, cells, word, picked));
    Ok(())
}

fn show_three(
    page: &mut Page,
    alloc: Global,
    cells: &mut Cells,
    code: &Code,
) -> Result<(), AllocError> {
    page.title(
        "A world may change between two calls, if it is as it was again: of (w ?x ?n) and (call > ?n 1)",
    );
    let mut scene = scene_of(alloc, code, cells, WEIGHTS)?;
    page.told(
        "each with ?x and ?n, the atoms while (w c 3) is gone, and the bindings once it is closed",
        &three_of(alloc, &mut scene, cells),
    );
    Ok(())
}

fn show_picked(
    page: &mut Page,
    alloc: Global,
    cells: &mut Cells,
    code: &Code,
) -> Result<(), AllocError> {
    page.title("Of (w ?x ?n), over (w a 3), (w b 1) and (w c 3)");
    show_four(
        page,
        alloc,
        cells,
        code,
        "the first",
        WEIGHTS,
        b"weighs",
        Picked::First,
    )?;
    show_four(
        page,
        alloc,
        cells,
        code,
        "downward",
        WEIGHTS,
        b"weighs",
        Picked::Sorted,
    )
}

/// Generators, the first of a generator's satisfiers, all of them in an order, and one in a world that changes.
pub fn show_generators(
    page: &mut Page,
    alloc: Global,
    cells: &mut Cells,
) -> Result<(), AllocError> {
    let Some(code) = code_of(alloc, RULES) else {
        return Ok(page.title("the expressions are no domain"));
    };
    page.title("A generator gives one event a call: of (or (p ?x) (p ?y)), over (p a)");
    show_four(
        page,
        alloc,
        cells,
        &code,
        "each with ?x and ?y, and the bindings once it is closed",
        "(defproblem p d ((p a)) ())",
        b"either",
        Picked::All,
    )?;
    show_picked(page, alloc, cells, &code)?;
    show_three(page, alloc, cells, &code)
}
