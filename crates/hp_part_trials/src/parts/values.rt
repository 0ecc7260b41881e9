//! Values of patterns and tasks, calls of numbers, and slots.
ghost use Rattle.std.specs.Prelude.{◌≡◌};
ghost use Rattle.hp_eval.specs.Slotted.{no_bindings};

use crate::fixtures::number;
use hp_cells::{Cell, Cells};
use hp_eval::{EvalStop, Slots, TaskTree, atom_value, call, tasks_value, value};
use hp_fixtures::page::Page;
use hp_syntax::{AtomPat, Name, NetPat, Pat, Span};
use std::alloc::{AllocError, Global};

// Where each call of the trials stands.
const SPAN: Span = Span { from: 3, to: 19 };

// The name of a call, and two numbers, each by its thousandths.
type Row = (&'static str, i64, i64);

const CALLS: [Row; 16] = [
    ("+", 2_000, 3_000),
    ("*", 1_500, -2_500),
    ("*", 500, 1),
    ("/", -7_000, 2_000),
    ("/", 7_000, -2_000),
    ("/", -1_000, 3_000),
    ("mod", -7_500, 2_000),
    ("mod", 7_500, -2_000),
    ("mod", i64::MIN, -1),
    ("^", 0, 0),
    ("^", 500, 2_000),
    ("^", -2_000, 53_000),
    ("^", -1_000, 9_223_372_036_854_775_000),
    ("^", 500, 9_223_372_036_854_775_000),
    ("^", 3_000, 33_000),
    ("max", -1_000, -2_000),
];

const FAULTS: [Row; 8] = [
    ("+", i64::MAX, 1),
    ("/", i64::MIN, -1_000),
    ("/", 1_000, 0),
    ("mod", 1_000, 0),
    ("^", 2_000, 54_000),
    ("^", 2_000, 64_000),
    ("^", 1_000, -1_000),
    ("^", 4_000, 500),
];

// What a call of two numbers gives, where it is a number.
fn called(
    alloc: Global,
    cells: &mut Cells,
    name: &str,
    m: i64,
    n: i64,
) -> Result<Option<i64>, EvalStop> {
    let first = cells.num(m)?;
    let second = cells.num(n)?;
    let name = Name::new(alloc, name.as_bytes())?;
    let cell = call(alloc, &name, &[first, second], SPAN, cells)?;
    Ok(number(cells, Some(cell)))
}

fn show_rows(page: &mut Page, alloc: Global, cells: &mut Cells, rows: &[Row]) {
    for (name, m, n) in rows {
        page.call(name, *m, *n, &called(alloc, cells, name, *m, *n));
    }
}

// A binding that is made and undone.
fn show_slots(page: &mut Page, alloc: Global, cell: Cell) -> Result<(), AllocError> {
    page.title("Slots are bound and undone");
    let mut slots = Slots::new(alloc, 2)?;
    let mark = slots.mark();
    slots.bind(1, cell);
    page.line("variables", &slots.vars());
    page.line("bindings", &slots.mark());
    page.line("?0 is bound", &slots.get(0).is_some());
    page.line("?1 is bound to its cell", &(slots.get(1) == Some(cell)));
    slots.undo_to(mark);
    page.line("?1 is bound once that is undone", &slots.get(1).is_some());
    Ok(())
}

fn depth_of_pattern(
    alloc: Global,
    cells: &mut Cells,
    slots: &Slots,
    pattern: &Pat,
) -> Result<usize, EvalStop>
    requires { slots.now ≡ no_bindings 0 }
{
    let cell = value(alloc, pattern, slots, cells)?;
    Ok(cells.depth(cell))
}

fn depth_of_atom(
    alloc: Global,
    cells: &mut Cells,
    slots: &Slots,
    atom: &AtomPat,
) -> Result<usize, EvalStop>
    requires { slots.now ≡ no_bindings 0 }
{
    let cell = atom_value(alloc, atom, slots, cells)?;
    Ok(cells.depth(cell))
}

// Whether tasks are an ordered list of one immediate task.
fn is_ordered(
    alloc: Global,
    cells: &mut Cells,
    slots: &Slots,
    tasks: &NetPat,
) -> Result<bool, EvalStop>
    requires { slots.now ≡ no_bindings 0 }
{
    let tree = tasks_value(alloc, tasks, slots, cells)?;
    Ok(
        matches!(&tree, TaskTree::Ordered(parts) if matches!(parts.as_slice(), [TaskTree::Task(_, immediate)] if *immediate)),
    )
}

/// Values of an atom's arguments, of the atom and of tasks.
pub fn show_patterns(
    page: &mut Page,
    alloc: Global,
    cells: &mut Cells,
    slots: &Slots,
    atom: &AtomPat,
    tasks: &NetPat,
)
    requires { slots.now ≡ no_bindings 0 }
{
    page.title("Values of patterns and tasks");
    for arg in &atom.args {
        page.line("depth of (3)", &depth_of_pattern(alloc, cells, slots, arg));
    }
    page.line(
        "depth of (go (3))",
        &depth_of_atom(alloc, cells, slots, atom),
    );
    page.line(
        "an ordered list of one immediate task",
        &is_ordered(alloc, cells, slots, tasks),
    );
}

/// Calls and slots.
pub fn show_values(page: &mut Page, alloc: Global, cells: &mut Cells) -> Result<(), AllocError> {
    page.title("Calls of numbers");
    show_rows(page, alloc, cells, &CALLS);
    page.title("Faults of calls");
    show_rows(page, alloc, cells, &FAULTS);
    show_slots(page, alloc, cells.nil())
}
