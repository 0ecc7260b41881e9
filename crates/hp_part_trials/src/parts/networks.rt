//! Networks whose tasks are done and decomposed.
ghost use Rattle.std.specs.List.{All};
ghost use Rattle.hp_links.specs.Linked.{NamesTask};

use crate::parts::large_networks::show_large;
use crate::parts::undone_networks::show_undone;
use hp_cells::{Cell, Cells};
use hp_eval::TaskTree;
use hp_fixtures::page::Page;
use hp_net::{Net, TaskId};
use std::alloc::{AllocError, Global};

// The tasks that ids name.
fn tasks_of(net: &Net, ids: &[TaskId], alloc: Global) -> Result<Vec<Cell>, AllocError>
    requires { All (NamesTask net.now.now) ids.now }
{
    let mut tasks = Vec::new(alloc);
    for id in ids {
        tasks.push(net.task(*id))?;
    }
    Ok(tasks)
}

/// The tasks of the candidates, from left to right.
pub fn next_tasks(net: &Net, alloc: Global) -> Result<Vec<Cell>, AllocError> {
    let ids = net.candidates(alloc)?;
    tasks_of(net, ids.as_slice(), alloc)
}

// Whether the candidates are these, from left to right.
fn are_next(net: &Net, alloc: Global, cells: &[Cell]) -> Result<bool, AllocError> {
    let tasks = next_tasks(net, alloc)?;
    Ok(tasks.as_slice() == cells)
}

/// Does the first candidate.
pub fn finish_first(net: &mut Net, alloc: Global) -> Result<(), AllocError> {
    let ids = net.candidates(alloc)?;
    match ids.first() {
        Some(id) => net.finish(*id),
        None => Ok(()),
    }
}

// Decomposes the first candidate.
fn expand_first(net: &mut Net, alloc: Global, tree: &TaskTree) -> Result<(), AllocError> {
    let ids = net.candidates(alloc)?;
    match ids.first() {
        Some(id) => net.expand(*id, tree),
        None => Ok(()),
    }
}

// Two tasks, of which the second may be immediate.
fn two_tasks(
    alloc: Global,
    first: Cell,
    second: Cell,
    immediate: bool,
) -> Result<Vec<TaskTree>, AllocError> {
    Ok(vec![in alloc;
        TaskTree::Task(first, false),
        TaskTree::Task(second, immediate),
    ]?)
}

// A network of two unordered tasks.
fn unordered(alloc: Global, first: Cell, second: Cell, immediate: bool) -> Result<Net, AllocError> {
    let tree = TaskTree::Unordered(two_tasks(alloc, first, second, immediate)?);
    Net::new(alloc, &tree)
}

/// Decomposes the first candidate into two ordered tasks.
pub fn expand_into(
    net: &mut Net,
    alloc: Global,
    first: Cell,
    second: Cell,
) -> Result<(), AllocError> {
    let tree = TaskTree::Ordered(two_tasks(alloc, first, second, false)?);
    expand_first(net, alloc, &tree)
}

// Of x and y, x is decomposed into a and b, and a is done.
fn show_newest(
    page: &mut Page,
    alloc: Global,
    net: &mut Net,
    [x, y, a, b]: [Cell; 4],
) -> Result<(), AllocError> {
    page.title("The newest subtasks come first");
    page.told("x and y come next", &are_next(net, alloc, &[x, y]));
    expand_into(net, alloc, a, b)?;
    page.told(
        "a comes next, once x is a and then b",
        &are_next(net, alloc, &[a]),
    );
    finish_first(net, alloc)?;
    page.told(
        "b and y come next, once a is done",
        &are_next(net, alloc, &[b, y]),
    );
    Ok(())
}

// A copy of a network with two tasks stays as it is while both are done.
fn show_copy(
    page: &mut Page,
    alloc: Global,
    net: &mut Net,
    copy: &Net,
    tasks: &[Cell],
) -> Result<(), AllocError> {
    finish_first(net, alloc)?;
    finish_first(net, alloc)?;
    page.line("nothing is left, once both are done", &net.is_empty());
    page.told("b and y come next in a copy", &are_next(copy, alloc, tasks));
    Ok(())
}

// Of x and the immediate y, y is done by an empty decomposition.
fn show_immediate(
    page: &mut Page,
    alloc: Global,
    net: &mut Net,
    x: Cell,
    y: Cell,
) -> Result<(), AllocError> {
    page.title("Immediate tasks come before others");
    page.told("the immediate y comes next", &are_next(net, alloc, &[y]));
    expand_first(net, alloc, &TaskTree::Ordered(Vec::new(alloc)))?;
    page.told(
        "x comes next, once y is nothing",
        &are_next(net, alloc, &[x]),
    );
    Ok(())
}

fn four_tasks(cells: &mut Cells) -> Result<[Cell; 4], AllocError> {
    let x = cells.num(1_000)?;
    let y = cells.num(2_000)?;
    let a = cells.num(3_000)?;
    let b = cells.num(4_000)?;
    Ok([x, y, a, b])
}

// Of a network with two tasks a copy is made.
fn show_copied(
    page: &mut Page,
    alloc: Global,
    net: &mut Net,
    tasks: &[Cell],
) -> Result<(), AllocError> {
    let copy = net.copy()?;
    show_copy(page, alloc, net, &copy, tasks)
}

fn show_newest_first(
    page: &mut Page,
    alloc: Global,
    [x, y, a, b]: [Cell; 4],
) -> Result<(), AllocError> {
    let mut net = unordered(alloc, x, y, false)?;
    show_newest(page, alloc, &mut net, [x, y, a, b])?;
    show_copied(page, alloc, &mut net, &[b, y])
}

/// Networks and their candidates.
pub fn show_networks(page: &mut Page, alloc: Global, cells: &mut Cells) -> Result<(), AllocError> {
    let [x, y, a, b] = four_tasks(cells)?;
    show_newest_first(page, alloc, [x, y, a, b])?;
    show_immediate(page, alloc, &mut unordered(alloc, x, y, true)?, x, y)?;
    show_undone(page, alloc, [x, y, a, b])?;
    show_large(page, alloc, x, y)
}
