//! Large networks, whose tasks are done one after another, and that are undone again.
use crate::parts::networks::{expand_into, finish_first, next_tasks};
use hp_cells::Cell;
use hp_eval::TaskTree;
use hp_fixtures::page::Page;
use hp_net::Net;
use std::alloc::{AllocError, Global};

const TASKS: u32 = 100_000;

const DEEP: u32 = 20_000;

// Does the first task that comes next until nothing is left, at most so often: how many were done.
fn finish_all(net: &mut Net, alloc: Global, most: u32) -> Result<u32, AllocError> {
    for done in 0..most {
        if net.is_empty() {
            return Ok(done);
        }
        finish_first(net, alloc)?;
    }
    Ok(most)
}

// Undoes all changes: how many tasks come next then.
fn next_at_first(net: &mut Net, alloc: Global) -> Result<usize, AllocError> {
    net.undo_to(0);
    let tasks = next_tasks(net, alloc)?;
    Ok(tasks.len())
}

// A network of so many equal tasks in order.
fn row_of(alloc: Global, cell: Cell, count: u32) -> Result<Net, AllocError> {
    let mut tasks = Vec::new(alloc);
    for _ in 0..count {
        tasks.push(TaskTree::Task(cell, false))?;
    }
    Net::new(alloc, &TaskTree::Ordered(tasks))
}

// Decomposes the first task that comes next into two, so often.
fn deepen(
    net: &mut Net,
    alloc: Global,
    first: Cell,
    second: Cell,
    count: u32,
) -> Result<(), AllocError> {
    for _ in 0..count {
        expand_into(net, alloc, first, second)?;
    }
    Ok(())
}

// All tasks of a network are done, and undone.
fn show_worked_off(
    page: &mut Page,
    alloc: Global,
    net: &mut Net,
    most: u32,
) -> Result<(), AllocError> {
    let done = finish_all(net, alloc, most)?;
    page.line("tasks that are done", &done);
    page.line("nothing is left", &net.is_empty());
    page.told("tasks that come first again", &next_at_first(net, alloc));
    Ok(())
}

// A task that is decomposed again and again.
fn show_deep(page: &mut Page, alloc: Global, first: Cell, second: Cell) -> Result<(), AllocError> {
    page.title("Networks that nest deep");
    let mut net = row_of(alloc, first, 1)?;
    deepen(&mut net, alloc, first, second, DEEP)?;
    show_worked_off(page, alloc, &mut net, DEEP + 2)
}

fn show_long(page: &mut Page, alloc: Global, cell: Cell) -> Result<(), AllocError> {
    page.title("Networks of many tasks");
    let mut net = row_of(alloc, cell, TASKS)?;
    show_worked_off(page, alloc, &mut net, TASKS + 1)
}

/// A list of many tasks, and a deep network.
pub fn show_large(
    page: &mut Page,
    alloc: Global,
    first: Cell,
    second: Cell,
) -> Result<(), AllocError> {
    show_long(page, alloc, first)?;
    show_deep(page, alloc, first, second)
}
