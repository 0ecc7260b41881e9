//! A network that is changed and undone at random, and compared with copies that were made on the way.
use crate::look_ups::draws::Draws;
use crate::parts::networks::next_tasks;
use hp_cells::Cell;
use hp_eval::TaskTree;
use hp_fixtures::page::Page;
use hp_net::Net;
use std::alloc::{AllocError, Global};

const MOVES: usize = 10_000;

/// A copy of a network, and the number of changes that could be undone when it was made.
struct Seen {
    mark: usize,
    copy: Net,
}

impl Drop for Seen {
    fn drop(self) {
        let Seen { mark: _, copy } = self;
        drop(copy);
    }
}

// Whether the same tasks come next in two networks, or none in both.
fn agree(alloc: Global, net: &Net, copy: &Net) -> Result<bool, AllocError> {
    let tasks = next_tasks(net, alloc)?;
    let others = next_tasks(copy, alloc)?;
    Ok(net.is_empty() == copy.is_empty() && tasks.as_slice() == others.as_slice())
}

// Does one of the tasks that come next.
fn finish_one(alloc: Global, net: &mut Net, draws: &mut Draws) -> Result<(), AllocError> {
    let ids = net.candidates(alloc)?;
    if ids.is_empty() {
        return Ok(());
    }
    let id = ids[draws.below(ids.len())];
    net.finish(id)
}

// Decomposes one of the tasks that come next into one of these trees.
fn expand_one(
    alloc: Global,
    net: &mut Net,
    draws: &mut Draws,
    trees: &[TaskTree],
) -> Result<(), AllocError> {
    let ids = net.candidates(alloc)?;
    if ids.is_empty() || trees.is_empty() {
        return Ok(());
    }
    let id = ids[draws.below(ids.len())];
    net.expand(id, &trees[draws.below(trees.len())])
}

// Makes a copy.
fn see(net: &Net, seen: &mut Vec<Seen>) -> Result<(), AllocError> {
    let copy = net.copy()?;
    let mark = net.mark();
    seen.push(Seen { mark, copy })?;
    Ok(())
}

// Undoes what was changed since the last copy was made, and lets the copy go unless it is the first: whether they
// agree.
fn undo(alloc: Global, net: &mut Net, seen: &mut Vec<Seen>) -> Result<bool, AllocError> {
    let Some(last) = seen.last() else {
        return Ok(false);
    };
    if last.mark > net.mark() {
        return Ok(false);
    }
    net.undo_to(last.mark);
    let same = agree(alloc, net, &last.copy)?;
    if seen.len() > 1 {
        seen.pop();
    }
    Ok(same)
}

// Whether one move, which is drawn, leaves what a copy says.
fn agrees_after_move(
    alloc: Global,
    net: &mut Net,
    draws: &mut Draws,
    trees: &[TaskTree],
    seen: &mut Vec<Seen>,
) -> Result<bool, AllocError> {
    match draws.below(8) {
        0 | 1 | 2 => finish_one(alloc, net, draws)?,
        3 | 4 => expand_one(alloc, net, draws, trees)?,
        5 => see(net, seen)?,
        _ => return undo(alloc, net, seen),
    }
    Ok(true)
}

// How many moves leave another network than a copy says.
fn differing(
    alloc: Global,
    net: &mut Net,
    trees: &[TaskTree],
    seen: &mut Vec<Seen>,
) -> Result<usize, AllocError> {
    let mut draws = Draws { state: 1 };
    let mut differ = 0;
    for round in 0..MOVES {
        if !agrees_after_move(alloc, net, &mut draws, trees, seen)? {
            differ += 1;
        }
    }
    Ok(differ)
}

fn task(cell: Cell) -> TaskTree {
    TaskTree::Task(cell, false)
}

// Nothing, one task, tasks in order, and tasks in any order, of which one is immediate and others are in order.
fn trees_of(alloc: Global, [x, y, a, b]: [Cell; 4]) -> Result<Vec<TaskTree>, AllocError> {
    let pair = vec![in alloc; task(a), task(b)]?;
    let row = vec![in alloc; task(x), task(y), task(a)]?;
    let mixed = vec![in alloc; task(x), TaskTree::Task(y, true), TaskTree::Ordered(pair)]?;
    Ok(vec![in alloc;
        TaskTree::Ordered(Vec::new(alloc)),
        task(b),
        TaskTree::Ordered(row),
        TaskTree::Unordered(mixed),
    ]?)
}

/// Moves of a network, of which each may be undone.
pub fn show_undone(page: &mut Page, alloc: Global, tasks: [Cell; 4]) -> Result<(), AllocError> {
    page.title("Networks are undone");
    let trees = trees_of(alloc, tasks)?;
    let mut net = Net::new(alloc, &TaskTree::Unordered(trees_of(alloc, tasks)?))?;
    let mut seen = Vec::new(alloc);
    see(&net, &mut seen)?;
    let differ = differing(alloc, &mut net, trees.as_slice(), &mut seen);
    page.line("moves", &MOVES);
    page.told("undoings that give another network than the copy", &differ);
    Ok(())
}
