//! Trees of tasks whose tasks are numbers.

ghost use Rattle.std.specs.Prelude.{◌≡◌, ◌+◌, List, pos, IfOk, OnOk, Some, slice_get};
ghost use Rattle.hp_syntax.specs.Terms.{Number, Term};
ghost use Rattle.hp_syntax.specs.Views.{tasks_of, task_list_of};
ghost use Rattle.hp_eval.specs.GoalViews.{network_of, networks_of, term_at};
ghost use Rattle.hp_eval.specs.Growth.{Grows};
ghost use Rattle.hp_derivation.specs.Numbering.{list_count, list_numbered, number_of, numbered, task_count};

use hp_cells::{Cell, Cells, View};
use hp_eval::TaskTree;
use hp_syntax::NetPat;
use std::alloc::{AllocError, Global};

/// The number that the term of a cell is.
pub(crate) fn number_at(cells: &Cells, cell: Cell) -> Option<usize>
    ensures { result ≡ number_of (term_at cells.now cell) }
{
    if cell.index() >= cells.len() {
        return None;
    }
    match cells.get(cell) {
        View::Num(n) => Some(n.unsigned_abs() as usize),
        View::Nil => None,
        View::Sym(_) => None,
        View::Cons(_, _) => None,
    }
}

/// The cell of the next number. The error is that memory ran out, or that there are 2^32 - 1 numbers.
fn next_cell(next: &mut u32, cells: &mut Cells) -> Result<Cell, AllocError>
    ensures names { IfOk result (λ c. slice_get cells.new c ≡ Some (Number (pos next.old))) }
    ensures next { OnOk result (next.new ≡ next.old + 1) }
    ensures cells { Grows cells.old cells.new }
{
    let number = *next;
    let Some(after) = number.checked_add(1) else {
        return Err(AllocError);
    };
    let cell = cells.num(i64::from(number))?;
    *next = after;
    Ok(cell)
}

// The trees of the tasks of a list.
#[cycle(numbering)]
fn numbered_parts(
    alloc: Global,
    parts: &[NetPat],
    next: &mut u32,
    cells: &mut Cells,
) -> Result<Vec<TaskTree>, AllocError>
    ensures trees { IfOk result (λ v. (terms : List Term) → Grows cells.new terms
        → networks_of terms v.items ≡ list_numbered next.old (task_list_of parts.now)) }
    ensures next { OnOk result (next.new ≡ next.old + list_count (task_list_of parts.now)) }
    ensures cells { Grows cells.old cells.new }
{
    let mut found = Vec::with_capacity(alloc, parts.len())?;
    for part in parts {
        let tree = numbered(alloc, part, next, cells)?;
        found.push_reserved(tree);
    }
    Ok(found)
}

/// The tree of a task list, with the next numbers in place of its tasks, in reading order.
#[cycle(numbering)]
pub(crate) fn numbered(
    alloc: Global,
    tasks: &NetPat,
    next: &mut u32,
    cells: &mut Cells,
) -> Result<TaskTree, AllocError>
    ensures tree { IfOk result (λ t. (terms : List Term) → Grows cells.new terms
        → network_of terms t ≡ numbered next.old (tasks_of tasks.now)) }
    ensures next { OnOk result (next.new ≡ next.old + task_count (tasks_of tasks.now)) }
    ensures cells { Grows cells.old cells.new }
{
    match tasks {
        NetPat::Task(task) => {
            let cell = next_cell(next, cells)?;
            Ok(TaskTree::Task(cell, task.immediate))
        }
        NetPat::Ordered(parts) => {
            let trees = numbered_parts(alloc, parts.as_slice(), next, cells)?;
            Ok(TaskTree::Ordered(trees))
        }
        NetPat::Unordered(parts) => {
            let trees = numbered_parts(alloc, parts.as_slice(), next, cells)?;
            Ok(TaskTree::Unordered(trees))
        }
    }
}
