//! Trees of tasks.
ghost use Rattle.std.specs.Prelude.{IfOk, length};
ghost use Rattle.hp_syntax.specs.Networks as plain;
ghost use Rattle.hp_syntax.specs.Views.{tasks_of, task_list_of};
ghost use Rattle.hp_eval.specs.GoalViews.{network_of, networks_of, TreeBelow, TreesBelow};
ghost use Rattle.hp_eval.specs.Growth.{Grows, GivesBy};
ghost use Rattle.hp_eval.specs.Slotted.{AreBelow, bindings_of};

use crate::event::EvalStop;
use crate::slots::Slots;
use crate::values::atom_value;
use hp_cells::{Cell, Cells};
use hp_syntax::NetPat;
use std::alloc::Global;

/// Tasks by their cells, each immediate or not, and lists of them.
pub enum TaskTree {
    Task(Cell, bool),
    Ordered(Vec<TaskTree>),
    Unordered(Vec<TaskTree>),
}

impl Drop for TaskTree {
    fn drop(self) {
        match self {
            TaskTree::Task(_, _) => {}
            TaskTree::Ordered(parts) | TaskTree::Unordered(parts) => drop(parts),
        }
    }
}

// The trees of a list's tasks, from left to right.
#[cycle(tasks)]
fn task_list_value(
    alloc: Global,
    tasks: &[NetPat],
    slots: &Slots,
    cells: &mut Cells,
) -> Result<Vec<TaskTree>, EvalStop>
    requires slots { AreBelow (length cells.old) slots.now }
    ensures gives { GivesBy (λ v. networks_of cells.new v.items) result
        (plain.task_list_value (task_list_of tasks.now) (bindings_of cells.old slots.now)) }
    ensures below { IfOk result (λ v. TreesBelow (length cells.new) v.items) }
    ensures cells { Grows cells.old cells.new }
{
    let mut found = Vec::with_capacity(alloc, tasks.len())?;
    for part in tasks {
        let tree = tasks_value(alloc, part, slots, cells)?;
        found.push_reserved(tree);
    }
    Ok(found)
}

/// The tree of a task list's values, from left to right, or the first fault.
#[cycle(tasks)]
pub fn tasks_value(
    alloc: Global,
    tasks: &NetPat,
    slots: &Slots,
    cells: &mut Cells,
) -> Result<TaskTree, EvalStop>
    requires slots { AreBelow (length cells.old) slots.now }
    ensures gives { GivesBy (network_of cells.new) result
        (plain.tasks_value (tasks_of tasks.now) (bindings_of cells.old slots.now)) }
    ensures below { IfOk result (TreeBelow (length cells.new)) }
    ensures cells { Grows cells.old cells.new }
{
    match tasks {
        NetPat::Task(task) => {
            let cell = atom_value(alloc, &task.atom, slots, cells)?;
            Ok(TaskTree::Task(cell, task.immediate))
        }
        NetPat::Ordered(parts) => {
            let trees = task_list_value(alloc, parts.as_slice(), slots, cells)?;
            Ok(TaskTree::Ordered(trees))
        }
        NetPat::Unordered(parts) => {
            let trees = task_list_value(alloc, parts.as_slice(), slots, cells)?;
            Ok(TaskTree::Unordered(trees))
        }
    }
}
