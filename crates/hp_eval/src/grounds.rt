//! Terms, atoms and task lists without variables and calls, as a problem has them.
ghost use Rattle.std.specs.Prelude.{◌≡◌, ◌<◌, IfOk, Some, length, map, slice_get};
ghost use Rattle.std.specs.List.{All};
ghost use Rattle.hp_syntax.specs.GroundPatterns.{IsGroundPattern, AreGroundPatterns, IsGroundAtom, AreGroundTasks, IsGroundTaskList, term_said, terms_said, atom_said, network_said, networks_said};
ghost use Rattle.hp_syntax.specs.Terms.{Listed, NoTerm};
ghost use Rattle.hp_syntax.specs.Views.{pattern_of, patterns_of, atom_of, tasks_of, task_list_of};
ghost use Rattle.hp_eval.specs.GoalViews.{term_at, network_of, networks_of, TreeBelow, TreesBelow};
ghost use Rattle.hp_eval.specs.Growth.{Grows};
ghost use Rattle.hp_eval.specs.Steps.{onto};

use crate::lists::list_onto;
use crate::tasks::TaskTree;
use hp_cells::{Cell, Cells};
use hp_syntax::{AtomPat, NetPat, Pat, PatKind};
use std::alloc::{AllocError, Global};

// The cells of the terms that patterns say, one after another.
#[cycle(ground)]
fn ground_parts(alloc: Global, parts: &[Pat], cells: &mut Cells) -> Result<Vec<Cell>, AllocError>
    requires ground { AreGroundPatterns (patterns_of parts.now) }
    ensures terms { IfOk result (λ v. terms_said (patterns_of parts.now)
        ≡ onto (map (term_at cells.new) v.items) NoTerm) }
    ensures below { IfOk result (λ v. All (λ c. c < length cells.new) v.items) }
    ensures cells { Grows cells.old cells.new }
{
    let mut found = Vec::with_capacity(alloc, parts.len())?;
    for part in parts {
        let cell = ground_term(alloc, part, cells)?;
        found.push_reserved(cell);
    }
    Ok(found)
}

// The cell of the list of the terms that patterns say.
#[cycle(ground)]
fn ground_list(alloc: Global, parts: &[Pat], cells: &mut Cells) -> Result<Cell, AllocError>
    requires ground { AreGroundPatterns (patterns_of parts.now) }
    ensures names { IfOk result (λ c. slice_get cells.new c ≡ Some (Listed (terms_said (patterns_of parts.now)))) }
    ensures cells { Grows cells.old cells.new }
{
    let found = ground_parts(alloc, parts, cells)?;
    let list = list_onto(found, cells.nil(), cells)?;
    Ok(list)
}

/// The cell of the term that a pattern says, which holds no variable and no call. How deep it nests isn't looked at.
#[cycle(ground)]
pub fn ground_term(alloc: Global, pat: &Pat, cells: &mut Cells) -> Result<Cell, AllocError>
    requires ground { IsGroundPattern (pattern_of pat.now) }
    ensures term { IfOk result (λ c. term_at cells.new c ≡ term_said (pattern_of pat.now)) }
    ensures below { IfOk result (λ c. c < length cells.new) }
    ensures cells { Grows cells.old cells.new }
{
    match &pat.kind {
        PatKind::Sym(name) => {
            let cell = cells.sym(name)?;
            Ok(cell)
        }
        PatKind::Num(n) => {
            let cell = cells.num(*n)?;
            Ok(cell)
        }
        PatKind::List(parts, _) => {
            let cell = ground_list(alloc, parts.as_slice(), cells)?;
            Ok(cell)
        }
        PatKind::Var(_) | PatKind::Call(_, _) => Ok(cells.nil()),
    }
}

/// The cell of the term that an atom says, which holds no variable and no call: the list of its name and its arguments.
pub fn ground_atom(alloc: Global, atom: &AtomPat, cells: &mut Cells) -> Result<Cell, AllocError>
    requires ground { IsGroundAtom (atom_of atom.now) }
    ensures term { IfOk result (λ c. term_at cells.new c ≡ atom_said (atom_of atom.now)) }
    ensures below { IfOk result (λ c. c < length cells.new) }
    ensures cells { Grows cells.old cells.new }
{
    let args = ground_list(alloc, atom.args.as_slice(), cells)?;
    let name = cells.sym(&atom.name)?;
    let cell = cells.cons(name, args)?;
    Ok(cell)
}

// The trees of the tasks of a list.
#[cycle(ground_tasks)]
fn ground_task_list(
    alloc: Global,
    tasks: &[NetPat],
    cells: &mut Cells,
) -> Result<Vec<TaskTree>, AllocError>
    requires ground { IsGroundTaskList (task_list_of tasks.now) }
    ensures trees { IfOk result (λ v. networks_of cells.new v.items ≡ networks_said (task_list_of tasks.now)) }
    ensures below { IfOk result (λ v. TreesBelow (length cells.new) v.items) }
    ensures cells { Grows cells.old cells.new }
{
    let mut found = Vec::with_capacity(alloc, tasks.len())?;
    for part in tasks {
        let tree = ground_tasks(alloc, part, cells)?;
        found.push_reserved(tree);
    }
    Ok(found)
}

/// The tree of a task list that holds no variable and no call.
#[cycle(ground_tasks)]
pub fn ground_tasks(
    alloc: Global,
    tasks: &NetPat,
    cells: &mut Cells,
) -> Result<TaskTree, AllocError>
    requires ground { AreGroundTasks (tasks_of tasks.now) }
    ensures tree { IfOk result (λ t. network_of cells.new t ≡ network_said (tasks_of tasks.now)) }
    ensures below { IfOk result (TreeBelow (length cells.new)) }
    ensures cells { Grows cells.old cells.new }
{
    match tasks {
        NetPat::Task(task) => {
            let cell = ground_atom(alloc, &task.atom, cells)?;
            Ok(TaskTree::Task(cell, task.immediate))
        }
        NetPat::Ordered(parts) => {
            let trees = ground_task_list(alloc, parts.as_slice(), cells)?;
            Ok(TaskTree::Ordered(trees))
        }
        NetPat::Unordered(parts) => {
            let trees = ground_task_list(alloc, parts.as_slice(), cells)?;
            Ok(TaskTree::Unordered(trees))
        }
    }
}
