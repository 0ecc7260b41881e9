//! Tasks that recur on the way to a cut.
ghost use Rattle.std.specs.Prelude.{◌≡◌, ◌++◌, ◌≤◌, OnOk, length, map, take};
ghost use Rattle.std.specs.List.{list_any};
ghost use Rattle.hp_syntax.specs.GroundViews.{ground_of};
ghost use Rattle.hp_doctor_why.specs.Said as plain;
ghost use Rattle.hp_obstacles.specs.Obstacles as obstacles;

use crate::numbers::push_number;
use crate::phrases::RECUR;
use hp_obstacles::task_name;
use hp_syntax::{Ground, Name};
use std::alloc::AllocError;

fn is_named(task: &Ground, name: &Name) -> bool
    ensures { result ≡ plain.is_named name.now (ground_of task.now) }
{
    match task_name(task) {
        Some(own) => *own == *name,
        None => false,
    }
}

/// Whether one of some tasks has a name.
fn any_named(tasks: &[Ground], name: &Name) -> bool
    ensures { result ≡ list_any (plain.is_named name.now) (map ground_of tasks.now) }
{
    tasks.iter().any(|task| is_named(task, name))
}

/// How many of some tasks have a name.
fn times(tasks: &[Ground], name: &Name) -> usize
    ensures { result ≡ plain.times name.now (map ground_of tasks.now) }
{
    let mut count = 0;
    for task in tasks {
        if is_named(task, name) {
            count += 1;
        }
    }
    count
}

/// Puts a name after other bytes, and how many tasks have it, where several have.
fn push_times(out: &mut Vec<u8>, name: &Name, count: usize) -> Result<(), AllocError>
    ensures { OnOk result (out.new.items ≡ out.old.items ++ plain.count_text name.now count) }
{
    if count < 2 {
        return Ok(());
    }
    out.extend_from_slice(b" ")?;
    out.extend_from_slice(name.bytes())?;
    out.extend_from_slice(b" (")?;
    push_number(out, count as u64)?;
    out.extend_from_slice(b" times)")
}

/// Puts the name of a task, which stands at a place, after other bytes, and how many of all tasks have it: where several have, and
/// none before the place.
fn push_at(
    out: &mut Vec<u8>,
    tasks: &[Ground],
    place: usize,
    task: &Ground,
) -> Result<(), AllocError>
    requires { place ≤ length tasks.now }
    ensures { OnOk result (out.new.items ≡ out.old.items ++ plain.recurring_name (map ground_of tasks.now)
        (map ground_of (take place tasks.now)) (obstacles.task_name (ground_of task.now))) }
{
    let Some(name) = task_name(task) else {
        return Ok(());
    };
    if any_named(&tasks[..place], name) {
        return Ok(());
    }
    push_times(out, name, times(tasks, name))
}

/// Puts the names that several of some tasks have after other bytes, each with how many have it.
fn push_recurring(out: &mut Vec<u8>, tasks: &[Ground]) -> Result<(), AllocError>
    ensures { OnOk result (out.new.items ≡ out.old.items ++ plain.recurring (map ground_of tasks.now)) }
{
    for (place, task) in tasks.iter().enumerate() {
        push_at(out, tasks, place, task)?;
    }
    Ok(())
}

fn push_line(out: &mut Vec<u8>, names: &[u8]) -> Result<(), AllocError>
    ensures { OnOk result (out.new.items ≡ out.old.items ++ plain.recurring_line names.now) }
{
    if names.is_empty() {
        return Ok(());
    }
    out.extend_from_slice(RECUR)?;
    out.extend_from_slice(names)?;
    out.extend_from_slice(b"\n")
}

/// Puts the line of the names that several of some tasks have after other bytes, where there are any.
pub fn push_recurring_line(out: &mut Vec<u8>, tasks: &[Ground]) -> Result<(), AllocError>
    ensures { OnOk result (out.new.items
        ≡ out.old.items ++ plain.recurring_line (plain.recurring (map ground_of tasks.now))) }
{
    let mut names = Vec::new(*out.allocator());
    push_recurring(&mut names, tasks)?;
    push_line(out, names.as_slice())
}
