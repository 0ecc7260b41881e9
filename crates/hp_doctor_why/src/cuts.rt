//! What is said of the first node that the depth cut.
ghost use Rattle.std.specs.Prelude.{◌≡◌, ◌++◌, OnOk, map, option_map};
ghost use Rattle.hp_syntax.specs.GroundViews.{ground_of};
ghost use Rattle.hp_doctor_why.specs.Said as plain;
ghost use Rattle.hp_doctor_why.specs.Whys.{cut_of};

use crate::phrases::LEFT;
use crate::reasons::Cut;
use crate::recurring::push_recurring_line;
use crate::tasks::{push_all_spaced, push_more};
use hp_syntax::Ground;
use std::alloc::AllocError;

/// How many of the tasks that are left to do are shown at most.
const TASKS_SHOWN: usize = 5;

/// The first of some tasks, at most so many as are shown.
fn first_tasks(tasks: &[Ground]) -> &[Ground]
    ensures { map ground_of result.now ≡ plain.first_tasks (map ground_of tasks.now) }
{
    if tasks.len() <= TASKS_SHOWN {
        return tasks;
    }
    &tasks[..TASKS_SHOWN]
}

/// How many of so many tasks aren't shown.
fn others(count: usize) -> u64
    ensures { result ≡ plain.others count }
{
    count.saturating_sub(TASKS_SHOWN) as u64
}

/// Puts the line of the tasks that are left to do after other bytes.
fn push_left(out: &mut Vec<u8>, tasks: &[Ground]) -> Result<(), AllocError>
    ensures { OnOk result (out.new.items ≡ out.old.items ++ plain.left_line (map ground_of tasks.now)) }
{
    out.extend_from_slice(LEFT)?;
    push_all_spaced(out, first_tasks(tasks))?;
    push_more(out, others(tasks.len()))?;
    out.extend_from_slice(b"\n")
}

/// Puts what is known of a cut after other bytes.
fn push_known(out: &mut Vec<u8>, cut: &Cut) -> Result<(), AllocError>
    ensures { OnOk result (out.new.items ≡ out.old.items ++ plain.known_cut (cut_of cut.now)) }
{
    push_recurring_line(out, cut.way.as_slice())?;
    push_left(out, cut.left.as_slice())
}

/// Puts what is known of a cut after other bytes, where anything is.
pub fn push_cut(out: &mut Vec<u8>, cut: &Option<Cut>) -> Result<(), AllocError>
    ensures { OnOk result (out.new.items ≡ out.old.items ++ plain.cut_text (option_map cut_of cut.now)) }
{
    match cut {
        Some(cut) => push_known(out, cut),
        None => Ok(()),
    }
}
