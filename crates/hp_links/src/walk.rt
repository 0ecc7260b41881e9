//! The walk to the tasks that may be done first.
ghost use Rattle.std.specs.Prelude.{◌≡◌, ◌++◌, IfOk, OnOk, OnErr, length, slice_get, take, drop, reverse};
ghost use Rattle.hp_links.specs.Frames.{IsHeld, frame_in, tree_at};
ghost use Rattle.hp_links.specs.Labelled.{leads};
ghost use Rattle.hp_links.specs.Placed.{immediate_first, is_immediate};
ghost use Rattle.hp_links.specs.Walked.{IsWithinRows, to_walk};

use crate::entry::Order;
use crate::id::TaskId;
use crate::links::{Links, Part};
use std::alloc::{AllocError, Global};

impl Links {
    /// The first tasks of the tree of a number, from left to right.
    pub(crate) fn first_tasks(&self, alloc: Global, start: usize) -> Result<Vec<TaskId>, AllocError>
        requires { IsHeld (frame_in self.now) start }
        ensures { IfOk result (λ v. v.items ≡ leads (tree_at (frame_in self.now) start)) }
    {
        let mut found = Vec::new(alloc);
        let mut stack = Vec::new(alloc);
        stack.push(start)?;
        while let Some(number) = stack.pop() {
            match self.part(number) {
                Part::Task(_, _) => found.push(TaskId::new(number))?,
                Part::Row(order, start, many) => {
                    self.push_parts(&mut stack, order, start, many)?;
                }
            }
        }
        Ok(found)
    }

    // Puts what is walked next of a list behind others, the first of it last.
    fn push_parts(
        &self,
        stack: &mut Vec<usize>,
        order: Order,
        start: usize,
        many: usize,
    ) -> Result<(), AllocError>
        requires { IsWithinRows (length self.now.rows.items) start many }
        ensures { OnOk result (stack.new.items
            ≡ stack.old.items ++ reverse (to_walk order (take many (drop start self.now.rows.items)))) }
    {
        match order {
            Order::Ordered => stack.push(self.rows[start])?,
            Order::Unordered => push_reversed(stack, &self.rows[start..start + many])?,
        }
        Ok(())
    }
}

/// Puts numbers behind others, the first of them last.
pub(crate) fn push_reversed(stack: &mut Vec<usize>, numbers: &[usize]) -> Result<(), AllocError>
    ensures ok { OnOk result (stack.new.items ≡ stack.old.items ++ reverse numbers.now) }
    ensures err { OnErr result (stack.new.items ≡ stack.old.items) }
{
    let before = stack.len();
    stack.extend_from_slice(numbers)?;
    stack[before..].reverse();
    Ok(())
}

/// Whether this is an immediate task.
pub(crate) fn is_immediate(parts: &[Part], id: TaskId) -> bool
    ensures { result ≡ is_immediate (slice_get parts.now id) }
{
    match parts.get(id.number()) {
        None => false,
        Some(Part::Task(_, immediate)) => *immediate,
        Some(Part::Row(_, _, _)) => false,
    }
}

/// Where one of the tasks is immediate, leaves only those that are.
pub(crate) fn keep_immediate(parts: &[Part], found: &mut Vec<TaskId>)
    ensures { found.new.items ≡ immediate_first parts.now found.old.items }
{
    if found.iter().any(|id| is_immediate(parts, *id)) {
        found.retain(|id| is_immediate(parts, *id));
    }
}
