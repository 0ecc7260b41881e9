//! The normal form of a tree of tasks, behind other entries.
ghost use Rattle.std.specs.Prelude.{◌≡◌, ℕ, ◌<◌, cond, nat_lt, IfOk, OnOk, vec_len};
ghost use Rattle.std.specs.List.{All};
ghost use Rattle.hp_eval.specs.GoalViews.{TreeBelow, TreesBelow};
ghost use Rattle.hp_links.specs.Entries.{EntryBelow};
ghost use Rattle.hp_links.specs.Pushed.{kept, kept_list, Adds, closed};

use crate::entry::{Entry, Order};
use hp_eval::TaskTree;
use std::alloc::AllocError;

// Writes how many parts a list has; a list of one part, or of none, goes. The result is how many networks there are
// then.
pub(crate) fn close_list(entries: &mut Vec<Entry>, at: usize, order: Order, count: usize) -> usize
    requires { at < vec_len entries.old }
    ensures entries { entries.new.items ≡ closed at order count entries.old.items }
    ensures networks { result ≡ cond (nat_lt count 2) count 1 }
{
    if count < 2 {
        entries.remove(at);
        return count;
    }
    entries[at] = Entry::List(order, count);
    1
}

// The normal form of a list with these parts, and how many networks it is: one, or none where it is empty.
#[cycle(push)]
fn push_list(
    entries: &mut Vec<Entry>,
    order: Order,
    parts: &[TaskTree],
) -> Result<usize, AllocError>
    ensures adds { IfOk result (λ count. Adds (kept_list order parts.now) count entries.old.items entries.new.items) }
    ensures below { OnOk result ((k : ℕ) → TreesBelow k parts.now → All (EntryBelow k) entries.old.items
        → All (EntryBelow k) entries.new.items) }
{
    let at = entries.len();
    entries.push(Entry::List(order, 0))?;
    let mut count = 0;
    for part in parts {
        count += push_tree(entries, part)?;
    }
    Ok(close_list(entries, at, order, count))
}

/// The normal form of a tree, and how many networks it is: one, or none where it is empty.
#[cycle(push)]
pub(crate) fn push_tree(entries: &mut Vec<Entry>, tree: &TaskTree) -> Result<usize, AllocError>
    ensures adds { IfOk result (λ count. Adds (kept tree.now) count entries.old.items entries.new.items) }
    ensures below { OnOk result ((k : ℕ) → TreeBelow k tree.now → All (EntryBelow k) entries.old.items
        → All (EntryBelow k) entries.new.items) }
{
    match tree {
        TaskTree::Task(cell, immediate) => {
            entries.push(Entry::Task(*cell, *immediate))?;
            Ok(1)
        }
        TaskTree::Ordered(parts) => push_list(entries, Order::Ordered, parts.as_slice()),
        TaskTree::Unordered(parts) => push_list(entries, Order::Unordered, parts.as_slice()),
    }
}
