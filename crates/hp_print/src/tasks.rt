//! Task lists.

ghost use Rattle.std.specs.Prelude.{◌≡◌, ◌++◌, OnOk, codes};
ghost use Rattle.hp_syntax.specs.Views.{atom_of, tasks_of, task_list_of};
ghost use Rattle.hp_syntax.specs.Written as written;
ghost use Rattle.hp_syntax.specs.Written.{node_text, rest_text};

use crate::terms::{push_atom, push_items};
use crate::words::{push_all, push_begun};
use hp_syntax::{AtomPat, Name, NetPat};
use std::alloc::AllocError;

/// `(:immediate NAME term ..)`
#[tactic(auto, unfolding(hp_syntax::specs::Written::node_text))]
fn push_immediate(text: &mut Vec<u8>, vars: &[Name], atom: &AtomPat) -> Result<(), AllocError>
    ensures { OnOk result (text.new.items ≡ text.old.items
        ++ node_text (written.immediate vars.now (atom_of atom.now))) }
{
    push_all(text, &[b"(:immediate ", atom.name.bytes()])?;
    push_items(text, vars, atom.args.as_slice(), atom.tail)
}

/// A task, or a list of tasks.
#[cycle(tasks)]
#[tactic(auto, unfolding(hp_syntax::specs::Views::tasks_of, hp_syntax::specs::Written::tasks))]
pub fn push_tasks(text: &mut Vec<u8>, vars: &[Name], tasks: &NetPat) -> Result<(), AllocError>
    ensures { OnOk result (text.new.items ≡ text.old.items
        ++ node_text (written.tasks vars.now (tasks_of tasks.now))) }
{
    match tasks {
        NetPat::Task(task) if task.immediate => push_immediate(text, vars, &task.atom),
        NetPat::Task(task) => push_atom(text, vars, &task.atom),
        NetPat::Ordered(parts) => {
            push_begun(text, b":ordered")?;
            push_task_list(text, vars, parts.as_slice())
        }
        NetPat::Unordered(parts) => {
            push_begun(text, b":unordered")?;
            push_task_list(text, vars, parts.as_slice())
        }
    }
}

/// Tasks that follow in a list, and the closing bracket.
#[cycle(tasks)]
#[tactic(auto, unfolding(hp_syntax::specs::Written::tasks, hp_syntax::specs::Written::rest_text))]
fn push_task_list(text: &mut Vec<u8>, vars: &[Name], parts: &[NetPat]) -> Result<(), AllocError>
    ensures { OnOk result (text.new.items ≡ text.old.items
        ++ rest_text (written.task_list vars.now (task_list_of parts.now)) ++ codes ")") }
{
    for part in parts {
        text.push(b' ')?;
        push_tasks(text, vars, part)?;
    }
    text.extend_from_slice(b")")
}
