//! Copies of patterns, atoms, sort keys and task lists, in memory of their own.
ghost use Rattle.std.specs.Prelude.{◌≡◌, IfOk, map};
ghost use Rattle.hp_syntax.specs.Views.{pattern_of, atom_of, order_of, key_of, tasks_of};

use crate::expression::{SortKey, SortOrder};
use crate::pattern::{AtomPat, Pat, PatKind};
use crate::tasks::{NetPat, TaskPat};
use std::alloc::{AllocError, Global};

impl Pat {
    /// An equal pattern, spans included.
    #[cycle(copy_pattern)]
    #[tactic(auto, unfolding(crate::specs::Views::pattern_of))]
    pub fn copy(&self, alloc: Global) -> Result<Pat, AllocError>
        ensures same { IfOk result (λ copy. pattern_of copy ≡ pattern_of self.now) }
    {
        let kind = match &self.kind {
            PatKind::Var(v) => PatKind::Var(*v),
            PatKind::Sym(name) => PatKind::Sym(name.copy(alloc)?),
            PatKind::Num(n) => PatKind::Num(*n),
            PatKind::List(parts, tail) => PatKind::List(
                copy_patterns(parts.as_slice(), alloc)?,
                *tail,
            ),
            PatKind::Call(name, args) => PatKind::Call(
                name.copy(alloc)?,
                copy_patterns(args.as_slice(), alloc)?,
            ),
        };
        Ok(Pat {
            span: self.span,
            kind,
        })
    }
}

#[cycle(copy_pattern)]
fn copy_patterns(patterns: &[Pat], alloc: Global) -> Result<Vec<Pat>, AllocError>
    ensures same { IfOk result (λ copies. map pattern_of copies.items ≡ map pattern_of patterns.now) }
{
    let mut copies = Vec::with_capacity(alloc, patterns.len())?;
    for pattern in patterns {
        copies.push(pattern.copy(alloc)?)?;
    }
    Ok(copies)
}

impl AtomPat {
    /// An equal atom, spans included.
    pub fn copy(&self, alloc: Global) -> Result<AtomPat, AllocError>
        ensures same { IfOk result (λ copy. atom_of copy ≡ atom_of self.now) }
    {
        Ok(AtomPat {
            span: self.span,
            name: self.name.copy(alloc)?,
            args: copy_patterns(self.args.as_slice(), alloc)?,
            tail: self.tail,
        })
    }
}

impl SortOrder {
    fn copy(&self, alloc: Global) -> Result<SortOrder, AllocError>
        ensures same { IfOk result (λ copy. order_of copy ≡ order_of self.now) }
    {
        Ok(match self {
            SortOrder::Up => SortOrder::Up,
            SortOrder::Down => SortOrder::Down,
            SortOrder::Unknown(name, span) => SortOrder::Unknown(name.copy(alloc)?, *span),
        })
    }
}

impl SortKey {
    /// An equal key, spans included.
    pub fn copy(&self, alloc: Global) -> Result<SortKey, AllocError>
        ensures same { IfOk result (λ copy. key_of copy ≡ key_of self.now) }
    {
        Ok(SortKey {
            span: self.span,
            var: self.var,
            order: self.order.copy(alloc)?,
        })
    }
}

impl NetPat {
    /// An equal task list, spans included.
    #[cycle(copy_tasks)]
    #[tactic(auto, unfolding(crate::specs::Views::tasks_of))]
    pub fn copy(&self, alloc: Global) -> Result<NetPat, AllocError>
        ensures same { IfOk result (λ copy. tasks_of copy ≡ tasks_of self.now) }
    {
        Ok(match self {
            NetPat::Task(task) => NetPat::Task(TaskPat {
                atom: task.atom.copy(alloc)?,
                immediate: task.immediate,
            }),
            NetPat::Ordered(parts) => NetPat::Ordered(copy_task_list(parts.as_slice(), alloc)?),
            NetPat::Unordered(parts) => NetPat::Unordered(copy_task_list(parts.as_slice(), alloc)?),
        })
    }
}

#[cycle(copy_tasks)]
fn copy_task_list(tasks: &[NetPat], alloc: Global) -> Result<Vec<NetPat>, AllocError>
    ensures same { IfOk result (λ copies. map tasks_of copies.items ≡ map tasks_of tasks.now) }
{
    let mut copies = Vec::with_capacity(alloc, tasks.len())?;
    for part in tasks {
        copies.push(part.copy(alloc)?)?;
    }
    Ok(copies)
}
