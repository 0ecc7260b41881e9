use crate::pattern::AtomPat;

/// A task of a task list.
pub struct TaskPat {
    pub atom: AtomPat,
    /// It is done before tasks that aren't immediate.
    pub immediate: bool,
}

impl Drop for TaskPat {
    fn drop(self) {
        let TaskPat { atom, immediate: _ } = self;
        drop(atom);
    }
}

/// A task list. The parts of an unordered one may be done in any order.
pub enum NetPat {
    Task(TaskPat),
    Ordered(Vec<NetPat>),
    Unordered(Vec<NetPat>),
}

impl Drop for NetPat {
    fn drop(self) {
        match self {
            NetPat::Task(task) => drop(task),
            NetPat::Ordered(parts) | NetPat::Unordered(parts) => drop(parts),
        }
    }
}
