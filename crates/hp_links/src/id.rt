//! Names of tasks.
ghost use Rattle.std.specs.Prelude.{◌≡◌};

use std::marker::Model;

/// Names a candidate, until its network is changed.
#[derive(Clone, Copy, Debug, PartialEq, Eq)]
pub struct TaskId {
    number: usize,
}

impl Model for TaskId {
    ghost use Rattle.std.specs.Prelude.{ℕ};

    ghost Value = { ℕ };

    ghost view = { λ a. a.number };

    ghost inverse = { λ n. record { number = n } };
}

impl TaskId {
    // The task that is the part of this number.
    pub(crate) fn new(number: usize) -> TaskId
        ensures { result ≡ number }
    {
        TaskId { number }
    }

    // The number of the part.
    pub(crate) fn number(self) -> usize
        ensures { result ≡ self }
    {
        self.number
    }
}
