//! The roll of all tasks that ever stood in the network.

ghost use Rattle.std.specs.Prelude.{◌≡◌, ◌<◌, ℕ, List, [], ◌∷◌, ◌++◌, OnOk, length, replicate, slice_get, slice_set};
ghost use Rattle.hp_derivation.specs.Derived.{done_by};
ghost use Rattle.hp_derivation.specs.Orders.{put_all, put_in};
ghost use Rattle.hp_derivation.specs.Rolls.{IsRoll};

use crate::chain::Chain;
use std::alloc::{AllocError, Global};

/// A task that stood in the network on the way to a plan.
#[derive(Clone, Copy, Debug)]
pub struct Stood {
    /// The task that it came from, by its number; none for a task of the problem.
    pub parent: Option<usize>,
    /// How many tasks it came from, one from the other.
    pub level: usize,
    /// The deed that did it, by its number. Each task of a plan has one.
    pub deed: Option<usize>,
}

/// All tasks by their numbers, and the order in which they are read.
pub(crate) struct Roll {
    pub(crate) tasks: Vec<Stood>,
    pub(crate) chain: Chain,
}

impl Drop for Roll {
    fn drop(self) {
        let Roll { tasks, chain } = self;
        drop(tasks);
        drop(chain);
    }
}

impl Roll {
    /// No tasks.
    pub(crate) fn new(alloc: Global) -> Roll
        ensures { IsRoll result [] [] }
    {
        Roll {
            tasks: Vec::new(alloc),
            chain: Chain::new(alloc),
        }
    }

    /// The task of a number, if there is one.
    pub(crate) fn get(&self, number: usize) -> Option<Stood>
        ensures { result ≡ slice_get self.now.tasks.items number }
    {
        if number < self.tasks.len() {
            Some(self.tasks[number])
        } else {
            None
        }
    }

    /// The tasks by their numbers.
    pub(crate) fn into_tasks(self) -> Vec<Stood>
        ensures { result ≡ self.tasks }
    {
        let Roll { tasks, chain } = self;
        drop(chain);
        tasks
    }

    /// Puts in a task, which is read right behind another one, or before all.
    fn put(&mut self, task: Stood, behind: Option<usize>) -> Result<(), AllocError>
        ensures { OnOk result ((ts : List Stood) (xs : List ℕ) → IsRoll self.old ts xs
            → IsRoll self.new (ts ++ task ∷ []) (put_in behind (length ts) xs)) }
    {
        self.tasks.push(task)?;
        self.chain.put(behind)?;
        Ok(())
    }

    /// Puts in so many tasks that are alike. The first is read right behind the one that they came from, or before
    /// all, and each other one right behind the one before it.
    pub(crate) fn put_all(&mut self, task: Stood, count: usize) -> Result<(), AllocError>
        ensures { OnOk result ((ts : List Stood) (xs : List ℕ) → IsRoll self.old ts xs
            → IsRoll self.new (ts ++ replicate count task) (put_all task.parent (length ts) count xs)) }
    {
        let mut behind = task.parent;
        for _ in 0..count {
            let number = self.chain.len();
            self.put(task, behind)?;
            behind = Some(number);
        }
        Ok(())
    }

    /// Notes that a task was done by a deed.
    pub(crate) fn note(&mut self, number: usize, task: Stood, deed: usize)
        requires { number < length self.old.tasks.items }
        ensures { (ts : List Stood) (xs : List ℕ) → IsRoll self.old ts xs
            → IsRoll self.new (slice_set ts number (done_by deed task)) xs }
    {
        self.tasks[number] = Stood {
            parent: task.parent,
            level: task.level,
            deed: Some(deed),
        };
    }
}
