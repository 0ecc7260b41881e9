//! Memory of what is over, which is used again.
ghost use Rattle.std.specs.Prelude.{◌≡◌, IfOk};

use crate::choice::Choice;
use hp_net::TaskId;
use std::alloc::{AllocError, Global};

/// The boxes of choices and the lists of tasks that a search needs no more. It takes what it needs next from these, and
/// new memory only where none of them is left.
pub struct Rooms {
    pub alloc: Global,
    choices: Vec<Box<Choice>>,
    lists: Vec<Vec<TaskId>>,
    boxes: usize,
    rows: usize,
}

impl Drop for Rooms {
    fn drop(self) {
        let Rooms {
            alloc: _,
            choices,
            lists,
            boxes: _,
            rows: _,
        } = self;
        drop(choices);
        drop(lists);
    }
}

impl Rooms {
    /// None yet.
    pub fn new(alloc: Global) -> Rooms {
        Rooms {
            alloc,
            choices: Vec::new(alloc),
            lists: Vec::new(alloc),
            boxes: 0,
            rows: 0,
        }
    }

    /// A box with a choice. For each new one there is room where it is kept once it is over.
    pub fn boxed(&mut self, choice: Choice) -> Result<Box<Choice>, AllocError>
        ensures { IfOk result (λ b. b.value ≡ choice) }
    {
        match self.choices.pop() {
            Some(mut room) => {
                *room = choice;
                Ok(room)
            }
            None => {
                self.boxes = self.boxes.saturating_add(1);
                self.choices.reserve(self.boxes)?;
                Ok(Box::new(self.alloc, choice)?)
            }
        }
    }

    /// Keeps the box of a choice that is over.
    pub fn leave(&mut self, open: Option<Box<Choice>>) {
        if let Some(choice) = open {
            if self.choices.len() < self.choices.capacity() {
                self.choices.push_reserved(choice);
            }
        }
    }

    /// A list, whatever stands in it.
    pub fn list(&mut self) -> Result<Vec<TaskId>, AllocError> {
        match self.lists.pop() {
            Some(list) => Ok(list),
            None => {
                self.rows = self.rows.saturating_add(1);
                self.lists.reserve(self.rows)?;
                Ok(Vec::new(self.alloc))
            }
        }
    }

    /// Keeps a list that is needed no more.
    pub fn leave_list(&mut self, list: Vec<TaskId>) {
        if list.capacity() > 0 && self.lists.len() < self.lists.capacity() {
            self.lists.push_reserved(list);
        }
    }
}
