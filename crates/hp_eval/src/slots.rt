//! The bindings of a rule's variables, by cells.
ghost use Rattle.std.specs.Prelude.{◌≡◌, ◌-◌, ◌≤◌, ◌<◌, None, Some, IfOk, length, slice_get};
ghost use Rattle.hp_eval.specs.Slotted.{no_bindings, with_bound, undone, flat};
ghost use Rattle.hp_syntax.specs.declared.limits.TheConstants.{MOST_VARIABLES};

use hp_cells::Cell;
use std::alloc::{AllocError, Global};
use std::marker::Model;

// The cell of the variable of a place, and the variable that was bound in the place's turn.
#[derive(Clone, Copy)]
struct Slot {
    value: Option<Cell>,
    listed: u32,
}

/// The bindings of one rule's variables in the order in which they were made, so that they are undone back to a
/// mark. All its memory is there from the start.
pub struct Slots {
    slots: Vec<Slot>,
    bound: usize,
}

impl Drop for Slots {
    fn drop(self) {
        let Slots { slots, bound: _ } = self;
        drop(slots);
    }
}

impl Model for Slots {
    ghost use Rattle.std.specs.Prelude.{◌≤◌, length};
    ghost use Rattle.hp_syntax.specs.declared.limits.TheConstants.{MOST_VARIABLES};
    ghost use Rattle.hp_eval.specs.Slotted.{Slotted, AreSlots, stored};

    ghost Value = { Slotted };

    ghost view = { λ a. stored a.slots.items a.bound };

    ghost invariant = { λ a. AreSlots (stored a.slots.items a.bound) × (a.bound ≤ length a.slots.items)
        × (length a.slots.items ≤ MOST_VARIABLES) };
}

impl Slots {
    /// So many variables, none of them bound. Room for all bindings is taken here.
    pub fn new(alloc: Global, vars: usize) -> Result<Slots, AllocError>
        requires few { vars ≤ MOST_VARIABLES }
        ensures { IfOk result (λ s. s ≡ no_bindings vars) }
    {
        let free = Slot {
            value: None,
            listed: 0,
        };
        let slots = vec![in alloc; free; vars]?;
        Ok(Slots { slots, bound: 0 })
    }

    /// The number of variables, of which a rule has few.
    pub fn vars(&self) -> usize
        ensures vars { result ≡ length self.now.values }
        ensures few { length self.now.values ≤ MOST_VARIABLES }
    {
        self.slots.len()
    }

    /// The cell that a variable stands for.
    pub fn get(&self, v: u32) -> Option<Cell>
        requires known { v < length self.now.values }
        ensures { result ≡ flat (slice_get self.now.values v) }
    {
        self.slots[v as usize].value
    }

    /// The cell that a variable stands for; there is none for a number that no variable has.
    pub fn value_of(&self, v: u32) -> Option<Cell>
        ensures { result ≡ flat (slice_get self.now.values v) }
    {
        if (v as usize) < self.vars() {
            self.get(v)
        } else {
            None
        }
    }

    /// The same bindings in slots of their own, where the order in which they were bound is another.
    pub fn copy(&self, alloc: Global) -> Result<Slots, AllocError>
        ensures { IfOk result (λ copy. copy.values ≡ self.now.values) }
    {
        let vars = self.vars();
        let mut copy = Slots::new(alloc, vars)?;
        for v in 0..vars as u32 {
            if let Some(cell) = self.get(v) {
                copy.bind(v, cell);
            }
        }
        Ok(copy)
    }

    /// Binds a variable.
    pub fn bind(&mut self, v: u32, cell: Cell)
        requires unbound { slice_get self.old.values v ≡ Some None }
        ensures { self.new ≡ with_bound v cell self.old }
    {
        self.slots[v as usize].value = Some(cell);
        self.slots[self.bound].listed = v;
        self.bound += 1;
    }

    /// The number of bindings made and not undone.
    pub fn mark(&self) -> usize
        ensures { result ≡ length self.now.trail }
    {
        self.bound
    }

    /// Undoes the bindings that were made since there were so many.
    pub fn undo_to(&mut self, mark: usize)
        requires earlier { mark ≤ length self.old.trail }
        ensures { self.new ≡ undone mark self.old }
    {
        while self.mark() > mark {
            self.undo_last();
        }
    }

    // Undoes the last binding.
    fn undo_last(&mut self)
        requires some { 0 < length self.old.trail }
        ensures { self.new ≡ undone (length self.old.trail - 1) self.old }
    {
        self.bound -= 1;
        let v = self.slots[self.bound].listed;
        self.slots[v as usize].value = None;
    }
}
