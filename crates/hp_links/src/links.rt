//! Numbered parts, the lists that they are parts of, and the rows of the lists.
ghost use Rattle.std.specs.Prelude.{◌≡◌, ℕ, ◌+◌, ◌-◌, ◌<◌, ◌≤◌, Bool, [], Some, None, IfOk, IfSome, length, slice_get, slice_set, vec_len};
ghost use Rattle.hp_links.specs.Changing.{HasSpan, IsSpan, IsFirstFrom, IsSlotOf, IsListed, put_at, other_of};
ghost use Rattle.hp_links.specs.Frames.{frame_in};
ghost use Rattle.hp_links.specs.Turning.{turned_right};

use crate::entry::Order;
use hp_cells::Cell;
use std::alloc::{AllocError, Global};

/// A task by its cell, immediate or not, or a list: its parts' numbers stand in the rows from a place on, so many.
#[derive(Clone, Copy, Debug)]
pub enum Part {
    Task(Cell, bool),
    Row(Order, usize, usize),
}

/// The order of a list, where its row begins, and how many parts it has.
#[derive(Clone, Copy, Debug)]
pub struct Span {
    pub(crate) order: Order,
    pub(crate) start: usize,
    pub(crate) many: usize,
}

/// Parts by number, the list that each is a part of, and the rows of the lists.
pub struct Links {
    pub(crate) parts: Vec<Part>,
    pub(crate) owners: Vec<Option<usize>>,
    pub(crate) rows: Vec<usize>,
}

impl Drop for Links {
    fn drop(self) {
        let Links {
            parts,
            owners,
            rows,
        } = self;
        drop(parts);
        drop(owners);
        drop(rows);
    }
}

impl Links {
    /// No parts.
    pub(crate) fn new(alloc: Global) -> Links
        ensures { frame_in result ≡ record { parts = []; owners = []; rows = [] } }
    {
        Links {
            parts: Vec::new(alloc),
            owners: Vec::new(alloc),
            rows: Vec::new(alloc),
        }
    }

    /// Equal parts, owners and rows.
    pub(crate) fn copy(&self, alloc: Global) -> Result<Links, AllocError>
        ensures { IfOk result (λ l. frame_in l ≡ frame_in self.now) }
    {
        Ok(Links {
            parts: Vec::from_slice(alloc, &self.parts)?,
            owners: Vec::from_slice(alloc, &self.owners)?,
            rows: Vec::from_slice(alloc, &self.rows)?,
        })
    }

    /// The cell of a task.
    pub(crate) fn cell(&self, task: usize) -> Cell
        requires { (cell : ℕ) × (immediate : Bool) × (slice_get self.now.parts.items task ≡ Some (Part.Task cell immediate)) }
        ensures { (immediate : Bool) × (slice_get self.now.parts.items task ≡ Some (Part.Task result immediate)) }
    {
        match self.part(task) {
            Part::Task(cell, _) => cell,
            Part::Row(_, _, _) => unreachable!(),
        }
    }

    /// The part of a number.
    pub(crate) fn part(&self, number: usize) -> Part
        requires { number < length self.now.parts.items }
        ensures { slice_get self.now.parts.items number ≡ Some result }
    {
        self.parts[number]
    }

    /// The list that a part belongs to.
    pub(crate) fn owner(&self, part: usize) -> Option<usize>
        requires { part < length self.now.owners.items }
        ensures { slice_get self.now.owners.items part ≡ Some result }
    {
        self.owners[part]
    }

    /// The row of a list.
    pub(crate) fn span(&self, list: usize) -> Span
        requires { HasSpan (frame_in self.now) list }
        ensures { IsSpan (frame_in self.now) list result }
    {
        match self.parts[list] {
            Part::Task(_, _) => unreachable!(),
            Part::Row(order, start, many) => Span { order, start, many },
        }
    }

    /// The first place not before one at which a number stands.
    pub(crate) fn place_in(&self, start: usize, part: usize) -> usize
        requires { (i : ℕ) × (start ≤ i) × (slice_get self.now.rows.items i ≡ Some part) }
        ensures { IsFirstFrom self.now.rows.items start part result }
    {
        let mut place = start;
        while self.rows[place] != part {
            place += 1;
        }
        place
    }

    /// The place of a part in the row of its list, if it belongs to one.
    pub(crate) fn slot_of(&self, owner: Option<usize>, part: usize) -> Option<usize>
        requires { IsListed (frame_in self.now) owner part }
        ensures { IsSlotOf (frame_in self.now) owner part result }
    {
        match owner {
            None => None,
            Some(list) => {
                let span = self.span(list);
                Some(self.place_in(span.start, part))
            }
        }
    }

    /// The other one of two parts, of which one stands at this place.
    pub(crate) fn other(&self, start: usize, place: usize) -> usize
        requires { start + 1 < vec_len self.now.rows }
        ensures { slice_get self.now.rows.items (other_of start place) ≡ Some result }
    {
        if place == start {
            self.rows[start + 1]
        } else {
            self.rows[start]
        }
    }

    /// Hangs a part into a row, as a part of its list.
    pub(crate) fn hang(&mut self, part: usize, slot: Option<usize>, owner: Option<usize>)
        requires part { part < vec_len self.old.owners }
        requires slot { IfSome slot (λ q. q < vec_len self.old.rows) }
        ensures parts { self.new.parts ≡ self.old.parts }
        ensures owners { self.new.owners.items ≡ slice_set self.old.owners.items part owner }
        ensures rows { self.new.rows.items ≡ put_at slot part self.old.rows.items }
    {
        self.owners[part] = owner;
        if let Some(place) = slot {
            self.rows[place] = part;
        }
    }

    /// Takes the part at a place out of the row of its list.
    pub(crate) fn shorten(&mut self, list: usize, span: Span, place: usize)
        requires list { list < vec_len self.old.parts }
        requires place { (span.start ≤ place) × (place < vec_len self.old.rows) × (0 < span.many) }
        ensures parts { self.new.parts.items
            ≡ slice_set self.old.parts.items list (Part.Row span.order (span.start + 1) (span.many - 1)) }
        ensures owners { self.new.owners ≡ self.old.owners }
        ensures rows { self.new.rows.items ≡ turned_right span.start place self.old.rows.items }
    {
        turn_right(&mut self.rows, span.start, place);
        self.parts[list] = Part::Row(span.order, span.start + 1, span.many - 1);
    }
}

// Puts the number at the end before those from the start on.
fn turn_right(rows: &mut [usize], start: usize, end: usize)
    requires start { start ≤ end }
    requires end { end < length rows.old }
    ensures { rows.new ≡ turned_right start end rows.old }
{
    rows[start..end + 1].rotate_right(1);
}
