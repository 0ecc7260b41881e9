//! Changes as the trail has them, so that they can be undone.
ghost use Rattle.std.specs.Prelude.{◌≡◌, ◌<◌, ◌≤◌, Some, length, take};
ghost use Rattle.hp_links.specs.Undoing.{IsWithin, TurnsWithin, lengthened, put_back, turned_back};
ghost use Rattle.hp_links.specs.Turning.{turned_left};

use crate::links::{Links, Part};

/// A list lost the part at the end of this turn, whose number was put before those from the start of the row on; it had
/// so many parts.
#[derive(Clone, Copy)]
pub struct Turn {
    pub(crate) list: usize,
    pub(crate) start: usize,
    pub(crate) many: usize,
    pub(crate) end: usize,
}

/// What a change wrote over: how many parts and places in rows there were, the numbers of the whole network, of the
/// focus and of the front, at most one owner and one place in a row, each by its number, and the row of at most one list.
#[derive(Clone, Copy)]
pub struct Change {
    pub(crate) parts: usize,
    pub(crate) rows: usize,
    pub(crate) root: Option<usize>,
    pub(crate) focus: Option<usize>,
    pub(crate) front: Option<usize>,
    pub(crate) owner: Option<(usize, Option<usize>)>,
    pub(crate) place: Option<(usize, usize)>,
    pub(crate) turn: Option<Turn>,
}

impl Links {
    /// Leaves the first parts, and the first places of rows.
    pub(crate) fn cut(&mut self, parts: usize, rows: usize)
        ensures parts { self.new.parts.items ≡ take parts self.old.parts.items }
        ensures owners { self.new.owners.items ≡ take parts self.old.owners.items }
        ensures rows { self.new.rows.items ≡ take rows self.old.rows.items }
    {
        self.parts.truncate(parts);
        self.owners.truncate(parts);
        self.rows.truncate(rows);
    }

    /// Puts back what a change wrote over. It takes no memory.
    pub(crate) fn put_back(&mut self, change: &Change)
        requires owner { IsWithin (length (take change.now.parts self.old.owners.items)) change.now.owner }
        requires place { IsWithin (length (take change.now.rows self.old.rows.items)) change.now.place }
        requires turn { TurnsWithin (length (take change.now.parts self.old.parts.items))
            (length (take change.now.rows self.old.rows.items)) change.now.turn }
        ensures parts { self.new.parts.items
            ≡ lengthened change.now.turn (take change.now.parts self.old.parts.items) }
        ensures owners { self.new.owners.items
            ≡ put_back change.now.owner (take change.now.parts self.old.owners.items) }
        ensures rows { self.new.rows.items
            ≡ turned_back change.now.turn (put_back change.now.place (take change.now.rows self.old.rows.items)) }
    {
        self.parts.truncate(change.parts);
        put_back_in(&mut self.owners, change.parts, change.owner);
        put_back_in(&mut self.rows, change.rows, change.place);
        if let Some(turn) = change.turn {
            lengthen(&mut self.parts, &turn);
            turn_left(&mut self.rows, turn.start, turn.end);
        }
    }
}

// Gives a list its row back.
fn lengthen(parts: &mut [Part], turn: &Turn)
    requires { turn.now.list < length parts.old }
    ensures { parts.new ≡ lengthened (Some turn.now) parts.old }
{
    match parts[turn.list] {
        Part::Task(_, _) => {}
        Part::Row(order, _, _) => parts[turn.list] = Part::Row(order, turn.start, turn.many),
    }
}

// Leaves the first ones, with what stood at a place.
fn put_back_in<T: Copy>(all: &mut Vec<T>, many: usize, was: Option<(usize, T)>)
    requires { IsWithin (length (take many all.old.items)) was }
    ensures { all.new.items ≡ put_back was (take many all.old.items) }
{
    all.truncate(many);
    if let Some((place, value)) = was {
        all[place] = value;
    }
}

// Puts the number at the start behind those up to the end.
fn turn_left(rows: &mut [usize], start: usize, end: usize)
    requires start { start ≤ end }
    requires end { end < length rows.old }
    ensures { rows.new ≡ turned_left start end rows.old }
{
    rows[start..end + 1].rotate_left(1);
}
