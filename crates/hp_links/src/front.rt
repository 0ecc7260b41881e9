//! The part below which all first tasks stand.
ghost use Rattle.std.specs.Prelude.{◌≡◌, ◌↔◌, Option, Some, IfSome, IsTrue};
ghost use Rattle.hp_links.specs.Frames.{IsHeld, frame_in, tree_at};
ghost use Rattle.hp_links.specs.Fronts.{first_of, front_at, is_number, settled};
ghost use Rattle.hp_links.specs.Labelled.{front_of};

use crate::entry::Order;
use crate::links::{Links, Part};

impl Links {
    // The first part of an ordered list.
    fn first_part(&self, part: usize) -> Option<usize>
        requires { IsHeld (frame_in self.now) part }
        ensures { result ≡ first_of (tree_at (frame_in self.now) part) }
    {
        match self.part(part) {
            Part::Task(_, _) => None,
            Part::Row(order, start, _) => match order {
                Order::Ordered => Some(self.rows[start]),
                Order::Unordered => None,
            },
        }
    }

    /// The part below which all first tasks of a part stand: from list to list in order, the first part.
    pub(crate) fn front_below(&self, part: usize) -> usize
        requires { IsHeld (frame_in self.now) part }
        ensures { front_of (tree_at (frame_in self.now) part) ≡ Some result }
    {
        let mut front = part;
        while let Some(next) = self.first_part(front) {
            front = next;
        }
        front
    }

    /// The part below which all first tasks of a part stand, if there is one.
    pub(crate) fn front_of(&self, root: Option<usize>) -> Option<usize>
        requires { IfSome root (λ k. IsHeld (frame_in self.now) k) }
        ensures { result ≡ front_at (frame_in self.now) root }
    {
        match root {
            None => None,
            Some(part) => Some(self.front_below(part)),
        }
    }

    /// The front once a part of a list is changed: it is looked for below a part where it was the part or the list.
    pub(crate) fn settled(
        &self,
        front: Option<usize>,
        part: usize,
        list: usize,
        below: usize,
    ) -> Option<usize>
        requires { IsHeld (frame_in self.now) below }
        ensures { result ≡ settled part list (front_of (tree_at (frame_in self.now) below)) front }
    {
        if is_number(front, part) || is_number(front, list) {
            Some(self.front_below(below))
        } else {
            front
        }
    }
}

fn is_number(front: Option<usize>, part: usize) -> bool
    ensures { result ≡ is_number front part }
{
    match front {
        None => false,
        Some(number) => number == part,
    }
}
