//! The first ones of the candidates, without the others.
ghost use Rattle.std.specs.Prelude.{◌≡◌, ◌<◌, ◌≤◌, ◌∷◌, ◌++◌, ℕ, List, [], None, IfOk, OnOk, length, take, drop, option_to_list};
ghost use Rattle.std.specs.List.{All};
ghost use Rattle.hp_links.specs.Frames.{IsHeld, frame_in, tree_at};
ghost use Rattle.hp_links.specs.Labelled.{leads};
ghost use Rattle.hp_links.specs.Placed.{immediate_first};
ghost use Rattle.hp_links.specs.Walked.{Gathers, IsStretch, IsWithinRows, LeadsTo, left_to_walk, to_walk};

use crate::entry::Order;
use crate::id::TaskId;
use crate::links::{Links, Part};
use crate::walk::is_immediate;
use std::alloc::{AllocError, Global};

/// The numbers in the rows from a place on, so many.
#[derive(Clone, Copy, Debug)]
pub struct Stretch {
    pub(crate) start: usize,
    pub(crate) many: usize,
}

/// What tasks come to that were looked at from left to right: whether one of them is immediate, and the first
/// candidates among them, so many at most.
#[derive(Drop)]
pub struct Gathered {
    pub(crate) limit: usize,
    pub(crate) immediate: bool,
    pub(crate) found: Vec<TaskId>,
}

impl Gathered {
    // Looks at the next task.
    fn look_at(&mut self, parts: &[Part], id: TaskId) -> Result<(), AllocError>
        ensures gathers { OnOk result ((ks : List ℕ) → Gathers parts.now ks self.old
            → Gathers parts.now (ks ++ id ∷ []) self.new) }
        ensures limit { self.new.limit ≡ self.old.limit }
    {
        match (self.immediate, is_immediate(parts, id)) {
            (true, false) => Ok(()),
            (false, true) => {
                self.found.clear();
                self.immediate = true;
                push_within(&mut self.found, self.limit, id)
            }
            (true, true) | (false, false) => push_within(&mut self.found, self.limit, id),
        }
    }
}

// Puts a task behind others, unless there are so many already.
fn push_within(found: &mut Vec<TaskId>, limit: usize, id: TaskId) -> Result<(), AllocError>
    ensures { OnOk result ((ks : List ℕ) → found.old.items ≡ take limit ks
        → found.new.items ≡ take limit (ks ++ id ∷ [])) }
{
    if found.len() < limit {
        found.push(id)?;
    }
    Ok(())
}

impl Links {
    /// Of the first tasks of the tree of a number, or of the immediate ones where one of them is, the first ones from
    /// left to right, so many at most, in the memory of a list, whatever stands there. Beside these it keeps one
    /// stretch of numbers for each list that the walk is in.
    pub(crate) fn first_candidates(
        &self,
        alloc: Global,
        start: usize,
        limit: usize,
        room: Vec<TaskId>,
    ) -> Result<Vec<TaskId>, AllocError>
        requires { IsHeld (frame_in self.now) start }
        ensures { IfOk result (λ v. v.items
            ≡ take limit (immediate_first self.now.parts.items (leads (tree_at (frame_in self.now) start)))) }
    {
        let mut found = room;
        found.clear();
        let mut gathered = Gathered {
            limit,
            immediate: false,
            found,
        };
        let mut rest = Vec::new(alloc);
        let mut next = Some(start);
        while let Some(part) = next {
            let task = self.first_below(part, &mut rest)?;
            gathered.look_at(&self.parts, TaskId::new(task))?;
            next = self.next_part(&mut rest);
        }
        Ok(gathered.found)
    }

    // The first task below a part. The other parts of each list without order on the way come before what is left.
    fn first_below(&self, part: usize, rest: &mut Vec<Stretch>) -> Result<usize, AllocError>
        requires held { All (IsHeld (frame_in self.now)) (part ∷ left_to_walk self.now.rows.items rest.old.items) }
        requires within { All (IsStretch (length self.now.rows.items)) rest.old.items }
        ensures leads { IfOk result (λ task. LeadsTo (frame_in self.now)
            (part ∷ left_to_walk self.now.rows.items rest.old.items) task
            (left_to_walk self.now.rows.items rest.new.items)) }
        ensures within { OnOk result (All (IsStretch (length self.now.rows.items)) rest.new.items) }
    {
        let mut number = part;
        while let Part::Row(order, start, many) = self.part(number) {
            number = self.enter(order, start, many, rest)?;
        }
        Ok(number)
    }

    // The first part of a list. Where the list has no order the others come before what is left.
    fn enter(
        &self,
        order: Order,
        start: usize,
        many: usize,
        rest: &mut Vec<Stretch>,
    ) -> Result<usize, AllocError>
        requires row { IsWithinRows (length self.now.rows.items) start many }
        requires two { 2 ≤ many }
        requires within { All (IsStretch (length self.now.rows.items)) rest.old.items }
        ensures first { IfOk result (λ k. k ∷ left_to_walk self.now.rows.items rest.new.items
            ≡ to_walk order (take many (drop start self.now.rows.items))
            ++ left_to_walk self.now.rows.items rest.old.items) }
        ensures within { OnOk result (All (IsStretch (length self.now.rows.items)) rest.new.items) }
    {
        let first = self.rows[start];
        match order {
            Order::Ordered => Ok(first),
            Order::Unordered => {
                rest.push(Stretch {
                    start: start + 1,
                    many: many - 1,
                })?;
                Ok(first)
            }
        }
    }

    // Takes the next part of what is left, if there is one.
    fn next_part(&self, rest: &mut Vec<Stretch>) -> Option<usize>
        requires within { All (IsStretch (length self.now.rows.items)) rest.old.items }
        ensures next { left_to_walk self.now.rows.items rest.old.items
            ≡ option_to_list result ++ left_to_walk self.now.rows.items rest.new.items }
        ensures end { result ≡ None → left_to_walk self.now.rows.items rest.new.items ≡ [] }
        ensures within { All (IsStretch (length self.now.rows.items)) rest.new.items }
    {
        let stretch = rest.pop()?;
        let part = self.rows[stretch.start];
        if stretch.many > 1 {
            rest.push_reserved(Stretch {
                start: stretch.start + 1,
                many: stretch.many - 1,
            });
        }
        Some(part)
    }
}
