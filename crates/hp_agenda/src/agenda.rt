//! The children of a node that are left.
ghost use Rattle.std.specs.Prelude.{◌≡◌, ◌<◌, ◌≤◌, [], false, IfOk, OnOk, length};
ghost use Rattle.hp_eval.specs.Growth.{Grows};
ghost use Rattle.hp_world.specs.Pasts.{PastsBelow};
ghost use Rattle.hp_world.specs.Recorded.{history_in};
ghost use Rattle.hp_suspended.specs.SceneViews.{code_in};
ghost use Rattle.hp_tree.specs.SearchNodes.{node_of};
ghost use Rattle.hp_choice.specs.Choices.{IsFloor, StaysUnless, floor_of};
ghost use Rattle.hp_site.specs.Sites.{IsSite, Keeps, held_now, mark_now};
ghost use Rattle.hp_agenda.specs.Agendas.{IsAgenda, TakesChild, TakesOpen, agenda_children};
ghost use Rattle.hp_agenda.specs.Begun.{AreFirst, HasLast, did_given};
ghost use Rattle.hp_agenda.specs.Queues.{IsQueue, MaybeOpen, queue_children, work_left};

use crate::queue::Queue;
use hp_cells::Cells;
use hp_choice::{Choice, Given, Rooms};
use hp_site::Site;
use std::alloc::{AllocError, Global};

/// The children of a node that are left: those of the choice that is open, and then those by the rules and candidates
/// behind it.
pub struct Agenda<'a> {
    pub open: Option<Box<Choice>>,
    pub queue: Queue<'a>,
}

impl Drop for Agenda<'_> {
    fn drop(self) {
        let Agenda { open, queue } = self;
        drop(open);
        drop(queue);
    }
}

impl<'a> Agenda<'a> {
    // The next child of the choice that is open, if there is one.
    fn next_of_open(
        &mut self,
        alloc: Global,
        nest: u32,
        base: usize,
        site: &mut Site<'a>,
        cells: &mut Cells,
    ) -> Result<Option<Given>, AllocError>
        requires open { MaybeOpen site.old.scene cells.old base (length cells.old) (held_now site.old) self.old.open }
        requires site { IsSite cells.old site.old }
        requires pasts { PastsBelow base (history_in site.old.scene.world) }
        requires levels { nest ≤ 128 }
        ensures takes { IfOk result (λ given. TakesOpen site.old.scene nest cells.old cells.new (held_now site.old)
            self.old.open given (held_now site.new) self.new.open) }
        ensures open { IfOk result (λ given. MaybeOpen site.old.scene cells.new base
            (floor_of given (length cells.new)) (held_now site.old) self.new.open) }
        ensures floor { IfOk result (λ given. IsFloor given (length cells.old) (length cells.new)) }
        ensures stays { IfOk result (λ given. StaysUnless given site.old site.new) }
        ensures queue { self.new.queue ≡ self.old.queue }
        ensures last { HasLast site.old.scene nest cells.old (held_now site.old) self.old []
            → IfOk result (λ given. HasLast site.old.scene nest cells.new (held_now site.old) self.new
            (did_given cells.new (held_now site.new) given)) }
        ensures site { OnOk result (IsSite cells.new site.new) }
        ensures keeps { Keeps (mark_now site.old) site.old site.new }
        ensures cells { Grows cells.old cells.new }
    {
        match &mut self.open {
            Some(choice) => choice.next(alloc, nest, site, cells),
            None => Ok(None),
        }
    }

    // Opens the choice of the next rule for the first candidate.
    fn advance(
        &mut self,
        rooms: &mut Rooms,
        nest: u32,
        site: &Site<'a>,
        cells: &mut Cells,
    ) -> Result<(), AllocError>
        requires site { IsSite cells.old site.now }
        requires queue { IsQueue (code_in site.now.scene) (held_now site.now) self.old.queue }
        requires some { self.old.queue.at < length self.old.queue.candidates.items }
        requires levels { nest ≤ 128 }
        ensures left { OnOk result (queue_children (code_in site.now.scene) nest
            (node_of cells.old (held_now site.now)) site.now.net.now self.old.queue
            ≡ agenda_children site.now.scene nest cells.new (held_now site.now) self.new) }
        ensures agenda { OnOk result (IsAgenda site.now.scene cells.new (length cells.old) (length cells.new)
            (held_now site.now) self.new) }
        ensures last { AreFirst site.now.net.now self.old.queue.candidates.items
            → OnOk result (HasLast site.now.scene nest cells.new (held_now site.now) self.new []) }
        ensures less { OnOk result (work_left (code_in site.now.scene) site.now.net.now self.new.queue
            < work_left (code_in site.now.scene) site.now.net.now self.old.queue) }
        ensures cells { Grows cells.old cells.new }
    {
        rooms.leave(self.open.take());
        self.open = self.queue.advance(rooms, nest, site, cells)?;
        Ok(())
    }

    /// The next child, if there is one. A decomposition is made in place, and the search node is the child then; else
    /// it stays.
    pub fn next(
        &mut self,
        rooms: &mut Rooms,
        nest: u32,
        base: usize,
        site: &mut Site<'a>,
        cells: &mut Cells,
    ) -> Result<Option<Given>, AllocError>
        requires agenda { IsAgenda site.old.scene cells.old base (length cells.old) (held_now site.old) self.old }
        requires site { IsSite cells.old site.old }
        requires pasts { PastsBelow base (history_in site.old.scene.world) }
        requires base { base ≤ length cells.old }
        requires levels { nest ≤ 128 }
        ensures takes { IfOk result (λ given. TakesChild site.old.scene nest cells.old cells.new (held_now site.old)
            self.old given (held_now site.new) self.new) }
        ensures agenda { IfOk result (λ given. IsAgenda site.old.scene cells.new base
            (floor_of given (length cells.new)) (held_now site.old) self.new) }
        ensures last { HasLast site.old.scene nest cells.old (held_now site.old) self.old []
            → IfOk result (λ given. HasLast site.old.scene nest cells.new (held_now site.old) self.new
            (did_given cells.new (held_now site.new) given)) }
        ensures floor { IfOk result (λ given. IsFloor given (length cells.old) (length cells.new)) }
        ensures stays { IfOk result (λ given. StaysUnless given site.old site.new) }
        ensures site { OnOk result (IsSite cells.new site.new) }
        ensures keeps { Keeps (mark_now site.old) site.old site.new }
        ensures cells { Grows cells.old cells.new }
    {
        loop {
            let given = self.next_of_open(rooms.alloc, nest, base, site, cells)?;
            if given.is_some() {
                return Ok(given);
            }
            if self.queue.at >= self.queue.candidates.len() {
                return Ok(None);
            }
            self.advance(rooms, nest, site, cells)?;
        }
    }

    /// Lets all go, and keeps the memory that can be used again.
    pub fn leave(self, rooms: &mut Rooms) {
        let Agenda { open, queue } = self;
        rooms.leave(open);
        queue.leave(rooms);
    }

    /// Lets all children go that are left.
    pub fn clear(&mut self)
        ensures open { self.new.open ≡ None }
        ensures candidates { self.new.queue.candidates ≡ self.old.queue.candidates }
        ensures at_end { length self.new.queue.candidates.items ≤ self.new.queue.at }
        ensures no_more { self.new.queue.more ≡ false }
        ensures rules { self.new.queue.rules ≡ self.old.queue.rules }
    {
        self.open = None;
        self.queue.at = self.queue.candidates.len();
        self.queue.more = false;
    }
}
