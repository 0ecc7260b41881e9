//! The nodes on the way to the one that is reached.
ghost use Rattle.std.specs.Prelude.{◌≡◌, ◌≤◌, ℕ, [], false, IfOk, OnOk, None, Some, length};
ghost use Rattle.hp_eval.specs.Growth.{Grows};
ghost use Rattle.hp_world.specs.Pasts.{PastsBelow};
ghost use Rattle.hp_world.specs.Recorded.{history_in};
ghost use Rattle.hp_tree.specs.SearchNodes.{node_of};
ghost use Rattle.hp_tree.specs.Successors.{successors};
ghost use Rattle.hp_site.specs.Sites.{IsSite, Keeps, held_now, mark_now};
ghost use Rattle.hp_agenda.specs.Agendas.{IsAgenda};
ghost use Rattle.hp_agenda.specs.Begun.{HasLast, did_given};
ghost use Rattle.hp_agenda.specs.Frames.{FloorStands, Opens, StaysAt, TakesSuccessor, bound_of, end_successors, given_in, left_of, rules_at};

use crate::agenda::Agenda;
use crate::queue::Queue;
use hp_cells::Cells;
use hp_choice::{Given, Rooms};
use hp_site::{Mark, Site};
use std::alloc::{AllocError, Global};

/// The one successor of a node without children.
#[derive(Clone, Copy)]
pub enum End {
    Plan,
    Cut,
}

/// A node on the way: the moment at which it was reached and the number of cells then, the number of cells before the
/// terms of the child were made that was taken last, how many Dids were given, as far as 64 bits tell, and the
/// successors that are left.
pub struct Frame<'a> {
    pub mark: Mark,
    pub base: usize,
    pub floor: usize,
    pub dids: u64,
    pub end: Option<End>,
    pub agenda: Agenda<'a>,
}

impl Drop for Frame<'_> {
    fn drop(self) {
        let Frame {
            mark: _,
            base: _,
            floor: _,
            dids: _,
            end: _,
            agenda,
        } = self;
        drop(agenda);
    }
}

/// A successor of a node: its plan, or a child.
#[derive(Clone, Copy)]
pub enum Successor {
    Plan,
    Child(Given),
}

impl<'a> Frame<'a> {
    // The node that is reached, without children or with none yet.
    fn at(end: Option<End>, queue: Queue<'a>, site: &Site<'a>, cells: &Cells) -> Frame<'a>
        ensures { result ≡ record {
          mark = mark_now site.now;
          base = length cells.now;
          floor = length cells.now;
          dids = 0;
          end = end;
          agenda = record { «open» = None; queue = queue.entry };
        } }
    {
        let base = cells.len();
        Frame {
            mark: site.mark(),
            base,
            floor: base,
            dids: 0,
            end,
            agenda: Agenda { open: None, queue },
        }
    }

    // The node that is reached, which has no children.
    fn ended(alloc: Global, end: End, site: &Site<'a>, cells: &Cells) -> Frame<'a>
        ensures { (nest : ℕ) → end_successors (Some end) ≡ successors (rules_at site.now) nest
            (node_of cells.now (held_now site.now)) → Opens site.now nest cells.now result }
    {
        let queue = Queue {
            rules: &[],
            candidates: Vec::new(alloc),
            at: 0,
            more: false,
        };
        Frame::at(Some(end), queue, site, cells)
    }

    /// The node that is reached, with all its successors: its plan where nothing is left to do, else a Cut where no
    /// decomposition may follow, else its children.
    pub fn new(rooms: &mut Rooms, site: &Site<'a>, cells: &Cells) -> Result<Frame<'a>, AllocError>
        requires { IsSite cells.now site.now }
        ensures { IfOk result (λ f. (nest : ℕ) → Opens site.now nest cells.now f) }
    {
        if site.net.is_empty() {
            return Ok(Frame::ended(rooms.alloc, End::Plan, site, cells));
        }
        if site.depth == 0 {
            return Ok(Frame::ended(rooms.alloc, End::Cut, site, cells));
        }
        let queue = Queue::new(rooms, site, cells)?;
        Ok(Frame::at(None, queue, site, cells))
    }

    /// The next successor, if there is one. A decomposition is made in place, and the search node is the child then;
    /// else it stays.
    pub fn next(
        &mut self,
        rooms: &mut Rooms,
        nest: u32,
        site: &mut Site<'a>,
        cells: &mut Cells,
    ) -> Result<Option<Successor>, AllocError>
        requires agenda { IsAgenda site.old.scene cells.old self.old.base (length cells.old) (held_now site.old)
            self.old.agenda }
        requires site { IsSite cells.old site.old }
        requires pasts { PastsBelow self.old.base (history_in site.old.scene.world) }
        requires base { self.old.base ≤ length cells.old }
        requires levels { nest ≤ 128 }
        ensures takes { IfOk result (λ next. TakesSuccessor cells.new next (held_now site.new)
            (left_of site.old.scene nest cells.old (held_now site.old) self.old)
            (left_of site.old.scene nest cells.new (held_now site.old) self.new)) }
        ensures agenda { IfOk result (λ next. IsAgenda site.old.scene cells.new self.old.base
            (bound_of next (length cells.new)) (held_now site.old) self.new.agenda) }
        ensures last { HasLast site.old.scene nest cells.old (held_now site.old) self.old.agenda []
            → IfOk result (λ next. HasLast site.old.scene nest cells.new (held_now site.old) self.new.agenda
            (did_given cells.new (held_now site.new) (given_in next))) }
        ensures floor { IfOk result (λ next. FloorStands next (length cells.old) (length cells.new)) }
        ensures stays { IfOk result (λ next. StaysAt next site.old site.new) }
        ensures mark { self.new.mark ≡ self.old.mark }
        ensures base { self.new.base ≡ self.old.base }
        ensures kept_floor { self.new.floor ≡ self.old.floor }
        ensures dids { self.new.dids ≡ self.old.dids }
        ensures site { OnOk result (IsSite cells.new site.new) }
        ensures keeps { Keeps (mark_now site.old) site.old site.new }
        ensures cells { Grows cells.old cells.new }
    {
        match self.end {
            Some(End::Plan) => {
                self.end = None;
                Ok(Some(Successor::Plan))
            }
            Some(End::Cut) => {
                self.end = None;
                Ok(Some(Successor::Child(Given::Cut)))
            }
            None => match self.agenda.next(rooms, nest, self.base, site, cells)? {
                Some(given) => Ok(Some(Successor::Child(given))),
                None => Ok(None),
            },
        }
    }

    /// Lets all go, and keeps the memory that can be used again.
    pub fn leave(self, rooms: &mut Rooms) {
        let Frame {
            mark: _,
            base: _,
            floor: _,
            dids: _,
            end: _,
            agenda,
        } = self;
        agenda.leave(rooms);
    }

    /// Lets all successors go that are left.
    pub fn clear(&mut self)
        ensures mark { self.new.mark ≡ self.old.mark }
        ensures base { self.new.base ≡ self.old.base }
        ensures floor { self.new.floor ≡ self.old.floor }
        ensures dids { self.new.dids ≡ self.old.dids }
        ensures end { self.new.end ≡ None }
        ensures open { self.new.agenda.open ≡ None }
        ensures candidates { self.new.agenda.queue.candidates ≡ self.old.agenda.queue.candidates }
        ensures rules { self.new.agenda.queue.rules ≡ self.old.agenda.queue.rules }
        ensures at_end { length self.new.agenda.queue.candidates.items ≤ self.new.agenda.queue.at }
        ensures no_more { self.new.agenda.queue.more ≡ false }
    {
        self.end = None;
        self.agenda.clear();
    }
}
