//! A walk with all that it holds, apart from whether a call has failed.
ghost use Rattle.std.specs.Prelude.{◌≡◌, ◌≢◌, ◌≤◌, ◌<◌, ◌-◌, [], None, IfOk, OnErr, OnOk, length, pos, true};
ghost use Rattle.hp_syntax.specs.declared.limits.TheConstants.{GREATEST_DEPTH};
ghost use Rattle.hp_net.specs.Standings.{gone_back, next_below, pruned};
ghost use Rattle.hp_site.specs.Sites.{IsMark, IsSite, held_now};
ghost use Rattle.hp_tree.specs.SearchNodes.{node_of};
ghost use Rattle.hp_agenda.specs.Frames.{rules_at};
ghost use Rattle.hp_search.specs.Planned.{DropsFloor, StepCells, planned};
ghost use Rattle.hp_search.specs.Searches.{BeginsAt, GivesBack, Goes, IsEntered, IsRested, IsRisen, IsSearch, IsTaken};
ghost use Rattle.hp_search.specs.Searches.{Moves, base_in, rules_in_search, stands_in, tree_in};

use hp_agenda::{Frame, Successor};
use hp_cells::Cells;
use hp_choice::{Given, Rooms};
use hp_net::Step;
use hp_site::Site;
use std::alloc::{AllocError, Global};
use std::mem;

/// The search node that is reached, in place, and the nodes on the way to it, the root first, with the successors that
/// are left at each.
pub(crate) struct Search<'a> {
    pub(crate) alloc: Global,
    pub(crate) nest: u32,
    pub(crate) site: Site<'a>,
    pub(crate) cells: Cells,
    pub(crate) path: Vec<u64>,
    pub(crate) above: Vec<Frame<'a>>,
    pub(crate) top: Frame<'a>,
    pub(crate) at_did: bool,
    pub(crate) over: bool,
}

impl Drop for Search<'_> {
    fn drop(self) {
        let Search {
            alloc: _,
            nest: _,
            site,
            cells,
            path,
            above,
            top,
            at_did: _,
            over: _,
        } = self;
        drop(site);
        drop(cells);
        drop(path);
        drop(above);
        drop(top);
    }
}

impl<'a> Search<'a> {
    /// A search at the root of a tree.
    pub(crate) fn new(
        alloc: Global,
        rooms: &mut Rooms,
        nest: u32,
        site: Site<'a>,
        cells: Cells,
    ) -> Result<Search<'a>, AllocError>
        requires site { IsSite cells site }
        requires levels { nest ≤ 128 }
        ensures { IfOk result (λ s. BeginsAt (rules_at site.entry) nest (node_of cells (held_now site.entry)) s) }
    {
        prove!(cells.len() > 0);
        let top = Frame::new(rooms, &site, &cells)?;
        Ok(Search {
            alloc,
            nest,
            site,
            cells,
            path: Vec::new(alloc),
            above: Vec::new(alloc),
            top,
            at_did: false,
            over: false,
        })
    }

    /// Begins again at the root, where it stands, so that so many decompositions may follow there. After an error the
    /// search is lost, but for its cells.
    pub(crate) fn begin_again(&mut self, rooms: &mut Rooms, depth: u32) -> Result<(), AllocError>
        requires search { IsSearch self.old }
        requires root { (stands_in self.old).path ≡ [] }
        requires cost { (tree_in self.old).root.cost ≡ pos 0 }
        requires depth { depth ≤ GREATEST_DEPTH }
        ensures begins { OnOk result (BeginsAt (rules_in_search self.old) self.old.nest
            (record (tree_in self.old).root { depth = depth }) self.new) }
        ensures cells { self.new.cells ≡ self.old.cells }
    {
        self.site.depth = depth;
        self.top = Frame::new(rooms, &self.site, &self.cells)?;
        self.at_did = false;
        self.over = false;
        Ok(())
    }

    // Nothing more comes at the node reached: what was made for its successors is given back.
    fn rest(&mut self)
        requires some { 0 < self.old.top.base }
        requires within { self.old.top.base ≤ length self.old.cells }
        ensures { IsRested self.old self.new }
    {
        self.top.clear();
        self.cells.give_back(self.top.base);
        self.at_did = false;
    }

    // Goes down to a child, in whose place the search node is.
    fn enter(&mut self, rooms: &mut Rooms, floor: usize) -> Result<(), AllocError>
        requires site { IsSite self.old.cells self.old.site }
        ensures entered { OnOk result (IsEntered self.old floor self.new) }
        ensures tree { OnErr result (tree_in self.new ≡ tree_in self.old) }
        ensures base { OnErr result (base_in self.new ≡ base_in self.old) }
    {
        let child = Frame::new(rooms, &self.site, &self.cells)?;
        self.above.reserve(1)?;
        let number = self.top.dids;
        self.path.push(number)?;
        self.top.dids = number.saturating_add(1);
        self.top.floor = floor;
        self.above.push_reserved(mem::replace(&mut self.top, child));
        self.at_did = true;
        Ok(())
    }

    // Takes the next successor of the node reached, if there is one.
    fn take(
        &mut self,
        rooms: &mut Rooms,
        next: Option<Successor>,
    ) -> Result<Option<Step>, AllocError>
        requires some { 0 < self.old.top.base }
        requires within { self.old.top.base ≤ length self.old.cells }
        requires site { IsSite self.old.cells self.old.site }
        ensures taken { IfOk result (λ o. IsTaken self.old next o self.new) }
        ensures tree { OnErr result (tree_in self.new ≡ tree_in self.old) }
        ensures base { OnErr result (base_in self.new ≡ base_in self.old) }
    {
        self.at_did = false;
        match next {
            None => {
                self.rest();
                Ok(None)
            }
            Some(Successor::Plan) => Ok(Some(Step::Plan)),
            Some(Successor::Child(Given::Cut)) => Ok(Some(Step::Cut)),
            Some(Successor::Child(Given::Fault(fault))) => {
                self.over = true;
                Ok(Some(Step::Fault(fault)))
            }
            Some(Successor::Child(Given::Did(floor))) => {
                self.enter(rooms, floor)?;
                Ok(Some(Step::Did))
            }
        }
    }

    /// The next visit at or below the node reached.
    pub(crate) fn step(&mut self, rooms: &mut Rooms) -> Result<Option<Step>, AllocError>
        requires search { IsSearch self.old }
        ensures moves { IfOk result (λ o. Moves self.old o self.new) }
        ensures given_back { IfOk result (λ o. GivesBack self.old o self.new) }
        ensures cells { IfOk result (λ o. StepCells (planned self.old true) o (planned self.new true)) }
        ensures tree { tree_in self.new ≡ tree_in self.old }
        ensures base { base_in self.new ≡ base_in self.old }
    {
        if self.over {
            self.rest();
            return Ok(None);
        }
        let next = self
            .top
            .next(rooms, self.nest, &mut self.site, &mut self.cells)?;
        self.take(rooms, next)
    }

    // Stands at a node above again, whose number is told no more.
    fn rise(&mut self, rooms: &mut Rooms, frame: Frame<'a>)
        requires mark { IsMark self.old.site frame.mark }
        requires some { 0 < frame.floor }
        requires within { frame.floor ≤ length self.old.cells }
        ensures { IsRisen self.old frame.entry self.new }
    {
        self.site.undo_to(frame.mark);
        self.cells.give_back(frame.floor);
        mem::replace(&mut self.top, frame).leave(rooms);
        let _ = self.path.pop();
        self.at_did = false;
    }

    /// Goes to the parent, where no visit is left at the node reached or below it.
    pub(crate) fn back(&mut self, rooms: &mut Rooms)
        requires search { IsSearch self.old }
        requires below { (stands_in self.old).path ≢ [] }
        requires done { next_below (stands_in self.old).path (stands_in self.old).rest ≡ None }
        ensures goes { Goes self.old (gone_back (stands_in self.old)) self.new }
        ensures cells { DropsFloor (planned self.old true) (planned self.new true) }
    {
        match self.above.pop() {
            Some(frame) => self.rise(rooms, frame),
            None => self.at_did = false,
        }
    }

    /// Leaves out what is left at the node reached, which was just answered.
    pub(crate) fn prune(&mut self)
        requires search { IsSearch self.old }
        requires did { self.old.at_did ≡ true }
        ensures { Goes self.old (pruned (stands_in self.old)) self.new }
    {
        self.top.clear();
        self.at_did = false;
    }

    /// Lets all go but the cells.
    pub(crate) fn into_cells(self) -> Cells
        ensures { result ≡ self.entry.cells }
    {
        let Search {
            alloc: _,
            nest: _,
            site,
            cells,
            path,
            above,
            top,
            at_did: _,
            over: _,
        } = self;
        drop(site);
        drop(path);
        drop(above);
        drop(top);
        cells
    }
}
