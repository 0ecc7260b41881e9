//! A walk with all that it holds, apart from whether a call has failed.
ghost use Rattle.std.specs.Prelude.{◌≡◌, ◌≢◌, ◌-◌, [], true, false, None, IfOk, OnOk, length, take};
ghost use Rattle.std.specs.List.{All};
ghost use Rattle.hp_syntax.specs.Checks.{HasFewVariables};
ghost use Rattle.hp_syntax.specs.Views.{domain_of};
ghost use Rattle.hp_plain.specs.SearchNodes.{node_in, IsSearchNode};
ghost use Rattle.hp_plain.specs.Searches.{BeginsAt, tree_in, stands_in, IsSearch, IsEntered, IsTaken, Moves, Goes};
ghost use Rattle.hp_net.specs.Standings.{next_below, gone_back, pruned};

use crate::candidate::{Child, Context};
use crate::frame::{Frame, Successor};
use crate::search_node::SearchNode;
use hp_answers::rule_index::RuleIndex;
use hp_cells::Cells;
use hp_net::Step;
use hp_syntax::Domain;
use std::alloc::{AllocError, Global};
use std::mem;

/// The nodes on the way to the one that is reached, the root first, and the successors that are left at each.
pub(crate) struct Search<'a> {
    pub(crate) alloc: Global,
    pub(crate) book: RuleIndex<'a>,
    pub(crate) nest: u32,
    pub(crate) cells: Cells,
    pub(crate) path: Vec<u64>,
    pub(crate) above: Vec<Frame>,
    pub(crate) top: Frame,
    pub(crate) at_did: bool,
    pub(crate) over: bool,
}

impl Drop for Search<'_> {
    fn drop(self) {
        let Search {
            alloc: _,
            book,
            nest: _,
            cells,
            path,
            above,
            top,
            at_did: _,
            over: _,
        } = self;
        drop(book);
        drop(cells);
        drop(path);
        drop(above);
        drop(top);
    }
}

impl<'a> Search<'a> {
    /// A search at the root of a tree.
    pub(crate) fn new(
        alloc: Global,
        domain: &'a Domain,
        nest: u32,
        node: SearchNode,
        cells: Cells,
    ) -> Result<Search<'a>, AllocError>
        requires few { All HasFewVariables (domain_of domain.now).rules }
        requires node { IsSearchNode (length cells) node }
        ensures { IfOk result (λ s. BeginsAt (domain_of domain.now).rules nest (node_in cells node) s) }
    {
        let book = RuleIndex::new(alloc, domain)?;
        let top = Frame::new(alloc, node)?;
        Ok(Search {
            alloc,
            book,
            nest,
            cells,
            path: Vec::new(alloc),
            above: Vec::new(alloc),
            top,
            at_did: false,
            over: false,
        })
    }
}

impl Search<'_> {
    // Goes down to a child, the next successor of the node reached.
    fn enter(&mut self, node: SearchNode) -> Result<(), AllocError>
        ensures entered { OnOk result (IsEntered self.old node self.new) }
        ensures tree { tree_in self.new ≡ tree_in self.old }
    {
        let child = Frame::new(self.alloc, node)?;
        self.above.reserve(1)?;
        let number = self.top.dids;
        self.path.push(number)?;
        self.top.dids = number.saturating_add(1);
        self.above.push_reserved(mem::replace(&mut self.top, child));
        self.at_did = true;
        Ok(())
    }

    // Takes the next successor of the node reached, if there is one.
    fn take(&mut self, next: Option<Successor>) -> Result<Option<Step>, AllocError>
        ensures taken { IfOk result (λ o. IsTaken self.old next o self.new) }
        ensures tree { tree_in self.new ≡ tree_in self.old }
    {
        self.at_did = false;
        match next {
            None => Ok(None),
            Some(Successor::Plan) => Ok(Some(Step::Plan)),
            Some(Successor::Child(Child::Cut)) => Ok(Some(Step::Cut)),
            Some(Successor::Child(Child::Fault(fault))) => {
                self.over = true;
                Ok(Some(Step::Fault(fault)))
            }
            Some(Successor::Child(Child::Did(node))) => {
                self.enter(node)?;
                Ok(Some(Step::Did))
            }
        }
    }

    /// The next visit at or below the node reached.
    pub(crate) fn step(&mut self) -> Result<Option<Step>, AllocError>
        requires search { IsSearch self.old }
        ensures moves { IfOk result (λ o. Moves self.old o self.new) }
        ensures tree { tree_in self.new ≡ tree_in self.old }
    {
        if self.over {
            self.at_did = false;
            return Ok(None);
        }
        let context = Context {
            alloc: self.alloc,
            book: &self.book,
            nest: self.nest,
        };
        let next = self.top.next(&context, &mut self.cells)?;
        self.take(next)
    }

    // Stands at a node above, whose number is told no more.
    fn rise(&mut self, frame: Frame)
        ensures search { self.new ≡ record self.old { top = frame; path = self.new.path; at_did = false } }
        ensures path { self.new.path.items ≡ take (length self.old.path.items - 1) self.old.path.items }
    {
        self.top = frame;
        let _ = self.path.pop();
        self.at_did = false;
    }

    /// Goes to the parent, where no visit is left at the node reached or below it.
    pub(crate) fn back(&mut self)
        requires search { IsSearch self.old }
        requires below { (stands_in self.old).path ≢ [] }
        requires done { next_below (stands_in self.old).path (stands_in self.old).rest ≡ None }
        ensures { Goes self.old (gone_back (stands_in self.old)) self.new }
    {
        match self.above.pop() {
            Some(frame) => self.rise(frame),
            None => self.at_did = false,
        }
    }

    /// Leaves out what is left at the node reached, which was just answered.
    pub(crate) fn prune(&mut self)
        requires search { IsSearch self.old }
        requires did { self.old.at_did ≡ true }
        ensures { Goes self.old (pruned (stands_in self.old)) self.new }
    {
        self.top.end = None;
        self.top.agenda.open = None;
        self.top.agenda.queue.at = self.top.agenda.queue.candidates.len();
        self.at_did = false;
    }
}
