//! The nodes on the way to the one that is reached.
ghost use Rattle.std.specs.Prelude.{◌≡◌, ℕ, IfOk, OnOk, List, [], None, Some, length};
ghost use Rattle.std.specs.List.{All};
ghost use Rattle.hp_syntax.specs.Checks.{HasFewVariables};
ghost use Rattle.hp_syntax.specs.Syntax.{Rule};
ghost use Rattle.hp_syntax.specs.Terms.{Term};
ghost use Rattle.hp_eval.specs.Growth.{Grows};
ghost use Rattle.hp_plain.specs.SearchNodes.{IsSearchNode};
ghost use Rattle.hp_plain.specs.Agendas.{rules_of, IsAgenda};
ghost use Rattle.hp_plain.specs.Frames.{left_of, end_successors, successor_list, SuccessorFits, Opens, TakesSuccessor};

use crate::agenda::{Agenda, CandidateQueue};
use crate::candidate::{Child, Context};
use crate::search_node::SearchNode;
use hp_cells::Cells;
use std::alloc::{AllocError, Global};

/// The one successor of a node without children.
#[derive(Clone, Copy)]
pub(crate) enum End {
    Plan,
    Cut,
}

/// A node with the successors that are left there, and how many Dids were given, as far as 64 bits tell.
pub(crate) struct Frame {
    pub(crate) node: SearchNode,
    pub(crate) dids: u64,
    pub(crate) end: Option<End>,
    pub(crate) agenda: Agenda,
}

impl Drop for Frame {
    fn drop(self) {
        let Frame {
            node,
            dids: _,
            end: _,
            agenda,
        } = self;
        drop(node);
        drop(agenda);
    }
}

/// A successor of a node: its plan, or a child.
#[derive(Drop)]
pub(crate) enum Successor {
    Plan,
    Child(Child),
}

// A node without children.
fn ended(alloc: Global, node: SearchNode, end: End) -> Frame
    ensures node { result.node ≡ node }
    ensures dids { result.dids ≡ 0 }
    ensures end { result.end ≡ Some end }
    ensures open { result.agenda.open ≡ None }
    ensures queue { result.agenda.queue.candidates.items ≡ [] }
    ensures tried { result.agenda.queue.tried ≡ 0 }
{
    Frame {
        node,
        dids: 0,
        end: Some(end),
        agenda: Agenda {
            open: None,
            queue: CandidateQueue {
                candidates: Vec::new(alloc),
                at: 0,
                tried: 0,
            },
        },
    }
}

impl Frame {
    /// A node with all its successors: its plan where nothing is left to do, else a Cut where no decomposition may
    /// follow, else its children.
    pub(crate) fn new(alloc: Global, node: SearchNode) -> Result<Frame, AllocError>
        ensures { IfOk result (λ f. (rules : List Rule) (nest : ℕ) (terms : List Term)
            → IsSearchNode (length terms) node → Opens rules nest terms node f) }
    {
        if node.net.is_empty() {
            return Ok(ended(alloc, node, End::Plan));
        }
        if node.depth == 0 {
            return Ok(ended(alloc, node, End::Cut));
        }
        let candidates = node.net.candidates(alloc)?;
        Ok(Frame {
            node,
            dids: 0,
            end: None,
            agenda: Agenda {
                open: None,
                queue: CandidateQueue {
                    candidates,
                    at: 0,
                    tried: 0,
                },
            },
        })
    }

    // The one successor of a node without children.
    fn at_end(&mut self, end: End) -> Successor
        requires end { self.old.end ≡ Some end }
        ensures takes { (terms : List Term) → successor_list terms (Some result) ≡ end_successors self.old.end }
        ensures fits { (n : ℕ) → SuccessorFits n (Some result) }
        ensures frame { self.new ≡ record self.old { end = None } }
    {
        self.end = None;
        match end {
            End::Plan => Successor::Plan,
            End::Cut => Successor::Child(Child::Cut),
        }
    }

    /// The next successor, if there is one.
    pub(crate) fn next(
        &mut self,
        context: &Context,
        cells: &mut Cells,
    ) -> Result<Option<Successor>, AllocError>
        requires node { IsSearchNode (length cells.old) self.old.node }
        requires few { All HasFewVariables (rules_of context.now) }
        requires agenda { IsAgenda (rules_of context.now) (length cells.old) self.old.node self.old.agenda }
        ensures takes { IfOk result (λ next. TakesSuccessor cells.new next
            (left_of (rules_of context.now) context.now.nest cells.old self.old)
            (left_of (rules_of context.now) context.now.nest cells.new self.new)) }
        ensures agenda { OnOk result (IsAgenda (rules_of context.now) (length cells.new) self.new.node
            self.new.agenda) }
        ensures node { self.new.node ≡ self.old.node }
        ensures dids { self.new.dids ≡ self.old.dids }
        ensures cells { Grows cells.old cells.new }
    {
        match self.end {
            Some(end) => Ok(Some(self.at_end(end))),
            None => match self.agenda.next(context, &self.node, cells)? {
                Some(child) => Ok(Some(Successor::Child(child))),
                None => Ok(None),
            },
        }
    }
}
