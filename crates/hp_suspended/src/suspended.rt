//! Satisfiers that are suspended.
ghost use Rattle.std.specs.Prelude.{◌≡◌, ◌≤◌, IfSome, IfNone, length};
ghost use Rattle.hp_eval.specs.declared.event.Event.TheVariants as events;
ghost use Rattle.hp_suspended.specs.Answering.{IsBegun, IsLookedAt, is_over, told_view};
ghost use Rattle.hp_suspended.specs.Branching.{Settles};
ghost use Rattle.hp_suspended.specs.Fitting.{base_of};
ghost use Rattle.hp_suspended.specs.Views as names;
ghost use Rattle.hp_suspended.specs.Views.{view};

use crate::places::AtomFilter;
use crate::scene::Scene;
use hp_eval::{Event, Goal, Slots};
use std::alloc::{AllocError, Global};
use std::mem;

/// The events of an expression that are still to come.
#[cycle(events)]
pub enum Suspended {
    /// This event, under the bindings of the start, or the end.
    One {
        mark: usize,
        event: Event,
    },
    /// All events of a node's expression.
    Fresh {
        mark: usize,
        nest: u32,
        node: usize,
    },
    /// Those of an atom that isn't filled: by the atoms of places, matched over the slots, and then by all axioms.
    Simple(SimpleAtom),
    /// Those of an atom: by the atoms from a place on, by the axiom that is looked at, and by those from a number on.
    Search {
        mark: usize,
        nest: u32,
        goal: Goal,
        at: usize,
        rule: usize,
        running: Option<Box<Running>>,
    },
    /// Those of a conjunction: of the part that is looked at, then of the parts before it, the last of them first; the
    /// nodes from `next` up to `end` are the parts behind it.
    Conj {
        mark: usize,
        nest: u32,
        next: usize,
        end: usize,
        outer: Vec<Part>,
        here: Box<Suspended>,
    },
    /// Those of a disjunction: of the part that is looked at, and then of those from `next` up to `end`.
    Disj {
        mark: usize,
        nest: u32,
        next: usize,
        end: usize,
        here: Box<Suspended>,
    },
}

/// An atom whose places are gone along: with what it began, its node, the place that comes next, and what the atoms have
/// that it may match.
#[derive(Clone, Copy)]
pub struct SimpleAtom {
    pub(crate) mark: usize,
    pub(crate) nest: u32,
    pub(crate) node: usize,
    pub(crate) from: usize,
    pub(crate) filter: AtomFilter,
}

/// A part of a conjunction that has given a Sat, and the node of the part behind it.
#[cycle(events)]
pub struct Part {
    pub(crate) next: usize,
    pub(crate) part: Suspended,
}

/// An axiom that is looked at, in slots of its own: its node, and its branches.
#[cycle(events)]
pub struct Running {
    pub(crate) head: usize,
    pub(crate) own: Slots,
    pub(crate) start: usize,
    pub(crate) next: usize,
    pub(crate) end: usize,
    pub(crate) here: Suspended,
}

/// The bindings, the axiom levels and the node with which an expression begins.
#[derive(Clone, Copy)]
pub struct Start {
    pub(crate) mark: usize,
    pub(crate) nest: u32,
    pub(crate) node: usize,
}

impl Drop for Suspended {
    #[cycle(dropped)]
    fn drop(self) {
        match self {
            Suspended::One { mark: _, event: _ } => {}
            Suspended::Fresh {
                mark: _,
                nest: _,
                node: _,
            } => {}
            Suspended::Simple(_) => {}
            Suspended::Search {
                mark: _,
                nest: _,
                goal,
                at: _,
                rule: _,
                running,
            } => {
                drop(goal);
                drop(running);
            }
            Suspended::Conj {
                mark: _,
                nest: _,
                next: _,
                end: _,
                outer,
                here,
            } => {
                drop(outer);
                drop(here);
            }
            Suspended::Disj {
                mark: _,
                nest: _,
                next: _,
                end: _,
                here,
            } => drop(here),
        }
    }
}

impl Suspended {
    /// Nothing is left behind this start.
    pub fn end(&mut self, mark: usize)
        ensures { view self.new ≡ names.One mark events.End }
    {
        self.put(Suspended::One {
            mark,
            event: Event::End,
        });
    }

    // Whether no memory is held.
    fn is_flat(&self) -> bool {
        match self {
            Suspended::One { mark: _, event: _ } => true,
            Suspended::Fresh {
                mark: _,
                nest: _,
                node: _,
            } => true,
            Suspended::Simple(_) => true,
            Suspended::Search {
                mark: _,
                nest: _,
                goal: _,
                at: _,
                rule: _,
                running: _,
            } => false,
            Suspended::Conj {
                mark: _,
                nest: _,
                next: _,
                end: _,
                outer: _,
                here: _,
            } => false,
            Suspended::Disj {
                mark: _,
                nest: _,
                next: _,
                end: _,
                here: _,
            } => false,
        }
    }

    /// Puts another in its place. One that holds no memory is written over as it stands: to drop it would take a copy and
    /// a call, for nothing.
    #[inline(always)]
    pub(crate) fn put(&mut self, other: Suspended)
        ensures { self.new ≡ other }
    {
        if self.is_flat() {
            mem::forget(mem::replace(self, other));
        } else {
            self.replace(other);
        }
    }

    // Puts another in its place, and drops what stood there.
    #[inline(never)]
    fn replace(&mut self, other: Suspended)
        ensures { self.new ≡ other }
    {
        *self = other;
    }

    /// Only a Sat is left, where that was told.
    pub(crate) fn tell(&mut self, mark: usize, told: Option<Event>)
        ensures { view self.new ≡ told_view mark told (view self.old) }
    {
        match told {
            Some(Event::Sat) => self.put(Suspended::One {
                mark,
                event: Event::Sat,
            }),
            Some(Event::Cut) => {}
            Some(Event::Fault(_)) => {}
            Some(Event::End) => {}
            None => {}
        }
    }

    /// What an expression begins with that wasn't looked at.
    pub(crate) fn unbegun(&self) -> Option<Start>
        ensures some { IfSome result (λ start. view self.now ≡ names.Fresh start.mark start.nest start.node) }
        ensures none { IfNone result (IsLookedAt (view self.now)) }
    {
        match self {
            Suspended::Fresh { mark, nest, node } => Some(Start {
                mark: *mark,
                nest: *nest,
                node: *node,
            }),
            Suspended::One { mark: _, event: _ } => None,
            Suspended::Simple(_) => None,
            Suspended::Search {
                mark: _,
                nest: _,
                goal: _,
                at: _,
                rule: _,
                running: _,
            } => None,
            Suspended::Conj {
                mark: _,
                nest: _,
                next: _,
                end: _,
                outer: _,
                here: _,
            } => None,
            Suspended::Disj {
                mark: _,
                nest: _,
                next: _,
                end: _,
                here: _,
            } => None,
        }
    }

    /// The atom whose places are gone along.
    pub(crate) fn simple(&self) -> Option<SimpleAtom>
        ensures some { IfSome result (λ atom. view self.now ≡ names.Simple atom) }
        ensures none { IfNone result (IsLookedAt (view self.now) → IsBegun (view self.now)) }
    {
        match self {
            Suspended::Simple(atom) => Some(*atom),
            Suspended::One { mark: _, event: _ } => None,
            Suspended::Fresh {
                mark: _,
                nest: _,
                node: _,
            } => None,
            Suspended::Search {
                mark: _,
                nest: _,
                goal: _,
                at: _,
                rule: _,
                running: _,
            } => None,
            Suspended::Conj {
                mark: _,
                nest: _,
                next: _,
                end: _,
                outer: _,
                here: _,
            } => None,
            Suspended::Disj {
                mark: _,
                nest: _,
                next: _,
                end: _,
                here: _,
            } => None,
        }
    }

    /// Whether nothing is left, and the bindings stand at this mark as they stood at the start.
    pub(crate) fn is_over(&self, mark: usize) -> bool
        ensures { result ≡ is_over mark (view self.now) }
    {
        match self {
            Suspended::One { mark: start, event } => match event {
                Event::End => *start == mark,
                _ => false,
            },
            Suspended::Fresh {
                mark: _,
                nest: _,
                node: _,
            } => false,
            Suspended::Simple(_) => false,
            Suspended::Search {
                mark: _,
                nest: _,
                goal: _,
                at: _,
                rule: _,
                running: _,
            } => false,
            Suspended::Conj {
                mark: _,
                nest: _,
                next: _,
                end: _,
                outer: _,
                here: _,
            } => false,
            Suspended::Disj {
                mark: _,
                nest: _,
                next: _,
                end: _,
                here: _,
            } => false,
        }
    }

    // The number of bindings that stood at the start.
    fn mark(&self) -> usize
        ensures { result ≡ base_of (view self.now) }
    {
        match self {
            Suspended::One { mark, event: _ } => *mark,
            Suspended::Fresh {
                mark,
                nest: _,
                node: _,
            } => *mark,
            Suspended::Simple(atom) => atom.mark,
            Suspended::Search {
                mark,
                nest: _,
                goal: _,
                at: _,
                rule: _,
                running: _,
            } => *mark,
            Suspended::Conj {
                mark,
                nest: _,
                next: _,
                end: _,
                outer: _,
                here: _,
            } => *mark,
            Suspended::Disj {
                mark,
                nest: _,
                next: _,
                end: _,
                here: _,
            } => *mark,
        }
    }

    /// Behind a fault and at the end nothing is left, and nothing is bound above the start.
    pub(crate) fn settle(&mut self, event: Event, slots: &mut Slots)
        requires start { base_of (view self.old) ≤ length slots.old.trail }
        ensures { Settles event (view self.old) (view self.new) slots.old slots.new }
    {
        match event {
            Event::Sat | Event::Cut => {}
            Event::Fault(_) | Event::End => {
                let mark = self.mark();
                slots.undo_to(mark);
                self.end(mark);
            }
        }
    }
}

impl Drop for Part {
    #[cycle(dropped)]
    fn drop(self) {
        let Part { next: _, part } = self;
        drop(part);
    }
}

impl Part {
    /// The node of the part behind, and the part.
    pub(crate) fn into_pair(self) -> (usize, Suspended)
        ensures next { result.0 ≡ self.next }
        ensures part { result.1 ≡ self.part }
    {
        let Part { next, part } = self;
        (next, part)
    }
}

impl Drop for Running {
    #[cycle(dropped)]
    fn drop(self) {
        let Running {
            head: _,
            own,
            start: _,
            next: _,
            end: _,
            here,
        } = self;
        drop(own);
        drop(here);
    }
}
