//! A network in place, and the trail of its changes.
ghost use Rattle.std.specs.Prelude.{◌≡◌, ◌≢◌, ◌<◌, ◌≤◌, ℕ, Bool, List, Option, [], None, Some, IfOk, OnOk, OnErr, ◌∷◌, ◌++◌, length, take, slice_get, vec_capacity, vec_len};
ghost use Rattle.std.specs.List.{All};
ghost use Rattle.hp_syntax.specs.Terms.{Term};
ghost use Rattle.hp_syntax.specs.Networks as plain;
ghost use Rattle.hp_world.specs.Histories.{mark_of, undone_to, KeepsPasts};
ghost use Rattle.hp_links.specs.Changing.{IsSpan, IsFirstFrom, IsListed};
ghost use Rattle.hp_eval.specs.GoalViews.{network_of, TreeBelow};
ghost use Rattle.hp_links.specs.Entries.{forest, AreClosed, EntryBelow};
ghost use Rattle.hp_links.specs.Frames.{frame_of};
ghost use Rattle.hp_links.specs.Labelled.{leads, network, or_else, part_in, without, Leaf};
ghost use Rattle.hp_links.specs.Linked.{whole, NamesTask, PartBelow};
ghost use Rattle.hp_links.specs.Placed.{candidates_in, scope_of, Expands, Finishes};
ghost use Rattle.hp_links.specs.Undoing.{Grafts, Starts, first_of_entries, IsSound, IsStage, IsCleared, LeavesOne, Puts, Steps, Undoes, history_of, saved, stage_of};

use crate::entry::Entry;
use crate::id::TaskId;
use crate::links::{Links, Span};
use crate::push::push_tree;
use crate::undo::{Change, Turn};
use crate::walk::keep_immediate;
use hp_cells::Cell;
use hp_eval::TaskTree;
use std::alloc::{AllocError, Global};

/// A network in place with its focus, and the trail of its changes. What a tree is laid out in before it is planted,
/// its entries and the roots among them, is kept for the next one.
pub struct Store {
    links: Links,
    root: Option<usize>,
    focus: Option<usize>,
    front: Option<usize>,
    trail: Vec<Change>,
    entries: Vec<Entry>,
    roots: Vec<usize>,
    alloc: Global,
}

impl Drop for Store {
    fn drop(self) {
        let Store {
            links,
            root: _,
            focus: _,
            front: _,
            trail,
            entries,
            roots,
            alloc: _,
        } = self;
        drop(links);
        drop(trail);
        drop(entries);
        drop(roots);
    }
}

impl Store {
    /// The normal form of a tree, without a focus.
    pub fn new(alloc: Global, tree: &TaskTree) -> Result<Store, AllocError>
        ensures sound { IfOk result (λ s. IsSound s) }
        ensures net { IfOk result (λ s. (terms : List Term)
            → network terms (whole (stage_of s)) ≡ plain.normal (network_of terms tree.now)) }
        ensures focus { IfOk result (λ s. (stage_of s).focus ≡ None) }
        ensures past { IfOk result (λ s. (history_of s).past ≡ []) }
        ensures below { IfOk result (λ s. (k : ℕ) → TreeBelow k tree.now → All (PartBelow k) (stage_of s).parts) }
    {
        let mut entries = Vec::new(alloc);
        push_tree(&mut entries, tree)?;
        Store::from_entries(alloc, entries.as_slice())
    }

    // The network of entries, which are one or none.
    fn from_entries(alloc: Global, entries: &[Entry]) -> Result<Store, AllocError>
        requires closed { AreClosed entries.now }
        requires one { length (forest [] entries.now) ≤ 1 }
        ensures starts { IfOk result (λ s. Starts entries.now (stage_of s)) }
        ensures past { IfOk result (λ s. s.trail.items ≡ []) }
        ensures below { IfOk result (λ s. (k : ℕ) → All (EntryBelow k) entries.now
            → All (PartBelow k) (stage_of s).parts) }
    {
        let mut links = Links::new(alloc);
        let mut roots = Vec::new(alloc);
        links.plant(entries, &mut roots)?;
        let root = first_number(entries);
        let front = links.front_of(root);
        Ok(Store {
            links,
            root,
            focus: None,
            front,
            trail: Vec::new(alloc),
            entries: Vec::new(alloc),
            roots,
            alloc,
        })
    }

    /// An equal network with the same focus, without a past.
    pub fn copy(&self) -> Result<Store, AllocError>
        requires { IsSound self.now }
        ensures sound { IfOk result (λ s. IsSound s) }
        ensures same { IfOk result (λ s. history_of s ≡ record { past = []; now = stage_of self.now }) }
    {
        let trail = Vec::new(self.alloc);
        Ok(Store {
            links: self.links.copy(self.alloc)?,
            root: self.root,
            focus: self.focus,
            front: self.front,
            trail,
            entries: Vec::new(self.alloc),
            roots: Vec::new(self.alloc),
            alloc: self.alloc,
        })
    }

    /// Whether nothing is left to do.
    pub fn is_empty(&self) -> bool
        requires { IsSound self.now }
        ensures { (terms : List Term) → result ≡ plain.is_empty (network terms (whole (stage_of self.now))) }
    {
        match self.root {
            None => true,
            Some(_) => false,
        }
    }

    /// The task that an id names.
    pub fn task(&self, id: TaskId) -> Cell
        requires sound { IsSound self.now }
        requires names { NamesTask (stage_of self.now) id }
        ensures task { (immediate : Bool)
            × (part_in id (whole (stage_of self.now)) ≡ Some (Leaf id result immediate)) }
        ensures below { (k : ℕ) → All (PartBelow k) (stage_of self.now).parts → result < k }
    {
        self.links.cell(id.number())
    }

    /// The tasks that may be done next, from left to right: the first ones of the subtasks that have the focus, or of
    /// the whole network where there is no focus; where one of them is immediate, the immediate ones alone.
    pub fn candidates(&self, alloc: Global) -> Result<Vec<TaskId>, AllocError>
        requires { IsSound self.now }
        ensures { IfOk result (λ v. v.items ≡ candidates_in (stage_of self.now)) }
    {
        let mut found = self.first_ones(alloc)?;
        keep_immediate(&self.links.parts, &mut found);
        Ok(found)
    }

    /// The first ones of the candidates, so many at most. It takes memory for no more than these, and for one stretch
    /// of numbers for each list without order around the task that is looked at. They are put into the memory of a
    /// list, whatever stands there.
    pub fn first_candidates(
        &self,
        alloc: Global,
        limit: usize,
        room: Vec<TaskId>,
    ) -> Result<Vec<TaskId>, AllocError>
        requires { IsSound self.now }
        ensures { IfOk result (λ v. v.items ≡ take limit (candidates_in (stage_of self.now))) }
    {
        match self.scope() {
            None => Ok(Vec::new(alloc)),
            Some(start) => self.links.first_candidates(alloc, start, limit, room),
        }
    }

    // Where the walk to the first tasks begins: at the focus, or else at the front.
    fn scope(&self) -> Option<usize>
        ensures { result ≡ or_else self.now.focus self.now.front }
    {
        match self.focus {
            None => self.front,
            Some(number) => Some(number),
        }
    }

    // The first tasks of the part with the focus, or of the whole network.
    fn first_ones(&self, alloc: Global) -> Result<Vec<TaskId>, AllocError>
        requires { IsSound self.now }
        ensures { IfOk result (λ v. v.items ≡ leads (scope_of (stage_of self.now) self.now.focus)) }
    {
        match self.scope() {
            None => Ok(Vec::new(alloc)),
            Some(start) => self.links.first_tasks(alloc, start),
        }
    }

    /// Takes a task out, and the focus away. An error leaves the network as it was.
    pub fn finish(&mut self, id: TaskId) -> Result<(), AllocError>
        requires sound { IsSound self.old }
        requires names { NamesTask (stage_of self.old) id }
        ensures sound { IsSound self.new }
        ensures net { OnOk result (Finishes (stage_of self.old) (stage_of self.new) id) }
        ensures past { OnOk result (KeepsPasts (history_of self.old) (history_of self.new)) }
        ensures below { (k : ℕ) → All (PartBelow k) (stage_of self.old).parts
            → All (PartBelow k) (stage_of self.new).parts }
        ensures err { OnErr result (history_of self.new ≡ history_of self.old) }
    {
        self.trail.reserve(1)?;
        let change = self.take_out(id.number());
        self.note(change);
        Ok(())
    }

    /// Puts subtasks in the place of a task, with the focus on them; without subtasks the task is done. An error leaves
    /// the network as it was.
    pub fn expand(&mut self, id: TaskId, tree: &TaskTree) -> Result<(), AllocError>
        requires sound { IsSound self.old }
        requires names { NamesTask (stage_of self.old) id }
        ensures sound { IsSound self.new }
        ensures net { OnOk result (Expands (stage_of self.old) (stage_of self.new) id tree.now) }
        ensures past { OnOk result (KeepsPasts (history_of self.old) (history_of self.new)) }
        ensures below { (k : ℕ) → All (PartBelow k) (stage_of self.old).parts → TreeBelow k tree.now
            → All (PartBelow k) (stage_of self.new).parts }
        ensures err { OnErr result (history_of self.new ≡ history_of self.old) }
    {
        self.entries.clear();
        let many = push_tree(&mut self.entries, tree)?;
        if many == 0 {
            return self.finish(id);
        }
        self.trail.reserve(1)?;
        let change = self.graft(id.number())?;
        self.note(change);
        Ok(())
    }

    // Plants the entries, which are one network, and puts it in the place of a task.
    fn graft(&mut self, id: usize) -> Result<Change, AllocError>
        requires stage { IsStage (stage_of self.old) }
        requires names { NamesTask (stage_of self.old) id }
        requires closed { AreClosed self.old.entries.items }
        requires one { length (forest [] self.old.entries.items) ≡ 1 }
        ensures grafts { IfOk result (λ t. Grafts self.old.entries.items id t (stage_of self.old)
            (stage_of self.new)) }
        ensures below { (k : ℕ) → All (PartBelow k) (stage_of self.old).parts
            → All (EntryBelow k) self.old.entries.items → All (PartBelow k) (stage_of self.new).parts }
        ensures trail { self.new.trail ≡ self.old.trail }
        ensures err { OnErr result (stage_of self.new ≡ stage_of self.old) }
    {
        let mut change = self.saved();
        match self.links.plant(self.entries.as_slice(), &mut self.roots) {
            Err(error) => {
                self.links.cut(change.parts, change.rows);
                Err(error)
            }
            Ok(()) => {
                change.place = self.put(change.parts, id);
                self.focus = Some(change.parts);
                self.front = self.links.settled(self.front, id, id, change.parts);
                Ok(change)
            }
        }
    }

    // Puts a change on the trail.
    fn note(&mut self, change: Change)
        requires { vec_len self.old.trail < vec_capacity self.old.trail }
        ensures trail { self.new.trail.items ≡ self.old.trail.items ++ change ∷ [] }
        ensures stage { stage_of self.new ≡ stage_of self.old }
    {
        self.trail.push_reserved(change);
    }

    // A task is done.
    fn take_out(&mut self, id: usize) -> Change
        requires stage { IsStage (stage_of self.old) }
        requires names { NamesTask (stage_of self.old) id }
        ensures steps { Steps result (without id (whole (stage_of self.old))) None (stage_of self.old)
            (stage_of self.new) }
        ensures below { (k : ℕ) → All (PartBelow k) (stage_of self.old).parts
            → All (PartBelow k) (stage_of self.new).parts }
        ensures trail { self.new.trail ≡ self.old.trail }
    {
        match self.links.owner(id) {
            None => self.clear(),
            Some(list) => self.take_from(id, list),
        }
    }

    // The only task is done.
    fn clear(&mut self) -> Change
        ensures cleared { IsCleared result (stage_of self.old) (stage_of self.new) }
        ensures trail { self.new.trail ≡ self.old.trail }
    {
        let change = self.saved();
        self.root = None;
        self.focus = None;
        self.front = None;
        change
    }

    // A task of a list is done.
    fn take_from(&mut self, id: usize, list: usize) -> Change
        requires stage { IsStage (stage_of self.old) }
        requires names { NamesTask (stage_of self.old) id }
        requires list { slice_get (stage_of self.old).owners id ≡ Some (Some list) }
        ensures steps { Steps result (without id (whole (stage_of self.old))) None (stage_of self.old)
            (stage_of self.new) }
        ensures below { (k : ℕ) → All (PartBelow k) (stage_of self.old).parts
            → All (PartBelow k) (stage_of self.new).parts }
        ensures trail { self.new.trail ≡ self.old.trail }
    {
        let span = self.links.span(list);
        let place = self.links.place_in(span.start, id);
        if span.many == 2 {
            let rest = self.links.other(span.start, place);
            self.join(id, list, rest)
        } else {
            self.shorten(id, list, span, place)
        }
    }

    // One part is left of the list of a task that is done, and takes the place of the list.
    fn join(&mut self, id: usize, list: usize, rest: usize) -> Change
        requires stage { IsStage (stage_of self.old) }
        requires names { NamesTask (stage_of self.old) id }
        requires list { slice_get (stage_of self.old).owners id ≡ Some (Some list) }
        requires one { LeavesOne (frame_of (stage_of self.old)) id list rest }
        ensures steps { Steps result (without id (whole (stage_of self.old))) None (stage_of self.old)
            (stage_of self.new) }
        ensures parts { (stage_of self.new).parts ≡ (stage_of self.old).parts }
        ensures trail { self.new.trail ≡ self.old.trail }
    {
        let mut change = self.saved();
        change.owner = Some((rest, Some(list)));
        change.place = self.put(rest, list);
        self.focus = None;
        self.front = self.links.settled(self.front, id, list, rest);
        change
    }

    // Two parts or more are left of the list of a task that is done.
    fn shorten(&mut self, id: usize, list: usize, span: Span, place: usize) -> Change
        requires stage { IsStage (stage_of self.old) }
        requires names { NamesTask (stage_of self.old) id }
        requires list { slice_get (stage_of self.old).owners id ≡ Some (Some list) }
        requires span { IsSpan (frame_of (stage_of self.old)) list span }
        requires more { span.many ≢ 2 }
        requires place { IsFirstFrom (stage_of self.old).rows span.start id place }
        ensures steps { Steps result (without id (whole (stage_of self.old))) None (stage_of self.old)
            (stage_of self.new) }
        ensures below { (k : ℕ) → All (PartBelow k) (stage_of self.old).parts
            → All (PartBelow k) (stage_of self.new).parts }
        ensures trail { self.new.trail ≡ self.old.trail }
    {
        let mut change = self.saved();
        change.turn = Some(Turn {
            list,
            start: span.start,
            many: span.many,
            end: place,
        });
        self.links.shorten(list, span, place);
        self.focus = None;
        self.front = self.links.settled(self.front, id, list, list);
        change
    }

    // Puts a part in the place of another. What is told stood there.
    fn put(&mut self, part: usize, of: usize) -> Option<(usize, usize)>
        requires part { part < length (stage_of self.old).owners }
        requires of { of < length (stage_of self.old).owners }
        requires listed { (o : Option ℕ) → slice_get (stage_of self.old).owners of ≡ Some o
            → IsListed (frame_of (stage_of self.old)) o of }
        ensures puts { Puts part of result (stage_of self.old) (stage_of self.new) }
        ensures trail { self.new.trail ≡ self.old.trail }
    {
        let owner = self.links.owner(of);
        let slot = self.links.slot_of(owner, of);
        self.links.hang(part, slot, owner);
        match slot {
            None => {
                self.root = Some(part);
                None
            }
            Some(place) => Some((place, of)),
        }
    }

    // What a change writes over, before it does.
    fn saved(&self) -> Change
        ensures { result ≡ saved (stage_of self.now) }
    {
        Change {
            parts: self.links.parts.len(),
            rows: self.links.rows.len(),
            root: self.root,
            focus: self.focus,
            front: self.front,
            owner: None,
            place: None,
            turn: None,
        }
    }

    /// The number of changes that can be undone.
    pub fn mark(&self) -> usize
        ensures { result ≡ mark_of (history_of self.now) }
    {
        self.trail.len()
    }

    /// Makes the past at a mark the present. It takes no memory.
    pub fn undo_to(&mut self, mark: usize)
        requires sound { IsSound self.old }
        requires mark { mark ≤ mark_of (history_of self.old) }
        ensures sound { IsSound self.new }
        ensures back { history_of self.new ≡ undone_to mark (history_of self.old) }
    {
        while self.trail.len() > mark {
            self.undo_last();
        }
    }

    fn undo_last(&mut self)
        requires sound { IsSound self.old }
        requires some { 0 < vec_len self.old.trail }
        ensures { Undoes self.old self.new }
    {
        let change = self.trail.take_last();
        self.links.put_back(&change);
        self.root = change.root;
        self.focus = change.focus;
        self.front = change.front;
    }
}

// The number of the first entry, in a network of its own.
fn first_number(entries: &[Entry]) -> Option<usize>
    ensures { result ≡ first_of_entries entries.now }
{
    if entries.is_empty() { None } else { Some(0) }
}
