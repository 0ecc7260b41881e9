//! A task network with its focus, and its past.
ghost use Rattle.std.specs.Prelude.{◌≡◌, ◌<◌, ◌≤◌, ℕ, Bool, List, [], map, take, None, Some, IfOk, OnOk, OnErr};
ghost use Rattle.std.specs.List.{All};
ghost use Rattle.hp_syntax.specs.Terms.{Term};
ghost use Rattle.hp_syntax.specs.Networks as plain;
ghost use Rattle.hp_syntax.specs.Networks.{Place};
ghost use Rattle.hp_eval.specs.GoalViews.{term_at, network_of, TreeBelow};
ghost use Rattle.hp_world.specs.Histories.{KeepsPasts, mark_of, undone_to};
ghost use Rattle.hp_links.specs.Linked.{focused, place_of, NamesTask, PartBelow};
ghost use Rattle.hp_links.specs.Placed.{candidates_in};

use hp_cells::Cell;
use hp_eval::TaskTree;
use hp_links::{Store, TaskId};
use std::alloc::{AllocError, Global};
use std::marker::Model;

/// A task network in normal form: no part is empty, and no list has one part. The focus is on the subtasks of the
/// newest decomposition, unless a task was done since. Each task done or decomposed is a change in place, which can be
/// undone. No call recurs as deep as the network nests.
pub struct Net {
    store: Store,
}

impl Drop for Net {
    fn drop(self) {
        let Net { store } = self;
        drop(store);
    }
}

impl Model for Net {
    ghost use Rattle.hp_world.specs.Histories.{History};
    ghost use Rattle.hp_links.specs.Linked.{Linked};

    ghost Value = { History Linked };

    ghost use Rattle.hp_links.specs.Undoing.{IsSound, history_of};

    ghost view = { λ n. history_of n.store };

    ghost invariant = { λ n. IsSound n.store };
}

impl Net {
    /// The normal form of a tree, without a focus.
    pub fn new(alloc: Global, tree: &TaskTree) -> Result<Net, AllocError>
        ensures net { IfOk result (λ n. (terms : List Term)
            → focused terms n.now ≡ (plain.normal (network_of terms tree.now), None)) }
        ensures below { IfOk result (λ n. (k : ℕ) → TreeBelow k tree.now → All (PartBelow k) n.now.parts) }
        ensures past { IfOk result (λ n. n.past ≡ []) }
    {
        let store = Store::new(alloc, tree)?;
        Ok(Net { store })
    }

    /// Whether nothing is left to do.
    pub fn is_empty(&self) -> bool
        ensures { (terms : List Term) → result ≡ plain.is_empty (focused terms self.now.now).0 }
    {
        self.store.is_empty()
    }

    /// The tasks that may be done next, from left to right: the first ones of the subtasks that have the focus, or of
    /// the whole network where there is no focus; where one of them is immediate, the immediate ones alone.
    pub fn candidates(&self, alloc: Global) -> Result<Vec<TaskId>, AllocError>
        ensures tasks { IfOk result (λ v. All (NamesTask self.now.now) v.items) }
        ensures places { IfOk result (λ v. (terms : List Term) → map (place_of self.now.now) v.items
            ≡ map Some (plain.candidates (focused terms self.now.now).0 (focused terms self.now.now).1)) }
    {
        let found = self.store.candidates(alloc)?;
        Ok(found)
    }

    /// The first ones of the candidates, so many at most. It takes memory for no more than these, and for one stretch
    /// of numbers for each list without order around the task that is looked at. They are put into the memory of a
    /// list, whatever stands there.
    pub fn first_candidates(
        &self,
        alloc: Global,
        limit: usize,
        room: Vec<TaskId>,
    ) -> Result<Vec<TaskId>, AllocError>
        ensures first { IfOk result (λ v. v.items ≡ take limit (candidates_in self.now.now)) }
        ensures tasks { All (NamesTask self.now.now) (candidates_in self.now.now) }
        ensures places { (terms : List Term) → map (place_of self.now.now) (candidates_in self.now.now)
            ≡ map Some (plain.candidates (focused terms self.now.now).0 (focused terms self.now.now).1) }
    {
        self.store.first_candidates(alloc, limit, room)
    }

    /// The task that an id names.
    pub fn task(&self, id: TaskId) -> Cell
        requires { NamesTask self.now.now id }
        ensures task { (terms : List Term) (p : Place) → place_of self.now.now id ≡ Some p
            → (immediate : Bool) × (plain.part_at (focused terms self.now.now).0 p
            ≡ Some (plain.Task (term_at terms result) immediate)) }
        ensures below { (k : ℕ) → All (PartBelow k) self.now.now.parts → result < k }
    {
        self.store.task(id)
    }

    /// Takes a task out, and the focus away. An error leaves the network as it was.
    pub fn finish(&mut self, id: TaskId) -> Result<(), AllocError>
        requires { NamesTask self.old.now id }
        ensures net { OnOk result ((terms : List Term) (p : Place) → place_of self.old.now id ≡ Some p
            → focused terms self.new.now ≡ plain.finish (focused terms self.old.now).0 p) }
        ensures past { OnOk result (KeepsPasts self.old self.new) }
        ensures below { (k : ℕ) → All (PartBelow k) self.old.now.parts → All (PartBelow k) self.new.now.parts }
        ensures err { OnErr result (self.new ≡ self.old) }
    {
        self.store.finish(id)
    }

    /// Puts subtasks in the place of a task, with the focus on them; without subtasks the task is done. An error leaves
    /// the network as it was.
    pub fn expand(&mut self, id: TaskId, tree: &TaskTree) -> Result<(), AllocError>
        requires { NamesTask self.old.now id }
        ensures net { OnOk result ((terms : List Term) (p : Place) → place_of self.old.now id ≡ Some p
            → focused terms self.new.now
            ≡ plain.expand (focused terms self.old.now).0 p (plain.normal (network_of terms tree.now))) }
        ensures past { OnOk result (KeepsPasts self.old self.new) }
        ensures below { (k : ℕ) → All (PartBelow k) self.old.now.parts → TreeBelow k tree.now
            → All (PartBelow k) self.new.now.parts }
        ensures err { OnErr result (self.new ≡ self.old) }
    {
        self.store.expand(id, tree)
    }

    /// An equal network with the same focus, without a past.
    pub fn copy(&self) -> Result<Net, AllocError>
        ensures { IfOk result (λ n. n ≡ record { past = []; now = self.now.now }) }
    {
        let store = self.store.copy()?;
        Ok(Net { store })
    }

    /// The number of changes that can be undone.
    pub fn mark(&self) -> usize
        ensures { result ≡ mark_of self.now }
    {
        self.store.mark()
    }

    /// Makes the past at a mark the present, with its focus. It takes no memory.
    pub fn undo_to(&mut self, mark: usize)
        requires { mark ≤ mark_of self.old }
        ensures { self.new ≡ undone_to mark self.old }
    {
        self.store.undo_to(mark);
    }
}
