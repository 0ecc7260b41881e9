//! The search node that is reached, with its pasts.
ghost use Rattle.std.specs.Prelude.{◌≡◌, ◌<◌, ◌≤◌, pos, neg_ℤ, ◌≤ℤ◌, Ok, IfOk, OnOk, List, length};
ghost use Rattle.hp_syntax.specs.declared.limits.TheConstants.{GREATEST_DEPTH};
ghost use Rattle.hp_syntax.specs.Applying.{Now};
ghost use Rattle.hp_syntax.specs.Changes as plain;
ghost use Rattle.hp_syntax.specs.Terms.{Term};
ghost use Rattle.hp_syntax.specs.Walk.{decomposed, operated};
ghost use Rattle.hp_eval.specs.GoalViews.{TreeBelow, network_of, term_at};
ghost use Rattle.hp_world.specs.Histories.{undone_to};
ghost use Rattle.hp_world.specs.Recorded.{IndexesStood, Knows, history_in};
ghost use Rattle.hp_world.specs.Stages.{ChangesBelow, changes_of, guards_of, state_of};
ghost use Rattle.hp_tree.specs.Children.{IsCandidate, place_in};
ghost use Rattle.hp_tree.specs.SearchNodes.{most_cost, node_of};
ghost use Rattle.hp_site.specs.Sites.{IsMark, IsSite, Keeps, MakesChild, Operates, held_at, held_now, mark_now};

use crate::mark::Mark;
use hp_cells::{Cell, Cells};
use hp_effect::Changes;
use hp_eval::TaskTree;
use hp_gen::Scene;
use hp_net::{Net, TaskId};
use hp_world::Applied;
use std::alloc::AllocError;

/// The search node that is reached: the world of its scene, its network, the steps so far with their cost, and the
/// number of decompositions that may follow. Each decomposition changes it in place, and can be undone.
pub struct Site<'a> {
    pub scene: Scene<'a>,
    pub net: Net,
    pub steps: Vec<Cell>,
    pub cost: i128,
    pub depth: u32,
}

impl Drop for Site<'_> {
    fn drop(self) {
        let Site {
            scene,
            net,
            steps,
            cost: _,
            depth: _,
        } = self;
        drop(scene);
        drop(net);
        drop(steps);
    }
}

impl Site<'_> {
    /// This moment.
    pub fn mark(&self) -> Mark
        ensures { result ≡ mark_now self.now }
    {
        Mark {
            world: self.scene.world.mark(),
            net: self.net.mark(),
            steps: self.steps.len(),
            cost: self.cost,
            depth: self.depth,
        }
    }

    /// Goes back to the search node of a moment. It takes no memory.
    pub fn undo_to(&mut self, mark: Mark)
        requires { IsMark self.old mark }
        ensures back { held_now self.new ≡ held_at self.old mark }
        ensures mark { mark_now self.new ≡ mark }
        ensures keeps { Keeps mark self.old self.new }
        ensures history { history_in self.new.scene.world ≡ undone_to mark.world (history_in self.old.scene.world) }
        ensures knows { (terms : List Term) → Knows terms self.old.scene.world → Knows terms self.new.scene.world }
        ensures stood { IndexesStood self.new.scene.world }
    {
        self.scene.world.undo_to(mark.world);
        self.net.undo_to(mark.net);
        self.steps.truncate(mark.steps);
        self.cost = mark.cost;
        self.depth = mark.depth;
    }

    // The task is done at this cost.
    fn finish(&mut self, id: TaskId, task: Cell, cost: i64) -> Result<(), AllocError>
        requires candidate { IsCandidate self.old.net.now id }
        requires deep { 0 < self.old.depth }
        requires depth { self.old.depth ≤ GREATEST_DEPTH }
        requires low { neg_ℤ (pos (most_cost self.old.depth)) ≤ℤ self.old.cost }
        requires high { self.old.cost ≤ℤ pos (most_cost self.old.depth) }
        ensures child { OnOk result ((terms : List Term) → let n = node_of terms (held_now self.old) in
            MakesChild terms self.new (operated n (place_in self.old.net.now id) (term_at terms task) cost
            (Now n.state n.guards))) }
        ensures site { OnOk result ((terms : List Term) → task < length terms → IsSite terms self.old
            → IsSite terms self.new) }
        ensures keeps { Keeps (mark_now self.old) self.old self.new }
    {
        self.net.finish(id)?;
        self.steps.push(task)?;
        self.cost += i128::from(cost);
        self.depth -= 1;
        Ok(())
    }

    /// Applies the changes of an operator, and its task is done at this cost. Where they delete what is protected, all
    /// stays as it was. After an error the search node is lost.
    pub fn operate(
        &mut self,
        id: TaskId,
        task: Cell,
        changes: &Changes,
        cost: i64,
        cells: &Cells,
    ) -> Result<Applied, AllocError>
        requires site { IsSite cells.now self.old }
        requires candidate { IsCandidate self.old.net.now id }
        requires deep { 0 < self.old.depth }
        requires task { task < length cells.now }
        requires changes { ChangesBelow (length cells.now) changes.now }
        ensures operates { IfOk result (λ a. let n = node_of cells.now (held_now self.old) in
            Operates cells.now self.old a self.new (operated n (place_in self.old.net.now id) (term_at cells.now task)
            cost (plain.apply n.state n.guards (changes_of cells.now changes.now)))) }
        ensures site { OnOk result (IsSite cells.now self.new) }
        ensures keeps { Keeps (mark_now self.old) self.old self.new }
    {
        // No term stands at two cells.
        let _ = cells.len();
        match changes.apply_in(cells, &mut self.scene.world)? {
            Applied::Done => {
                self.finish(id, task, cost)?;
                Ok(Applied::Done)
            }
            Applied::Guarded(atom) => Ok(Applied::Guarded(atom)),
        }
    }

    /// Puts subtasks in the place of a task. After an error the search node is lost.
    pub fn decompose(
        &mut self,
        id: TaskId,
        tree: &TaskTree,
        cells: &Cells,
    ) -> Result<(), AllocError>
        requires site { IsSite cells.now self.old }
        requires candidate { IsCandidate self.old.net.now id }
        requires deep { 0 < self.old.depth }
        requires tree { TreeBelow (length cells.now) tree.now }
        ensures child { OnOk result (MakesChild cells.now self.new (decomposed (node_of cells.now (held_now self.old))
            (place_in self.old.net.now id) (Ok (network_of cells.now tree.now)))) }
        ensures site { OnOk result (IsSite cells.now self.new) }
        ensures keeps { Keeps (mark_now self.old) self.old self.new }
    {
        self.net.expand(id, tree)?;
        self.depth -= 1;
        Ok(())
    }
}
