//! The candidates that are left, listed as far as they are needed, and the rules that are left for the first of them.
ghost use Rattle.std.specs.Prelude.{◌≡◌, ◌<◌, ◌≤◌, ◌++◌, ℕ, true, List, [], Some, IfOk, OnOk, drop, length, map, option_copied};
ghost use Rattle.std.specs.List.{All};
ghost use Rattle.hp_syntax.specs.Walk.{children};
ghost use Rattle.hp_laws.specs.RulesByName.{relevant, symbol_name, task_name};
ghost use Rattle.hp_code.specs.Codes.{code_of};
ghost use Rattle.hp_code.specs.CodeViews.{beside, rule_nodes, rules_in};
ghost use Rattle.hp_eval.specs.GoalViews.{term_at};
ghost use Rattle.hp_eval.specs.Growth.{Grows};
ghost use Rattle.hp_suspended.specs.SceneViews.{code_in};
ghost use Rattle.hp_tree.specs.Children.{IsCandidate, by_candidates};
ghost use Rattle.hp_tree.specs.SearchNodes.{node_of};
ghost use Rattle.hp_site.specs.Sites.{IsSite, held_now};
ghost use Rattle.hp_agenda.specs.Begun.{AreFirst, LastGiven};
ghost use Rattle.hp_agenda.specs.Queues.{IsQueue, IsRuleIn, MaybeOpen, by_queue, candidates_left, if_open, queue_children, work_left};

use hp_cells::{Cell, Cells, View};
use hp_choice::{Choice, Rooms, open};
use hp_code::Code;
use hp_net::TaskId;
use hp_site::Site;
use hp_syntax::Name;
use std::alloc::{AllocError, Global};
use std::mem;

// As many candidates of a node are listed at first. Of most nodes on a long way none but the first is looked at.
const FEW: usize = 4;

/// The first candidates of a node, of which those from a place on are left, and the nodes of the rules that are left
/// for the first of these. There may be more behind those that are listed.
pub struct Queue<'a> {
    pub rules: &'a [usize],
    pub candidates: Vec<TaskId>,
    pub at: usize,
    pub more: bool,
}

impl Drop for Queue<'_> {
    fn drop(self) {
        let Queue {
            rules: _,
            candidates,
            at: _,
            more: _,
        } = self;
        drop(candidates);
    }
}

// The name of a term, if it is a symbol.
fn symbol_name(cell: Cell, cells: &Cells) -> Option<&Name>
    requires { cell < length cells.now }
    ensures { option_copied result ≡ symbol_name (term_at cells.now cell) }
{
    match cells.get(cell) {
        View::Sym(name) => Some(name),
        View::Nil | View::Num(_) | View::Cons(_, _) => None,
    }
}

// The name in front of a task, if there is one.
fn task_name(task: Cell, cells: &Cells) -> Option<&Name>
    requires { task < length cells.now }
    ensures { option_copied result ≡ task_name (term_at cells.now task) }
{
    match cells.get(task) {
        View::Cons(head, _) => symbol_name(head, cells),
        View::Nil | View::Sym(_) | View::Num(_) => None,
    }
}

// The nodes of the rules that are relevant to a task, in the order of the domain.
fn relevant_rules<'a>(code: &'a Code, task: Cell, cells: &Cells) -> &'a [usize]
    requires { task < length cells.now }
    ensures { map (λ i. beside i (rule_nodes (code_of code.now)) (rules_in (code_of code.now))) result.now
        ≡ map Some (relevant (task_name (term_at cells.now task)) (rules_in (code_of code.now))) }
{
    match task_name(task, cells) {
        Some(name) => code.task_rules(name),
        None => &[],
    }
}

// The nodes of the rules that are relevant to the candidate of a place, if there is one.
fn rules_at<'a>(candidates: &[TaskId], at: usize, site: &Site<'a>, cells: &Cells) -> &'a [usize]
    requires site { IsSite cells.now site.now }
    requires candidates { All (IsCandidate site.now.net.now) candidates.now }
    ensures left { (nest : ℕ) (others : List ℕ) → (length candidates.now ≤ at → others ≡ [])
        → by_queue (code_in site.now.scene) nest (node_of cells.now (held_now site.now)) site.now.net.now result.now
        (drop at candidates.now ++ others) ≡ by_candidates (rules_in (code_in site.now.scene)) nest
        (node_of cells.now (held_now site.now)) site.now.net.now (drop at candidates.now ++ others) 0 }
    ensures rules { All (IsRuleIn (code_in site.now.scene)) result.now }
    ensures few { length result.now ≤ length (rules_in (code_in site.now.scene)) }
{
    match candidates.get(at) {
        Some(id) => {
            let task = site.net.task(*id);
            relevant_rules(site.scene.code, task, cells)
        }
        None => &[],
    }
}

impl<'a> Queue<'a> {
    /// All candidates of the node that is reached.
    pub fn new(rooms: &mut Rooms, site: &Site<'a>, cells: &Cells) -> Result<Queue<'a>, AllocError>
        requires site { IsSite cells.now site.now }
        requires deep { 0 < site.now.depth }
        ensures left { IfOk result (λ q. (nest : ℕ) → queue_children (code_in site.now.scene) nest
            (node_of cells.now (held_now site.now)) site.now.net.now q
            ≡ children (rules_in (code_in site.now.scene)) nest (node_of cells.now (held_now site.now))) }
        ensures queue { IfOk result (λ q. IsQueue (code_in site.now.scene) (held_now site.now) q) }
        ensures first { IfOk result (λ q. AreFirst site.now.net.now q.candidates.items) }
    {
        let room = rooms.list()?;
        let candidates = site.net.first_candidates(rooms.alloc, FEW, room)?;
        let more = candidates.len() == FEW;
        let rules = rules_at(&candidates, 0, site, cells);
        Ok(Queue {
            rules,
            candidates,
            at: 0,
            more,
        })
    }

    /// The choice of the next rule for the first candidate, if one is left; else the candidate is left.
    pub fn advance(
        &mut self,
        rooms: &mut Rooms,
        nest: u32,
        site: &Site<'a>,
        cells: &mut Cells,
    ) -> Result<Option<Box<Choice>>, AllocError>
        requires site { IsSite cells.old site.now }
        requires queue { IsQueue (code_in site.now.scene) (held_now site.now) self.old }
        requires some { self.old.at < length self.old.candidates.items }
        requires levels { nest ≤ 128 }
        ensures left { IfOk result (λ o.
            queue_children (code_in site.now.scene) nest (node_of cells.old (held_now site.now)) site.now.net.now
            self.old ≡ if_open site.now.scene nest cells.new (held_now site.now) o
            ++ queue_children (code_in site.now.scene) nest (node_of cells.new (held_now site.now)) site.now.net.now
            self.new) }
        ensures choice { IfOk result (λ o. MaybeOpen site.now.scene cells.new (length cells.old) (length cells.new)
            (held_now site.now) o) }
        ensures queue { OnOk result (IsQueue (code_in site.now.scene) (held_now site.now) self.new) }
        ensures first { AreFirst site.now.net.now self.old.candidates.items
            → OnOk result (AreFirst site.now.net.now self.new.candidates.items) }
        ensures last { AreFirst site.now.net.now self.old.candidates.items → IfOk result (λ o.
            LastGiven site.now.scene nest cells.new (held_now site.now) self.new.at o []) }
        ensures less { OnOk result (work_left (code_in site.now.scene) site.now.net.now self.new
            < work_left (code_in site.now.scene) site.now.net.now self.old) }
        ensures cells { Grows cells.old cells.new }
    {
        match self.rules.split_first() {
            Some((rule, others)) => {
                let id = self.candidates[self.at];
                let task = site.net.task(id);
                let choice = open(rooms, &site.scene, nest, *rule, id, task, cells)?;
                self.rules = others;
                Ok(choice)
            }
            None => {
                self.leave_candidate(rooms.alloc, site, cells)?;
                Ok(None)
            }
        }
    }

    /// Lets all go, and keeps the memory of the candidates.
    pub fn leave(self, rooms: &mut Rooms) {
        let Queue {
            rules: _,
            candidates,
            at: _,
            more: _,
        } = self;
        rooms.leave_list(candidates);
    }

    // The first candidate is left.
    fn leave_candidate(
        &mut self,
        alloc: Global,
        site: &Site<'a>,
        cells: &Cells,
    ) -> Result<(), AllocError>
        requires site { IsSite cells.now site.now }
        requires queue { IsQueue (code_in site.now.scene) (held_now site.now) self.old }
        requires some { self.old.at < length self.old.candidates.items }
        ensures left { OnOk result ((nest : ℕ) → queue_children (code_in site.now.scene) nest
            (node_of cells.now (held_now site.now)) site.now.net.now self.new
            ≡ by_candidates (rules_in (code_in site.now.scene)) nest (node_of cells.now (held_now site.now))
            site.now.net.now (drop 1 (candidates_left site.now.net.now self.old)) 0) }
        ensures queue { OnOk result (IsQueue (code_in site.now.scene) (held_now site.now) self.new) }
        ensures first { AreFirst site.now.net.now self.old.candidates.items
            → OnOk result (AreFirst site.now.net.now self.new.candidates.items) }
        ensures less { OnOk result (length (candidates_left site.now.net.now self.new)
            < length (candidates_left site.now.net.now self.old)) }
    {
        self.at += 1;
        self.list_more(alloc, site)?;
        self.rules = rules_at(&self.candidates, self.at, site, cells);
        Ok(())
    }

    // Where all that are listed are done and there may be more, twice as many are listed.
    fn list_more(&mut self, alloc: Global, site: &Site<'a>) -> Result<(), AllocError>
        requires candidates { All (IsCandidate site.now.net.now) self.old.candidates.items }
        requires at { self.old.at ≤ length self.old.candidates.items }
        requires some { 0 < length self.old.candidates.items }
        ensures left { OnOk result (candidates_left site.now.net.now self.new
            ≡ candidates_left site.now.net.now self.old) }
        ensures more { OnOk result (self.new.more ≡ true → self.new.at < length self.new.candidates.items) }
        ensures candidates { OnOk result (All (IsCandidate site.now.net.now) self.new.candidates.items) }
        ensures at { self.new.at ≡ self.old.at }
        ensures first { AreFirst site.now.net.now self.old.candidates.items
            → OnOk result (AreFirst site.now.net.now self.new.candidates.items) }
    {
        if !self.more || self.at < self.candidates.len() {
            return Ok(());
        }
        let limit = self.candidates.len() * 2;
        let room = mem::replace(&mut self.candidates, Vec::new(alloc));
        self.candidates = site.net.first_candidates(alloc, limit, room)?;
        self.more = self.candidates.len() == limit;
        Ok(())
    }
}
