//! What was at fault.
ghost use Rattle.std.specs.Prelude.{◌≡◌, ◌<◌, None, Some, true, IfOk, MatchOption, length, option_map};
ghost use Rattle.std.specs.Option.{option_or};
ghost use Rattle.hp_code.specs.Codes.{code_of};
ghost use Rattle.hp_code.specs.CodeViews.{IsCodeOf};
ghost use Rattle.hp_choice.specs.FirstSatisfier.{values_of};
ghost use Rattle.hp_net.specs.Standings.{node_reached};
ghost use Rattle.hp_search.specs.Planned.{stands_planned, tree_planned};
ghost use Rattle.hp_syntax.specs.GroundPatterns.{IsGroundAtom};
ghost use Rattle.hp_syntax.specs.GroundViews.{ground_of};
ghost use Rattle.hp_syntax.specs.Views.{atom_of, domain_of};
ghost use Rattle.hp_unmet.specs.Conjunctions.{asked_in};
ghost use Rattle.hp_unmet.specs.PartNodes.{IsSpot};
ghost use Rattle.hp_unmet.specs.States.{InStateOf};
ghost use Rattle.hp_unmet.specs.Trials.{conjunction_of};
ghost use Rattle.hp_obstacles.specs.Obstacles.{task_name};
ghost use Rattle.hp_blame.specs.Blames as plain;
ghost use Rattle.hp_blame.specs.Blames.{blame_kept, blame_of, culprit_kept};
ghost use Rattle.hp_blame.specs.Firsts.{first_below};
ghost use Rattle.hp_blame.specs.Questions.{rules_asked, task_asked};
ghost use Rattle.hp_blame.specs.Sites.{site_of};

use crate::sites::{Site, site_at};
use hp_choice::{Conjuncts, Start, Test};
use hp_code::Code;
use hp_obstacles::{branches_for, next_tasks, node_of};
use hp_search::Planner;
use hp_syntax::{AtomPat, Domain, Ground, Name, Pat, RunFault};
use hp_unmet::{Parts, Spot, Trial, asked_in, branch_after, first_branch, nodes_asked, to_atom};
use std::alloc::{AllocError, Global};

/// An operator, or a branch of a method, in which a pattern has a fault.
pub struct Culprit {
    /// The place of the operator or method among the rules of the domain.
    pub rule: usize,
    /// The place of the branch among those of the method, 0 for an operator.
    pub branch: usize,
    /// How many parts of the precondition come before the pattern.
    pub before: usize,
    pub pattern: Pat,
    /// The values of the variables of the rule by the first satisfier of these parts with which valuing the pattern is
    /// the fault.
    pub values: Vec<Option<Ground>>,
}

// A derived drop would do the same, but be proved anew wherever a culprit is let go.
impl Drop for Culprit {
    fn drop(self) {
        let Culprit {
            rule: _,
            branch: _,
            before: _,
            pattern,
            values,
        } = self;
        drop(pattern);
        drop(values);
    }
}

/// What was at fault: where, and the task that was to be done there.
pub struct Blame {
    pub task: Ground,
    pub culprit: Culprit,
}

impl Drop for Blame {
    fn drop(self) {
        let Blame { task, culprit } = self;
        drop(task);
        drop(culprit);
    }
}

/// The question of what was at fault in the rules for a task, which is an atom without variables and calls. The code is
/// that of the domain.
#[derive(Clone, Copy)]
struct Question<'a> {
    domain: &'a Domain,
    code: &'a Code,
    task: &'a AtomPat,
    fault: RunFault,
}

impl Question<'_> {
    /// The values by the first satisfier of the parts before a pattern with which valuing it is the fault.
    fn values_by(
        &self,
        walk: &mut Planner<'_>,
        spot: Spot,
        asked: Parts<'_>,
        site: Site<'_>,
    ) -> Result<Option<Vec<Option<Ground>>>, AllocError>
        requires spot { IsSpot (rules_asked self.now) (code_of self.now.code.now) spot }
        requires asked { asked_in (rules_asked self.now) spot.rule spot.branch ≡ Some (conjunction_of asked) }
        requires ground { IsGroundAtom (atom_of self.now.task.now) }
        requires live { walk.old.live ≡ true }
        ensures values { IfOk result (λ o. InStateOf walk.old (λ nest s. option_map values_of o
            ≡ plain.values_by (rules_asked self.now) self.now.fault nest s (task_asked self.now)
            (conjunction_of asked.entry) (site_of site.entry))) }
        ensures same { walk.new ≡ walk.old }
    {
        let trial = Trial {
            domain: self.domain,
            asked,
            code: self.code,
            nodes: nodes_asked(self.domain, self.code, spot, asked),
            start: Start::Task(self.task),
        };
        let before = Conjuncts {
            rule: trial.nodes.rule,
            first: trial.nodes.first,
            end: trial.first(site.before).end,
        };
        walk.first_satisfier(
            self.code,
            before,
            &trial.start,
            &Test::Fault(site.pattern, self.fault),
        )
    }

    fn culprit_by(
        &self,
        alloc: Global,
        walk: &mut Planner<'_>,
        spot: Spot,
        asked: Parts<'_>,
        site: Site<'_>,
    ) -> Result<Option<Culprit>, AllocError>
        requires spot { IsSpot (rules_asked self.now) (code_of self.now.code.now) spot }
        requires asked { asked_in (rules_asked self.now) spot.rule spot.branch ≡ Some (conjunction_of asked) }
        requires ground { IsGroundAtom (atom_of self.now.task.now) }
        requires live { walk.old.live ≡ true }
        ensures is { IfOk result (λ o. InStateOf walk.old (λ nest s. option_map culprit_kept o
            ≡ plain.culprit_by (rules_asked self.now) self.now.fault nest s (task_asked self.now) spot.rule spot.branch
            (conjunction_of asked.entry) (site_of site.entry))) }
        ensures same { walk.new ≡ walk.old }
    {
        match self.values_by(walk, spot, asked, site)? {
            Some(values) => {
                let pattern = site.pattern.copy(alloc)?;
                Ok(Some(Culprit {
                    rule: spot.rule,
                    branch: spot.branch,
                    before: site.before,
                    pattern,
                    values,
                }))
            }
            None => Ok(None),
        }
    }

    /// What was at fault in an operator or a branch.
    fn culprit_at(
        &self,
        alloc: Global,
        walk: &mut Planner<'_>,
        spot: Spot,
    ) -> Result<Option<Culprit>, AllocError>
        requires spot { IsSpot (rules_asked self.now) (code_of self.now.code.now) spot }
        requires ground { IsGroundAtom (atom_of self.now.task.now) }
        requires live { walk.old.live ≡ true }
        ensures is { IfOk result (λ o. InStateOf walk.old (λ nest s. option_map culprit_kept o
            ≡ plain.culprit_at (rules_asked self.now) self.now.fault nest s (task_asked self.now) spot.rule
            spot.branch)) }
        ensures same { walk.new ≡ walk.old }
    {
        match asked_in(self.domain, spot.rule, spot.branch) {
            Some(asked) => match site_at(
                self.domain,
                asked.parts,
                spot.rule,
                spot.branch,
                self.fault.span,
            ) {
                Some(site) => self.culprit_by(alloc, walk, spot, asked, site),
                None => Ok(None),
            },
            None => Ok(None),
        }
    }

    /// The first that was at fault among so many branches of a rule.
    fn culprit_below(
        &self,
        alloc: Global,
        walk: &mut Planner<'_>,
        rule: usize,
        count: usize,
    ) -> Result<Option<Culprit>, AllocError>
        requires code { IsCodeOf (rules_asked self.now) (code_of self.now.code.now) }
        requires there { rule < length (rules_asked self.now) }
        requires ground { IsGroundAtom (atom_of self.now.task.now) }
        requires live { walk.old.live ≡ true }
        ensures is { IfOk result (λ o. InStateOf walk.old (λ nest s. option_map culprit_kept o
            ≡ first_below (plain.culprit_at (rules_asked self.now) self.now.fault nest s (task_asked self.now) rule)
            count)) }
        ensures same { walk.new ≡ walk.old }
    {
        let node = node_of(self.domain, self.code, rule);
        let mut branch_node = first_branch(self.code, node);
        for branch in 0..count {
            let spot = Spot {
                rule,
                branch,
                node,
                branch_node,
            };
            match self.culprit_at(alloc, walk, spot)? {
                Some(found) => return Ok(Some(found)),
                None => branch_node = branch_after(self.code, branch_node),
            }
        }
        Ok(None)
    }

    /// The first that was at fault in a rule, if that is for tasks of a name.
    fn culprit_of(
        &self,
        alloc: Global,
        walk: &mut Planner<'_>,
        name: &Name,
        rule: usize,
    ) -> Result<Option<Culprit>, AllocError>
        requires code { IsCodeOf (rules_asked self.now) (code_of self.now.code.now) }
        requires ground { IsGroundAtom (atom_of self.now.task.now) }
        requires live { walk.old.live ≡ true }
        ensures is { IfOk result (λ o. InStateOf walk.old (λ nest s. option_map culprit_kept o
            ≡ plain.culprit_of (rules_asked self.now) self.now.fault nest s (task_asked self.now) name.now rule)) }
        ensures same { walk.new ≡ walk.old }
    {
        match self.domain.rules.get(rule) {
            Some(own) => self.culprit_below(alloc, walk, rule, branches_for(name, own)),
            None => Ok(None),
        }
    }

    /// The first that was at fault in the rules for tasks of a name.
    fn culprit_named(
        &self,
        alloc: Global,
        walk: &mut Planner<'_>,
        name: &Name,
    ) -> Result<Option<Culprit>, AllocError>
        requires code { IsCodeOf (rules_asked self.now) (code_of self.now.code.now) }
        requires ground { IsGroundAtom (atom_of self.now.task.now) }
        requires live { walk.old.live ≡ true }
        ensures is { IfOk result (λ o. InStateOf walk.old (λ nest s. option_map culprit_kept o
            ≡ plain.culprit_named (rules_asked self.now) self.now.fault nest s (task_asked self.now)
            (Some name.now))) }
        ensures same { walk.new ≡ walk.old }
    {
        for rule in 0..self.domain.rules.as_slice().len() {
            match self.culprit_of(alloc, walk, name, rule)? {
                Some(found) => return Ok(Some(found)),
                None => {}
            }
        }
        Ok(None)
    }
}

/// The first that was at fault in the rules for a task.
fn culprit_for(
    alloc: Global,
    domain: &Domain,
    code: &Code,
    walk: &mut Planner<'_>,
    task: &Ground,
    fault: RunFault,
) -> Result<Option<Culprit>, AllocError>
    requires code { IsCodeOf (domain_of domain.now).rules (code_of code.now) }
    requires live { walk.old.live ≡ true }
    ensures is { IfOk result (λ o. InStateOf walk.old (λ nest s. option_map culprit_kept o
        ≡ plain.culprit_named (domain_of domain.now).rules fault nest s (ground_of task.now)
        (task_name (ground_of task.now)))) }
    ensures same { walk.new ≡ walk.old }
{
    match to_atom(alloc, task)? {
        Some(atom) => {
            let question = Question {
                domain,
                code,
                task: &atom,
                fault,
            };
            question.culprit_named(alloc, walk, &atom.name)
        }
        None => Ok(None),
    }
}

/// What was at fault for a task, with the task.
fn blame_for(
    alloc: Global,
    domain: &Domain,
    code: &Code,
    walk: &mut Planner<'_>,
    task: Ground,
    fault: RunFault,
) -> Result<Option<Blame>, AllocError>
    requires code { IsCodeOf (domain_of domain.now).rules (code_of code.now) }
    requires live { walk.old.live ≡ true }
    ensures is { IfOk result (λ o. InStateOf walk.old (λ nest s. option_map blame_kept o
        ≡ plain.blame_by (domain_of domain.now).rules fault nest s (ground_of task))) }
    ensures same { walk.new ≡ walk.old }
{
    match culprit_for(alloc, domain, code, walk, &task, fault)? {
        Some(culprit) => Ok(Some(Blame { task, culprit })),
        None => Ok(None),
    }
}

/// What is found already, or else what was at fault for a task.
fn found_or(
    found: Option<Blame>,
    alloc: Global,
    domain: &Domain,
    code: &Code,
    walk: &mut Planner<'_>,
    task: Ground,
    fault: RunFault,
) -> Result<Option<Blame>, AllocError>
    requires code { IsCodeOf (domain_of domain.now).rules (code_of code.now) }
    requires live { walk.old.live ≡ true }
    ensures is { IfOk result (λ o. InStateOf walk.old (λ nest s. option_map blame_kept o
        ≡ option_or (option_map blame_kept found)
        (plain.blame_by (domain_of domain.now).rules fault nest s (ground_of task)))) }
    ensures same { walk.new ≡ walk.old }
{
    match found {
        Some(blame) => Ok(Some(blame)),
        None => blame_for(alloc, domain, code, walk, task, fault),
    }
}

/// What was at fault at the node where a walk stands, if it is found. That is the first task that may be done next, the
/// first operator or branch of its name, and the first pattern there that has the span of the fault. By a satisfier of
/// the parts before the pattern, valuing it must be the fault. Of a part the arguments of an atom or of its negation
/// are looked at, the value of an assignment, and a call. After the precondition the cost and the effects of an operator
/// are looked at, but for those with `forall`, and the tasks of a branch. The walk is one by the code of the domain. It
/// stays as it is, after an error too.
pub fn find_blame(
    alloc: Global,
    domain: &Domain,
    code: &Code,
    walk: &mut Planner<'_>,
    fault: RunFault,
) -> Result<Option<Blame>, AllocError>
    requires code { IsCodeOf (domain_of domain.now).rules (code_of code.now) }
    requires live { walk.old.live ≡ true }
    ensures is { IfOk result (λ o. MatchOption (node_reached (tree_planned walk.old) (stands_planned walk.old)) ⊥
        (λ n. option_map blame_kept o ≡ blame_of (domain_of domain.now).rules fault walk.old.nest n)) }
    ensures same { walk.new ≡ walk.old }
{
    let tasks = next_tasks(alloc, walk)?;
    let mut found = None;
    for task in tasks {
        found = found_or(found, alloc, domain, code, walk, task, fault)?;
    }
    Ok(found)
}
