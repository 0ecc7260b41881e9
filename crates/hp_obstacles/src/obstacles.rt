//! What keeps tasks from being done.
ghost use Rattle.std.specs.Prelude.{◌≡◌, ◌++◌, ◌<◌, Some, None, true, IfOk, OnOk, MatchOption, length, map, option_map, slice_get};
ghost use Rattle.hp_code.specs.Codes.{code_of};
ghost use Rattle.hp_code.specs.CodeViews.{IsCodeOf};
ghost use Rattle.hp_choice.specs.FirstSatisfier.{values_of};
ghost use Rattle.hp_net.specs.Standings.{node_reached};
ghost use Rattle.hp_search.specs.Planned.{stands_planned, tree_planned};
ghost use Rattle.hp_syntax.specs.GroundViews.{ground_of};
ghost use Rattle.hp_syntax.specs.Views.{domain_of, expression_of, rule_of};
ghost use Rattle.hp_unmet.specs.PartNodes.{IsSpot, ServesFor};
ghost use Rattle.hp_unmet.specs.Conjunctions.{first_unmet, values_met};
ghost use Rattle.hp_unmet.specs.States.{InStateOf};
ghost use Rattle.hp_obstacles.specs.Facts.{facts_of, kept, shown};
ghost use Rattle.hp_obstacles.specs.Obstacles as plain;
ghost use Rattle.hp_obstacles.specs.Obstacles.{obstacle_of, stuck_of, unconcluded_of};
ghost use Rattle.hp_obstacles.specs.Questions.{rules_asked, task_asked};

use crate::axioms::{AtomQuestion, Unconcluded};
use crate::facts::{Facts, facts_in};
use crate::next::next_tasks;
use hp_code::Code;
use hp_net::Walk;
use hp_search::Planner;
use hp_syntax::{Domain, Expr, ExprKind, Ground, Name, Rule};
use hp_unmet::{
    Answer, Spot, Unmet, branch_after, first_branch, first_unmet, part_at, satisfier_against,
};
use std::alloc::{AllocError, Global};

/// What keeps an operator, or a branch of a method, from doing a task.
pub struct Obstacle {
    /// The place of the operator or method among the rules of the domain.
    pub rule: usize,
    /// The place of the branch among those of the method, 0 for an operator.
    pub branch: usize,
    pub unmet: Unmet,
    /// The values of the variables of the rule by the first satisfier of the parts before the unmet one, or of all parts
    /// where none is unmet. Where the head doesn't match or the answer is unknown, there are none.
    pub values: Vec<Option<Ground>>,
    /// The values by the first satisfier that makes the unmet part false, where it is a negation or a `forall`.
    pub against: Option<Vec<Option<Ground>>>,
    /// The facts of the name for which the unmet part asks, where it asks for an atom or for the negation of one.
    pub facts: Option<Facts>,
    /// What keeps the axioms of that name from concluding it, in the order of the domain, where the unmet part is an
    /// atom. Of each axiom there are the branches from the first on, up to the first of which no part is unmet.
    pub axioms: Vec<Unconcluded>,
}

// A derived drop would do the same, but be proved anew wherever an obstacle is let go.
impl Drop for Obstacle {
    fn drop(self) {
        let Obstacle {
            rule: _,
            branch: _,
            unmet: _,
            values,
            against,
            facts,
            axioms,
        } = self;
        drop(values);
        drop(against);
        drop(facts);
        drop(axioms);
    }
}

/// A task that may be done next, and what keeps it from being done: of each operator and branch of its name, in the
/// order of the domain.
pub struct Stuck {
    pub task: Ground,
    pub obstacles: Vec<Obstacle>,
}

impl Drop for Stuck {
    fn drop(self) {
        let Stuck { task, obstacles } = self;
        drop(task);
        drop(obstacles);
    }
}

/// The name of an atom.
pub(crate) fn atom_name(part: &Expr) -> Option<&Name>
    ensures { option_map (λ n. n.now) result ≡ plain.atom_name (expression_of part.now) }
{
    match &part.kind {
        ExprKind::Atom(atom) => Some(&atom.name),
        ExprKind::And(_) => None,
        ExprKind::Or(_) => None,
        ExprKind::Not(_) => None,
        ExprKind::Forall(_, _, _) => None,
        ExprKind::Assign(_, _) => None,
        ExprKind::Call(_) => None,
    }
}

/// The name of the atom that a part asks for, or whose negation it asks for.
fn name_in(part: &Expr) -> Option<&Name>
    ensures { option_map (λ n. n.now) result ≡ plain.name_in (expression_of part.now) }
{
    match &part.kind {
        ExprKind::Atom(atom) => Some(&atom.name),
        ExprKind::And(_) => None,
        ExprKind::Or(_) => None,
        ExprKind::Not(part) => atom_name(part),
        ExprKind::Forall(_, _, _) => None,
        ExprKind::Assign(_, _) => None,
        ExprKind::Call(_) => None,
    }
}

/// Whether a part asks for a negation.
fn is_negation(part: &Expr) -> bool
    ensures { result ≡ plain.is_negation (expression_of part.now) }
{
    match &part.kind {
        ExprKind::Atom(_) => false,
        ExprKind::And(_) => false,
        ExprKind::Or(_) => false,
        ExprKind::Not(_) => true,
        ExprKind::Forall(_, _, _) => false,
        ExprKind::Assign(_, _) => false,
        ExprKind::Call(_) => false,
    }
}

/// Whether the part at a place asks for a negation.
pub fn is_negated_at(domain: &Domain, rule: usize, branch: usize, place: usize) -> bool
    ensures { result ≡ plain.is_negated_at (domain_of domain.now).rules rule branch place }
{
    match part_at(domain, rule, branch, place) {
        Some(part) => is_negation(part),
        None => false,
    }
}

/// The name of the atom that the part at a place asks for, or whose negation it asks for.
pub fn name_at(domain: &Domain, rule: usize, branch: usize, place: usize) -> Option<&Name>
    ensures { option_map (λ n. n.now) result
        ≡ plain.name_unmet (domain_of domain.now).rules rule branch (Unmet.Part place) }
{
    match part_at(domain, rule, branch, place) {
        Some(part) => name_in(part),
        None => None,
    }
}

/// The name of the atom that the first unmet part of a precondition asks for.
fn name_unmet(domain: &Domain, rule: usize, branch: usize, unmet: Unmet) -> Option<&Name>
    ensures { option_map (λ n. n.now) result ≡ plain.name_unmet (domain_of domain.now).rules rule branch unmet }
{
    match unmet {
        Unmet::Part(place) => name_at(domain, rule, branch, place),
        Unmet::None => None,
        Unmet::Head => None,
        Unmet::Unknown => None,
    }
}

/// The facts of a name at the node where a walk stands.
fn facts_here(alloc: Global, walk: &Planner<'_>, name: &Name) -> Result<Facts, AllocError>
    requires live { walk.now.live ≡ true }
    ensures { IfOk result (λ f. InStateOf walk.now (λ nest s. kept f ≡ shown (facts_of name.now s))) }
{
    facts_in(alloc, walk.world(), walk.cells(), name)
}

/// The facts of a name, where there is one.
fn facts_if(
    alloc: Global,
    walk: &Planner<'_>,
    name: Option<&Name>,
) -> Result<Option<Facts>, AllocError>
    requires live { walk.now.live ≡ true }
    ensures { IfOk result (λ f. InStateOf walk.now (λ nest s. option_map kept f
        ≡ option_map (λ n. shown (facts_of n.now s)) name.entry)) }
{
    match name {
        Some(name) => {
            let facts = facts_here(alloc, walk, name)?;
            Ok(Some(facts))
        }
        None => Ok(None),
    }
}

/// The facts of the name that the first unmet part asks for, at the node where a walk stands.
pub(crate) fn facts_unmet(
    alloc: Global,
    domain: &Domain,
    walk: &Planner<'_>,
    spot: Spot,
    unmet: Unmet,
) -> Result<Option<Facts>, AllocError>
    requires live { walk.now.live ≡ true }
    ensures { IfOk result (λ f. InStateOf walk.now (λ nest s. option_map kept f
        ≡ plain.facts_unmet (domain_of domain.now).rules s spot.rule spot.branch unmet)) }
{
    let name = name_unmet(domain, spot.rule, spot.branch, unmet);
    facts_if(alloc, walk, name)
}

/// The node of a rule in the code of its domain.
pub fn node_of(domain: &Domain, code: &Code, rule: usize) -> usize
    requires code { IsCodeOf (domain_of domain.now).rules (code_of code.now) }
    requires there { rule < length (domain_of domain.now).rules }
    ensures { ServesFor (domain_of domain.now).rules rule (code_of code.now) result }
{
    match code.rule_at(rule) {
        Some(node) => node,
        // A code has a node for each rule.
        None => unreachable!(),
    }
}

/// How many branches of a rule are for tasks of a name: an operator counts as one.
pub fn branches_for(name: &Name, rule: &Rule) -> usize
    ensures { result ≡ plain.branches_for name.now (rule_of rule.now) }
{
    match rule {
        Rule::Operator(operator) if operator.head.name == *name => 1,
        Rule::Operator(_) => 0,
        Rule::Method(method) if method.head.name == *name => method.branches.len(),
        Rule::Method(_) => 0,
        Rule::Axiom(_) => 0,
    }
}

/// The name of a symbol.
fn symbol_name(term: &Ground) -> Option<&Name>
    ensures { option_map (λ n. n.now) result ≡ plain.symbol_name (ground_of term.now) }
{
    match term {
        Ground::Sym(name) => Some(name),
        Ground::Num(_) => None,
        Ground::List(_) => None,
    }
}

/// The name of a task.
pub fn task_name(task: &Ground) -> Option<&Name>
    ensures { option_map (λ n. n.now) result ≡ plain.task_name (ground_of task.now) }
{
    match task {
        Ground::List(parts) => match parts.as_slice() {
            [] => None,
            [first, ..] => symbol_name(first),
        },
        Ground::Sym(_) => None,
        Ground::Num(_) => None,
    }
}

/// The question of what keeps a task from being done, by the rules of a domain and their code.
#[derive(Clone, Copy)]
struct Question<'a> {
    domain: &'a Domain,
    code: &'a Code,
    task: &'a Ground,
}

impl Question<'_> {
    /// What keeps the axioms from concluding the first unmet part, where it is an atom.
    fn axioms_unmet(
        &self,
        alloc: Global,
        walk: &mut Planner<'_>,
        spot: Spot,
        unmet: Unmet,
    ) -> Result<Vec<Unconcluded>, AllocError>
        requires code { IsCodeOf (rules_asked self.now) (code_of self.now.code.now) }
        requires spot { IsSpot (rules_asked self.now) (code_of self.now.code.now) spot }
        requires live { walk.old.live ≡ true }
        ensures are { IfOk result (λ v. InStateOf walk.old (λ nest s. map unconcluded_of v.items
            ≡ plain.axioms_unmet (rules_asked self.now) nest s (task_asked self.now) spot.rule spot.branch unmet)) }
        ensures same { walk.new ≡ walk.old }
    {
        match unmet {
            Unmet::Part(place) => {
                let question = AtomQuestion {
                    domain: self.domain,
                    code: self.code,
                    task: self.task,
                    asking: spot,
                    place,
                };
                question.answer(alloc, walk)
            }
            Unmet::None => Ok(Vec::new(alloc)),
            Unmet::Head => Ok(Vec::new(alloc)),
            Unmet::Unknown => Ok(Vec::new(alloc)),
        }
    }

    /// The values by the first satisfier that makes the first unmet part false, where it is a negation or a `forall`.
    fn against_unmet(
        &self,
        alloc: Global,
        walk: &mut Planner<'_>,
        spot: Spot,
        unmet: Unmet,
    ) -> Result<Option<Vec<Option<Ground>>>, AllocError>
        requires spot { IsSpot (rules_asked self.now) (code_of self.now.code.now) spot }
        requires live { walk.old.live ≡ true }
        ensures are { IfOk result (λ o. InStateOf walk.old (λ nest s. option_map values_of o
            ≡ plain.against_unmet (rules_asked self.now) nest s (task_asked self.now) spot.rule spot.branch unmet)) }
        ensures same { walk.new ≡ walk.old }
    {
        match unmet {
            Unmet::Part(place) => {
                satisfier_against(alloc, self.domain, self.code, spot, walk, self.task, place)
            }
            Unmet::None => Ok(None),
            Unmet::Head => Ok(None),
            Unmet::Unknown => Ok(None),
        }
    }

    /// What keeps an operator or a branch from doing the task, by an answer for it at the node where a walk stands.
    fn obstacle_by(
        &self,
        alloc: Global,
        walk: &mut Planner<'_>,
        spot: Spot,
        answer: Answer,
    ) -> Result<Obstacle, AllocError>
        requires code { IsCodeOf (rules_asked self.now) (code_of self.now.code.now) }
        requires spot { IsSpot (rules_asked self.now) (code_of self.now.code.now) spot }
        requires live { walk.old.live ≡ true }
        requires unmet { InStateOf walk.old (λ nest s. answer.unmet
            ≡ first_unmet (rules_asked self.now) nest s (task_asked self.now) spot.rule spot.branch) }
        requires values { InStateOf walk.old (λ nest s. values_of answer.values ≡ values_met (rules_asked self.now) nest s
            (task_asked self.now) spot.rule spot.branch answer.unmet) }
        ensures is { IfOk result (λ o. InStateOf walk.old (λ nest s. obstacle_of o
            ≡ plain.obstacle (rules_asked self.now) nest s (task_asked self.now) spot.rule spot.branch)) }
        ensures same { walk.new ≡ walk.old }
    {
        let unmet = answer.unmet;
        let facts = facts_unmet(alloc, self.domain, walk, spot, unmet)?;
        let against = self.against_unmet(alloc, walk, spot, unmet)?;
        let axioms = self.axioms_unmet(alloc, walk, spot, unmet)?;
        Ok(Obstacle {
            rule: spot.rule,
            branch: spot.branch,
            unmet,
            values: answer.into_values(),
            against,
            facts,
            axioms,
        })
    }

    /// What keeps an operator or a branch from doing the task at the node where a walk stands.
    fn obstacle_at(
        &self,
        alloc: Global,
        walk: &mut Planner<'_>,
        spot: Spot,
    ) -> Result<Obstacle, AllocError>
        requires code { IsCodeOf (rules_asked self.now) (code_of self.now.code.now) }
        requires spot { IsSpot (rules_asked self.now) (code_of self.now.code.now) spot }
        requires live { walk.old.live ≡ true }
        ensures is { IfOk result (λ o. InStateOf walk.old (λ nest s. obstacle_of o
            ≡ plain.obstacle (rules_asked self.now) nest s (task_asked self.now) spot.rule spot.branch)) }
        ensures same { walk.new ≡ walk.old }
    {
        let answer = first_unmet(alloc, self.domain, self.code, spot, walk, self.task)?;
        self.obstacle_by(alloc, walk, spot, answer)
    }

    /// Adds what keeps so many branches of a rule from doing the task.
    fn add_branches(
        &self,
        alloc: Global,
        walk: &mut Planner<'_>,
        rule: usize,
        count: usize,
        obstacles: &mut Vec<Obstacle>,
    ) -> Result<(), AllocError>
        requires code { IsCodeOf (rules_asked self.now) (code_of self.now.code.now) }
        requires there { rule < length (rules_asked self.now) }
        requires live { walk.old.live ≡ true }
        ensures added { OnOk result (InStateOf walk.old (λ nest s. map obstacle_of obstacles.new.items
            ≡ map obstacle_of obstacles.old.items
            ++ plain.at_branches (rules_asked self.now) nest s (task_asked self.now) rule 0 count)) }
        ensures same { walk.new ≡ walk.old }
    {
        let node = node_of(self.domain, self.code, rule);
        let mut branch_node = first_branch(self.code, node);
        for branch in 0..count {
            let spot = Spot {
                rule,
                branch,
                node,
                branch_node,
            };
            let found = self.obstacle_at(alloc, walk, spot)?;
            obstacles.push(found)?;
            branch_node = branch_after(self.code, branch_node);
        }
        Ok(())
    }

    /// What keeps the rules for tasks of a name from doing the task.
    fn obstacles_named(
        &self,
        alloc: Global,
        walk: &mut Planner<'_>,
        name: &Name,
    ) -> Result<Vec<Obstacle>, AllocError>
        requires code { IsCodeOf (rules_asked self.now) (code_of self.now.code.now) }
        requires live { walk.old.live ≡ true }
        ensures are { IfOk result (λ v. InStateOf walk.old (λ nest s. map obstacle_of v.items
            ≡ plain.obstacles_named (rules_asked self.now) nest s (task_asked self.now) (Some name.now))) }
        ensures same { walk.new ≡ walk.old }
    {
        let mut obstacles = Vec::new(alloc);
        for (place, rule) in self.domain.rules.as_slice().iter().enumerate() {
            let count = branches_for(name, rule);
            self.add_branches(alloc, walk, place, count, &mut obstacles)?;
        }
        Ok(obstacles)
    }

    /// What keeps the task from being done at the node where a walk stands.
    fn answer(&self, alloc: Global, walk: &mut Planner<'_>) -> Result<Vec<Obstacle>, AllocError>
        requires code { IsCodeOf (rules_asked self.now) (code_of self.now.code.now) }
        requires live { walk.old.live ≡ true }
        ensures are { IfOk result (λ v. InStateOf walk.old (λ nest s. map obstacle_of v.items
            ≡ plain.obstacles (rules_asked self.now) nest s (task_asked self.now))) }
        ensures same { walk.new ≡ walk.old }
    {
        match task_name(self.task) {
            Some(name) => self.obstacles_named(alloc, walk, name),
            None => Ok(Vec::new(alloc)),
        }
    }
}

/// The tasks that may be done next at the node where a walk stands, in order, each with what keeps it from being done:
/// of each operator and of each branch of a method with its name, by its place in the domain. The walk is one by the
/// code of the domain, and it stays as it is, after an error too.
pub fn all_stuck(
    alloc: Global,
    domain: &Domain,
    code: &Code,
    walk: &mut Planner<'_>,
) -> Result<Vec<Stuck>, AllocError>
    requires code { IsCodeOf (domain_of domain.now).rules (code_of code.now) }
    requires live { walk.old.live ≡ true }
    ensures are { IfOk result (λ v. MatchOption (node_reached (tree_planned walk.old) (stands_planned walk.old)) ⊥
        (λ n. map stuck_of v.items ≡ plain.all_stuck (domain_of domain.now).rules walk.old.nest n)) }
    ensures same { walk.new ≡ walk.old }
{
    let tasks = next_tasks(alloc, walk)?;
    let mut stuck = Vec::with_capacity(alloc, tasks.len())?;
    for task in tasks {
        let question = Question {
            domain,
            code,
            task: &task,
        };
        let found = question.answer(alloc, walk)?;
        stuck.push(Stuck {
            task,
            obstacles: found,
        })?;
    }
    Ok(stuck)
}
