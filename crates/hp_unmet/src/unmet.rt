//! The first part that nothing satisfies.
ghost use Rattle.std.specs.Prelude.{◌≡◌, ◌+◌, ◌-◌, ◌<◌, ◌≤◌, ℕ, [], true, false, IfOk, length};
ghost use Rattle.hp_code.specs.Codes.{code_of};
ghost use Rattle.hp_syntax.specs.Events.{Satisfied, Nothing, State};
ghost use Rattle.hp_syntax.specs.GroundPatterns.{IsGroundAtom, atom_said};
ghost use Rattle.hp_syntax.specs.GroundViews.{ground_of};
ghost use Rattle.hp_syntax.specs.Terms.{Term};
ghost use Rattle.hp_syntax.specs.Views.{atom_of, domain_of};
ghost use Rattle.hp_choice.specs.FirstSatisfier.{values_of};
ghost use Rattle.hp_unmet.specs.Conjunctions.{first_unmet, values_met};
ghost use Rattle.hp_unmet.specs.Halving.{IsBetween};
ghost use Rattle.hp_unmet.specs.PartNodes.{IsSpot};
ghost use Rattle.hp_unmet.specs.Said.{is_atom};
ghost use Rattle.hp_unmet.specs.States.{InStateOf};
ghost use Rattle.hp_unmet.specs.Trials.{CanBeTried, InTrial, IsFirstMissing, IsPrefix, answer_tried, tried, values_answered};

use crate::nodes::{Spot, nodes_asked};
use crate::parts::asked_in;
use crate::said::to_atom;
use crate::trial::Trial;
use hp_choice::{Finding, Prefix, Start};
use hp_code::Code;
use hp_search::Planner;
use hp_syntax::{AtomPat, Domain, Ground};
use std::alloc::{AllocError, Global};

/// What of a precondition is satisfied in a state, by its parts from the first on.
#[derive(Clone, Copy, Debug, PartialEq, Eq)]
pub enum Unmet {
    /// All parts together have a satisfier before any fault, and so it is where there are no parts. Or there is no such
    /// operator or branch.
    None,
    /// The head of the rule doesn't match the task, or that of the axiom doesn't start from the atom.
    Head,
    /// The parts before this one, by its place, have a satisfier together; with this one there is none, and no limit of
    /// nesting and no fault is met.
    Part(usize),
    /// Some first parts have a satisfier together; with the next one there is none before a fault, and a limit of
    /// nesting or a fault is met.
    Unknown,
}

/// What of a precondition is satisfied, with the values of the variables of its rule by the first satisfier of the parts
/// before the one that is unmet, or of all parts where none is. Where the head doesn't match or the answer is unknown,
/// there are no values.
pub struct Answer {
    pub unmet: Unmet,
    pub values: Vec<Option<Ground>>,
}

// A derived drop would do the same, but be proved anew wherever an answer is let go.
impl Drop for Answer {
    fn drop(self) {
        let Answer { unmet: _, values } = self;
        drop(values);
    }
}

impl Answer {
    /// The values alone.
    pub fn into_values(self) -> Vec<Option<Ground>>
        ensures { result ≡ self.values }
    {
        let Answer { unmet: _, values } = self;
        values
    }
}

/// So many of the first parts are satisfied, and with so many nothing is found.
#[derive(Clone, Copy)]
struct Between {
    met: Prefix,
    unmet: usize,
}

/// How far the next number is from the lower of two: a step, but no more than half of the way.
fn step_from(step: usize, low: usize, high: usize) -> usize
    requires some { 0 < step }
    requires apart { low + 1 < high }
    ensures some { 0 < result }
    ensures below { low + result < high }
{
    step.min((high - low) / 2)
}

impl Trial<'_> {
    /// Two such numbers that are nearer to each other, by asking for a step more, or for half of those between.
    fn nearer(
        &self,
        walk: &mut Planner<'_>,
        between: Between,
        step: usize,
    ) -> Result<Between, AllocError>
        requires can { CanBeTried self.now }
        requires live { walk.old.live ≡ true }
        requires held { InTrial walk.old self.now
            (λ nest state o. IsBetween (tried self.now nest state o) (length self.now.asked.parts.now) between) }
        requires prefix { IsPrefix self.now between.met }
        requires apart { between.met.count + 1 < between.unmet }
        requires some { 0 < step }
        requires within { between.unmet ≤ length self.now.asked.parts.now }
        ensures held { IfOk result (λ b. InTrial walk.old self.now
            (λ nest state o. IsBetween (tried self.now nest state o) (length self.now.asked.parts.now) b)) }
        ensures prefix { IfOk result (λ b. IsPrefix self.now b.met) }
        ensures nearer { IfOk result (λ b. b.unmet - b.met.count < between.unmet - between.met.count) }
        ensures ordered { IfOk result (λ b. b.met.count ≤ b.unmet) }
        ensures within { IfOk result (λ b. b.unmet ≤ length self.now.asked.parts.now) }
        ensures same { walk.new ≡ walk.old }
    {
        let more = step_from(step, between.met.count, between.unmet);
        let middle = self.more(between.met, more);
        let is_met = self.is_met(walk, middle)?;
        if is_met {
            Ok(Between {
                met: middle,
                unmet: between.unmet,
            })
        } else {
            Ok(Between {
                met: between.met,
                unmet: middle.count,
            })
        }
    }

    /// The place of the first part with which nothing is found, behind some first parts that are satisfied: where some
    /// first parts aren't, no more of them are. One part more is asked for first, then twice as many more each time.
    fn first_missing(&self, walk: &mut Planner<'_>, met: Prefix) -> Result<usize, AllocError>
        requires can { CanBeTried self.now }
        requires live { walk.old.live ≡ true }
        requires prefix { IsPrefix self.now met }
        requires met { InTrial walk.old self.now (λ nest state o. tried self.now nest state o met.count ≡ Satisfied) }
        requires all { InTrial walk.old self.now
            (λ nest state o. tried self.now nest state o (length self.now.asked.parts.now) ≡ Nothing) }
        ensures missing { IfOk result (λ place. InTrial walk.old self.now
            (λ nest state o. IsFirstMissing (tried self.now nest state o) (length self.now.asked.parts.now) place)) }
        ensures same { walk.new ≡ walk.old }
    {
        let mut between = Between {
            met,
            unmet: self.asked.parts.len(),
        };
        let mut step = 1;
        while between.met.count + 1 < between.unmet {
            let nearer = self.nearer(walk, between, step)?;
            between = nearer;
            step = step.saturating_mul(2);
        }
        Ok(between.met.count)
    }

    /// The answer where some first parts are satisfied: by a question for all parts, and some more.
    fn answer_of_all(&self, walk: &mut Planner<'_>, met: Prefix) -> Result<Unmet, AllocError>
        requires can { CanBeTried self.now }
        requires live { walk.old.live ≡ true }
        requires prefix { IsPrefix self.now met }
        requires met { InTrial walk.old self.now (λ nest state o. tried self.now nest state o met.count ≡ Satisfied) }
        ensures answer { IfOk result (λ u. InTrial walk.old self.now
            (λ nest state o. u ≡ answer_tried self.now nest state o)) }
        ensures same { walk.new ≡ walk.old }
    {
        match self.found(walk, self.all())? {
            Finding::Satisfied => Ok(Unmet::None),
            Finding::Faulty(_) => Ok(Unmet::Unknown),
            Finding::Undecided => Ok(Unmet::Unknown),
            Finding::Nothing => {
                let place = self.first_missing(walk, met)?;
                Ok(Unmet::Part(place))
            }
        }
    }

    /// The answer where some first parts are satisfied, and more are asked for: mostly one more tells it.
    fn answer_behind(&self, walk: &mut Planner<'_>, met: Prefix) -> Result<Unmet, AllocError>
        requires can { CanBeTried self.now }
        requires live { walk.old.live ≡ true }
        requires prefix { IsPrefix self.now met }
        requires met { InTrial walk.old self.now (λ nest state o. tried self.now nest state o met.count ≡ Satisfied) }
        requires fewer { met.count < length self.now.asked.parts.now }
        ensures answer { IfOk result (λ u. InTrial walk.old self.now
            (λ nest state o. u ≡ answer_tried self.now nest state o)) }
        ensures same { walk.new ≡ walk.old }
    {
        let next = self.more(met, 1);
        match self.found(walk, next)? {
            Finding::Satisfied => self.answer_of_all(walk, next),
            Finding::Faulty(_) => Ok(Unmet::Unknown),
            Finding::Undecided => Ok(Unmet::Unknown),
            Finding::Nothing => Ok(Unmet::Part(met.count)),
        }
    }

    fn answer(&self, walk: &mut Planner<'_>) -> Result<Unmet, AllocError>
        requires can { CanBeTried self.now }
        requires live { walk.old.live ≡ true }
        ensures answer { IfOk result (λ u. InTrial walk.old self.now
            (λ nest state o. u ≡ answer_tried self.now nest state o)) }
        ensures same { walk.new ≡ walk.old }
    {
        match self.along(walk)? {
            Some(met) if met.count < self.asked.parts.len() => self.answer_behind(walk, met),
            Some(_) => Ok(Unmet::None),
            None => Ok(Unmet::Head),
        }
    }

    /// The values of the variables by the parts that are met.
    fn values_met(
        &self,
        alloc: Global,
        walk: &mut Planner<'_>,
        unmet: Unmet,
    ) -> Result<Vec<Option<Ground>>, AllocError>
        requires can { CanBeTried self.now }
        requires live { walk.old.live ≡ true }
        ensures values { IfOk result (λ v. InTrial walk.old self.now
            (λ nest state o. values_of v ≡ values_answered self.now nest state o unmet)) }
        ensures same { walk.new ≡ walk.old }
    {
        match unmet {
            Unmet::None => self.values(alloc, walk, self.all()),
            Unmet::Part(place) => self.values(alloc, walk, self.first(place)),
            Unmet::Head => Ok(Vec::new(alloc)),
            Unmet::Unknown => Ok(Vec::new(alloc)),
        }
    }

    /// The answer with these values.
    pub fn answer_with_values(
        &self,
        alloc: Global,
        walk: &mut Planner<'_>,
    ) -> Result<Answer, AllocError>
        requires can { CanBeTried self.now }
        requires live { walk.old.live ≡ true }
        ensures unmet { IfOk result (λ a. InTrial walk.old self.now
            (λ nest state o. a.unmet ≡ answer_tried self.now nest state o)) }
        ensures values { IfOk result (λ a. InTrial walk.old self.now
            (λ nest state o. values_of a.values ≡ values_answered self.now nest state o a.unmet)) }
        ensures same { walk.new ≡ walk.old }
    {
        let unmet = self.answer(walk)?;
        let values = self.values_met(alloc, walk, unmet)?;
        Ok(Answer { unmet, values })
    }
}

fn answer_in(
    alloc: Global,
    domain: &Domain,
    code: &Code,
    spot: Spot,
    walk: &mut Planner<'_>,
    task: &AtomPat,
) -> Result<Answer, AllocError>
    requires spot { IsSpot (domain_of domain.now).rules (code_of code.now) spot }
    requires live { walk.old.live ≡ true }
    requires ground { IsGroundAtom (atom_of task.now) }
    ensures unmet { IfOk result (λ a. InStateOf walk.old (λ nest state. a.unmet
        ≡ first_unmet (domain_of domain.now).rules nest state (atom_said (atom_of task.now)) spot.rule spot.branch)) }
    ensures values { IfOk result (λ a. InStateOf walk.old (λ nest state. values_of a.values
        ≡ values_met (domain_of domain.now).rules nest state (atom_said (atom_of task.now)) spot.rule spot.branch
        a.unmet)) }
    ensures same { walk.new ≡ walk.old }
{
    match asked_in(domain, spot.rule, spot.branch) {
        Some(asked) => {
            let trial = Trial {
                domain,
                asked,
                code,
                nodes: nodes_asked(domain, code, spot, asked),
                start: Start::Task(task),
            };
            trial.answer_with_values(alloc, walk)
        }
        None => Ok(without_values(alloc, Unmet::None)),
    }
}

/// An answer without values.
pub fn without_values(alloc: Global, unmet: Unmet) -> Answer
    ensures unmet { result.unmet ≡ unmet }
    ensures values { values_of result.values ≡ [] }
{
    Answer {
        unmet,
        values: Vec::new(alloc),
    }
}

/// The answer for a task that is no atom, which no head matches.
fn unmatched(domain: &Domain, spot: Spot) -> Unmet
    ensures unmet { (nest : ℕ) (state : State) (task : Term) → is_atom task ≡ false
        → result ≡ first_unmet (domain_of domain.now).rules nest state task spot.rule spot.branch }
    ensures values { (nest : ℕ) (state : State) (task : Term)
        → values_met (domain_of domain.now).rules nest state task spot.rule spot.branch result ≡ [] }
{
    match asked_in(domain, spot.rule, spot.branch) {
        Some(_) => Unmet::Head,
        None => Unmet::None,
    }
}

/// What of the precondition of an operator, or of a branch of a method, is satisfied where the head matches a task, in
/// the state of the node at which a walk stands. It is asked by the nodes of a code that serves for the domain's: its
/// rule asks for what the domain's does, and its axioms are the domain's. Axioms may call one another as deep as in the
/// walk, which stays as it is, after an error too. Of a branch of an axiom it is what is satisfied where the head of the
/// axiom matches the task, as any head does.
///
/// The walk goes along the parts once, each by its first satisfier, and then it is asked for one part more. Mostly that
/// gives the answer. Where these are satisfied too it is asked for all of them, for twice as many more again and again,
/// and for numbers between.
pub fn first_unmet(
    alloc: Global,
    domain: &Domain,
    code: &Code,
    spot: Spot,
    walk: &mut Planner<'_>,
    task: &Ground,
) -> Result<Answer, AllocError>
    requires spot { IsSpot (domain_of domain.now).rules (code_of code.now) spot }
    requires live { walk.old.live ≡ true }
    ensures unmet { IfOk result (λ a. InStateOf walk.old (λ nest state. a.unmet
        ≡ first_unmet (domain_of domain.now).rules nest state (ground_of task.now) spot.rule spot.branch)) }
    ensures values { IfOk result (λ a. InStateOf walk.old (λ nest state. values_of a.values
        ≡ values_met (domain_of domain.now).rules nest state (ground_of task.now) spot.rule spot.branch a.unmet)) }
    ensures same { walk.new ≡ walk.old }
{
    match to_atom(alloc, task)? {
        Some(atom) => answer_in(alloc, domain, code, spot, walk, &atom),
        None => Ok(without_values(alloc, unmatched(domain, spot))),
    }
}
