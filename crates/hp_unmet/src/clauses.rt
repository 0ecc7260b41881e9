//! What of a branch of an axiom is satisfied, where the head of the axiom starts from an atom of a precondition.
ghost use Rattle.std.specs.Prelude.{◌≡◌, ℕ, [], true, false, IfOk, Some, option_map};
ghost use Rattle.hp_choice.specs.Asking.{AreConjuncts};
ghost use Rattle.hp_choice.specs.FirstSatisfier.{values_of};
ghost use Rattle.hp_choice.specs.Starting.{AreAfter};
ghost use Rattle.hp_code.specs.Codes.{code_of};
ghost use Rattle.hp_syntax.specs.Events.{State};
ghost use Rattle.hp_syntax.specs.GroundPatterns.{IsGroundAtom, atom_said};
ghost use Rattle.hp_syntax.specs.GroundViews.{ground_of};
ghost use Rattle.hp_syntax.specs.Terms.{Term};
ghost use Rattle.hp_syntax.specs.Views.{atom_of, domain_of, expression_of};
ghost use Rattle.hp_unmet.specs.Clauses as plain;
ghost use Rattle.hp_unmet.specs.Clauses.{bindings_met, clause_at, clause_of, clause_unmet, clause_values};
ghost use Rattle.hp_unmet.specs.Conjunctions as conj;
ghost use Rattle.hp_unmet.specs.PartNodes.{IsSpot};
ghost use Rattle.hp_unmet.specs.Said.{is_atom};
ghost use Rattle.hp_unmet.specs.States.{InStateOf};
ghost use Rattle.hp_unmet.specs.Trials.{conjunction_of};

use crate::nodes::{Spot, nodes_asked};
use crate::parts::{Parts, asked_in};
use crate::said::to_atom;
use crate::trial::Trial;
use crate::unmet::{Answer, Unmet, without_values};
use hp_choice::{Conjuncts, Start};
use hp_code::Code;
use hp_search::Planner;
use hp_syntax::{AtomPat, Domain, Expr, ExprKind, Ground};
use std::alloc::{AllocError, Global};

/// The parts of a branch of an axiom, the parts that ask for it, and the atom among these from which its head may start.
#[derive(Clone, Copy)]
struct Clause<'a> {
    own: Parts<'a>,
    asking: Parts<'a>,
    atom: &'a AtomPat,
}

/// The atom that a part is.
fn atom_in(part: &Expr) -> Option<&AtomPat>
    ensures { option_map (λ a. atom_of a.now) result ≡ plain.atom_in (expression_of part.now) }
{
    match &part.kind {
        ExprKind::Atom(atom) => Some(atom),
        ExprKind::And(_) => None,
        ExprKind::Or(_) => None,
        ExprKind::Not(_) => None,
        ExprKind::Forall(_, _, _) => None,
        ExprKind::Assign(_, _) => None,
        ExprKind::Call(_) => None,
    }
}

/// The atom that stands at a place.
fn atom_at<'a>(asked: Parts<'a>, place: usize) -> Option<&'a AtomPat>
    ensures { option_map (λ a. atom_of a.now) result ≡ plain.atom_at (conjunction_of asked.entry) place }
{
    match asked.parts.get(place) {
        Some(part) => atom_in(part),
        None => None,
    }
}

fn clause_for<'a>(place: usize, asking: Parts<'a>, own: Parts<'a>) -> Option<Clause<'a>>
    ensures { option_map clause_of result
        ≡ plain.clause_for place (conjunction_of asking.entry) (conjunction_of own.entry) }
{
    match atom_at(asking, place) {
        Some(atom) => Some(Clause { own, asking, atom }),
        None => None,
    }
}

fn clause_by<'a>(place: usize, own: Option<Parts<'a>>, asking: Parts<'a>) -> Option<Clause<'a>>
    ensures { option_map clause_of result
        ≡ plain.clause_by place (option_map conjunction_of own.entry) (conjunction_of asking.entry) }
{
    match own {
        Some(own) => clause_for(place, asking, own),
        None => None,
    }
}

/// The question of what is satisfied of a branch, where its head starts from the atom at a place of a precondition.
#[derive(Clone, Copy)]
struct Question<'a> {
    domain: &'a Domain,
    code: &'a Code,
    spot: Spot,
    asking: Spot,
    place: usize,
}

impl Question<'_> {
    /// The branch and the atom, where both are there.
    fn clause(&self) -> Option<Clause<'_>>
        ensures { option_map clause_of result ≡ clause_at (domain_of self.now.domain.now).rules self.now.asking.rule
            self.now.asking.branch self.now.place self.now.spot.rule self.now.spot.branch }
    {
        match asked_in(self.domain, self.asking.rule, self.asking.branch) {
            Some(asking) => {
                let own = asked_in(self.domain, self.spot.rule, self.spot.branch);
                clause_by(self.place, own, asking)
            }
            None => None,
        }
    }

    /// The nodes of the parts before the place.
    fn nodes_before(&self, asking: Parts<'_>, task: &AtomPat) -> Conjuncts
        requires spot { IsSpot (domain_of self.now.domain.now).rules (code_of self.now.code.now) self.now.asking }
        requires asking { conj.asked_in (domain_of self.now.domain.now).rules self.now.asking.rule
            self.now.asking.branch ≡ Some (conjunction_of asking) }
        requires ground { IsGroundAtom (atom_of task.now) }
        ensures are { AreConjuncts (code_of self.now.code.now) result }
        ensures after { (nest : ℕ) (state : State) → AreAfter (code_of self.now.code.now) nest state result
            (atom_said (atom_of task.now)) (bindings_met (domain_of self.now.domain.now).rules nest state
            (atom_said (atom_of task.now)) (conjunction_of asking.entry) self.now.place) }
    {
        let trial = Trial {
            domain: self.domain,
            asked: asking,
            code: self.code,
            nodes: nodes_asked(self.domain, self.code, self.asking, asking),
            start: Start::Task(task),
        };
        trial.nodes_of(trial.first(self.place))
    }

    /// The answer for a task that is an atom, by the branch and the atom.
    fn answer_by(
        &self,
        alloc: Global,
        walk: &mut Planner<'_>,
        clause: Clause<'_>,
        task: &AtomPat,
    ) -> Result<Answer, AllocError>
        requires spot { IsSpot (domain_of self.now.domain.now).rules (code_of self.now.code.now) self.now.spot }
        requires asking { IsSpot (domain_of self.now.domain.now).rules (code_of self.now.code.now) self.now.asking }
        requires clause { clause_at (domain_of self.now.domain.now).rules self.now.asking.rule
            self.now.asking.branch self.now.place self.now.spot.rule self.now.spot.branch ≡ Some (clause_of clause) }
        requires live { walk.old.live ≡ true }
        requires ground { IsGroundAtom (atom_of task.now) }
        ensures unmet { IfOk result (λ a. InStateOf walk.old (λ nest state. a.unmet
            ≡ clause_unmet (domain_of self.now.domain.now).rules nest state (atom_said (atom_of task.now))
            self.now.asking.rule self.now.asking.branch self.now.place self.now.spot.rule self.now.spot.branch)) }
        ensures values { IfOk result (λ a. InStateOf walk.old (λ nest state. values_of a.values
            ≡ clause_values (domain_of self.now.domain.now).rules nest state (atom_said (atom_of task.now))
            self.now.asking.rule self.now.asking.branch self.now.place self.now.spot.rule self.now.spot.branch
            a.unmet)) }
        ensures same { walk.new ≡ walk.old }
    {
        let before = self.nodes_before(clause.asking, task);
        let trial = Trial {
            domain: self.domain,
            asked: clause.own,
            code: self.code,
            nodes: nodes_asked(self.domain, self.code, self.spot, clause.own),
            start: Start::Goal(task, before, clause.atom),
        };
        trial.answer_with_values(alloc, walk)
    }

    /// The answer for a task that is an atom.
    fn answer(
        &self,
        alloc: Global,
        walk: &mut Planner<'_>,
        task: &AtomPat,
    ) -> Result<Answer, AllocError>
        requires spot { IsSpot (domain_of self.now.domain.now).rules (code_of self.now.code.now) self.now.spot }
        requires asking { IsSpot (domain_of self.now.domain.now).rules (code_of self.now.code.now) self.now.asking }
        requires live { walk.old.live ≡ true }
        requires ground { IsGroundAtom (atom_of task.now) }
        ensures unmet { IfOk result (λ a. InStateOf walk.old (λ nest state. a.unmet
            ≡ clause_unmet (domain_of self.now.domain.now).rules nest state (atom_said (atom_of task.now))
            self.now.asking.rule self.now.asking.branch self.now.place self.now.spot.rule self.now.spot.branch)) }
        ensures values { IfOk result (λ a. InStateOf walk.old (λ nest state. values_of a.values
            ≡ clause_values (domain_of self.now.domain.now).rules nest state (atom_said (atom_of task.now))
            self.now.asking.rule self.now.asking.branch self.now.place self.now.spot.rule self.now.spot.branch
            a.unmet)) }
        ensures same { walk.new ≡ walk.old }
    {
        match self.clause() {
            Some(clause) => self.answer_by(alloc, walk, clause, task),
            None => Ok(without_values(alloc, Unmet::None)),
        }
    }

    /// The answer for a task that is no atom, which no head matches: no head starts from an atom under no bindings.
    fn unstarted(&self) -> Unmet
        ensures unmet { (nest : ℕ) (state : State) (task : Term) → is_atom task ≡ false
            → result ≡ clause_unmet (domain_of self.now.domain.now).rules nest state task self.now.asking.rule
            self.now.asking.branch self.now.place self.now.spot.rule self.now.spot.branch }
        ensures values { (nest : ℕ) (state : State) (task : Term)
            → clause_values (domain_of self.now.domain.now).rules nest state task self.now.asking.rule
            self.now.asking.branch self.now.place self.now.spot.rule self.now.spot.branch result ≡ [] }
    {
        match self.clause() {
            Some(_) => Unmet::Head,
            None => Unmet::None,
        }
    }
}

/// What of a branch of an axiom is satisfied, where the head of the axiom starts from the atom that stands at a place of a
/// precondition, in the state of the node at which a walk stands. The atom is filled under the first satisfier of the
/// parts before it for a task, and the branch is asked for one axiom level further down. Where no atom stands there the
/// answer is `None`. The walk stays as it is, after an error too.
pub fn first_unmet_clause(
    alloc: Global,
    domain: &Domain,
    code: &Code,
    spot: Spot,
    asking: Spot,
    place: usize,
    walk: &mut Planner<'_>,
    task: &Ground,
) -> Result<Answer, AllocError>
    requires spot { IsSpot (domain_of domain.now).rules (code_of code.now) spot }
    requires asking { IsSpot (domain_of domain.now).rules (code_of code.now) asking }
    requires live { walk.old.live ≡ true }
    ensures unmet { IfOk result (λ a. InStateOf walk.old (λ nest state. a.unmet
        ≡ clause_unmet (domain_of domain.now).rules nest state (ground_of task.now) asking.rule asking.branch place
        spot.rule spot.branch)) }
    ensures values { IfOk result (λ a. InStateOf walk.old (λ nest state. values_of a.values
        ≡ clause_values (domain_of domain.now).rules nest state (ground_of task.now) asking.rule asking.branch place
        spot.rule spot.branch a.unmet)) }
    ensures same { walk.new ≡ walk.old }
{
    let question = Question {
        domain,
        code,
        spot,
        asking,
        place,
    };
    match to_atom(alloc, task)? {
        Some(atom) => question.answer(alloc, walk, &atom),
        None => Ok(without_values(alloc, question.unstarted())),
    }
}
