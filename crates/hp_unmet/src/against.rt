//! The satisfier that makes a negation or a `forall` false, where a walk stands.
ghost use Rattle.std.specs.Prelude.{◌≡◌, ◌+◌, ℕ, List, true, IfOk, Some, option_map, slice_get};
ghost use Rattle.hp_choice.specs.FirstSatisfier.{values_of};
ghost use Rattle.hp_choice.specs.Tests.{CanTest};
ghost use Rattle.hp_code.specs.Codes.{code_of};
ghost use Rattle.hp_suspended.specs.Fitting.{IsExpressionAt};
ghost use Rattle.hp_suspended.specs.Nodes.{expression_at};
ghost use Rattle.hp_syntax.specs.declared.pattern.Span.{Span};
ghost use Rattle.hp_syntax.specs.GroundPatterns.{IsGroundAtom, atom_said};
ghost use Rattle.hp_syntax.specs.GroundViews.{ground_of};
ghost use Rattle.hp_syntax.specs.Syntax.{Expression, Forall, Not};
ghost use Rattle.hp_syntax.specs.Views.{atom_of, domain_of, expression_of};
ghost use Rattle.hp_unmet.specs.Against as plain;
ghost use Rattle.hp_unmet.specs.Against.{against};
ghost use Rattle.hp_unmet.specs.PartNodes.{IsSpot};
ghost use Rattle.hp_unmet.specs.States.{InStateOf};
ghost use Rattle.hp_unmet.specs.Trials.{CanBeTried, IsPrefix, conjunction_of, rules_tried};
ghost use Rattle.hp_unmet.specs.TrialsAgainst.{GivesAfter, against_tried};

use crate::nodes::{Spot, nodes_asked, past};
use crate::parts::asked_in;
use crate::said::to_atom;
use crate::trial::Trial;
use hp_choice::{Conjuncts, Prefix, Start, Test};
use hp_code::Code;
use hp_search::Planner;
use hp_syntax::{AtomPat, Domain, Expr, ExprKind, Ground};
use std::alloc::{AllocError, Global};

/// The node of the expression that a negation denies, or of the first expression of a `forall`, by its own node.
fn denied_node(code: &Code, node: usize) -> usize
    requires { IsExpressionAt (code_of code.now) node }
    ensures is { result ≡ node + 1 }
    ensures denied { (s : Span) (p : Expression) → expression_at (code_of code.now) node ≡ Some (Not s p)
        → expression_at (code_of code.now) result ≡ Some p }
    ensures range { (s : Span) (vars : List ℕ) (y z : Expression)
        → expression_at (code_of code.now) node ≡ Some (Forall s vars y z)
        → expression_at (code_of code.now) result ≡ Some y }
{
    let _ = code.nodes();
    node + 1
}

/// The node of the second expression of a `forall`, which stands after the tree of the first.
fn body_node(code: &Code, node: usize) -> usize
    requires { IsExpressionAt (code_of code.now) node }
    ensures { (s : Span) (vars : List ℕ) (y z : Expression)
        → expression_at (code_of code.now) node ≡ Some (Forall s vars y z)
        → expression_at (code_of code.now) result ≡ Some z }
{
    past(code, denied_node(code, node), 1)
}

impl Trial<'_> {
    /// The values of the variables by the first satisfier of a node's expression that passes a test, under the bindings
    /// by the first satisfier of some first parts together.
    fn first_after(
        &self,
        walk: &mut Planner<'_>,
        task: &AtomPat,
        before: Prefix,
        node: usize,
        test: &Test<'_>,
    ) -> Result<Option<Vec<Option<Ground>>>, AllocError>
        requires can { CanBeTried self.now }
        requires live { walk.old.live ≡ true }
        requires ground { IsGroundAtom (atom_of task.now) }
        requires before { IsPrefix self.now before }
        requires node { IsExpressionAt (code_of self.now.code.now) node }
        requires test { CanTest (code_of self.now.code.now) test.now }
        ensures values { IfOk result (λ o. InStateOf walk.old
            (λ nest state. GivesAfter self.now nest state (atom_said (atom_of task.now)) before.count node test.now o)) }
        ensures same { walk.new ≡ walk.old }
    {
        let asked = Conjuncts {
            rule: self.nodes.rule,
            first: node,
            end: past(self.code, node, 1),
        };
        let start = Start::After(task, self.nodes_of(before));
        walk.first_satisfier(self.code, asked, &start, test)
    }

    /// The values by the satisfier that makes a part false, under the bindings by the parts before it.
    fn against_part(
        &self,
        walk: &mut Planner<'_>,
        task: &AtomPat,
        before: Prefix,
        part: &Expr,
    ) -> Result<Option<Vec<Option<Ground>>>, AllocError>
        requires can { CanBeTried self.now }
        requires live { walk.old.live ≡ true }
        requires ground { IsGroundAtom (atom_of task.now) }
        requires before { IsPrefix self.now before }
        requires part { slice_get (conjunction_of self.now.asked).parts before.count ≡ Some (expression_of part.now) }
        ensures values { IfOk result (λ o. InStateOf walk.old (λ nest state. option_map values_of o
            ≡ plain.against_part (rules_tried self.now) nest state (atom_said (atom_of task.now))
            (conjunction_of self.now.asked) before.count (expression_of part.now))) }
        ensures same { walk.new ≡ walk.old }
    {
        match &part.kind {
            ExprKind::Not(_) => {
                let denied = denied_node(self.code, before.end);
                self.first_after(walk, task, before, denied, &Test::Any)
            }
            ExprKind::Forall(_, _, _) => {
                let range = denied_node(self.code, before.end);
                let body = body_node(self.code, before.end);
                self.first_after(walk, task, before, range, &Test::Nothing(body))
            }
            ExprKind::Atom(_) => Ok(None),
            ExprKind::And(_) => Ok(None),
            ExprKind::Or(_) => Ok(None),
            ExprKind::Assign(_, _) => Ok(None),
            ExprKind::Call(_) => Ok(None),
        }
    }

    /// The values by the satisfier that makes the part at a place false.
    fn against(
        &self,
        walk: &mut Planner<'_>,
        task: &AtomPat,
        place: usize,
    ) -> Result<Option<Vec<Option<Ground>>>, AllocError>
        requires can { CanBeTried self.now }
        requires live { walk.old.live ≡ true }
        requires ground { IsGroundAtom (atom_of task.now) }
        ensures values { IfOk result (λ o. InStateOf walk.old
            (λ nest state. option_map values_of o
            ≡ against_tried self.now nest state (atom_said (atom_of task.now)) place)) }
        ensures same { walk.new ≡ walk.old }
    {
        match self.asked.parts.get(place) {
            Some(part) => self.against_part(walk, task, self.first(place), part),
            None => Ok(None),
        }
    }
}

fn against_in(
    domain: &Domain,
    code: &Code,
    spot: Spot,
    walk: &mut Planner<'_>,
    task: &AtomPat,
    place: usize,
) -> Result<Option<Vec<Option<Ground>>>, AllocError>
    requires spot { IsSpot (domain_of domain.now).rules (code_of code.now) spot }
    requires live { walk.old.live ≡ true }
    requires ground { IsGroundAtom (atom_of task.now) }
    ensures values { IfOk result (λ o. InStateOf walk.old (λ nest state. option_map values_of o
        ≡ against (domain_of domain.now).rules nest state (atom_said (atom_of task.now)) spot.rule spot.branch place)) }
    ensures same { walk.new ≡ walk.old }
{
    match asked_in(domain, spot.rule, spot.branch) {
        Some(asked) => {
            let trial = Trial {
                domain,
                asked,
                code,
                nodes: nodes_asked(domain, code, spot, asked),
                start: Start::Task(task),
            };
            trial.against(walk, task, place)
        }
        None => Ok(None),
    }
}

/// The values of the variables of a rule by the first satisfier that makes the negation or the `forall` at a place of a
/// precondition false, where the head matches a task, in the state of the node at which a walk stands. The parts before
/// that place are satisfied first, by their first satisfier together. Of a negation it is the first satisfier of the
/// expression that it denies. Of a `forall` it is the first satisfier of its first expression under which nothing
/// satisfies the second. There is none at the place of any other part, and where a fault comes first.
///
/// It is asked by the nodes of a code that serves for the domain's, as `first_unmet` is. The walk stays as it is, after an
/// error too.
pub fn satisfier_against(
    alloc: Global,
    domain: &Domain,
    code: &Code,
    spot: Spot,
    walk: &mut Planner<'_>,
    task: &Ground,
    place: usize,
) -> Result<Option<Vec<Option<Ground>>>, AllocError>
    requires spot { IsSpot (domain_of domain.now).rules (code_of code.now) spot }
    requires live { walk.old.live ≡ true }
    ensures values { IfOk result (λ o. InStateOf walk.old (λ nest state. option_map values_of o
        ≡ against (domain_of domain.now).rules nest state (ground_of task.now) spot.rule spot.branch place)) }
    ensures same { walk.new ≡ walk.old }
{
    match to_atom(alloc, task)? {
        Some(atom) => against_in(domain, code, spot, walk, &atom, place),
        None => Ok(None),
    }
}
