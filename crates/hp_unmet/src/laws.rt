//! Laws of the answer, so that a mistake in its definition would show.
//!
//! Each function does nothing, and its contract is the law.
ghost use Rattle.std.specs.Prelude.{◌≡◌, ◌≢◌, ◌↔◌, ℕ, List, [], ◌∷◌, true, Some, is_some, length, slice_get};
ghost use Rattle.hp_syntax.specs.declared.pattern.Span.{Span};
ghost use Rattle.hp_syntax.specs.declared.fault.RunFault.{RunFault};
ghost use Rattle.hp_syntax.specs.Events.{Fault, Satisfied, Nothing, State, finding, sat};
ghost use Rattle.hp_syntax.specs.Preconditions.{precondition_events};
ghost use Rattle.hp_syntax.specs.Syntax.{Atom, Axiom, Expression, First, Forall, Key, Not, Plain, Rule, Sorted};
ghost use Rattle.hp_syntax.specs.Terms.{Term};
ghost use Rattle.hp_syntax.specs.Values.{Bindings};
ghost use Rattle.hp_unmet.specs.Against.{IsDenial, against_part, satisfier_against};
ghost use Rattle.hp_unmet.specs.Conjunctions.{Conjunction, answer_of, conjunction, first_events, first_parts, matched};
ghost use Rattle.hp_unmet.specs.FirstUnmet.{IsFirstUnmet};

use crate::unmet::Unmet;

/// A part is the answer exactly where each number of the parts before it is satisfied together, and nothing is found with
/// any greater number. Where the answer is `None` and the head matches, all parts are satisfied; and it is `Head` exactly
/// where the head doesn't match.
pub fn the_part_told_is_the_first()
    ensures part { (rules : List Rule) (nest : ℕ) (state : State) (task : Term) (c : Conjunction) (place : ℕ)
        → answer_of rules nest state task c ≡ Unmet.Part place → IsFirstUnmet rules nest state task c place }
    ensures only { (rules : List Rule) (nest : ℕ) (state : State) (task : Term) (c : Conjunction) (place : ℕ)
        → IsFirstUnmet rules nest state task c place → answer_of rules nest state task c ≡ Unmet.Part place }
    ensures none { (rules : List Rule) (nest : ℕ) (state : State) (task : Term) (c : Conjunction) (e : Bindings)
        → matched c task ≡ Some e → answer_of rules nest state task c ≡ Unmet.None
        → finding (first_events rules nest state c (Some e) (length c.parts)) ≡ Satisfied }
    ensures head { (rules : List Rule) (nest : ℕ) (state : State) (task : Term) (c : Conjunction)
        → (answer_of rules nest state task c ≡ Unmet.Head) ↔ (matched c task ≡ None) }
{}

/// What is found with all parts is what is found of the precondition itself, of one that takes the first satisfier alone
/// too. Of one that sorts its satisfiers, nothing is found exactly where nothing is found with all parts. Where these have
/// a satisfier it may meet a fault, one of its key or a later one.
pub fn all_parts_are_the_precondition()
    ensures plain { (axioms : List Axiom) (nest : ℕ) (state : State) (s : Span) (vars : List (List ℕ)) (head : Atom)
        (E : Expression) (e : Bindings) → let c = conjunction s vars head (Plain E) in
        finding (precondition_events axioms nest state (first_parts c (length c.parts)) e)
        ≡ finding (precondition_events axioms nest state (Plain E) e) }
    ensures first { (axioms : List Axiom) (nest : ℕ) (state : State) (s : Span) (vars : List (List ℕ)) (head : Atom)
        (E : Expression) (e : Bindings) → let c = conjunction s vars head (First E) in
        finding (precondition_events axioms nest state (first_parts c (length c.parts)) e)
        ≡ finding (precondition_events axioms nest state (First E) e) }
    ensures sorted { (axioms : List Axiom) (nest : ℕ) (state : State) (s : Span) (vars : List (List ℕ)) (head : Atom)
        (k : Key) (E : Expression) (e : Bindings) → let c = conjunction s vars head (Sorted k E) in
        (finding (precondition_events axioms nest state (first_parts c (length c.parts)) e) ≡ Nothing)
        ↔ (finding (precondition_events axioms nest state (Sorted k E) e) ≡ Nothing) }
{}

/// Where a satisfier makes a negation false, the negation has no event. Where one makes a `forall` false, the `forall` has
/// no event either, or only the fault that its second expression meets under an earlier satisfier of the first. And for
/// each negation or `forall` without an event there is such a satisfier.
pub fn what_is_against_a_part_makes_it_false()
    ensures negation { (axioms : List Axiom) (nest : ℕ) (state : State) (s : Span) (p : Expression) (e b : Bindings)
        → satisfier_against axioms nest state (Not s p) e ≡ Some b → sat axioms nest state (Not s p) e ≡ [] }
    ensures forall_part { (axioms : List Axiom) (nest : ℕ) (state : State) (s : Span) (vars : List ℕ) (y z : Expression)
        (e b : Bindings) → satisfier_against axioms nest state (Forall s vars y z) e ≡ Some b
        → ((f : RunFault) → sat axioms nest state (Forall s vars y z) e ≢ Fault f ∷ [])
        → sat axioms nest state (Forall s vars y z) e ≡ [] }
    ensures there { (axioms : List Axiom) (nest : ℕ) (state : State) (part : Expression) (e : Bindings)
        → IsDenial part → sat axioms nest state part e ≡ []
        → is_some (satisfier_against axioms nest state part e) ≡ true }
{}

/// Where the first unmet part is a negation or a `forall`, there is a satisfier that makes it false.
pub fn an_unmet_denial_has_a_satisfier_against_it()
    ensures { (rules : List Rule) (nest : ℕ) (state : State) (task : Term) (c : Conjunction) (place : ℕ)
        (part : Expression) → answer_of rules nest state task c ≡ Unmet.Part place
        → slice_get c.parts place ≡ Some part → IsDenial part
        → is_some (against_part rules nest state task c place part) ≡ true }
{}
