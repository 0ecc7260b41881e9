//! Laws of satisfiers.
//!
//! Each function does nothing, and its contract is the law.

ghost use Rattle.std.specs.List.{All, AllPairs};
ghost use Rattle.std.specs.Prelude.{◌≡◌, ◌↔◌, ℕ, List, map, Contains};
ghost use Rattle.hp_syntax.specs.declared.pattern.Span.{Span};
ghost use Rattle.hp_syntax.specs.Events.{Sat, State, Below, EventExtends, goal_events, atom_events, sat};
ghost use Rattle.hp_syntax.specs.Goals.{Goal};
ghost use Rattle.hp_syntax.specs.Preconditions.{precondition_events};
ghost use Rattle.hp_laws.specs.SatisfierLaws.{Matches, NamesNoneOf, AreAtoms, IsSat};
ghost use Rattle.hp_syntax.specs.Syntax.{Atom, Expression, Expressions, And, Axiom, Precondition};
ghost use Rattle.hp_laws.specs.TreeLaws.{IsBefore};
ghost use Rattle.hp_syntax.specs.Values.{Bindings};

/// The satisfiers of a conjunction of atoms that no axiom concludes come in the order of the places of the state: the
/// first atom's first, each choice of places that match once. This holds where no fault is met.
pub fn satisfiers_come_in_order()
    ensures { (axioms : List Axiom) (nest : ℕ) (s : State) (span : Span) (atoms : Expressions) (e : Bindings)
        → AreAtoms atoms → All (λ x. NamesNoneOf x atoms) axioms → All IsSat (sat axioms nest s (And span atoms) e)
        → (list : List (List ℕ × Bindings)) × (map (λ x. Sat x.1) list ≡ sat axioms nest s (And span atoms) e)
        × AllPairs (λ x y. IsBefore x.0 y.0) list
        × ((places : List ℕ) (b : Bindings) → Contains list (places, b) ↔ Matches s atoms e places b) }
{}

/// Each satisfier is of the variables of the bindings that it began with, and keeps what these have: of an expression,
/// of a precondition, and of an atom and of a goal, whatever is met one axiom level down.
pub fn events_extend_their_bindings()
    ensures expressions { (axioms : List Axiom) (nest : ℕ) (s : State) (E : Expression) (e : Bindings)
        → All (EventExtends e) (sat axioms nest s E e) }
    ensures preconditions { (axioms : List Axiom) (nest : ℕ) (s : State) (p : Precondition) (e : Bindings)
        → All (EventExtends e) (precondition_events axioms nest s p e) }
    ensures atoms { (axioms : List Axiom) (below : Below) (s : State) (a : Atom) (e : Bindings)
        → All (EventExtends e) (atom_events axioms below s a e) }
    ensures goals { (axioms : List Axiom) (below : Below) (s : State) (q : Goal) (e : Bindings)
        → All (EventExtends e) (goal_events axioms below s q e) }
{}
