//! Laws of parts that are satisfied one after another.
//!
//! Each function does nothing, and its contract is the law.
ghost use Rattle.std.specs.Prelude.{◌≡◌, ◌≤◌, ℕ, List, length, take};
ghost use Rattle.hp_syntax.specs.declared.pattern.Span.{Span};
ghost use Rattle.hp_syntax.specs.Events.{Satisfied, State, finding, sat};
ghost use Rattle.hp_syntax.specs.Syntax.{And, Axiom, Expression};
ghost use Rattle.hp_syntax.specs.Values.{Bindings};
ghost use Rattle.hp_syntax.specs.Views.{as_expressions};
ghost use Rattle.hp_choice.specs.Asking.{along};

/// The first parts of a conjunction that are satisfied one after another are satisfied together, and they are no more
/// than its parts.
pub fn parts_along_are_satisfied()
    ensures satisfied { (axioms : List Axiom) (nest : ℕ) (st : State) (s : Span) (ps : List Expression) (e : Bindings)
        → finding (sat axioms nest st (And s (as_expressions (take (along axioms nest st ps e) ps))) e) ≡ Satisfied }
    ensures within { (axioms : List Axiom) (nest : ℕ) (st : State) (ps : List Expression) (e : Bindings)
        → along axioms nest st ps e ≤ length ps }
{}
