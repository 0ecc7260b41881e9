//! A law of operators that are read back from a code.
//!
//! The function does nothing, and its contract is the law.
ghost use Rattle.std.specs.Prelude.{◌≡◌, ℕ, List};
ghost use Rattle.hp_syntax.specs.Changes.{effects};
ghost use Rattle.hp_syntax.specs.Events.{State};
ghost use Rattle.hp_syntax.specs.Syntax.{Axiom, Operator};
ghost use Rattle.hp_syntax.specs.Values.{Bindings};
ghost use Rattle.hp_code.specs.Sources.{Body, from_adding, not_adding};
ghost use Rattle.hp_operator.specs.Bodies.{body_effects};

/// An operator whose lists and whose cost are those of a body changes and costs what the body comes to.
pub fn operators_come_to_what_their_bodies_do()
    ensures { (axioms : List Axiom) (nest : ℕ) (s : State) (o : Operator) (b : Body) (e : Bindings)
        → o.dels ≡ not_adding b.effects → o.adds ≡ from_adding b.effects → o.cost ≡ b.cost
        → effects axioms nest s o e ≡ body_effects axioms nest s b e }
{}
