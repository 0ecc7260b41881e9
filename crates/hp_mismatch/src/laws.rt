//! Laws of what is reported of a head, so that a mistake in its definition would show.
//!
//! Each function does nothing, and its contract is the law.
ghost use Rattle.std.specs.Prelude.{◌≡◌, ◌⊎◌, ℕ, None, Option, Some, false, true};
ghost use Rattle.hp_syntax.specs.declared.pattern.Tail.{Tail};
ghost use Rattle.hp_syntax.specs.Matching.{match_atom};
ghost use Rattle.hp_syntax.specs.Syntax.{Atom, Patterns};
ghost use Rattle.hp_syntax.specs.Terms.{Listed, More, Symbol, Terms};
ghost use Rattle.hp_syntax.specs.Values.{Bindings, unbound};
ghost use Rattle.hp_mismatch.specs.FirstMisfit.{IsFirstArgument, IsTailFirst};
ghost use Rattle.hp_mismatch.specs.Mismatch.{mismatch, pattern_count, takes, term_count};

use crate::misfit::Misfit;

/// Where a head doesn't match a task of its name, an argument is reported, or it doesn't take so many. Where it
/// matches, it takes so many, and no argument is reported.
pub fn the_reason_is_always_reported()
    ensures other { (a : Atom) (ts : Terms) (n : ℕ) → match_atom a (Listed (More (Symbol a.name) ts)) (unbound n) ≡ None
        → (takes a.tail (pattern_count a.args) (term_count ts) ≡ false)
        ⊎ ((m : Misfit) × (mismatch a.args a.tail ts (unbound n) ≡ Some m)) }
    ensures same { (a : Atom) (ts : Terms) (n : ℕ) (e : Bindings)
        → match_atom a (Listed (More (Symbol a.name) ts)) (unbound n) ≡ Some e
        → (takes a.tail (pattern_count a.args) (term_count ts) ≡ true)
        × (mismatch a.args a.tail ts (unbound n) ≡ None) }
{}

/// What is reported is the first argument that doesn't match, where those before it match, or else the tail.
pub fn the_place_is_the_first()
    ensures { (ps : Patterns) (tail : Option Tail) (ts : Terms) (e : Bindings) (m : Misfit)
        → mismatch ps tail ts e ≡ Some m → IsFirstArgument ps ts e m ⊎ IsTailFirst ps tail ts e m }
{}
