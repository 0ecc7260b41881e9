//! Laws of terms, bindings, matching, values and goals.
//!
//! Each function does nothing, and its contract is the law.

ghost use Rattle.std.specs.Prelude.{◌≡◌, true, Some, Ok, Err};
ghost use Rattle.hp_syntax.specs.declared.fault.RunFault.{RunFault};
ghost use Rattle.hp_syntax.specs.Goals.{Goal, fill_goal, ground_parts};
ghost use Rattle.hp_syntax.specs.Events.{parts_bound, tail_is_bound};
ghost use Rattle.hp_syntax.specs.Matching.{match_pattern, match_atom};
ghost use Rattle.hp_laws.specs.Readings.{reading, atom_reading, Occurs, Agree};
ghost use Rattle.hp_syntax.specs.Syntax.{Pattern, Atom};
ghost use Rattle.hp_syntax.specs.Terms.{Term, Terms, Symbol, Listed, More};
ghost use Rattle.hp_syntax.specs.Values.{Bindings, value, atom_value, Extends};

/// Matching finds bindings that keep those before and under which the pattern reads as the term; all others that do
/// so keep those found; and it finds some wherever there are any.
pub fn matching_finds_the_least_extension()
    ensures extends { (p : Pattern) (t : Term) (e b : Bindings) → match_pattern p t e ≡ Some b → Extends e b }
    ensures equal { (p : Pattern) (t : Term) (e b : Bindings) → match_pattern p t e ≡ Some b
        → reading p b ≡ Some t }
    ensures least { (p : Pattern) (t : Term) (e d : Bindings) → Extends e d → reading p d ≡ Some t
        → (b : Bindings) × (match_pattern p t e ≡ Some b) × Extends b d }
    ensures atoms { (a : Atom) (t : Term) (e b : Bindings) → match_atom a t e ≡ Some b
        → Extends e b × (atom_reading a b ≡ Some t) }
    ensures least_atoms { (a : Atom) (t : Term) (e d : Bindings) → Extends e d → atom_reading a d ≡ Some t
        → (b : Bindings) × (match_atom a t e ≡ Some b) × Extends b d }
{}

/// A value depends only on what the pattern's variables stand for, and stays when more variables stand for something.
pub fn values_depend_on_their_variables()
    ensures same { (p : Pattern) (e b : Bindings) → Agree (λ v. Occurs v p) e b → value p e ≡ value p b }
    ensures grow { (p : Pattern) (t : Term) (e b : Bindings) → Extends e b → value p e ≡ Ok t → value p b ≡ Ok t }
{}

/// A goal each variable of which stands for a term is filled with its value, or meets the fault that its value is.
pub fn filling_is_valuing()
    ensures values { (a : Atom) (e : Bindings) (q : Goal) (ts : Terms) → fill_goal a e ≡ Ok q
        → ground_parts q.parts q.tail ≡ Some ts → atom_value a e ≡ Ok (Listed (More (Symbol q.name) ts)) }
    ensures ground { (a : Atom) (e : Bindings) (t : Term) → atom_value a e ≡ Ok t
        → (q : Goal) × (ts : Terms) × (fill_goal a e ≡ Ok q) × (ground_parts q.parts q.tail ≡ Some ts)
        × (t ≡ Listed (More (Symbol q.name) ts)) }
    ensures faults { (a : Atom) (e : Bindings) (f : RunFault) → parts_bound a.args e ≡ true
        → tail_is_bound a.tail e ≡ true → fill_goal a e ≡ Err f → atom_value a e ≡ Err f }
    ensures faults_too { (a : Atom) (e : Bindings) (f : RunFault) → parts_bound a.args e ≡ true
        → tail_is_bound a.tail e ≡ true → atom_value a e ≡ Err f → fill_goal a e ≡ Err f }
{}
