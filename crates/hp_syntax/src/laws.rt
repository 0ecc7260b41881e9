//! Laws over the definitions: what holds of every text, form and term.
//!
//! Each function does nothing, and its contract is the law.

ghost use Rattle.std.specs.Bool.{Decides};
ghost use Rattle.std.specs.Prelude.{◌≡◌, ◌⊎◌, ◌≤◌, ℕ, ◌+◌, List, length, take, Ok, Err};
ghost use Rattle.hp_syntax.specs.declared.limits.TheConstants.{LARGEST_TEXT, LONGEST_TOKEN, DEEPEST_NESTING};
ghost use Rattle.hp_syntax.specs.Forest.{Forest, IsForest, Spells, nesting, longest_token};
ghost use Rattle.hp_syntax.specs.Places.{IsPlace, Way, GoesOn};
ghost use Rattle.hp_syntax.specs.Refusal.{Refusal, IsRefused};
ghost use Rattle.hp_syntax.specs.Grammar.{domain_form, problem_form};
ghost use Rattle.hp_syntax.specs.Misforms.{misform_span};
ghost use Rattle.hp_syntax.specs.Numbered.{IsNumberedDomain, IsNumberedProblem};
ghost use Rattle.hp_syntax.specs.Steps.{Misform};
ghost use Rattle.hp_syntax.specs.Syntax as whole;
ghost use Rattle.hp_syntax.specs.Terms.{Term, same_term};

/// A text spells at most one forest, so what a text means doesn't depend on who reads it.
pub fn texts_spell_one_forest()
    ensures { (text : List ℕ) (f g : Forest) → IsForest text f → IsForest text g → f ≡ g }
{}

/// A text is refused for one reason at most, told with one offset.
pub fn texts_have_one_refusal()
    ensures { (text : List ℕ) (r s : Refusal) → IsRefused text r → IsRefused text s → r ≡ s }
{}

/// No text that spells a forest is refused.
pub fn no_text_is_both()
    ensures { (text : List ℕ) (f : Forest) (r : Refusal) → IsForest text f → IsRefused text r → ⊥ }
{}

/// Each text spells a forest or is refused, so the reasons for a refusal are all there are.
pub fn every_text_is_one_or_the_other()
    ensures { (text : List ℕ) → ((f : Forest) × IsForest text f) ⊎ ((r : Refusal) × IsRefused text r) }
{}

/// A refusal is decided by the text up to the byte where it arises and the one behind it: a text
/// that is alike up to there is refused alike, whatever stands later. So a text that goes on past
/// the limit is refused as its prefix is.
pub fn refusals_are_decided_by_the_prefix()
    ensures prefix { (text other : List ℕ) (r : Refusal) (refused : IsRefused text r)
        → take (refused.at + 2) text ≡ take (refused.at + 2) other → IsRefused other r }
    ensures refused { (text : List ℕ) (r : Refusal) → IsRefused (take (LARGEST_TEXT + 1) text) r
        → IsRefused text r }
    ensures spelled { (text : List ℕ) (f : Forest) → IsForest (take (LARGEST_TEXT + 1) text) f
        → IsForest text f }
{}

/// What a text spells is its forest exactly where three limits are kept: how long the text is, how
/// long its tokens are and how deep its lists nest.
pub fn limits_are_kept()
    ensures enough { (text : List ℕ) (f : Forest) → Spells text 0 (length text) f
        → length text ≤ LARGEST_TEXT → longest_token f ≤ LONGEST_TOKEN → nesting f ≤ DEEPEST_NESTING
        → IsForest text f }
    ensures needed { (text : List ℕ) (f : Forest) → IsForest text f
        → (length text ≤ LARGEST_TEXT) × (longest_token f ≤ LONGEST_TOKEN) × (nesting f ≤ DEEPEST_NESTING) }
{}

/// From each place of a text reading goes on in exactly one way, or exactly one refusal arises there.
pub fn reading_goes_on_in_one_way()
    ensures some { (text : List ℕ) (at : ℕ) → IsPlace text at → (way : Way) × GoesOn text at way }
    ensures one { (text : List ℕ) (at : ℕ) (v w : Way) → IsPlace text at → GoesOn text at v
        → GoesOn text at w → v ≡ w }
{}

/// The form of a forest is a function of it, so it has one domain at most, or one problem. No forest is the form of
/// both.
pub fn forests_have_one_form()
    ensures { (len : ℕ) (f : Forest) (d : whole.Domain) (p : whole.Problem) → domain_form len f ≡ Ok d
        → problem_form len f ≡ Ok p → ⊥ }
{}

/// The test of terms tells which are equal, so being a member of a state is what it says.
pub fn terms_are_compared()
    ensures { (x y : Term) → Decides (same_term x y) (x ≡ y) }
{}

/// Every variable number in what a forest is the form of is the place of one of the names of its
/// rule, or of the problem.
pub fn forms_are_numbered()
    ensures domain { (len : ℕ) (f : Forest) (d : whole.Domain) → domain_form len f ≡ Ok d → IsNumberedDomain d }
    ensures problem { (len : ℕ) (f : Forest) (p : whole.Problem) → problem_form len f ≡ Ok p
        → IsNumberedProblem p }
{}

/// What is refused of a forest is decided by the text up to the end of the refused node and the
/// byte behind it: what is alike up to there is refused alike, whatever stands later.
pub fn misforms_are_decided_by_the_prefix()
    ensures domain { (text other : List ℕ) (f g : Forest) (e : Misform) → IsForest text f → IsForest other g
        → domain_form (length text) f ≡ Err e
        → take ((misform_span e).to + 1) text ≡ take ((misform_span e).to + 1) other
        → domain_form (length other) g ≡ Err e }
    ensures problem { (text other : List ℕ) (f g : Forest) (e : Misform) → IsForest text f → IsForest other g
        → problem_form (length text) f ≡ Err e
        → take ((misform_span e).to + 1) text ≡ take ((misform_span e).to + 1) other
        → problem_form (length other) g ≡ Err e }
{}
