//! Laws of the domains, the problems and the pairs that the forms and the checks let through.
//!
//! Each function does nothing, and its contract is the law.

ghost use Rattle.std.specs.List.{All};
ghost use Rattle.std.specs.Prelude.{◌≡◌, ℕ, List, ◌++◌, None};
ghost use Rattle.hp_laws.specs.Plain.{IsPlainPair};
ghost use Rattle.hp_laws.specs.Sayings.{PairSaysItself};
ghost use Rattle.hp_syntax.specs.declared.limits.TheConstants.{DEEPEST_TERM};
ghost use Rattle.hp_syntax.specs.Checks.{HasFewVariables, domain_faults, problem_faults, first_of};
ghost use Rattle.hp_syntax.specs.Grammar.{problem_form};
ghost use Rattle.hp_syntax.specs.GroundPatterns.{IsGroundPair};
ghost use Rattle.hp_syntax.specs.Syntax.{Domain, Problem};
ghost use Rattle.hp_syntax.specs.TextForms.{IsRead};

/// Where the checks find no fault in a domain, each of its rules has few variables.
pub fn checked_rules_have_few_variables()
    ensures { (d : Domain) → first_of (domain_faults d) ≡ None → All HasFewVariables d.rules }
{}

/// Where the checks find no fault in a domain and a problem, they find none in the domain.
pub fn accepted_domains_are_checked()
    ensures { (d : Domain) (p : Problem) → first_of (domain_faults d ++ problem_faults d p) ≡ None
        → first_of (domain_faults d) ≡ None }
{}

/// No call stands in a problem, and its terms nest no deeper than the terms of a run may, whether or not the checks
/// accept it. A variable counts as the empty list.
pub fn problems_are_read_plain()
    ensures { (text : List ℕ) (p : Problem) → IsRead problem_form text p → All (IsPlainPair DEEPEST_TERM) p.pairs }
{}

/// No variable and no call stands in a pair of an accepted problem: no variable by the checks, and no call by the
/// form.
pub fn accepted_pairs_are_ground()
    ensures { (text : List ℕ) (d : Domain) (p : Problem) → IsRead problem_form text p
        → first_of (domain_faults d ++ problem_faults d p) ≡ None → All IsGroundPair p.pairs }
{}

/// The values of the atoms and tasks of an accepted problem, without bindings, are what they say. Nothing in them
/// nests too deep, by the limit of brackets in a text.
pub fn accepted_pairs_say_themselves()
    ensures { (text : List ℕ) (d : Domain) (p : Problem) → IsRead problem_form text p
        → first_of (domain_faults d ++ problem_faults d p) ≡ None → All PairSaysItself p.pairs }
{}
