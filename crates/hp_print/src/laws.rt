//! Laws on all texts that are written.

ghost use Rattle.std.specs.Prelude.{◌≤◌, ℕ, List, length};
ghost use Rattle.hp_syntax.specs.declared.limits.TheConstants.{LARGEST_TEXT, DEEPEST_NESTING};
ghost use Rattle.hp_syntax.specs.Forest.{nesting_of_node};
ghost use Rattle.hp_syntax.specs.Grammar.{domain_form, problem_form};
ghost use Rattle.hp_syntax.specs.Syntax.{Domain, Problem};
ghost use Rattle.hp_syntax.specs.TextForms.{IsRead};
ghost use Rattle.hp_syntax.specs.Unplaced as unplaced;
ghost use Rattle.hp_syntax.specs.Written as written;
ghost use Rattle.hp_print.specs.ReadBack.{ReadsBack};

/// The reading of a text, written and read again, is the same up to spans, as long as the written text and the
/// brackets in it keep the limits of a text.
pub fn written_texts_read_back()
    ensures domain { (text : List ℕ) (d : Domain) → IsRead domain_form text d
        → length (written.domain_text d) ≤ LARGEST_TEXT → nesting_of_node (written.domain d) ≤ DEEPEST_NESTING
        → ReadsBack domain_form unplaced.domain (written.domain_text d) d }
    ensures problem { (text : List ℕ) (p : Problem) → IsRead problem_form text p
        → length (written.problem_text p) ≤ LARGEST_TEXT → nesting_of_node (written.problem p) ≤ DEEPEST_NESTING
        → ReadsBack problem_form unplaced.problem (written.problem_text p) p }
{}
