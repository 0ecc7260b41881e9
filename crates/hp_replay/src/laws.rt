//! Laws on the texts of plans.

ghost use Rattle.std.specs.List.{All};
ghost use Rattle.std.specs.Prelude.{◌≡◌, ◌≤◌, ℕ, false, List, length};
ghost use Rattle.hp_syntax.specs.declared.limits.TheConstants.{LARGEST_TEXT};
ghost use Rattle.hp_syntax.specs.Grammar.{domain_form, problem_form};
ghost use Rattle.hp_syntax.specs.Report.{lines_text};
ghost use Rattle.hp_syntax.specs.Syntax.{Domain, Problem};
ghost use Rattle.hp_syntax.specs.Terms.{Term};
ghost use Rattle.hp_syntax.specs.TextForms.{IsRead};
ghost use Rattle.hp_syntax.specs.Walk.{walk};
ghost use Rattle.hp_replay.specs.StrayCalls.{stray_calls};
ghost use Rattle.hp_replay.specs.Writable.{holds_call, IsStep, IsWritable, IsReadBack};

/// The step lines of a plan are read as its steps, as long as they keep the limit of a text.
pub fn printed_plans_read_back()
    ensures { (steps : List Term) → All IsWritable steps → length (lines_text steps) ≤ LARGEST_TEXT
        → IsReadBack steps }
{}

/// Each step of a walk begins with a plain name, has symbols and numbers that are read as they are, and nests no
/// deeper than a text may, whatever texts the domain and the problem are read of.
pub fn steps_can_be_written()
    ensures { (domain problem : List ℕ) (d : Domain) (p : Problem) (nest depth : ℕ)
        → IsRead domain_form domain d → IsRead problem_form problem p
        → All (λ pair. All (λ v. All IsStep v.node.steps) (walk d.rules nest pair depth)) p.pairs }
{}

/// So the step lines of each visit of a walk, and of each plan, are read as its steps, as long as they keep the limit
/// of a text, where no list in the steps begins with `call`, and where in the texts of the domain and the problem that
/// word stands only at the heads of lists.
pub fn walked_plans_read_back()
    ensures free_steps { (domain problem : List ℕ) (d : Domain) (p : Problem) (nest depth : ℕ)
        → IsRead domain_form domain d → IsRead problem_form problem p
        → All (λ pair. All (λ v. All (λ t. holds_call t ≡ false) v.node.steps
        → length (lines_text v.node.steps) ≤ LARGEST_TEXT → IsReadBack v.node.steps)
        (walk d.rules nest pair depth)) p.pairs }
    ensures free_texts { (domain problem : List ℕ) (d : Domain) (p : Problem) (nest depth : ℕ)
        → (r : IsRead domain_form domain d) → (s : IsRead problem_form problem p)
        → stray_calls r.forest ≡ false → stray_calls s.forest ≡ false
        → All (λ pair. All (λ v. length (lines_text v.node.steps) ≤ LARGEST_TEXT → IsReadBack v.node.steps)
        (walk d.rules nest pair depth)) p.pairs }
{}
