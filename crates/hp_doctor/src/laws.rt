//! Laws: the planner's own lines are read as what they tell, and brackets are put in pairs as their reader has them.
//!
//! Each function does nothing, and its contract is the law.

ghost use Rattle.std.specs.Prelude.{◌≡◌, ◌++◌, ◌+◌, ◌^◌, ◌<◌, ◌≤◌, ℕ, List, Some, codes, length};
ghost use Rattle.hp_doctor.specs.Findings.{finding_of};
ghost use Rattle.hp_doctor.specs.Laws.{IsInFile, IsInRange, IsWord};
ghost use Rattle.hp_doctor.specs.Mending.{mend_of};
ghost use Rattle.hp_doctor.specs.declared.finding.Finding.TheVariants.{Met, Refused, Unserved};
ghost use Rattle.hp_doctor.specs.declared.mending.Mend.TheVariants as mends;
ghost use Rattle.hp_out.specs.Lines.{note_text};
ghost use Rattle.hp_out.specs.RefusalTexts.{refusal_text};
ghost use Rattle.hp_out.specs.declared.refusal.Refusal.{Refusal};
ghost use Rattle.hp_syntax.specs.Notes.{Note};
ghost use Rattle.hp_syntax.specs.Refusal as texts;
ghost use Rattle.hp_syntax.specs.Report.{AtFault, ending_text};
ghost use Rattle.hp_syntax.specs.declared.fault.RunFault.{RunFault};
ghost use Rattle.hp_syntax.specs.declared.limits.TheConstants.{LARGEST_TEXT};
ghost use Rattle.hp_syntax.specs.declared.text.TextKind.TheVariants as kinds;

/// The line of each refusal tells that refusal.
pub fn refusals_are_read()
    ensures { (r : Refusal) (line : List ℕ) → IsInRange r → line ++ codes "\n" ≡ refusal_text r
        → finding_of line ≡ Some (Refused r) }
{}

/// The line of each note tells where its task is.
pub fn notes_are_read()
    ensures { (n : Note) (line : List ℕ) → IsWord n.name → IsInFile n.span → line ++ codes "\n" ≡ note_text n
        → finding_of line ≡ Some (Unserved n.in_problem n.span) }
{}

/// The line of each fault that ends a walk tells that fault.
pub fn faults_are_read()
    ensures { (f : RunFault) (plans expansions : ℕ) (line : List ℕ) → IsInFile f.span → plans < 2 ^ 64
        → line ++ codes "\n" ≡ ending_text (AtFault f) plans expansions → finding_of line ≡ Some (Met f) }
{}

/// A text that its reader refuses for a bracket that closes nothing is cut in front of that one.
pub fn extra_brackets_are_cut()
    ensures { (text : List ℕ) (r : texts.Refusal) → texts.IsRefused text r → r.kind ≡ kinds.ExtraClose
        → length text ≤ LARGEST_TEXT → mend_of text ≡ Some (mends.Cut r.offset) }
{}

/// A text that its reader refuses for brackets that are open at its end gets as many closing ones as are open there.
pub fn open_brackets_are_closed()
    ensures { (text : List ℕ) (r : texts.Refusal) → texts.IsRefused text r → r.kind ≡ kinds.Unclosed
        → length text + 1 + length (texts.open_before text (length text)) ≤ LARGEST_TEXT
        → mend_of text ≡ Some (mends.Close (length (texts.open_before text (length text)))) }
{}
