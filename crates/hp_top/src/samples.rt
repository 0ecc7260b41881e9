//! The outcome of the words and the files of the sample `basic`, by the definitions alone.

ghost use Rattle.std.specs.Prelude.{codes};
ghost use Rattle.hp_syntax.specs.Samples.{swap_text, empty_text};
ghost use Rattle.hp_syntax.specs.declared.status.Status.TheVariants.{Done, CutShort};
ghost use Rattle.hp_top.specs.Outcome.{Outcome};
ghost use Rattle.hp_top.specs.Samples.{basic_files, plan_words};

use hp_syntax::samples::samples_are_spelled;

/// The sample `basic` with five plans and with one, at a depth that is enough, just enough and too
/// small, and a problem with nothing to do.
pub fn basic_comes_to_its_plan()
    ensures whole { Outcome (plan_words (codes "5") (codes "10")) (basic_files swap_text)
        (codes "plan 1 cost 2 steps 2\n(!drop kiwi)\n(!pickup banjo)\nend plans 1 expansions 3\n", Done) }
    ensures stopped { Outcome (plan_words (codes "1") (codes "10")) (basic_files swap_text)
        (codes "plan 1 cost 2 steps 2\n(!drop kiwi)\n(!pickup banjo)\nstopped plans 1 expansions 3\n", Done) }
    ensures enough { Outcome (plan_words (codes "5") (codes "3")) (basic_files swap_text)
        (codes "plan 1 cost 2 steps 2\n(!drop kiwi)\n(!pickup banjo)\nend plans 1 expansions 3\n", Done) }
    ensures cut { Outcome (plan_words (codes "5") (codes "2")) (basic_files swap_text)
        (codes "cut plans 0 expansions 2\n", CutShort) }
    ensures empty { Outcome (plan_words (codes "5") (codes "0")) (basic_files empty_text)
        (codes "plan 1 cost 0 steps 0\nend plans 1 expansions 0\n", Done) }
{
    samples_are_spelled();
}
