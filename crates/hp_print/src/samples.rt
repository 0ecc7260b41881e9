//! Samples that are written by the definitions alone, before any code does it.

ghost use Rattle.std.specs.Prelude.{◌≡◌, Some, ◌++◌, codes, option_map};
ghost use Rattle.std.specs.Result.{result_ok};
ghost use Rattle.hp_syntax.specs.Grammar.{domain_form, problem_form};
ghost use Rattle.hp_syntax.specs.Samples.{basic_forest, swap_forest};
ghost use Rattle.hp_syntax.specs.Written.{domain_text, problem_text};

/// The canonical texts of the sample `basic`.
pub fn basic_is_written()
    ensures domain { option_map domain_text (result_ok (domain_form 0 basic_forest))
        ≡ Some (codes "(defdomain basic (\n"
        ++ codes "(:operator (!pickup ?a) () () ((have ?a)) 1)\n"
        ++ codes "(:operator (!drop ?a) (and (have ?a)) ((have ?a)) () 1)\n"
        ++ codes "(:method (swap ?x ?y) (and (have ?x)) (:ordered (!drop ?x) (!pickup ?y)) "
        ++ codes "(and (have ?y)) (:ordered (!drop ?y) (!pickup ?x)))\n))\n") }
    ensures problem { option_map problem_text (result_ok (problem_form 0 swap_forest))
        ≡ Some (codes "(defproblem p1 basic\n((have kiwi))\n(:ordered (swap banjo kiwi))\n)\n") }
{}
