//! Samples that are spelled by the definitions alone, before any code reads them.

ghost use Rattle.hp_syntax.specs.Forest.{IsForest};
ghost use Rattle.hp_syntax.specs.Samples.{basic_text, basic_forest, swap_text, swap_forest, two_text, two_forest, fetch_text, fetch_forest, empty_text, empty_forest};

/// The texts of the samples spell their forests.
pub fn samples_are_spelled()
    ensures basic { IsForest basic_text basic_forest }
    ensures swap { IsForest swap_text swap_forest }
    ensures two { IsForest two_text two_forest }
    ensures fetch { IsForest fetch_text fetch_forest }
    ensures empty { IsForest empty_text empty_forest }
{}
