//! A sample that is made by the definitions alone, before any code does it.

ghost use Rattle.std.specs.Prelude.{◌≡◌, codes};
ghost use Rattle.hp_make.specs.Texts.{problem_text};

/// The problem of the seed 1 with two packages.
pub fn two_packages_are_made()
    ensures { problem_text 1 2
        ≡ codes "(defproblem made transport ((truck t0) (at p0 t3) (goal p0 t3) (at p1 t3) (goal p1 t0)) ((all)))\n" }
{}
