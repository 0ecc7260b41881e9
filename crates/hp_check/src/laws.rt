//! Laws over the first of many faults. Each function does nothing, and its contract is the law.

ghost use Rattle.std.specs.Prelude.{◌≡◌, ◌↔◌, false, List, [], Some, None};
ghost use Rattle.std.specs.List.{All, Contains};
ghost use Rattle.hp_syntax.specs.declared.check.CheckFault.{CheckFault};
ghost use Rattle.hp_syntax.specs.Checks.{comes_before, first_of};

/// The fault that is told is one of those that were found, and none of these comes before it.
pub fn the_first_fault_is_told()
    ensures { (faults : List CheckFault) (fault : CheckFault) → first_of faults ≡ Some fault
        → Contains faults fault × All (λ other. comes_before other fault ≡ false) faults }
{}

/// None is told exactly where none was found.
pub fn no_fault_is_left_out()
    ensures { (faults : List CheckFault) → first_of faults ≡ None ↔ faults ≡ [] }
{}
