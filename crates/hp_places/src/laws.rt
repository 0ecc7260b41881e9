//! Laws: what is shown of a line.
//!
//! Each function does nothing, and its contract is the law.

ghost use Rattle.std.specs.Prelude.{◌≡◌, ◌<◌, ◌≤◌, ℕ, List, length};
ghost use Rattle.hp_places.specs.Stretches.{HasPlace, part_from, part_to};
ghost use Rattle.hp_places.specs.declared.stretch.TheConstants.{WIDEST};

/// The place of each byte of a line stands in the part that is shown around it, which isn't too long.
pub fn parts_have_their_places()
    ensures { (line : List ℕ) (before : ℕ) → before < length line
        → HasPlace before (part_from line before) (part_to line (part_from line before)) }
{}

/// A line that isn't long is shown whole.
pub fn short_lines_are_whole()
    ensures { (line : List ℕ) (before : ℕ) → length line ≤ WIDEST
        → (part_from line before ≡ 0) × (part_to line 0 ≡ length line) }
{}
