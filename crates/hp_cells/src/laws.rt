//! Laws of cells.
//!
//! Each function does nothing, and its contract is the law.
ghost use Rattle.std.specs.Prelude.{◌≡◌, ℕ, ◌<◌, ◌↔◌, Some, List, length, slice_get};
ghost use Rattle.hp_syntax.specs.Terms.{Term};
ghost use Rattle.hp_cells.specs.Cells.{AreCells, Interns};

/// Two cells are equal exactly where their terms are.
pub fn cells_are_told_apart()
    ensures { (terms : List Term) (i j : ℕ) (x y : Term) → AreCells terms → slice_get terms i ≡ Some x
        → slice_get terms j ≡ Some y → (i ≡ j) ↔ (x ≡ y) }
{}

/// A cell keeps its term while others are interned.
pub fn earlier_cells_stay()
    ensures { (t : Term) (cell : ℕ) (old new : List Term) → Interns t cell old new
        → (i : ℕ) → i < length old → slice_get new i ≡ slice_get old i }
{}
