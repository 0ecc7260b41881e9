//! Laws of worlds.
//!
//! Each function does nothing, and its contract is the law.
ghost use Rattle.std.specs.Prelude.{◌≡◌, ℕ, ◌≤◌, List, length, take};
ghost use Rattle.hp_syntax.specs.Terms.{Term};
ghost use Rattle.hp_syntax.specs.Applying.{ChangesOf, applied};
ghost use Rattle.hp_syntax.specs.Changes.{apply};
ghost use Rattle.hp_cells.specs.Cells.{AreCells};
ghost use Rattle.hp_world.specs.Answers.{of_terms};
ghost use Rattle.hp_world.specs.Histories.{History, past_at, undone_to};
ghost use Rattle.hp_world.specs.Pasts.{PastsBelow};
ghost use Rattle.hp_world.specs.Recorded.{Recorded, history_in, Knows, IndexedBelow, IndexesStood};
ghost use Rattle.hp_world.specs.Stages.{AllBelow, Stage, live_atoms, same_cell, state_of, guards_of, changes_of, StageBelow, ChangesBelow};

/// Applying changes to cells is applying them to the terms that these name.
pub fn applying_to_cells_is_applying_to_terms()
    ensures { (terms : List Term) (s : Stage) (c : ChangesOf ℕ) → AreCells terms → StageBelow (length terms) s
        → ChangesBelow (length terms) c
        → of_terms terms (applied same_cell (live_atoms s.places) s.guards c)
        ≡ apply (state_of terms s) (guards_of terms s) (changes_of terms c) }
{}

/// What indexes know over some cells they know over any that agree below a count which all their atoms are below, as
/// cells do once others were added, or given back down to that count.
pub fn indexes_know_where_cells_agree()
    ensures { (n : ℕ) (c d : List Term) (w : Recorded) → IndexedBelow n w → Knows c w → take n c ≡ take n d
        → Knows d w }
{}

/// The atoms of indexes that know them are below the number of cells.
pub fn atoms_that_indexes_know_are_cells()
    ensures { (terms : List Term) (w : Recorded) → Knows terms w → IndexedBelow (length terms) w }
{}

/// The atoms of indexes are below a count which the atoms of the present and of all pasts are below.
pub fn atoms_of_indexes_stood()
    ensures { (n : ℕ) (w : Recorded) → IndexesStood w → PastsBelow n (history_in w) → IndexedBelow n w }
{}

/// Behind undoing to a mark all atoms are below a count which those up to the mark were below.
pub fn undoing_leaves_earlier_pasts()
    ensures { (n mark : ℕ) (h : History Stage)
        → ((m : ℕ) → m ≤ mark → AllBelow n (live_atoms (past_at h m).places)) → PastsBelow n (undone_to mark h) }
{}
