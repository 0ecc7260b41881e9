//! Laws of chains.
//!
//! Each function does nothing, and its contract is the law.
ghost use Rattle.std.specs.Prelude.{◌≡◌, ℕ, ◌<◌, List};
ghost use Rattle.hp_chains.specs.Entries.{Entry, returned, StandsAt, IsTakenOut, FitsBack};

/// What is taken out may be put back, and is then as it was.
pub fn putting_back_undoes_taking_out()
    ensures fits { (place key keys : ℕ) (entries rest : List Entry) → IsTakenOut place entries rest
        → StandsAt key entries place → key < keys → FitsBack keys rest place }
    ensures same { (place key : ℕ) (entries rest : List Entry) → IsTakenOut place entries rest
        → StandsAt key entries place → returned rest place ≡ entries }
{}
