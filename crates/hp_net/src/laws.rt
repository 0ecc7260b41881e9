//! Laws of networks and walks.
//!
//! Each function does nothing, and its contract is the law.
ghost use Rattle.std.specs.Prelude.{◌≡◌, ℕ, false, List, ◌++◌, Some};
ghost use Rattle.hp_syntax.specs.Networks.{Place};
ghost use Rattle.hp_syntax.specs.Walk.{heard_visits};
ghost use Rattle.hp_links.specs.Linked.{Linked, NamesTask, place_of};
ghost use Rattle.hp_net.specs.Standings.{Standing};
ghost use Rattle.hp_net.specs.Runs.{Call, MayRun, after_calls, visited, LeavesOut};

/// Each id that names a task has a place in its network, and no two parts have the same place.
pub fn tasks_have_places()
    ensures places { (n : Linked) (id : ℕ) → NamesTask n id → (p : Place) × (place_of n id ≡ Some p) }
    ensures apart { (n : Linked) (i j : ℕ) (p : Place) → place_of n i ≡ Some p → place_of n j ≡ Some p → i ≡ j }
{}

/// Whatever calls are made, what they visit and what is left then are together the walk up to its first fault, without
/// what was pruned.
pub fn calls_visit_what_is_not_pruned()
    ensures { (cs : List Call) (s : Standing) → s.at_did ≡ false → MayRun cs s
        → LeavesOut s.rest (visited cs s ++ heard_visits (after_calls cs s).rest) }
{}
