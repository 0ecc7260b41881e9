//! Runs of the whole language that are computed from the definitions alone, before any code does it.
//!
//! Each function does nothing, and its contract says what runs on some texts write.

ghost use Rattle.std.specs.Prelude.{true, false, ◌++◌, codes};
ghost use Rattle.hp_samples.specs.Runs.{Writes, asked, asked_paths};
ghost use Rattle.hp_samples.specs.Texts as texts;

/// The domain `basic`: the second branch of its method is used, since the first has no satisfier.
pub fn the_second_branch_is_used()
    ensures whole { Writes (asked 5 10 64 false) texts.basic_domain texts.swap_problem
        (codes "plan 1 cost 2 steps 2\n(!drop kiwi)\n(!pickup banjo)\nend plans 1 expansions 3\n") }
    ensures stopped { Writes (asked 1 10 64 false) texts.basic_domain texts.swap_problem
        (codes "plan 1 cost 2 steps 2\n(!drop kiwi)\n(!pickup banjo)\nstopped plans 1 expansions 3\n") }
    ensures cut { Writes (asked 5 2 64 false) texts.basic_domain texts.swap_problem
        (codes "cut plans 0 expansions 2\n") }
    ensures enough { Writes (asked 5 3 64 false) texts.basic_domain texts.swap_problem
        (codes "plan 1 cost 2 steps 2\n(!drop kiwi)\n(!pickup banjo)\nend plans 1 expansions 3\n") }
    ensures nothing_to_do { Writes (asked 5 0 64 false) texts.basic_domain texts.nothing_problem
        (codes "plan 1 cost 0 steps 0\nend plans 1 expansions 0\n") }
{}

/// Each pair of a problem is planned by itself, from its own state. A pair without a plan, or with a fault, doesn't
/// keep the later ones from being planned.
pub fn pairs_are_planned_one_by_one()
    ensures both { Writes (asked 5 10 64 false) texts.basic_domain texts.two_pairs_problem
        (codes "problem 1 of 2\nplan 1 cost 2 steps 2\n(!drop kiwi)\n(!pickup banjo)\nend plans 1 expansions 3\n"
        ++ codes "problem 2 of 2\nplan 1 cost 0 steps 0\nend plans 1 expansions 0\n") }
    ensures second_fails { Writes (asked 5 10 64 false) texts.basic_domain texts.second_fails_problem
        (codes "problem 1 of 2\nplan 1 cost 2 steps 2\n(!drop kiwi)\n(!pickup banjo)\nend plans 1 expansions 3\n"
        ++ codes "problem 2 of 2\nend plans 0 expansions 0\n") }
    ensures faults { Writes (asked 5 5 64 false) texts.sorted_unbound_domain texts.weights_twice_problem
        (codes "problem 1 of 2\nfault NotGround at 67-69 plans 0 expansions 0\nproblem 2 of 2\n"
        ++ codes "fault NotGround at 67-69 plans 0 expansions 0\n") }
{}

/// After a decomposition the choice is among the newest subtasks, and among all tasks again once one is done. An
/// immediate task is alone among the candidates.
pub fn newest_subtasks_come_first()
    ensures focus { Writes (asked 9 9 64 false) texts.focus_domain texts.any_order_problem
        (codes "plan 1 cost 3 steps 3\n(!a)\n(!b)\n(!c)\nplan 2 cost 3 steps 3\n(!a)\n(!c)\n(!b)\nplan 3 "
        ++ codes "cost 3 steps 3\n(!c)\n(!a)\n(!b)\nend plans 3 expansions 13\n") }
    ensures paths { Writes (asked_paths 9 9 64) texts.focus_domain texts.any_order_problem
        (codes "plan 1 cost 3 steps 3\n(!a)\n(!b)\n(!c)\npath 0.0.0.0.0\nplan 2 cost 3 steps 3\n(!a)\n(!c)\n(!b)\n"
        ++ codes "path 0.0.1.0.0\nplan 3 cost 3 steps 3\n(!c)\n(!a)\n(!b)\npath 1.0.0.0.0\nend plans 3 "
        ++ codes "expansions 13\n") }
    ensures immediate { Writes (asked 9 9 64 false) texts.focus_domain texts.immediate_problem
        (codes "plan 1 cost 3 steps 3\n(!c)\n(!a)\n(!b)\nend plans 1 expansions 5\n") }
{}

/// An atom that is deleted and added again goes last; one that is added while present keeps its place.
pub fn changed_states_keep_their_order()
    ensures moved { Writes (asked 9 9 64 true) texts.order_domain texts.two_places_problem
        (codes "plan 1 cost 2 steps 2\n(!mark)\n(!take b)\nstate 2\n(at b)\n(at a)\nprotections 0\nplan 2 "
        ++ codes "cost 2 steps 2\n(!mark)\n(!take a)\nstate 2\n(at b)\n(at a)\nprotections 0\nend plans 2 "
        ++ codes "expansions 5\n") }
    ensures kept { Writes (asked 9 9 64 true) texts.order_kept_domain texts.two_places_problem
        (codes "plan 1 cost 2 steps 2\n(!mark)\n(!take a)\nstate 2\n(at a)\n(at b)\nprotections 0\nplan 2 "
        ++ codes "cost 2 steps 2\n(!mark)\n(!take b)\nstate 2\n(at a)\n(at b)\nprotections 0\nend plans 2 "
        ++ codes "expansions 5\n") }
{}

/// A protected atom can't be deleted, until each of its protections is cancelled by one of its own.
pub fn protected_atoms_stay()
    ensures guarded { Writes (asked 9 9 64 true) texts.guard_domain texts.guarded_problem
        (codes "plan 1 cost 2 steps 2\n(!kill)\n(!guard)\nstate 0\nprotections 1\n(p)\nend plans 1 "
        ++ codes "expansions 3\n") }
    ensures cancelled_once { Writes (asked 9 9 64 true) texts.cancel_domain texts.cancelled_once_problem
        (codes "end plans 0 expansions 3\n") }
    ensures cancelled_twice { Writes (asked 9 9 64 true) texts.cancel_domain texts.cancelled_twice_problem
        (codes "plan 1 cost 5 steps 5\n(!guard)\n(!guard)\n(!free)\n(!free)\n(!kill)\nstate 0\nprotections "
        ++ codes "0\nend plans 1 expansions 5\n") }
{}

/// Two satisfiers that bind alike give two plans.
pub fn each_satisfier_is_a_derivation()
    ensures { Writes (asked 5 5 64 false) texts.either_domain texts.weights_problem
        (codes "plan 1 cost 1 steps 1\n(!do b)\nplan 2 cost 1 steps 1\n(!do b)\nend plans 2 expansions 4\n") }
{}

/// Sorted satisfiers come by their numbers, equal ones in the order in which they were found; `:first` takes the
/// first alone.
pub fn satisfiers_are_sorted()
    ensures down { Writes (asked 5 5 64 false) texts.sorted_domain texts.weights_problem
        (codes "plan 1 cost 1 steps 1\n(!do a)\nplan 2 cost 1 steps 1\n(!do c)\nplan 3 cost 1 steps 1\n(!do "
        ++ codes "b)\nend plans 3 expansions 6\n") }
    ensures up { Writes (asked 5 5 64 false) texts.sorted_up_domain texts.weights_problem
        (codes "plan 1 cost 1 steps 1\n(!do b)\nplan 2 cost 1 steps 1\n(!do a)\nplan 3 cost 1 steps 1\n(!do "
        ++ codes "c)\nend plans 3 expansions 6\n") }
    ensures first { Writes (asked 5 5 64 false) texts.first_domain texts.weights_problem
        (codes "plan 1 cost 1 steps 1\n(!do a)\nend plans 1 expansions 2\n") }
    ensures unbound { Writes (asked 5 5 64 false) texts.sorted_unbound_domain texts.weights_problem
        (codes "fault NotGround at 67-69 plans 0 expansions 0\n") }
    ensures no_number { Writes (asked 5 5 64 false) texts.sorted_names_domain texts.weights_problem
        (codes "fault NotNumber at 67-69 plans 0 expansions 0\n") }
    ensures cut_last { Writes (asked 5 5 64 false) texts.sorted_cut_domain texts.weights_problem
        (codes "plan 1 cost 1 steps 1\n(!do b)\nplan 2 cost 1 steps 1\n(!do a)\nplan 3 cost 1 steps 1\n(!do "
        ++ codes "c)\ncut plans 3 expansions 6\n") }
{}

/// A fault ends the walk where it is met, unless enough plans stand before it.
pub fn faults_end_a_walk()
    ensures fault { Writes (asked 5 5 64 false) texts.quotient_domain texts.weights_problem
        (codes "plan 1 cost 1 steps 1\n(!do a)\nfault ZeroDivisor at 79-103 plans 1 expansions 2\n") }
    ensures stopped { Writes (asked 1 5 64 false) texts.quotient_domain texts.weights_problem
        (codes "plan 1 cost 1 steps 1\n(!do a)\nstopped plans 1 expansions 2\n") }
    ensures cost { Writes (asked 5 5 64 false) texts.named_cost_domain texts.x_problem
        (codes "fault NotNumber at 42-44 plans 0 expansions 0\n") }
    ensures head { Writes (asked 5 5 64 false) texts.open_head_domain texts.weights_problem
        (codes "fault NotGround at 48-57 plans 0 expansions 0\n") }
{}

/// The first branch of an axiom that has any event is used, alone; a later one is hidden by it. Where no level is
/// left, an axiom that starts is a cut.
pub fn axioms_conclude()
    ensures second { Writes (asked 5 5 64 false) texts.big_domain texts.weights_problem
        (codes "plan 1 cost 1 steps 1\n(!do a)\nplan 2 cost 1 steps 1\n(!do c)\nend plans 2 expansions 4\n") }
    ensures hidden { Writes (asked 5 5 64 false) texts.hidden_domain texts.weights_problem
        (codes "plan 1 cost 1 steps 1\n(!do a)\nplan 2 cost 1 steps 1\n(!do c)\nend plans 2 expansions 4\n") }
    ensures one_level { Writes (asked 5 5 1 false) texts.big_domain texts.weights_problem
        (codes "plan 1 cost 1 steps 1\n(!do a)\nplan 2 cost 1 steps 1\n(!do c)\nend plans 2 expansions 4\n") }
    ensures no_level { Writes (asked 5 5 0 false) texts.big_domain texts.weights_problem
        (codes "cut plans 0 expansions 0\n") }
{}

/// An axiom that calls itself is cut; below `not` the cut stays, and a branch whose only event is a cut is used.
pub fn cuts_are_not_false()
    ensures cut { Writes (asked 5 5 64 false) texts.endless_domain texts.weights_problem
        (codes "cut plans 0 expansions 0\n") }
    ensures none_left { Writes (asked 5 5 0 false) texts.endless_domain texts.weights_problem
        (codes "cut plans 0 expansions 0\n") }
    ensures negated { Writes (asked 5 5 64 false) texts.not_endless_domain texts.weights_problem
        (codes "cut plans 0 expansions 0\n") }
    ensures branch { Writes (asked 5 5 64 false) texts.cut_branch_domain texts.weights_problem
        (codes "cut plans 0 expansions 0\n") }
    ensures negated_fault { Writes (asked 5 5 64 false) texts.not_fault_domain texts.weights_problem
        (codes "fault NotNumber at 74-87 plans 0 expansions 0\n") }
{}

/// Each satisfier of the first expression must satisfy the second; nothing is bound outside.
pub fn forall_is_two_negations()
    ensures all { Writes (asked 5 5 64 false) texts.all_above_0_domain texts.weights_problem
        (codes "plan 1 cost 1 steps 1\n(!do b)\nend plans 1 expansions 2\n") }
    ensures not_all { Writes (asked 5 5 64 false) texts.all_above_1_domain texts.weights_problem
        (codes "end plans 0 expansions 0\n") }
    ensures deleted { Writes (asked 5 5 64 true) texts.clear_domain texts.clear_problem
        (codes "plan 1 cost 1 steps 1\n(!clear)\nstate 2\n(q c)\n(done)\nprotections 0\nend plans 1 "
        ++ codes "expansions 1\n") }
{}

/// Costs are added up, parts of one and beyond 64 bits too.
pub fn costs_are_added()
    ensures halves { Writes (asked 5 5 64 false) texts.half_cost_domain texts.big_problem
        (codes "plan 1 cost 1 steps 2\n(!big)\n(!big)\nend plans 1 expansions 2\n") }
    ensures large { Writes (asked 5 5 64 false) texts.large_cost_domain texts.big_problem
        (codes "plan 1 cost 18446744073709551.614 steps 2\n(!big)\n(!big)\nend plans 1 expansions 2\n") }
{}

/// A tail stands for the remaining parts of a list.
pub fn lists_are_taken_apart()
    ensures { Writes (asked 5 5 64 false) texts.each_domain texts.each_problem
        (codes "plan 1 cost 2 steps 2\n(!do a)\n(!do b)\nend plans 1 expansions 5\n") }
{}

/// A trip on foot or by taxi.
pub fn travel_is_planned()
    ensures { Writes (asked 10 100 64 false) texts.travel_domain texts.trip_problem
        (codes "plan 1 cost 3 steps 1\n(!walk home park)\nplan 2 cost 5 steps 3\n(!call-taxi home)\n(!ride "
        ++ codes "home park)\n(!pay 10 6)\nend plans 2 expansions 6\n") }
{}

/// Two plans of very many.
pub fn plans_come_one_after_another()
    ensures { Writes (asked 2 12 64 false) texts.twelve_domain texts.any_of_twelve_problem
        (codes "plan 1 cost 12 steps 12\n(!a)\n(!b)\n(!c)\n(!d)\n(!e)\n(!f)\n(!g)\n(!h)\n(!i)\n(!j)\n(!k)\n"
        ++ codes "(!l)\nplan 2 cost 12 steps 12\n(!a)\n(!b)\n(!c)\n(!d)\n(!e)\n(!f)\n(!g)\n(!h)\n(!i)\n(!j)\n"
        ++ codes "(!l)\n(!k)\nstopped plans 2 expansions 14\n") }
{}
