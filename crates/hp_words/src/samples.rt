//! Words that are commands and words that are none, by the definitions alone.
//!
//! Each function does nothing, and its contract says what words ask for.

ghost use Rattle.std.specs.Prelude.{◌≡◌, [], ◌∷◌, Some, None, true, false, codes};
ghost use Rattle.hp_words.specs.Command.{Choosing, Continuing, Deepening, Making, Planning, Verifying, accepts, continuing_asked, deepening_asked, on_files, options, plan_options, verification_over, verifying_asked};

/// The options of `plan`: in any order, each at most once, levels up to 128.
pub fn options_are_read()
    ensures none { plan_options [] ≡ Some (options 64 false false false) }
    ensures both { plan_options (codes "--states" ∷ codes "--nest" ∷ codes "5" ∷ [])
        ≡ Some (options 5 true false false) }
    ensures other_order { plan_options (codes "--nest" ∷ codes "0" ∷ codes "--states" ∷ [])
        ≡ Some (options 0 true false false) }
    ensures most { plan_options (codes "--nest" ∷ codes "128" ∷ []) ≡ Some (options 128 false false false) }
    ensures too_many { plan_options (codes "--nest" ∷ codes "129" ∷ []) ≡ None }
    ensures no_number { plan_options (codes "--nest" ∷ []) ≡ None }
    ensures twice { plan_options (codes "--states" ∷ codes "--states" ∷ []) ≡ None }
    ensures copies { plan_options (codes "--plain" ∷ codes "--states" ∷ codes "--nest" ∷ codes "7" ∷ [])
        ≡ Some (options 7 true false true) }
    ensures copies_twice { plan_options (codes "--plain" ∷ codes "--nest" ∷ codes "7" ∷ codes "--plain" ∷ [])
        ≡ None }
    ensures paths { plan_options (codes "--paths" ∷ codes "--nest" ∷ codes "7" ∷ codes "--states" ∷ [])
        ≡ Some (options 7 true true false) }
    ensures paths_twice { plan_options (codes "--paths" ∷ codes "--states" ∷ codes "--paths" ∷ []) ≡ None }
    ensures unknown { plan_options (codes "--path" ∷ []) ≡ None }
    ensures pair { plan_options (codes "--pair" ∷ codes "1" ∷ []) ≡ None }
    ensures plan { accepts
        (codes "plan" ∷ codes "d" ∷ codes "--nest" ∷ codes "5" ∷ codes "10" ∷ codes "--states" ∷ [])
        ≡ Some (on_files (codes "d") (codes "--nest") (Planning 5 10 (options 64 true false false))) }
    ensures no_plan { accepts (codes "plan" ∷ codes "d" ∷ codes "p" ∷ codes "0" ∷ codes "10" ∷ []) ≡ None }
{}

/// The words of `make`: a seed of up to 2,147,483,647, and from one to a hundred packages.
pub fn makings_are_read()
    ensures small { accepts (codes "make" ∷ codes "1" ∷ codes "2" ∷ []) ≡ Some (Making 1 2) }
    ensures great { accepts (codes "make" ∷ codes "2147483647" ∷ codes "100" ∷ [])
        ≡ Some (Making 2147483647 100) }
    ensures no_package { accepts (codes "make" ∷ codes "1" ∷ codes "0" ∷ []) ≡ None }
    ensures too_many { accepts (codes "make" ∷ codes "1" ∷ codes "101" ∷ []) ≡ None }
    ensures too_large { accepts (codes "make" ∷ codes "2147483648" ∷ codes "1" ∷ []) ≡ None }
    ensures more { accepts (codes "make" ∷ codes "1" ∷ codes "2" ∷ codes "--states" ∷ []) ≡ None }
{}

/// The words of `best`: a depth of up to 20,000, and of the options only the levels.
pub fn searches_are_read()
    ensures usual { accepts (codes "best" ∷ codes "d" ∷ codes "p" ∷ codes "20000" ∷ [])
        ≡ Some (on_files (codes "d") (codes "p") (Choosing 20000 64)) }
    ensures levels { accepts (codes "best" ∷ codes "d" ∷ codes "p" ∷ codes "0" ∷ codes "--nest" ∷ codes "7" ∷ [])
        ≡ Some (on_files (codes "d") (codes "p") (Choosing 0 7)) }
    ensures too_deep { accepts (codes "best" ∷ codes "d" ∷ codes "p" ∷ codes "20001" ∷ []) ≡ None }
    ensures states { accepts (codes "best" ∷ codes "d" ∷ codes "p" ∷ codes "9" ∷ codes "--states" ∷ []) ≡ None }
    ensures paths { accepts (codes "best" ∷ codes "d" ∷ codes "p" ∷ codes "9" ∷ codes "--paths" ∷ []) ≡ None }
    ensures copies { accepts (codes "best" ∷ codes "d" ∷ codes "p" ∷ codes "9" ∷ codes "--plain" ∷ []) ≡ None }
    ensures pair { accepts (codes "best" ∷ codes "d" ∷ codes "p" ∷ codes "9" ∷ codes "--pair" ∷ codes "1" ∷ []) ≡ None }
    ensures no_depth { accepts (codes "best" ∷ codes "d" ∷ codes "p" ∷ []) ≡ None }
{}

/// The words of `after`: as many plans and as deep as for `plan`, a path, and of the options not the engine of copies.
pub fn continuations_are_read()
    ensures path { accepts (codes "after" ∷ codes "d" ∷ codes "p" ∷ codes "3" ∷ codes "20000" ∷ codes "0.10.1" ∷ [])
        ≡ Some (on_files (codes "d") (codes "p")
        (Continuing 3 20000 (0 ∷ 10 ∷ 1 ∷ []) (options 64 false false false) 1)) }
    ensures empty { accepts (codes "after" ∷ codes "d" ∷ codes "p" ∷ codes "1" ∷ codes "0" ∷ codes "-" ∷ [])
        ≡ Some (on_files (codes "d") (codes "p") (Continuing 1 0 [] (options 64 false false false) 1)) }
    ensures pair { continuing_asked (codes "1" ∷ codes "9" ∷ codes "0" ∷ codes "--pair" ∷ codes "2" ∷ [])
        ≡ Some (Continuing 1 9 (0 ∷ []) (options 64 false false false) 2) }
    ensures any_order { continuing_asked (codes "1" ∷ codes "9" ∷ codes "0" ∷ codes "--paths" ∷ codes "--pair"
        ∷ codes "1000000000" ∷ codes "--states" ∷ codes "--nest" ∷ codes "7" ∷ [])
        ≡ Some (Continuing 1 9 (0 ∷ []) (options 7 true true false) 1000000000) }
    ensures no_plan { continuing_asked (codes "0" ∷ codes "9" ∷ codes "0" ∷ []) ≡ None }
    ensures too_deep { continuing_asked (codes "1" ∷ codes "20001" ∷ codes "0" ∷ []) ≡ None }
    ensures no_path { continuing_asked (codes "1" ∷ codes "9" ∷ []) ≡ None }
    ensures nothing_behind { continuing_asked (codes "1" ∷ codes "9" ∷ codes "0." ∷ []) ≡ None }
    ensures leading_zero { continuing_asked (codes "1" ∷ codes "9" ∷ codes "00" ∷ []) ≡ None }
    ensures copies { continuing_asked (codes "1" ∷ codes "9" ∷ codes "0" ∷ codes "--plain" ∷ []) ≡ None }
    ensures no_pair { continuing_asked (codes "1" ∷ codes "9" ∷ codes "0" ∷ codes "--pair" ∷ codes "0" ∷ []) ≡ None }
    ensures no_such_pair { continuing_asked
        (codes "1" ∷ codes "9" ∷ codes "0" ∷ codes "--pair" ∷ codes "1000000001" ∷ []) ≡ None }
    ensures pair_twice { continuing_asked
        (codes "1" ∷ codes "9" ∷ codes "0" ∷ codes "--pair" ∷ codes "1" ∷ codes "--pair" ∷ codes "1" ∷ []) ≡ None }
{}

/// The words of `verify`: three files, a depth of up to 20,000, and of the options the levels and the pair.
pub fn verifications_are_read()
    ensures usual { accepts (codes "verify" ∷ codes "d" ∷ codes "p" ∷ codes "v" ∷ codes "10" ∷ [])
        ≡ Some (Verifying (verification_over (codes "d") (codes "p") (codes "v") 10 64 1)) }
    ensures options { accepts (codes "verify" ∷ codes "d" ∷ codes "p" ∷ codes "v" ∷ codes "20000" ∷ codes "--pair"
        ∷ codes "2" ∷ codes "--nest" ∷ codes "0" ∷ [])
        ≡ Some (Verifying (verification_over (codes "d") (codes "p") (codes "v") 20000 0 2)) }
    ensures other_order { verifying_asked (codes "d") (codes "p")
        (codes "v" ∷ codes "0" ∷ codes "--nest" ∷ codes "128" ∷ codes "--pair" ∷ codes "1000000000" ∷ [])
        ≡ Some (verification_over (codes "d") (codes "p") (codes "v") 0 128 1000000000) }
    ensures plan_like_option { accepts
        (codes "verify" ∷ codes "d" ∷ codes "p" ∷ codes "--nest" ∷ codes "3" ∷ [])
        ≡ Some (Verifying (verification_over (codes "d") (codes "p") (codes "--nest") 3 64 1)) }
    ensures too_deep { accepts (codes "verify" ∷ codes "d" ∷ codes "p" ∷ codes "v" ∷ codes "20001" ∷ []) ≡ None }
    ensures no_depth { accepts (codes "verify" ∷ codes "d" ∷ codes "p" ∷ codes "v" ∷ []) ≡ None }
    ensures no_plan { accepts (codes "verify" ∷ codes "d" ∷ codes "p" ∷ []) ≡ None }
    ensures no_number { verifying_asked (codes "d") (codes "p") (codes "v" ∷ codes "--nest" ∷ codes "3" ∷ []) ≡ None }
    ensures states { verifying_asked (codes "d") (codes "p") (codes "v" ∷ codes "10" ∷ codes "--states" ∷ []) ≡ None }
    ensures paths { verifying_asked (codes "d") (codes "p") (codes "v" ∷ codes "10" ∷ codes "--paths" ∷ []) ≡ None }
    ensures copies { verifying_asked (codes "d") (codes "p") (codes "v" ∷ codes "10" ∷ codes "--plain" ∷ []) ≡ None }
    ensures no_pair { verifying_asked (codes "d") (codes "p")
        (codes "v" ∷ codes "10" ∷ codes "--pair" ∷ codes "0" ∷ []) ≡ None }
    ensures pair_twice { verifying_asked (codes "d") (codes "p")
        (codes "v" ∷ codes "10" ∷ codes "--pair" ∷ codes "1" ∷ codes "--pair" ∷ codes "1" ∷ []) ≡ None }
{}

/// The words of `shallow`: a limit of up to 20,000, and of the options the levels and the states.
pub fn deepenings_are_read()
    ensures usual { accepts (codes "shallow" ∷ codes "d" ∷ codes "p" ∷ codes "10" ∷ [])
        ≡ Some (on_files (codes "d") (codes "p") (Deepening 10 64 false)) }
    ensures options { accepts (codes "shallow" ∷ codes "d" ∷ codes "p" ∷ codes "20000" ∷ codes "--states"
        ∷ codes "--nest" ∷ codes "3" ∷ [])
        ≡ Some (on_files (codes "d") (codes "p") (Deepening 20000 3 true)) }
    ensures other_order { deepening_asked (codes "0" ∷ codes "--nest" ∷ codes "3" ∷ codes "--states" ∷ [])
        ≡ Some (Deepening 0 3 true) }
    ensures too_deep { accepts (codes "shallow" ∷ codes "d" ∷ codes "p" ∷ codes "20001" ∷ []) ≡ None }
    ensures no_limit { accepts (codes "shallow" ∷ codes "d" ∷ codes "p" ∷ []) ≡ None }
    ensures two_numbers { deepening_asked (codes "1" ∷ codes "10" ∷ []) ≡ None }
    ensures paths { deepening_asked (codes "10" ∷ codes "--paths" ∷ []) ≡ None }
    ensures copies { deepening_asked (codes "10" ∷ codes "--plain" ∷ []) ≡ None }
    ensures pair { deepening_asked (codes "10" ∷ codes "--pair" ∷ codes "1" ∷ []) ≡ None }
    ensures states_twice { deepening_asked (codes "10" ∷ codes "--states" ∷ codes "--states" ∷ []) ≡ None }
{}
