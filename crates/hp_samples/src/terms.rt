//! Terms, calls, matching and goals that are computed from the definitions alone.
//!
//! Each function does nothing, and its contract says what is computed.
#![tactic(auto, unfolding(crate::proofs::Computed::the_language))]

ghost use Rattle.std.specs.Prelude.{◌≡◌, pos, negsuc, [], ◌∷◌, Some, None, Ok, Err, codes};
ghost use Rattle.hp_syntax.specs.declared.fault.FaultKind.TheVariants.{NotGround, NotNumber, Overflow, ZeroDivisor, NegativePower, FractionPower, NotList};
ghost use Rattle.hp_syntax.specs.Calls.{fault_at};
ghost use Rattle.hp_syntax.specs.Goals.{Known, Free, NoFilling, Then, fill_goal, start_goal};
ghost use Rattle.hp_syntax.specs.Matching.{match_atom};
ghost use Rattle.hp_syntax.specs.Text.{number_spelled};
ghost use Rattle.hp_syntax.specs.Values.{value, atom_value, unbound};
ghost use Rattle.hp_samples.specs.Parts.{between, symbol, whole as thousandths, listed, least, greatest, call_of, variable, word, atom, atom_with_tail, one_more, goal};

/// Sums and products go from left to right, and each partial result must fit. Products are cut off toward zero behind
/// the thousandths.
pub fn sums_and_products()
    ensures sum { call_of (codes "+") (thousandths (pos 2000) ∷ thousandths (pos 3000) ∷ [])
        ≡ Ok (thousandths (pos 5000)) }
    ensures three { call_of (codes "*")
        (thousandths (pos 2000) ∷ thousandths (negsuc 2999) ∷ thousandths (pos 4000) ∷ []) ≡ Ok (thousandths (negsuc 23999)) }
    ensures partial { call_of (codes "+") (thousandths greatest ∷ thousandths (pos 1) ∷ thousandths (negsuc 0) ∷ [])
        ≡ Err (fault_at Overflow (between 4 9)) }
    ensures other_order { call_of (codes "+") (thousandths greatest ∷ thousandths (negsuc 0) ∷ thousandths (pos 1) ∷ [])
        ≡ Ok (thousandths greatest) }
    ensures quarter { call_of (codes "*") (thousandths (pos 500) ∷ thousandths (pos 500) ∷ [])
        ≡ Ok (thousandths (pos 250)) }
    ensures cut_off { call_of (codes "*") (thousandths (pos 1) ∷ thousandths (pos 500) ∷ [])
        ≡ Ok (thousandths (pos 0)) }
    ensures cut_off_below { call_of (codes "*") (thousandths (negsuc 0) ∷ thousandths (pos 500) ∷ [])
        ≡ Ok (thousandths (pos 0)) }
    ensures difference { call_of (codes "-") (thousandths (pos 2000) ∷ thousandths (pos 5000) ∷ [])
        ≡ Ok (thousandths (negsuc 2999)) }
    ensures too_small { call_of (codes "-") (thousandths least ∷ thousandths (pos 1) ∷ [])
        ≡ Err (fault_at Overflow (between 4 9)) }
{}

/// Quotients are cut off toward zero behind the thousandths, and remainders have the sign of the dividend.
pub fn quotients_and_remainders()
    ensures quotient { call_of (codes "/") (thousandths (negsuc 6999) ∷ thousandths (pos 2000) ∷ [])
        ≡ Ok (thousandths (negsuc 3499)) }
    ensures third { call_of (codes "/") (thousandths (pos 1000) ∷ thousandths (pos 3000) ∷ [])
        ≡ Ok (thousandths (pos 333)) }
    ensures third_below { call_of (codes "/") (thousandths (negsuc 999) ∷ thousandths (pos 3000) ∷ [])
        ≡ Ok (thousandths (negsuc 332)) }
    ensures remainder { call_of (codes "mod") (thousandths (negsuc 6999) ∷ thousandths (pos 2000) ∷ [])
        ≡ Ok (thousandths (negsuc 999)) }
    ensures fraction_left { call_of (codes "mod") (thousandths (pos 5500) ∷ thousandths (pos 2000) ∷ [])
        ≡ Ok (thousandths (pos 1500)) }
    ensures left_below { call_of (codes "mod") (thousandths (negsuc 5499) ∷ thousandths (pos 2000) ∷ [])
        ≡ Ok (thousandths (negsuc 1499)) }
    ensures by_zero { call_of (codes "/") (thousandths (pos 1000) ∷ thousandths (pos 0) ∷ [])
        ≡ Err (fault_at ZeroDivisor (between 4 9)) }
    ensures left_by_zero { call_of (codes "mod") (thousandths (pos 1000) ∷ thousandths (pos 0) ∷ [])
        ≡ Err (fault_at ZeroDivisor (between 4 9)) }
    ensures too_great { call_of (codes "/") (thousandths least ∷ thousandths (negsuc 999) ∷ [])
        ≡ Err (fault_at Overflow (between 4 9)) }
    ensures by_little { call_of (codes "/") (thousandths (pos 9223372036854775000) ∷ thousandths (pos 1) ∷ [])
        ≡ Err (fault_at Overflow (between 4 9)) }
    ensures nothing_left { call_of (codes "mod") (thousandths least ∷ thousandths (negsuc 0) ∷ [])
        ≡ Ok (thousandths (pos 0)) }
{}

/// Powers multiply 1 again and again, and each partial result must fit; that the exponent is whole is asked first.
pub fn powers()
    ensures power { call_of (codes "^") (thousandths (pos 2000) ∷ thousandths (pos 53000) ∷ [])
        ≡ Ok (thousandths (pos 9007199254740992000)) }
    ensures too_great { call_of (codes "^") (thousandths (pos 2000) ∷ thousandths (pos 54000) ∷ [])
        ≡ Err (fault_at Overflow (between 4 9)) }
    ensures power_below { call_of (codes "^") (thousandths (negsuc 1999) ∷ thousandths (pos 53000) ∷ [])
        ≡ Ok (thousandths (negsuc 9007199254740991999)) }
    ensures of_fraction { call_of (codes "^") (thousandths (pos 1500) ∷ thousandths (pos 2000) ∷ [])
        ≡ Ok (thousandths (pos 2250)) }
    ensures cut_off { call_of (codes "^") (thousandths (pos 500) ∷ thousandths (pos 9000) ∷ [])
        ≡ Ok (thousandths (pos 1)) }
    ensures none { call_of (codes "^") (thousandths (pos 0) ∷ thousandths (pos 0) ∷ [])
        ≡ Ok (thousandths (pos 1000)) }
    ensures fraction { call_of (codes "^") (thousandths (pos 2000) ∷ thousandths (pos 500) ∷ [])
        ≡ Err (fault_at FractionPower (between 4 9)) }
    ensures fraction_below { call_of (codes "^") (thousandths (pos 2000) ∷ thousandths (negsuc 499) ∷ [])
        ≡ Err (fault_at FractionPower (between 4 9)) }
    ensures negative { call_of (codes "^") (thousandths (pos 2000) ∷ thousandths (negsuc 999) ∷ [])
        ≡ Err (fault_at NegativePower (between 4 9)) }
{}

/// The number without its sign, and the less and the greater of two.
pub fn sizes()
    ensures size { call_of (codes "abs") (thousandths (negsuc 4499) ∷ []) ≡ Ok (thousandths (pos 4500)) }
    ensures no_size { call_of (codes "abs") (thousandths least ∷ []) ≡ Err (fault_at Overflow (between 4 9)) }
    ensures less { call_of (codes "min") (thousandths (pos 3000) ∷ thousandths (negsuc 3999) ∷ [])
        ≡ Ok (thousandths (negsuc 3999)) }
    ensures greater { call_of (codes "max") (thousandths (pos 3000) ∷ thousandths (negsuc 3999) ∷ [])
        ≡ Ok (thousandths (pos 3000)) }
{}

/// Comparisons answer `t` or the empty list; numbers alone are compared by size, all terms by being equal.
pub fn comparisons()
    ensures less { call_of (codes "<") (thousandths (negsuc 0) ∷ thousandths (pos 0) ∷ []) ≡ Ok (symbol (codes "t")) }
    ensures not_less { call_of (codes "<") (thousandths (pos 1000) ∷ thousandths (pos 1000) ∷ []) ≡ Ok (listed []) }
    ensures at_most { call_of (codes "<=") (thousandths (pos 1000) ∷ thousandths (pos 1000) ∷ [])
        ≡ Ok (symbol (codes "t")) }
    ensures at_least { call_of (codes ">=") (thousandths (pos 1000) ∷ thousandths (pos 1001) ∷ []) ≡ Ok (listed []) }
    ensures more { call_of (codes ">") (thousandths (pos 1001) ∷ thousandths (pos 1000) ∷ [])
        ≡ Ok (symbol (codes "t")) }
    ensures no_number { call_of (codes "<") (symbol (codes "a") ∷ thousandths (pos 1000) ∷ [])
        ≡ Err (fault_at NotNumber (between 4 9)) }
    ensures same_number { call_of (codes "=") (thousandths (number_spelled (codes "1"))
        ∷ thousandths (number_spelled (codes "1.0")) ∷ []) ≡ Ok (symbol (codes "t")) }
    ensures same { call_of (codes "=") (listed (symbol (codes "a") ∷ thousandths (pos 1000) ∷ [])
        ∷ listed (symbol (codes "a") ∷ thousandths (pos 1000) ∷ []) ∷ []) ≡ Ok (symbol (codes "t")) }
    ensures differ { call_of (codes "!=") (symbol (codes "a") ∷ symbol (codes "b") ∷ [])
        ≡ Ok (symbol (codes "t")) }
    ensures among { call_of (codes "member") (symbol (codes "b")
        ∷ listed (symbol (codes "a") ∷ symbol (codes "b") ∷ []) ∷ []) ≡ Ok (symbol (codes "t")) }
    ensures not_among { call_of (codes "member") (symbol (codes "c")
        ∷ listed (symbol (codes "a") ∷ symbol (codes "b") ∷ []) ∷ []) ≡ Ok (listed []) }
    ensures no_list { call_of (codes "member") (symbol (codes "b") ∷ symbol (codes "b") ∷ [])
        ≡ Err (fault_at NotList (between 4 9)) }
{}

/// A variable that stands twice must be equal twice; a tail takes what remains; beyond the bindings is no variable.
pub fn atoms_are_matched()
    ensures differ { match_atom (atom (codes "p") (variable 0 ∷ variable 0 ∷ []))
        (listed (symbol (codes "p") ∷ symbol (codes "a") ∷ symbol (codes "b") ∷ [])) (unbound 2) ≡ None }
    ensures same { match_atom (atom (codes "p") (variable 0 ∷ variable 0 ∷ []))
        (listed (symbol (codes "p") ∷ symbol (codes "a") ∷ symbol (codes "a") ∷ [])) (unbound 2)
        ≡ Some (Some (symbol (codes "a")) ∷ None ∷ []) }
    ensures rest { match_atom (atom_with_tail (codes "p") (variable 0 ∷ []) 1)
        (listed (symbol (codes "p") ∷ symbol (codes "a") ∷ symbol (codes "b") ∷ symbol (codes "c") ∷ [])) (unbound 2)
        ≡ Some (Some (symbol (codes "a")) ∷ Some (listed (symbol (codes "b") ∷ symbol (codes "c") ∷ [])) ∷ []) }
    ensures no_rest { match_atom (atom_with_tail (codes "p") (variable 0 ∷ []) 1)
        (listed (symbol (codes "p") ∷ symbol (codes "a") ∷ [])) (unbound 2)
        ≡ Some (Some (symbol (codes "a")) ∷ Some (listed []) ∷ []) }
    ensures too_short { match_atom (atom_with_tail (codes "p") (variable 0 ∷ []) 1)
        (listed (symbol (codes "p") ∷ [])) (unbound 2) ≡ None }
    ensures beyond { match_atom (atom (codes "p") (variable 2 ∷ []))
        (listed (symbol (codes "p") ∷ symbol (codes "a") ∷ [])) (unbound 2) ≡ None }
{}

/// Goals are filled, and heads of axioms start for them.
pub fn goals_are_filled_and_started()
    ensures filled { fill_goal (atom (codes "p") (variable 0 ∷ word (codes "b") ∷ [])) (unbound 1)
        ≡ Ok (goal (codes "p") (Then (Free 0) (Then (Known (symbol (codes "b"))) NoFilling)) None) }
    ensures started { start_goal (atom (codes "p") (variable 0 ∷ variable 0 ∷ []))
        (goal (codes "p") (Then (Free 0) (Then (Known (symbol (codes "b"))) NoFilling)) None)
        (unbound 1) ≡ Some (Some (symbol (codes "b")) ∷ []) }
    ensures not_ground { fill_goal (atom (codes "p") (one_more 0 ∷ [])) (unbound 1)
        ≡ Err (fault_at NotGround (between 6 8)) }
    ensures free_tail_first { start_goal (atom_with_tail (codes "p") [] 0)
        (goal (codes "p") NoFilling (Some 0)) (unbound 1) ≡ Some (unbound 1) }
    ensures tail_takes { start_goal (atom_with_tail (codes "p") [] 0)
        (goal (codes "p") (Then (Known (symbol (codes "b"))) NoFilling) None)
        (unbound 1) ≡ Some (Some (listed (symbol (codes "b") ∷ [])) ∷ []) }
    ensures no_list_tail { fill_goal (atom_with_tail (codes "p") (variable 0 ∷ []) 1)
        (None ∷ Some (symbol (codes "b")) ∷ []) ≡ Err (fault_at NotList (between 15 17)) }
    ensures value { value (one_more 0) (Some (thousandths (pos 2)) ∷ []) ≡ Ok (thousandths (pos 3)) }
    ensures atom_value { atom_value (atom (codes "p") (variable 0 ∷ [])) (Some (symbol (codes "a")) ∷ [])
        ≡ Ok (listed (symbol (codes "p") ∷ symbol (codes "a") ∷ [])) }
{}
