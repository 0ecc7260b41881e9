//! Laws and samples. A law does nothing, and so can always be cited.

use hp_after::laws::{enumerations_go_on, walks_come_to_the_plan};
use hp_best::laws::{bounded_walks_choose_the_cheapest, priced_costs_never_fall};
use hp_check::laws::{no_fault_is_left_out, the_first_fault_is_told};
use hp_make::samples::two_packages_are_made;
use hp_replay::laws::{printed_plans_read_back, steps_can_be_written, walked_plans_read_back};
use hp_shallow::laws::{least_depths_are_least, smaller_depths_are_cut_short};
use hp_syntax::laws::{
    every_text_is_one_or_the_other, forests_have_one_form, forms_are_numbered, limits_are_kept,
    misforms_are_decided_by_the_prefix, no_text_is_both, reading_goes_on_in_one_way,
    refusals_are_decided_by_the_prefix, terms_are_compared, texts_have_one_refusal,
    texts_spell_one_forest,
};
use hp_syntax::samples::samples_are_spelled;
use hp_top::laws::{
    cheapest_plans_are_told, every_run_has_an_outcome, outcomes_are_one, plans_are_verified,
    shallowest_plans_are_told,
};
use hp_top::samples::basic_comes_to_its_plan;
use hp_verify::laws::{kept_walks_are_exact, steps_only_grow};
use hp_words::samples::{
    continuations_are_read, deepenings_are_read, makings_are_read, options_are_read,
    searches_are_read, verifications_are_read,
};

/// Cites all of them.
pub fn cite_all() {
    texts_spell_one_forest();
    texts_have_one_refusal();
    no_text_is_both();
    every_text_is_one_or_the_other();
    refusals_are_decided_by_the_prefix();
    limits_are_kept();
    reading_goes_on_in_one_way();
    forests_have_one_form();
    terms_are_compared();
    forms_are_numbered();
    misforms_are_decided_by_the_prefix();
    the_first_fault_is_told();
    no_fault_is_left_out();
    outcomes_are_one();
    every_run_has_an_outcome();
    priced_costs_never_fall();
    bounded_walks_choose_the_cheapest();
    cheapest_plans_are_told();
    steps_only_grow();
    kept_walks_are_exact();
    plans_are_verified();
    walks_come_to_the_plan();
    enumerations_go_on();
    smaller_depths_are_cut_short();
    least_depths_are_least();
    shallowest_plans_are_told();
    printed_plans_read_back();
    steps_can_be_written();
    walked_plans_read_back();
    samples_are_spelled();
    two_packages_are_made();
    basic_comes_to_its_plan();
    options_are_read();
    makings_are_read();
    searches_are_read();
    continuations_are_read();
    verifications_are_read();
    deepenings_are_read();
}
