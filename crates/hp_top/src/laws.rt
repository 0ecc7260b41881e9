//! Laws over the outcome of a run.
//!
//! Each function does nothing but name laws of the definitions below, and its contract is the law.

ghost use Rattle.std.specs.Prelude.{◌≡◌, ◌↔◌, ◌≤◌, Bool, List, ℕ};
ghost use Rattle.std.specs.List.{All};
ghost use Rattle.hp_best.specs.Bounded.{is_priced};
ghost use Rattle.hp_laws.specs.TreeLaws.{IsFaultless};
ghost use Rattle.hp_shallow.specs.LeastDepth.{HasNoPlan};
ghost use Rattle.hp_syntax.specs.Report.{Answer};
ghost use Rattle.hp_syntax.specs.declared.status.Status.TheVariants as Status;
ghost use Rattle.hp_syntax.specs.Syntax.{Pair, Rule};
ghost use Rattle.hp_syntax.specs.Terms.{Term};
ghost use Rattle.hp_telling.specs.BestReports.{TellsTheCheapest};
ghost use Rattle.hp_top.specs.Outcome.{Files, Outcome, pair_visits};
ghost use Rattle.hp_top.specs.ShallowReports.{TellsTheShallowest, shallow_report};
ghost use Rattle.hp_telling.specs.VerifyReports.{verify_report};
ghost use Rattle.hp_verify.specs.Kept.{HasPlan};

use hp_best::laws::{bounded_walks_choose_the_cheapest, priced_costs_never_fall};
use hp_shallow::laws::least_depths_are_least;
use hp_syntax::laws::{
    every_text_is_one_or_the_other, no_text_is_both, texts_have_one_refusal, texts_spell_one_forest,
};
use hp_verify::laws::{kept_walks_are_exact, steps_only_grow};

/// Words and files come to one answer at most: one text and one status.
pub fn outcomes_are_one()
    ensures { (words : List (List ℕ)) (files : Files) (a b : Answer) → Outcome words files a
        → Outcome words files b → a ≡ b }
{
    texts_spell_one_forest();
    texts_have_one_refusal();
    no_text_is_both();
}

/// Whatever the words and the files are, they come to an answer.
pub fn every_run_has_an_outcome()
    ensures { (words : List (List ℕ)) (files : Files) → (a : Answer) × Outcome words files a }
{
    every_text_is_one_or_the_other();
}

/// Where there is no fault in the tree of a pair, what is told of its cheapest plan is a plan than which none costs
/// less, and before which none costs as little, and then the ending line; and the ending line alone where the tree has
/// no plan.
pub fn cheapest_plans_are_told()
    ensures { (rules : List Rule) (nest depth : ℕ) (pair : Pair)
        → All (λ v. IsFaultless v.sight) (pair_visits rules nest depth pair)
        → TellsTheCheapest (is_priced rules) (pair_visits rules nest depth pair) }
{
    bounded_walks_choose_the_cheapest();
    priced_costs_never_fall();
}

/// Where there is no fault in the tree of a pair, steps are told to be derived exactly where the tree holds a plan with
/// these steps.
pub fn plans_are_verified()
    ensures { (rules : List Rule) (nest depth : ℕ) (pair : Pair) (steps : List Term)
        → All (λ v. IsFaultless v.sight) (pair_visits rules nest depth pair)
        → ((verify_report steps (pair_visits rules nest depth pair)).1 ≡ Status.Done)
        ↔ HasPlan steps (pair_visits rules nest depth pair) }
{
    kept_walks_are_exact();
    steps_only_grow();
}

/// Where a plan of the least depth is told, it is the first plan of that depth, and no smaller one has a plan. Where the
/// end is told, no depth has one, however great, and where a cut is, no depth up to the limit.
pub fn shallowest_plans_are_told()
    ensures plan { (rules : List Rule) (nest limit : ℕ) (pair : Pair) (states : Bool)
        → (shallow_report states limit (λ n. pair_visits rules nest n pair)).1 ≡ Status.Done
        → TellsTheShallowest rules nest pair states (shallow_report states limit (λ n. pair_visits rules nest n pair)) }
    ensures none { (rules : List Rule) (nest limit : ℕ) (pair : Pair) (states : Bool)
        → (shallow_report states limit (λ n. pair_visits rules nest n pair)).1 ≡ Status.NoPlan
        → (depth : ℕ) → HasNoPlan rules nest pair depth }
    ensures cut { (rules : List Rule) (nest limit : ℕ) (pair : Pair) (states : Bool)
        → (shallow_report states limit (λ n. pair_visits rules nest n pair)).1 ≡ Status.CutShort
        → (depth : ℕ) → depth ≤ limit → HasNoPlan rules nest pair depth }
{
    least_depths_are_least();
}
