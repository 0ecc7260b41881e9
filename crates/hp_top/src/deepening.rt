//! The first plan of the least depth that has one, told.

ghost use Rattle.std.specs.Prelude.{◌≡◌, ◌≢◌, ◌≤◌, ℕ, suc, Bool, List, IfErr, MatchOption, OnOk, false, true};
ghost use Rattle.hp_code.specs.CodeViews.{IsCodeOf};
ghost use Rattle.hp_code.specs.Codes.{code_of};
ghost use Rattle.hp_net.specs.Standings.{node_reached};
ghost use Rattle.hp_out.specs.Endings.{ending_of};
ghost use Rattle.hp_out.specs.Lines.{depth_text};
ghost use Rattle.hp_out.specs.Writing.{Wrote, sink_run};
ghost use Rattle.hp_search.specs.Planned.{stands_planned, tree_planned};
ghost use Rattle.hp_shallow.specs.Deepening.{IsLeast};
ghost use Rattle.hp_shallow.specs.LeastDepth.{StandsAtPlan, expansions_below, first_end, shallow_end};
ghost use Rattle.hp_syntax.specs.GroundPatterns.{IsGroundPair};
ghost use Rattle.hp_syntax.specs.Report.{Stopped, behind, ending_text, shown, told_plan};
ghost use Rattle.hp_syntax.specs.Syntax.{Rule};
ghost use Rattle.hp_syntax.specs.Views.{pair_of};
ghost use Rattle.hp_syntax.specs.Walk.{Visit, count_told};
ghost use Rattle.hp_top.specs.Outcome.{pair_visits};
ghost use Rattle.hp_top.specs.ShallowReports.{depth_report, first_report, shallow_report};
ghost use Rattle.hp_telling.specs.Telling.{Halts, IsTold};

use hp_code::Code;
use hp_code::laws::{compiled_rules_are_a_code, lowered_rules_have_the_tree};
use hp_io::Sink;
use hp_net::Walk;
use hp_out::{Ending, Pen};
use hp_shallow::{Least, ShallowEnd, shallow};
use hp_syntax::limits::{GREATEST_DEPTH, MOST_LEVELS};
use hp_syntax::{Pair, Status};
use hp_telling::{Detail, Halt, Progress, close, write_plan};
use std::alloc::Global;

/// Writes the depth that decides.
fn write_depth<K: Sink>(depth: u32, out: &mut K) -> Result<(), Halt>
    ensures written { OnOk result (Wrote (depth_text depth) (K.bytes out.old) (K.bytes out.new)) }
    ensures err { IfErr result (λ h. Halts h (depth_text depth)
        (sink_run (K.faults out.old) (K.faults out.new) (K.bytes out.old) (K.bytes out.new))) }
    ensures later { K.faults out.old ≤ K.faults out.new }
{
    let mut pen = Pen::new(out);
    match pen.depth_line(depth) {
        Ok(()) => Ok(()),
        Err(_) => Err(Halt::Failed),
    }
}

/// Tells the plan at which a walk stands, as the first and the last that was asked, with so many decompositions.
fn tell_first<W: Walk, K: Sink>(
    walk: &W,
    expansions: u64,
    states: bool,
    out: &mut K,
) -> Result<Status, Halt>
    requires live { W.is_live walk.now ≡ true }
    ensures told { MatchOption (node_reached (W.tree walk.now) (W.stands walk.now)) ⊥
        (λ n. IsTold (behind (told_plan (shown states false) 1 (W.stands walk.now).path n)
        (ending_text Stopped 1 expansions, Status.Done)) result
        (sink_run (K.faults out.old) (K.faults out.new) (K.bytes out.old) (K.bytes out.new))) }
    ensures later { K.faults out.old ≤ K.faults out.new }
{
    let detail = Detail::Steps {
        states,
        paths: false,
    };
    let progress = Progress {
        plans: 1,
        expansions,
        is_cut: false,
    };
    match write_plan(1, walk, detail, out) {
        Ok(()) => close(Ending::Stopped, progress, out),
        Err(halt) => Err(halt),
    }
}

/// How the walk of a depth ends.
fn ending_of(end: ShallowEnd) -> Ending
    ensures { shallow_end (ending_of result) ≡ end }
{
    match end {
        ShallowEnd::Plan => Ending::Stopped,
        ShallowEnd::End => Ending::End,
        ShallowEnd::Cut => Ending::Cut,
        ShallowEnd::Fault(fault) => Ending::Fault(fault),
    }
}

/// Tells how the walk of a depth ends that has no plan, with so many decompositions.
fn tell_none<K: Sink>(end: ShallowEnd, expansions: u64, out: &mut K) -> Result<Status, Halt>
    requires { end ≢ ShallowEnd.Plan }
    ensures told { (states : Bool) (n : ℕ) (vs : List Visit) → expansions ≡ count_told n
        → end ≡ shallow_end (first_end vs).ending → IsTold (first_report states n vs) result
        (sink_run (K.faults out.old) (K.faults out.new) (K.bytes out.old) (K.bytes out.new)) }
    ensures later { K.faults out.old ≤ K.faults out.new }
{
    let progress = Progress {
        plans: 0,
        expansions,
        is_cut: false,
    };
    close(ending_of(end), progress, out)
}

/// Tells what was found at the depth that decides.
fn tell_found<K: Sink>(least: &Least, states: bool, out: &mut K) -> Result<Status, Halt>
    requires live { least.now.walk.live ≡ true }
    ensures told { (at : ℕ → List Visit) (limit : ℕ) → IsLeast least.now at limit
        → (least.now.answer ≡ ShallowEnd.Plan
        → StandsAtPlan (tree_planned least.now.walk) (stands_planned least.now.walk) (at least.now.depth))
        → IsTold (first_report states (expansions_below at (suc least.now.depth)) (at least.now.depth)) result
        (sink_run (K.faults out.old) (K.faults out.new) (K.bytes out.old) (K.bytes out.new)) }
    ensures later { K.faults out.old ≤ K.faults out.new }
{
    match least.answer {
        ShallowEnd::Plan => tell_first(&least.walk, least.expansions, states, out),
        answer => tell_none(answer, least.expansions, out),
    }
}

/// Tells the depth that decides, and what was found there.
fn tell_depth<K: Sink>(least: &Least, states: bool, out: &mut K) -> Result<Status, Halt>
    requires live { least.now.walk.live ≡ true }
    ensures told { (at : ℕ → List Visit) (limit : ℕ) → IsLeast least.now at limit
        → (least.now.answer ≡ ShallowEnd.Plan
        → StandsAtPlan (tree_planned least.now.walk) (stands_planned least.now.walk) (at least.now.depth))
        → IsTold (depth_report states at least.now.depth) result
        (sink_run (K.faults out.old) (K.faults out.new) (K.bytes out.old) (K.bytes out.new)) }
    ensures later { K.faults out.old ≤ K.faults out.new }
{
    match write_depth(least.depth, out) {
        Ok(()) => tell_found(least, states, out),
        Err(halt) => Err(halt),
    }
}

/// Tells the first plan of a pair of the least depth, up to a limit, that has one; or how the walk of the depth ends
/// that decides that there is none.
pub fn tell_least<K: Sink>(
    alloc: Global,
    code: &Code,
    pair: &Pair,
    limit: u32,
    levels: u32,
    states: bool,
    out: &mut K,
) -> Result<Status, Halt>
    requires pair { IsGroundPair (pair_of pair.now) }
    requires limit { limit ≤ GREATEST_DEPTH }
    requires levels { levels ≤ MOST_LEVELS }
    ensures told { (rules : List Rule) → IsCodeOf rules (code_of code.now)
        → IsTold (shallow_report states limit (λ n. pair_visits rules levels n (pair_of pair.now))) result
        (sink_run (K.faults out.old) (K.faults out.new) (K.bytes out.old) (K.bytes out.new)) }
    ensures later { K.faults out.old ≤ K.faults out.new }
{
    // Nothing runs here: the laws make known that the tree by a code is the tree by its rules.
    compiled_rules_are_a_code();
    lowered_rules_have_the_tree();
    let Ok(least) = shallow(alloc, code, pair, limit, levels) else {
        return Err(Halt::NoMemory);
    };
    tell_depth(&least, states, out)
}
