//! The cheapest plan of a walk, told with how the search for it ended.

ghost use Rattle.std.specs.Prelude.{◌≡◌, ◌≤◌, true, Bool, List, Option, IfErr, OnOk};
ghost use Rattle.hp_best.specs.Bounded.{NeverFalls, IsChosen, IsFound, end_told};
ghost use Rattle.hp_net.specs.Standings.{tree_visits};
ghost use Rattle.hp_out.specs.Endings.{ending_of};
ghost use Rattle.hp_out.specs.Writing.{Wrote, sink_run};
ghost use Rattle.hp_syntax.specs.Walk.{Visit};
ghost use Rattle.hp_telling.specs.BestReports.{best_report, chosen_text, unless_fault};
ghost use Rattle.hp_telling.specs.Telling.{Halts, IsTold};

use crate::halt::Halt;
use crate::planning::{Progress, close};
use hp_best::{BestEnd, Found, best};
use hp_io::Sink;
use hp_net::Walk;
use hp_out::{Ending, Pen};
use hp_syntax::Status;
use std::alloc::Global;

/// The ending of a search.
fn ending_of(end: BestEnd) -> Ending
    ensures { ending_of result ≡ end_told end }
{
    match end {
        BestEnd::End => Ending::End,
        BestEnd::Cut => Ending::Cut,
        BestEnd::Fault(fault) => Ending::Fault(fault),
    }
}

/// Writes the plan that was found, unless a fault ended the search.
fn write_found<K: Sink>(found: &Found, out: &mut K) -> Result<(), Halt>
    ensures written { (chosen : Option Visit) → IsChosen found.now.best chosen → OnOk result
        (Wrote (unless_fault (end_told found.now.ending) (chosen_text chosen)) (K.bytes out.old) (K.bytes out.new)) }
    ensures err { (chosen : Option Visit) → IsChosen found.now.best chosen → IfErr result
        (λ h. Halts h (unless_fault (end_told found.now.ending) (chosen_text chosen))
        (sink_run (K.faults out.old) (K.faults out.new) (K.bytes out.old) (K.bytes out.new))) }
    ensures later { K.faults out.old ≤ K.faults out.new }
{
    if let BestEnd::Fault(_) = found.ending {
        return Ok(());
    }
    let Some(chosen) = &found.best else {
        return Ok(());
    };
    let mut pen = Pen::new(out);
    match pen.best_lines(chosen.cost, chosen.steps.as_slice()) {
        Ok(()) => Ok(()),
        Err(_) => Err(Halt::Failed),
    }
}

/// Tells what was found, and how the search ended.
fn tell_found<K: Sink>(found: &Found, out: &mut K) -> Result<Status, Halt>
    ensures told { (priced : Bool) (visits : List Visit) → IsFound priced found.now visits
        → IsTold (best_report priced visits) result
        (sink_run (K.faults out.old) (K.faults out.new) (K.bytes out.old) (K.bytes out.new)) }
    ensures later { K.faults out.old ≤ K.faults out.new }
{
    let progress = Progress {
        plans: found.plans,
        expansions: found.expansions,
        is_cut: false,
    };
    match write_found(found, out) {
        Ok(()) => close(ending_of(found.ending), progress, out),
        Err(halt) => Err(halt),
    }
}

/// Looks for the cheapest plan of a new walk and tells it, and how the search ended. Nothing is written before the
/// search is over.
pub fn tell_best<W: Walk, K: Sink>(
    alloc: Global,
    walk: &mut W,
    priced: bool,
    out: &mut K,
) -> Result<Status, Halt>
    requires live { W.is_live walk.old ≡ true }
    requires new { (W.stands walk.old).rest ≡ tree_visits (W.tree walk.old) }
    requires falls { priced ≡ true → NeverFalls (W.stands walk.old).rest }
    ensures told { IsTold (best_report priced (W.stands walk.old).rest) result
        (sink_run (K.faults out.old) (K.faults out.new) (K.bytes out.old) (K.bytes out.new)) }
    ensures later { K.faults out.old ≤ K.faults out.new }
{
    match best(alloc, walk, priced) {
        Ok(found) => tell_found(&found, out),
        Err(_) => Err(Halt::NoMemory),
    }
}
