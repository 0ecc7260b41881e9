//! The plans behind a path: the walk to it, and what is told of the visits that are left there.

ghost use Rattle.std.specs.List.{All};
ghost use Rattle.std.specs.Prelude.{◌≡◌, ◌≤◌, ◌<◌, ◌-◌, ◌^◌, true};
ghost use Rattle.hp_net.specs.Standings.{IsAtItsNode, tree_visits};
ghost use Rattle.hp_out.specs.Lines.{absent_text};
ghost use Rattle.hp_out.specs.Writing.{sink_run};
ghost use Rattle.hp_telling.specs.AfterReports.{after_report, heard_report};
ghost use Rattle.hp_telling.specs.Telling.{IsTold, telling};

use crate::halt::Halt;
use crate::planning::{Detail, tell, tell_fault};
use hp_after::{Reached, reach};
use hp_io::Sink;
use hp_net::Walk;
use hp_out::Pen;
use hp_syntax::Status;

/// Tells that there is no plan at a path.
fn tell_absent<K: Sink>(expansions: u64, out: &mut K) -> Result<Status, Halt>
    ensures told { IsTold (absent_text expansions, Status.NoSuchPath) result
        (sink_run (K.faults out.old) (K.faults out.new) (K.bytes out.old) (K.bytes out.new)) }
    ensures later { K.faults out.old ≤ K.faults out.new }
{
    let mut pen = Pen::new(out);
    match pen.absent_line(expansions) {
        Ok(()) => Ok(Status::NoSuchPath),
        Err(_) => Err(Halt::Failed),
    }
}

/// Goes to the plan at a path of a new walk, and tells the plans behind it, as many as are asked, and how they end; or
/// that there is no plan, or the fault that was met on the way.
#[tactic(auto, using(crate::proofs::ReportLemmas::report_heard, crate::proofs::AfterSteps::at_behind))]
pub fn tell_after<W: Walk, K: Sink>(
    walk: &mut W,
    target: &[u64],
    plans: u64,
    detail: Detail,
    out: &mut K,
) -> Result<Status, Halt>
    requires live { W.is_live walk.old ≡ true }
    requires at { All (IsAtItsNode (W.tree walk.old)) (W.stands walk.old).rest }
    requires new { (W.stands walk.old).rest ≡ tree_visits (W.tree walk.old) }
    requires plans { 0 < plans }
    requires small { All (λ i. i < 2 ^ 64 - 1) target.now }
    ensures told { IsTold
        (after_report (heard_report (telling detail) plans) target.now (W.stands walk.old).rest) result
        (sink_run (K.faults out.old) (K.faults out.new) (K.bytes out.old) (K.bytes out.new)) }
    ensures later { K.faults out.old ≤ K.faults out.new }
{
    let Ok(arrival) = reach(walk, target) else {
        return Err(Halt::NoMemory);
    };
    match arrival.answer {
        Reached::At => tell(walk, plans, detail, out),
        Reached::Absent => tell_absent(arrival.expansions, out),
        Reached::Fault(fault) => tell_fault(fault, arrival.expansions, out),
    }
}
