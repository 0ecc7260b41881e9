//! Whether a plan that is given is one of a tree, told.

ghost use Rattle.std.specs.Prelude.{◌≡◌, ◌≤◌, MatchOption, cond, map, true};
ghost use Rattle.hp_net.specs.Standings.{node_reached, tree_visits};
ghost use Rattle.hp_out.specs.Lines.{derived_text, underived_text};
ghost use Rattle.hp_out.specs.Writing.{sink_run};
ghost use Rattle.hp_syntax.specs.GroundViews.{ground_of};
ghost use Rattle.hp_syntax.specs.Walk.{told};
ghost use Rattle.hp_telling.specs.Telling.{IsTold};
ghost use Rattle.hp_telling.specs.VerifyReports.{verify_report};

use crate::halt::Halt;
use crate::planning::tell_fault;
use hp_io::Sink;
use hp_net::Walk;
use hp_out::Pen;
use hp_syntax::{Ground, Status};
use hp_verify::{Answer, verify};

/// Tells that the plan at which a walk stands was derived.
fn tell_derived<W: Walk, K: Sink>(walk: &W, expansions: u64, out: &mut K) -> Result<Status, Halt>
    requires live { W.is_live walk.now ≡ true }
    ensures told { MatchOption (node_reached (W.tree walk.now) (W.stands walk.now)) ⊥
        (λ n. IsTold (derived_text n.cost (told (W.stands walk.now).path) expansions, Status.Done) result
        (sink_run (K.faults out.old) (K.faults out.new) (K.bytes out.old) (K.bytes out.new))) }
    ensures later { K.faults out.old ≤ K.faults out.new }
{
    let mut pen = Pen::new(out);
    match pen.derived_line(walk.cost(), walk.path(), expansions) {
        Ok(()) => Ok(Status::Done),
        Err(_) => Err(Halt::Failed),
    }
}

/// Tells that a plan wasn't derived.
fn tell_underived<K: Sink>(is_cut: bool, expansions: u64, out: &mut K) -> Result<Status, Halt>
    ensures told { IsTold (underived_text is_cut expansions, cond is_cut Status.CutShort Status.NoPlan) result
        (sink_run (K.faults out.old) (K.faults out.new) (K.bytes out.old) (K.bytes out.new)) }
    ensures later { K.faults out.old ≤ K.faults out.new }
{
    let mut pen = Pen::new(out);
    match pen.underived_line(is_cut, expansions) {
        Ok(()) if is_cut => Ok(Status::CutShort),
        Ok(()) => Ok(Status::NoPlan),
        Err(_) => Err(Halt::Failed),
    }
}

/// Walks along a plan, and tells whether it is one of the tree of a new walk.
pub fn tell_verdict<W: Walk, K: Sink>(
    walk: &mut W,
    steps: &[Ground],
    out: &mut K,
) -> Result<Status, Halt>
    requires live { W.is_live walk.old ≡ true }
    requires new { (W.stands walk.old).rest ≡ tree_visits (W.tree walk.old) }
    ensures told { IsTold (verify_report (map ground_of steps.now) (W.stands walk.old).rest) result
        (sink_run (K.faults out.old) (K.faults out.new) (K.bytes out.old) (K.bytes out.new)) }
    ensures later { K.faults out.old ≤ K.faults out.new }
{
    let Ok(verdict) = verify(walk, steps) else {
        return Err(Halt::NoMemory);
    };
    match verdict.answer {
        Answer::Derived => tell_derived(walk, verdict.expansions, out),
        Answer::NoEnd => tell_underived(false, verdict.expansions, out),
        Answer::NoCut => tell_underived(true, verdict.expansions, out),
        Answer::Fault(fault) => tell_fault(fault, verdict.expansions, out),
    }
}
