//! The walk of a problem, with each plan written as it is found.

ghost use Rattle.std.specs.Prelude.{◌≡◌, ℕ, ◌≤◌, ◌<◌, true, MatchOption, IfOk, IfErr, OnOk};
ghost use Rattle.std.specs.List.{All};
ghost use Rattle.hp_net.specs.Standings.{node_reached, IsAtItsNode};
ghost use Rattle.hp_out.specs.Endings.{ending_of};
ghost use Rattle.hp_out.specs.Writing.{Wrote, sink_run};
ghost use Rattle.hp_syntax.specs.Report.{AtFault, ending_text, nothing_seen, report, status_of};
ghost use Rattle.hp_syntax.specs.Walk.{Plan, count_told, visit};
ghost use Rattle.hp_telling.specs.Telling.{Halts, IsTold, telling};

use crate::halt::Halt;
use hp_io::Sink;
use hp_net::Walk;
use hp_out::{Ending, Pen};
use hp_passes::{Pass, Sight, Stop, Turn, go_through};
use hp_syntax::{RunFault, Status};

/// The detail in which a plan is told.
#[derive(Clone, Copy)]
pub enum Detail {
    /// Its line alone.
    Line,
    /// Its line and its steps, with its path and the state that it leads to where these are shown.
    Steps { states: bool, paths: bool },
}

/// How far a walk was told.
#[derive(Clone, Copy)]
pub struct Progress {
    /// How many plans were written.
    pub plans: u64,
    /// How many decompositions were gone through; it stands still at its end.
    pub expansions: u64,
    /// Whether a part of the tree was cut off.
    pub is_cut: bool,
}

/// The status of a run that ends so.
fn status_of(ending: Ending, plans: u64) -> Status
    ensures { result ≡ status_of (ending_of ending) plans }
{
    match ending {
        Ending::Fault(_) => Status::RunFault,
        Ending::Stopped => Status::Done,
        Ending::Cut if plans == 0 => Status::CutShort,
        Ending::End if plans == 0 => Status::NoPlan,
        Ending::Cut | Ending::End => Status::Done,
    }
}

/// Writes what is told of the plan of the node that is reached.
pub fn write_plan<W: Walk, K: Sink>(
    number: u64,
    walk: &W,
    detail: Detail,
    out: &mut K,
) -> Result<(), Halt>
    requires live { W.is_live walk.now ≡ true }
    ensures written { MatchOption (node_reached (W.tree walk.now) (W.stands walk.now)) ⊥
        (λ n. OnOk result (Wrote (telling detail number (visit (W.stands walk.now).path n Plan))
        (K.bytes out.old) (K.bytes out.new))) }
    ensures err { MatchOption (node_reached (W.tree walk.now) (W.stands walk.now)) ⊥
        (λ n. IfErr result (λ h. Halts h (telling detail number (visit (W.stands walk.now).path n Plan))
        (sink_run (K.faults out.old) (K.faults out.new) (K.bytes out.old) (K.bytes out.new)))) }
    ensures later { K.faults out.old ≤ K.faults out.new }
{
    let mut pen = Pen::new(out);
    match detail {
        Detail::Line => match pen.plan_line(number, walk) {
            Ok(()) => Ok(()),
            Err(_) => Err(Halt::Failed),
        },
        Detail::Steps { states, paths } => match pen.plan_lines(number, walk, states, paths) {
            Ok(()) => Ok(()),
            Err(_) => Err(Halt::Failed),
        },
    }
}

/// A telling of so many plans of a walk in a detail: how far it is, and how it ends.
#[derive(Drop)]
struct Telling {
    plans: u64,
    detail: Detail,
    progress: Progress,
    ending: Ending,
}

impl<W: Walk, K: Sink> Pass<W, K> for Telling {
    ghost use Rattle.hp_telling.specs.Telling.{StopsAt, Tells};

    type Error = Halt;

    ghost meets = { λ tree s c v t u d. Tells s v t u (sink_run (K.faults c) (K.faults d) (K.bytes c) (K.bytes d)) };

    ghost fails = { λ s c v h d. StopsAt s v h (sink_run (K.faults c) (K.faults d) (K.bytes c) (K.bytes d)) };

    fn meet(&mut self, walk: &W, out: &mut K, sight: Sight) -> Result<Turn, Halt> {
        match sight {
            Sight::Did => {
                self.progress.expansions = self.progress.expansions.saturating_add(1);
                Ok(Turn::On)
            }
            Sight::Plan => {
                self.progress.plans = self.progress.plans.saturating_add(1);
                match write_plan(self.progress.plans, walk, self.detail, out) {
                    Ok(()) if self.progress.plans < self.plans => Ok(Turn::On),
                    Ok(()) => {
                        self.ending = Ending::Stopped;
                        Ok(Turn::Last)
                    }
                    Err(halt) => Err(halt),
                }
            }
            Sight::Cut => {
                self.progress.is_cut = true;
                self.ending = Ending::Cut;
                Ok(Turn::On)
            }
            Sight::Fault(fault) => {
                self.ending = Ending::Fault(fault);
                Ok(Turn::Last)
            }
        }
    }
}

/// Writes the ending line, and answers the status of a run that ends so.
pub fn close<K: Sink>(ending: Ending, progress: Progress, out: &mut K) -> Result<Status, Halt>
    ensures written { OnOk result (Wrote (ending_text (ending_of ending) progress.plans progress.expansions)
        (K.bytes out.old) (K.bytes out.new)) }
    ensures status { IfOk result (λ s. s ≡ status_of (ending_of ending) progress.plans) }
    ensures err { IfErr result (λ h. Halts h (ending_text (ending_of ending) progress.plans progress.expansions)
        (sink_run (K.faults out.old) (K.faults out.new) (K.bytes out.old) (K.bytes out.new))) }
    ensures later { K.faults out.old ≤ K.faults out.new }
{
    let mut pen = Pen::new(out);
    match pen.ending_line(&ending, progress.plans, progress.expansions) {
        Ok(()) => Ok(status_of(ending, progress.plans)),
        Err(_) => Err(Halt::Failed),
    }
}

/// Tells a fault that was met before any plan.
#[tactic(auto, using(crate::proofs::ReportLemmas::ending_saturates))]
pub(crate) fn tell_fault<K: Sink>(
    fault: RunFault,
    expansions: u64,
    out: &mut K,
) -> Result<Status, Halt>
    ensures told { (n : ℕ) → expansions ≡ count_told n
        → IsTold (ending_text (AtFault fault) 0 n, Status.RunFault) result
        (sink_run (K.faults out.old) (K.faults out.new) (K.bytes out.old) (K.bytes out.new)) }
    ensures later { K.faults out.old ≤ K.faults out.new }
{
    let progress = Progress {
        plans: 0,
        expansions,
        is_cut: false,
    };
    close(Ending::Fault(fault), progress, out)
}

/// Writes the plans of a walk, as many as are asked, and the ending line.
pub fn tell<W: Walk, K: Sink>(
    walk: &mut W,
    plans: u64,
    detail: Detail,
    out: &mut K,
) -> Result<Status, Halt>
    requires live { W.is_live walk.old ≡ true }
    requires at { All (IsAtItsNode (W.tree walk.old)) (W.stands walk.old).rest }
    requires plans { 0 < plans }
    ensures written { OnOk result (Wrote (report (telling detail) plans nothing_seen (W.stands walk.old).rest).0
        (K.bytes out.old) (K.bytes out.new)) }
    ensures status { IfOk result (λ s. s ≡ (report (telling detail) plans nothing_seen (W.stands walk.old).rest).1) }
    ensures err { IfErr result (λ h. Halts h (report (telling detail) plans nothing_seen (W.stands walk.old).rest).0
        (sink_run (K.faults out.old) (K.faults out.new) (K.bytes out.old) (K.bytes out.new))) }
    ensures later { K.faults out.old ≤ K.faults out.new }
{
    let mut telling = Telling {
        plans,
        detail,
        progress: Progress {
            plans: 0,
            expansions: 0,
            is_cut: false,
        },
        ending: Ending::End,
    };
    match go_through(walk, &mut telling, out) {
        Ok(()) => close(telling.ending, telling.progress, out),
        Err(Stop::NoMemory) => Err(Halt::NoMemory),
        Err(Stop::Failed(halt)) => Err(halt),
    }
}
