//! What is told of pairs, through a page before the sink.

ghost use Rattle.std.specs.List.{All};
ghost use Rattle.std.specs.Prelude.{◌≡◌, ◌≤◌, ℕ, List, drop, map};
ghost use Rattle.hp_out.specs.Paged.{laid};
ghost use Rattle.hp_out.specs.Writing.{sink_run};
ghost use Rattle.hp_syntax.specs.GroundPatterns.{IsGroundPair};
ghost use Rattle.hp_syntax.specs.Report.{Answer};
ghost use Rattle.hp_syntax.specs.Syntax.{Rule};
ghost use Rattle.hp_syntax.specs.Views.{pair_of};
ghost use Rattle.hp_top.specs.Engines.{CanPlan, IsWanted, PlansBy, told_of_pairs};
ghost use Rattle.hp_telling.specs.Telling.{IsTold};
ghost use Rattle.hp_top.specs.Telling.{Tells};

use crate::pairs::{Engine, Wanted, tell_pairs};
use core::mem::replace_with;
use hp_io::Sink;
use hp_out::{Origin, Paged};
use hp_syntax::{Pair, Status};
use hp_telling::Halt;
use std::alloc::Global;
use std::marker::Brand;

/// What is wanted of pairs, and by which engine.
#[derive(Clone, Copy)]
struct Task<'a> {
    alloc: Global,
    engine: Engine<'a>,
    pairs: &'a [Pair],
    wanted: Wanted<'a>,
}

/// Writes what stands on the page, unless writing failed already, and answers the status of the run.
fn close<O: Origin, K: Sink>(paged: &mut Paged<O, K>, told: Result<Status, Halt>) -> Status
    ensures tells { (a : Answer) (f : ℕ) → f ≤ K.faults paged.old.sink
        → IsTold a told (sink_run f (K.faults paged.old.sink) O.taken
        (laid (K.bytes paged.old.sink) (drop paged.old.done paged.old.page.items)))
        → Tells a result (sink_run f (K.faults paged.new.sink) O.taken (K.bytes paged.new.sink)) }
    ensures later { K.faults paged.old.sink ≤ K.faults paged.new.sink }
{
    match told {
        Err(Halt::Failed) => Status::WriteFault,
        Err(Halt::NoMemory) => {
            // Memory is wanting, whatever becomes of the page.
            let _ = paged.flush();
            Status::NoMemory
        }
        Ok(status) => match paged.flush() {
            Ok(()) => status,
            Err(_) => Status::WriteFault,
        },
    }
}

/// Tells what is wanted of pairs through a page before a sink, and gives the sink back.
fn tell_before<O: Origin, K: Sink>(sink: K, task: Task) -> (K, Status)
    requires taken { K.bytes sink ≡ O.taken }
    requires engine { CanPlan task.engine }
    requires pairs { All IsGroundPair (map pair_of task.pairs.now) }
    requires wanted { IsWanted task.engine task.wanted }
    ensures tells { (rules : List Rule) → PlansBy rules task.entry.engine
        → Tells (told_of_pairs task.entry.wanted rules (map pair_of task.entry.pairs.now)) result.1
        (sink_run (K.faults sink) (K.faults result.0) (K.bytes sink) (K.bytes result.0)) }
    ensures later { K.faults sink ≤ K.faults result.0 }
{
    let mut paged = Paged::<O, K>::new(sink);
    let told = tell_pairs(task.alloc, task.engine, task.pairs, task.wanted, &mut paged);
    let status = close(&mut paged, told);
    (paged.into_sink(), status)
}

/// Tells what is wanted of pairs through a page before a sink as it is now, and gives the sink back.
fn tell_before_this<K: Sink>(sink: K, task: Task) -> (K, Status)
    requires engine { CanPlan task.engine }
    requires pairs { All IsGroundPair (map pair_of task.pairs.now) }
    requires wanted { IsWanted task.engine task.wanted }
    ensures tells { (rules : List Rule) → PlansBy rules task.entry.engine
        → Tells (told_of_pairs task.entry.wanted rules (map pair_of task.entry.pairs.now)) result.1
        (sink_run (K.faults sink) (K.faults result.0) (K.bytes sink) (K.bytes result.0)) }
    ensures later { K.faults sink ≤ K.faults result.0 }
{
    tell_before::<Brand, K>(sink, task)
}

/// Tells what is wanted of each pair, by `tell_pairs`: the first writes go out as they come, and later ones by pages.
pub fn tell_in_pages<K: Sink>(
    alloc: Global,
    engine: Engine,
    pairs: &[Pair],
    wanted: Wanted,
    out: &mut K,
) -> Status
    requires engine { CanPlan engine }
    requires pairs { All IsGroundPair (map pair_of pairs.now) }
    requires wanted { IsWanted engine wanted }
    ensures tells { (rules : List Rule) → PlansBy rules engine.entry
        → Tells (told_of_pairs wanted.entry rules (map pair_of pairs.now)) result
        (sink_run (K.faults out.old) (K.faults out.new) (K.bytes out.old) (K.bytes out.new)) }
    ensures later { K.faults out.old ≤ K.faults out.new }
{
    let task = Task {
        alloc,
        engine,
        pairs,
        wanted,
    };
    replace_with(out, task, tell_before_this)
}
