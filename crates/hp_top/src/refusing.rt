//! Why a run does nothing, and the line and the status that say so.

ghost use Rattle.std.specs.Prelude.{◌≡◌, ◌⊎◌, ◌≤◌};
ghost use Rattle.hp_out.specs.Writing.{sink_run};
ghost use Rattle.hp_top.specs.Outcome.{refused_status, refusal_answer, refusal_status};
ghost use Rattle.hp_top.specs.Serving.{load_answer};
ghost use Rattle.hp_top.specs.Telling.{Tells};

use crate::loading::LoadError;
use crate::writing::write_refusal;
use hp_io::{Input, Sink};
use hp_out::{Refusal, text_of};
use hp_syntax::Status;

fn refused_status(which: Input) -> Status
    ensures { result ≡ refused_status which }
{
    match which {
        Input::Domain => Status::DomainRefused,
        Input::Problem => Status::ProblemRefused,
        Input::Plan => Status::PlanRefused,
    }
}

/// The status of a run that is refused.
fn refusal_status(refusal: &Refusal) -> Status
    ensures { result ≡ refusal_status refusal.now }
{
    match *refusal {
        Refusal::Usage => Status::Usage,
        Refusal::Read(_) => Status::ReadFault,
        Refusal::Text(which, _, _) => refused_status(which),
        Refusal::Form(which, _, _) => refused_status(which),
        Refusal::Check(fault) => refused_status(text_of(fault.in_problem)),
        Refusal::NoPair(_, _) => Status::ProblemRefused,
    }
}

/// Writes why a run does nothing.
pub fn refuse<K: Sink>(out: &mut K, refusal: &Refusal) -> Status
    ensures tells { Tells (refusal_answer refusal.now) result
        (sink_run (K.faults out.old) (K.faults out.new) (K.bytes out.old) (K.bytes out.new)) }
    ensures either { (result ≡ refusal_status refusal.now) ⊎ (result ≡ Status.WriteFault) }
    ensures later { K.faults out.old ≤ K.faults out.new }
{
    match write_refusal(out, refusal) {
        Ok(()) => refusal_status(refusal),
        Err(_) => Status::WriteFault,
    }
}

/// Writes why files aren't read.
pub fn refuse_files<K: Sink>(out: &mut K, error: LoadError) -> Status
    ensures tells { Tells (load_answer error) result
        (sink_run (K.faults out.old) (K.faults out.new) (K.bytes out.old) (K.bytes out.new)) }
    ensures later { K.faults out.old ≤ K.faults out.new }
{
    match error {
        LoadError::Refused(refusal) => refuse(out, &refusal),
        LoadError::NoMemory => Status::NoMemory,
    }
}
