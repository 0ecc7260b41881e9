//! The canonical texts of a domain and a problem that are accepted.

ghost use Rattle.std.specs.Prelude.{◌≤◌, ◌++◌, OnOk, IfErr};
ghost use Rattle.hp_out.specs.Writing.{Wrote, sink_run};
ghost use Rattle.hp_syntax.specs.Views.{domain_of, problem_of};
ghost use Rattle.hp_syntax.specs.Written as written;
ghost use Rattle.hp_telling.specs.Telling.{Halts};

use crate::writing::write;
use hp_io::Sink;
use hp_print::{domain_text, problem_text};
use hp_syntax::{Domain, Problem};
use hp_telling::Halt;
use std::alloc::Global;

fn show_domain<K: Sink>(alloc: Global, domain: &Domain, out: &mut K) -> Result<(), Halt>
    ensures ok { OnOk result (Wrote (written.domain_text (domain_of domain.now)) (K.bytes out.old) (K.bytes out.new)) }
    ensures err { IfErr result (λ h. Halts h (written.domain_text (domain_of domain.now))
        (sink_run (K.faults out.old) (K.faults out.new) (K.bytes out.old) (K.bytes out.new))) }
    ensures later { K.faults out.old ≤ K.faults out.new }
{
    match domain_text(alloc, domain) {
        Ok(text) => write(out, text.as_slice()),
        Err(_) => Err(Halt::NoMemory),
    }
}

fn show_problem<K: Sink>(alloc: Global, problem: &Problem, out: &mut K) -> Result<(), Halt>
    ensures ok { OnOk result (Wrote (written.problem_text (problem_of problem.now))
        (K.bytes out.old) (K.bytes out.new)) }
    ensures err { IfErr result (λ h. Halts h (written.problem_text (problem_of problem.now))
        (sink_run (K.faults out.old) (K.faults out.new) (K.bytes out.old) (K.bytes out.new))) }
    ensures later { K.faults out.old ≤ K.faults out.new }
{
    match problem_text(alloc, problem) {
        Ok(text) => write(out, text.as_slice()),
        Err(_) => Err(Halt::NoMemory),
    }
}

/// Writes the text of the domain, and then that of the problem.
pub fn show<K: Sink>(
    alloc: Global,
    domain: &Domain,
    problem: &Problem,
    out: &mut K,
) -> Result<(), Halt>
    ensures ok { OnOk result (Wrote (written.domain_text (domain_of domain.now)
        ++ written.problem_text (problem_of problem.now)) (K.bytes out.old) (K.bytes out.new)) }
    ensures err { IfErr result (λ h. Halts h (written.domain_text (domain_of domain.now)
        ++ written.problem_text (problem_of problem.now))
        (sink_run (K.faults out.old) (K.faults out.new) (K.bytes out.old) (K.bytes out.new))) }
    ensures later { K.faults out.old ≤ K.faults out.new }
{
    match show_domain(alloc, domain, out) {
        Ok(()) => show_problem(alloc, problem, out),
        Err(halt) => Err(halt),
    }
}
