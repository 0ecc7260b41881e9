//! Writing a trace, visit by visit.

ghost use Rattle.std.specs.Prelude.{◌≡◌, ◌≤◌, ◌<◌, ◌++◌, OnOk, IfErr, length, min};
ghost use Rattle.hp_doctor.specs.Telling.{Halts};
ghost use Rattle.hp_doctor.specs.Texts.{texts_of};
ghost use Rattle.hp_out.specs.Writing.{Wrote, sink_run};
ghost use Rattle.hp_syntax.specs.Views.{domain_of};
ghost use Rattle.hp_doctor_trace.specs.Lines.{closing, line_at, lines_text, trace_text};

use crate::lines::{opening, push_closing, push_line};
use hp_doctor::{Halt, Texts, write};
use hp_io::Sink;
use hp_syntax::Domain;
use hp_trace::TracedVisit;
use std::alloc::Global;

/// Writes the lines of a visit, by its number.
fn tell_line<K: Sink>(
    alloc: Global,
    files: &Texts,
    domain: &Domain,
    visits: &[TracedVisit],
    number: usize,
    out: &mut K,
) -> Result<(), Halt>
    requires { number < length visits.now }
    ensures ok { OnOk result (Wrote (line_at (texts_of files.now) (domain_of domain.now).rules visits.now number)
        (K.bytes out.old) (K.bytes out.new)) }
    ensures err { IfErr result (λ h. Halts h
        (line_at (texts_of files.now) (domain_of domain.now).rules visits.now number)
        (sink_run (K.faults out.old) (K.faults out.new) (K.bytes out.old) (K.bytes out.new))) }
    ensures later { K.faults out.old ≤ K.faults out.new }
{
    let mut text = Vec::new(alloc);
    match push_line(&mut text, files, domain, visits, number) {
        Ok(()) => write(out, text.as_slice()),
        Err(_) => Err(Halt::NoMemory),
    }
}

/// Writes the lines of so many of the first visits.
fn tell_lines<K: Sink>(
    alloc: Global,
    files: &Texts,
    domain: &Domain,
    visits: &[TracedVisit],
    count: usize,
    out: &mut K,
) -> Result<(), Halt>
    requires { count ≤ length visits.now }
    ensures ok { OnOk result (Wrote
        (lines_text (texts_of files.now) (domain_of domain.now).rules visits.now count)
        (K.bytes out.old) (K.bytes out.new)) }
    ensures err { IfErr result (λ h. Halts h
        (lines_text (texts_of files.now) (domain_of domain.now).rules visits.now count)
        (sink_run (K.faults out.old) (K.faults out.new) (K.bytes out.old) (K.bytes out.new))) }
    ensures later { K.faults out.old ≤ K.faults out.new }
{
    for number in 0..count {
        if let Err(halt) = tell_line(alloc, files, domain, visits, number, out) {
            return Err(halt);
        }
    }
    Ok(())
}

/// Writes how many visits there are.
fn tell_closing<K: Sink>(alloc: Global, most: usize, count: usize, out: &mut K) -> Result<(), Halt>
    ensures ok { OnOk result (Wrote (closing most count) (K.bytes out.old) (K.bytes out.new)) }
    ensures err { IfErr result (λ h. Halts h (closing most count)
        (sink_run (K.faults out.old) (K.faults out.new) (K.bytes out.old) (K.bytes out.new))) }
    ensures later { K.faults out.old ≤ K.faults out.new }
{
    let mut text = Vec::new(alloc);
    match push_closing(&mut text, most, count) {
        Ok(()) => write(out, text.as_slice()),
        Err(_) => Err(Halt::NoMemory),
    }
}

/// Writes so many of the first visits, and how many there are.
fn tell_rest<K: Sink>(
    alloc: Global,
    files: &Texts,
    domain: &Domain,
    visits: &[TracedVisit],
    most: usize,
    out: &mut K,
) -> Result<(), Halt>
    ensures ok { OnOk result (Wrote
        (lines_text (texts_of files.now) (domain_of domain.now).rules visits.now (min most (length visits.now))
        ++ closing most (length visits.now)) (K.bytes out.old) (K.bytes out.new)) }
    ensures err { IfErr result (λ h. Halts h
        (lines_text (texts_of files.now) (domain_of domain.now).rules visits.now (min most (length visits.now))
        ++ closing most (length visits.now))
        (sink_run (K.faults out.old) (K.faults out.new) (K.bytes out.old) (K.bytes out.new))) }
    ensures later { K.faults out.old ≤ K.faults out.new }
{
    let shown = most.min(visits.len());
    match tell_lines(alloc, files, domain, visits, shown, out) {
        Ok(()) => tell_closing(alloc, most, visits.len(), out),
        Err(halt) => Err(halt),
    }
}

/// Writes a trace of so many visits at most, where one more is known if there is one.
pub(crate) fn tell_trace<K: Sink>(
    alloc: Global,
    files: &Texts,
    domain: &Domain,
    visits: &[TracedVisit],
    most: usize,
    out: &mut K,
) -> Result<(), Halt>
    ensures ok { OnOk result (Wrote (trace_text (texts_of files.now) (domain_of domain.now).rules most visits.now)
        (K.bytes out.old) (K.bytes out.new)) }
    ensures err { IfErr result (λ h. Halts h
        (trace_text (texts_of files.now) (domain_of domain.now).rules most visits.now)
        (sink_run (K.faults out.old) (K.faults out.new) (K.bytes out.old) (K.bytes out.new))) }
    ensures later { K.faults out.old ≤ K.faults out.new }
{
    match write(out, opening(visits)) {
        Ok(()) => tell_rest(alloc, files, domain, visits, most, out),
        Err(halt) => Err(halt),
    }
}
