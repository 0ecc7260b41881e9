//! Telling what looks wrong in a domain and a problem.

ghost use Rattle.std.specs.Prelude.{◌≡◌, ◌≤◌, [], OnOk, IfErr, length, map};
ghost use Rattle.std.specs.List.{flat_map};
ghost use Rattle.hp_doctor.specs.Accepting.{refusal_status};
ghost use Rattle.hp_doctor.specs.Explained.{explained};
ghost use Rattle.hp_doctor.specs.Linted.{Lints, Tells, count_line, remark_text, remarks_text, status_told};
ghost use Rattle.hp_doctor.specs.Telling.{Halts};
ghost use Rattle.hp_doctor.specs.Texts.{texts_of};
ghost use Rattle.hp_lint.specs.LintViews.{remark_of};
ghost use Rattle.hp_lint.specs.Remarks.{remarks};
ghost use Rattle.hp_out.specs.RefusalTexts.{refusal_text};
ghost use Rattle.hp_out.specs.Writing.{Wrote, sink_run};
ghost use Rattle.hp_syntax.specs.Views.{domain_of, problem_of};

use crate::accepting::{Accepted, Stop, accept, refusal_status};
use crate::gathered::refusal_line;
use crate::remarking::{push_count, push_remark};
use crate::telling::{Halt, tell_piece, write};
use crate::texts::Texts;
use hp_io::Sink;
use hp_lint::Remark;
use hp_out::Refusal;
use hp_syntax::Status;
use std::alloc::Global;

/// Writes a remark at its place.
fn tell_remark<K: Sink>(
    alloc: Global,
    files: &Texts,
    remark: &Remark,
    out: &mut K,
) -> Result<(), Halt>
    ensures ok { OnOk result (Wrote (remark_text (texts_of files.now) (remark_of remark.now))
        (K.bytes out.old) (K.bytes out.new)) }
    ensures err { IfErr result (λ h. Halts h (remark_text (texts_of files.now) (remark_of remark.now))
        (sink_run (K.faults out.old) (K.faults out.new) (K.bytes out.old) (K.bytes out.new))) }
    ensures later { K.faults out.old ≤ K.faults out.new }
{
    let mut text = Vec::new(alloc);
    match push_remark(&mut text, files, remark) {
        Ok(()) => write(out, text.as_slice()),
        Err(_) => Err(Halt::NoMemory),
    }
}

/// Writes remarks, one after the other.
fn tell_each<K: Sink>(
    alloc: Global,
    files: &Texts,
    remarks: &[Remark],
    out: &mut K,
) -> Result<(), Halt>
    ensures ok { OnOk result (Wrote (flat_map (remark_text (texts_of files.now)) (map remark_of remarks.now))
        (K.bytes out.old) (K.bytes out.new)) }
    ensures err { IfErr result (λ h. Halts h
        (flat_map (remark_text (texts_of files.now)) (map remark_of remarks.now))
        (sink_run (K.faults out.old) (K.faults out.new) (K.bytes out.old) (K.bytes out.new))) }
    ensures later { K.faults out.old ≤ K.faults out.new }
{
    for remark in remarks {
        if let Err(halt) = tell_remark(alloc, files, remark, out) {
            return Err(halt);
        }
    }
    Ok(())
}

/// Writes how many remarks there are.
fn tell_count<K: Sink>(alloc: Global, remarks: &[Remark], out: &mut K) -> Result<(), Halt>
    ensures ok { OnOk result (Wrote (count_line (length (map remark_of remarks.now)))
        (K.bytes out.old) (K.bytes out.new)) }
    ensures err { IfErr result (λ h. Halts h (count_line (length (map remark_of remarks.now)))
        (sink_run (K.faults out.old) (K.faults out.new) (K.bytes out.old) (K.bytes out.new))) }
    ensures later { K.faults out.old ≤ K.faults out.new }
{
    let mut text = Vec::new(alloc);
    match push_count(&mut text, remarks.len()) {
        Ok(()) => write(out, text.as_slice()),
        Err(_) => Err(Halt::NoMemory),
    }
}

/// Writes remarks, and how many there are.
fn tell_remarks<K: Sink>(
    alloc: Global,
    files: &Texts,
    remarks: &[Remark],
    out: &mut K,
) -> Result<(), Halt>
    ensures ok { OnOk result (Wrote (remarks_text (texts_of files.now) (map remark_of remarks.now))
        (K.bytes out.old) (K.bytes out.new)) }
    ensures err { IfErr result (λ h. Halts h (remarks_text (texts_of files.now) (map remark_of remarks.now))
        (sink_run (K.faults out.old) (K.faults out.new) (K.bytes out.old) (K.bytes out.new))) }
    ensures later { K.faults out.old ≤ K.faults out.new }
{
    match tell_each(alloc, files, remarks, out) {
        Ok(()) => tell_count(alloc, remarks, out),
        Err(halt) => Err(halt),
    }
}

/// Writes the remarks on a domain and a problem.
fn tell_pair<K: Sink>(
    alloc: Global,
    files: &Texts,
    pair: &Accepted,
    out: &mut K,
) -> Result<(), Halt>
    ensures ok { OnOk result (Wrote
        (remarks_text (texts_of files.now) (remarks (domain_of pair.now.domain) (problem_of pair.now.problem)))
        (K.bytes out.old) (K.bytes out.new)) }
    ensures err { IfErr result (λ h. Halts h
        (remarks_text (texts_of files.now) (remarks (domain_of pair.now.domain) (problem_of pair.now.problem)))
        (sink_run (K.faults out.old) (K.faults out.new) (K.bytes out.old) (K.bytes out.new))) }
    ensures later { K.faults out.old ≤ K.faults out.new }
{
    match hp_lint::lint(alloc, &pair.domain, &pair.problem) {
        Ok(remarks) => tell_remarks(alloc, files, remarks.as_slice(), out),
        Err(_) => Err(Halt::NoMemory),
    }
}

/// Writes a text as `explain` does, over a line that is empty at first.
fn tell_lines<K: Sink>(
    files: &Texts,
    line: &mut Vec<u8>,
    text: &[u8],
    out: &mut K,
) -> Result<(), Halt>
    requires { line.old.items ≡ [] }
    ensures ok { OnOk result (Wrote (explained (texts_of files.now) text.now) (K.bytes out.old) (K.bytes out.new)) }
    ensures err { IfErr result (λ h. Halts h (explained (texts_of files.now) text.now)
        (sink_run (K.faults out.old) (K.faults out.new) (K.bytes out.old) (K.bytes out.new))) }
    ensures later { K.faults out.old ≤ K.faults out.new }
{
    match tell_piece(files, line, text, out) {
        Ok(()) => write(out, line.as_slice()),
        Err(halt) => Err(halt),
    }
}

/// Writes a text as `explain` does.
fn tell_text<K: Sink>(alloc: Global, files: &Texts, text: &[u8], out: &mut K) -> Result<(), Halt>
    ensures ok { OnOk result (Wrote (explained (texts_of files.now) text.now) (K.bytes out.old) (K.bytes out.new)) }
    ensures err { IfErr result (λ h. Halts h (explained (texts_of files.now) text.now)
        (sink_run (K.faults out.old) (K.faults out.new) (K.bytes out.old) (K.bytes out.new))) }
    ensures later { K.faults out.old ≤ K.faults out.new }
{
    let mut line = Vec::new(alloc);
    tell_lines(files, &mut line, text, out)
}

/// Writes the line by which the planner refuses files, and what it means.
fn tell_refusal<K: Sink>(
    alloc: Global,
    files: &Texts,
    refusal: Refusal,
    out: &mut K,
) -> Result<(), Halt>
    ensures ok { OnOk result (Wrote (explained (texts_of files.now) (refusal_text refusal))
        (K.bytes out.old) (K.bytes out.new)) }
    ensures err { IfErr result (λ h. Halts h (explained (texts_of files.now) (refusal_text refusal))
        (sink_run (K.faults out.old) (K.faults out.new) (K.bytes out.old) (K.bytes out.new))) }
    ensures later { K.faults out.old ≤ K.faults out.new }
{
    match refusal_line(alloc, refusal) {
        Ok(text) => tell_text(alloc, files, text.as_slice(), out),
        Err(_) => Err(Halt::NoMemory),
    }
}

/// The status of a telling that came to its end, or stopped.
pub fn status_told(told: Result<(), Halt>, status: Status) -> Status
    ensures { result ≡ status_told told status }
{
    match told {
        Ok(()) => status,
        Err(Halt::NoMemory) => Status::NoMemory,
        Err(Halt::Failed) => Status::WriteFault,
    }
}

fn lint_pair<K: Sink>(alloc: Global, files: &Texts, pair: &Accepted, out: &mut K) -> Status
    ensures tells { Tells (
      (remarks_text (texts_of files.now)
          (remarks (domain_of pair.now.domain) (problem_of pair.now.problem))),
      Status.Done,
    ) result
        (sink_run (K.faults out.old) (K.faults out.new) (K.bytes out.old) (K.bytes out.new)) }
    ensures later { K.faults out.old ≤ K.faults out.new }
{
    let told = tell_pair(alloc, files, pair, out);
    status_told(told, Status::Done)
}

/// Writes the line by which the planner refuses files, with what it means, and answers its status.
pub fn refuse<K: Sink>(alloc: Global, files: &Texts, refusal: Refusal, out: &mut K) -> Status
    ensures tells { Tells (explained (texts_of files.now) (refusal_text refusal), refusal_status refusal) result
        (sink_run (K.faults out.old) (K.faults out.new) (K.bytes out.old) (K.bytes out.new)) }
    ensures later { K.faults out.old ≤ K.faults out.new }
{
    let told = tell_refusal(alloc, files, refusal, out);
    status_told(told, refusal_status(refusal))
}

/// Reads and checks a domain and a problem as the planner does, and writes what looks wrong in them, at each place what
/// it is, and last how many such places there are. Where the planner would refuse them, its line is written with what
/// it means, and the status is the planner's. Memory is taken for the files and for the longest line.
pub fn lint<K: Sink>(alloc: Global, files: &Texts, out: &mut K) -> Status
    // All that there is to tell was written, or, after want of memory, a prefix of it, and after a fault of the sink a
    // proper one. There is no other status than that of what is told and those two.
    ensures lints { Lints (texts_of files.now) result
        (sink_run (K.faults out.old) (K.faults out.new) (K.bytes out.old) (K.bytes out.new)) }
    ensures sink_count { K.faults out.old ≤ K.faults out.new }
{
    match accept(alloc, files) {
        Ok(pair) => lint_pair(alloc, files, &pair, out),
        Err(Stop::Refused(refusal)) => refuse(alloc, files, refusal, out),
        Err(Stop::NoMemory) => Status::NoMemory,
    }
}
