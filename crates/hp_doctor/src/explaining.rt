//! Going through what the planner wrote.

ghost use Rattle.std.specs.Prelude.{◌≡◌, ◌≢◌, ◌≤◌, [], ◌⊎◌, IfOk, IfErr, OnOk};
ghost use Rattle.hp_doctor.specs.Telling.{Halts, HaltsIn, IsEnded, IsEndless, IsThrough, WroteOfAll, WroteOfBeginning};
ghost use Rattle.hp_doctor.specs.Texts.{texts_of};
ghost use Rattle.hp_doctor.specs.declared.telling.Halt.TheVariants as halts;
ghost use Rattle.hp_io.specs.Rules.{Rose};
ghost use Rattle.hp_out.specs.Writing.{Wrote, sink_run};

use crate::pieces::Pieces;
use crate::telling::{Halt, tell_piece, write};
use crate::texts::Texts;
use hp_io::Sink;
use hp_syntax::Status;
use std::alloc::Global;

/// How many bytes are read at a time.
const PIECE: usize = 8_192;

/// Where the reading of an input ended.
#[derive(Clone, Copy)]
enum End {
    AtEnd,
    Unread,
}

/// Tells all whole lines of an input, as its pieces come, and keeps the bytes behind them.
fn tell_lines<I: Pieces, K: Sink>(
    files: &Texts,
    line: &mut Vec<u8>,
    input: &mut I,
    out: &mut K,
) -> Result<End, Halt>
    requires { line.old.items ≡ [] }
    ensures through { IfOk result (λ _. IsThrough (texts_of files.now) 0 line.new.items
        (I.rest input.old) (I.rest input.new)
        (sink_run (K.faults out.old) (K.faults out.new) (K.bytes out.old) (K.bytes out.new))) }
    ensures end { IfOk result (λ e. e ≡ End.AtEnd → IsEnded (I.rest input.new)) }
    ensures cause { IfOk result (λ e. e ≡ End.Unread
        → Rose (I.faults input.old) (I.faults input.new) ⊎ IsEndless (I.rest input.old)) }
    ensures err { IfErr result (λ h. HaltsIn h (texts_of files.now) (I.rest input.old)
        (sink_run (K.faults out.old) (K.faults out.new) (K.bytes out.old) (K.bytes out.new))) }
    ensures later { K.faults out.old ≤ K.faults out.new }
    ensures input_later { I.faults input.old ≤ I.faults input.new }
{
    let mut buffer = [0u8; PIECE];
    for _ in 0..u64::MAX {
        match input.read(&mut buffer) {
            Err(_) => return Ok(End::Unread),
            Ok(0) => return Ok(End::AtEnd),
            Ok(count) => tell_piece(files, line, &buffer[..count], out)?,
        }
    }
    Ok(End::Unread)
}

/// Passes on what the planner wrote, line by line and byte for byte, and puts behind each line that is a refusal, a
/// note or a fault what it means and where it is. Lines are passed on as they come, and memory is taken for the longest
/// one. Bytes behind the last line feed are passed on as they are.
pub fn explain<I: Pieces, K: Sink>(
    alloc: Global,
    files: &Texts,
    input: &mut I,
    out: &mut K,
) -> Status
    // Where input and sink tell their bytes, what is written is what the definition has of the whole input, or, where
    // it couldn't be read to its end, of a beginning of it.
    ensures exact { result ≡ Status.Done → WroteOfAll (texts_of files.now) (I.rest input.old)
        (sink_run (K.faults out.old) (K.faults out.new) (K.bytes out.old) (K.bytes out.new)) }
    ensures beginning { result ≡ Status.ReadFault → WroteOfBeginning (texts_of files.now) (I.rest input.old)
        (sink_run (K.faults out.old) (K.faults out.new) (K.bytes out.old) (K.bytes out.new)) }

    // After want of memory a prefix of it was written, maybe all of it, and after a fault of writing a proper prefix.
    ensures prefix { result ≡ Status.NoMemory → HaltsIn halts.NoMemory (texts_of files.now) (I.rest input.old)
        (sink_run (K.faults out.old) (K.faults out.new) (K.bytes out.old) (K.bytes out.new)) }
    ensures proper_prefix { result ≡ Status.WriteFault → HaltsIn halts.Failed (texts_of files.now) (I.rest input.old)
        (sink_run (K.faults out.old) (K.faults out.new) (K.bytes out.old) (K.bytes out.new)) }

    // It ends in no other way, and a fault of reading has its cause in the input, or in that it never ends.
    ensures ends { result ≢ Status.Done → result ≢ Status.ReadFault → result ≢ Status.NoMemory
        → result ≡ Status.WriteFault }
    ensures read { result ≡ Status.ReadFault
        → Rose (I.faults input.old) (I.faults input.new) ⊎ IsEndless (I.rest input.old) }
    ensures counts { I.faults input.old ≤ I.faults input.new }
    ensures sink_count { K.faults out.old ≤ K.faults out.new }
{
    let mut line = Vec::new(alloc);
    match tell_lines(files, &mut line, input, out) {
        Err(halt) => stopped(halt),
        Ok(end) => match tell_rest(&mut line, out) {
            Err(halt) => stopped(halt),
            Ok(()) => ended(end),
        },
    }
}

/// Passes on what stands behind the last line feed, as it is.
fn tell_rest<K: Sink>(line: &mut Vec<u8>, out: &mut K) -> Result<(), Halt>
    ensures ok { OnOk result (Wrote line.old.items (K.bytes out.old) (K.bytes out.new)) }
    ensures err { IfErr result (λ h. Halts h line.old.items
        (sink_run (K.faults out.old) (K.faults out.new) (K.bytes out.old) (K.bytes out.new))) }
    ensures later { K.faults out.old ≤ K.faults out.new }
{
    write(out, line.as_slice())
}

fn stopped(halt: Halt) -> Status
    ensures no_memory { halt ≡ Halt.NoMemory → result ≡ Status.NoMemory }
    ensures failed { halt ≡ Halt.Failed → result ≡ Status.WriteFault }
{
    match halt {
        Halt::NoMemory => Status::NoMemory,
        Halt::Failed => Status::WriteFault,
    }
}

fn ended(end: End) -> Status
    ensures all { end ≡ End.AtEnd → result ≡ Status.Done }
    ensures unread { end ≡ End.Unread → result ≡ Status.ReadFault }
{
    match end {
        End::AtEnd => Status::Done,
        End::Unread => Status::ReadFault,
    }
}
