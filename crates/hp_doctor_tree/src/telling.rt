//! Writing a drawing, task by task.

ghost use Rattle.std.specs.Prelude.{◌≡◌, ◌≤◌, ◌++◌, OnOk, IfErr, flat_map};
ghost use Rattle.hp_doctor.specs.Telling.{Halts};
ghost use Rattle.hp_doctor.specs.Texts.{file_of};
ghost use Rattle.hp_out.specs.Writing.{Wrote, sink_run};
ghost use Rattle.hp_doctor_tree.specs.Drawings.{closing, drawing_of, drawing_text, entry_text};

use crate::drawing::{Drawing, opening, push_closing, push_entry};
use hp_doctor::{Halt, Text, write};
use hp_io::Sink;
use std::alloc::Global;

/// Writes a task, by its number.
fn tell_entry<K: Sink>(
    alloc: Global,
    file: &Text,
    drawing: &Drawing,
    number: usize,
    out: &mut K,
) -> Result<(), Halt>
    ensures ok { OnOk result (Wrote (entry_text (file_of file.now) (drawing_of drawing.now) number)
        (K.bytes out.old) (K.bytes out.new)) }
    ensures err { IfErr result (λ h. Halts h (entry_text (file_of file.now) (drawing_of drawing.now) number)
        (sink_run (K.faults out.old) (K.faults out.new) (K.bytes out.old) (K.bytes out.new))) }
    ensures later { K.faults out.old ≤ K.faults out.new }
{
    let mut text = Vec::new(alloc);
    match push_entry(&mut text, file, drawing, number) {
        Ok(()) => write(out, text.as_slice()),
        Err(_) => Err(Halt::NoMemory),
    }
}

/// Writes tasks, one after the other.
fn tell_entries<K: Sink>(
    alloc: Global,
    file: &Text,
    drawing: &Drawing,
    order: &[usize],
    out: &mut K,
) -> Result<(), Halt>
    ensures ok { OnOk result (Wrote (flat_map (entry_text (file_of file.now) (drawing_of drawing.now)) order.now)
        (K.bytes out.old) (K.bytes out.new)) }
    ensures err { IfErr result (λ h. Halts h
        (flat_map (entry_text (file_of file.now) (drawing_of drawing.now)) order.now)
        (sink_run (K.faults out.old) (K.faults out.new) (K.bytes out.old) (K.bytes out.new))) }
    ensures later { K.faults out.old ≤ K.faults out.new }
{
    for number in order {
        if let Err(halt) = tell_entry(alloc, file, drawing, *number, out) {
            return Err(halt);
        }
    }
    Ok(())
}

/// Writes what stands behind the tasks.
fn tell_closing<K: Sink>(alloc: Global, drawing: &Drawing, out: &mut K) -> Result<(), Halt>
    ensures ok { OnOk result (Wrote (closing (drawing_of drawing.now)) (K.bytes out.old) (K.bytes out.new)) }
    ensures err { IfErr result (λ h. Halts h (closing (drawing_of drawing.now))
        (sink_run (K.faults out.old) (K.faults out.new) (K.bytes out.old) (K.bytes out.new))) }
    ensures later { K.faults out.old ≤ K.faults out.new }
{
    let mut text = Vec::new(alloc);
    match push_closing(&mut text, drawing) {
        Ok(()) => write(out, text.as_slice()),
        Err(_) => Err(Halt::NoMemory),
    }
}

/// Writes the tasks and what stands behind them.
fn tell_rest<K: Sink>(
    alloc: Global,
    file: &Text,
    drawing: &Drawing,
    order: &[usize],
    out: &mut K,
) -> Result<(), Halt>
    ensures ok { OnOk result (Wrote (flat_map (entry_text (file_of file.now) (drawing_of drawing.now)) order.now
        ++ closing (drawing_of drawing.now)) (K.bytes out.old) (K.bytes out.new)) }
    ensures err { IfErr result (λ h. Halts h (flat_map (entry_text (file_of file.now) (drawing_of drawing.now))
        order.now ++ closing (drawing_of drawing.now))
        (sink_run (K.faults out.old) (K.faults out.new) (K.bytes out.old) (K.bytes out.new))) }
    ensures later { K.faults out.old ≤ K.faults out.new }
{
    match tell_entries(alloc, file, drawing, order, out) {
        Ok(()) => tell_closing(alloc, drawing, out),
        Err(halt) => Err(halt),
    }
}

/// Writes a drawing, with the tasks in this order.
pub(crate) fn tell_drawing<K: Sink>(
    alloc: Global,
    file: &Text,
    drawing: &Drawing,
    order: &[usize],
    out: &mut K,
) -> Result<(), Halt>
    ensures ok { OnOk result (Wrote (drawing_text (file_of file.now) (drawing_of drawing.now) order.now)
        (K.bytes out.old) (K.bytes out.new)) }
    ensures err { IfErr result (λ h. Halts h (drawing_text (file_of file.now) (drawing_of drawing.now) order.now)
        (sink_run (K.faults out.old) (K.faults out.new) (K.bytes out.old) (K.bytes out.new))) }
    ensures later { K.faults out.old ≤ K.faults out.new }
{
    match write(out, opening(drawing.dot)) {
        Ok(()) => tell_rest(alloc, file, drawing, order, out),
        Err(halt) => Err(halt),
    }
}
