//! Writing the texts of a run.

ghost use Rattle.std.specs.Prelude.{◌≤◌, OnOk, OnErr, IfErr, map};
ghost use Rattle.hp_check.specs.NoteViews.{note_of};
ghost use Rattle.hp_io.specs.Rules.{Rose};
ghost use Rattle.hp_out.specs.Lines.{note_text};
ghost use Rattle.hp_out.specs.RefusalTexts.{refusal_text};
ghost use Rattle.hp_out.specs.Writing.{Wrote, Writes, sink_run};
ghost use Rattle.hp_top.specs.CheckTexts.{notes_text};
ghost use Rattle.hp_telling.specs.Telling.{Halts};

use hp_check::Note;
use hp_io::{Failed, Sink};
use hp_out::{Pen, Refusal};
use hp_telling::Halt;

/// Writes a text.
pub fn write<K: Sink>(out: &mut K, text: &[u8]) -> Result<(), Halt>
    ensures ok { OnOk result (Wrote text.now (K.bytes out.old) (K.bytes out.new)) }
    ensures err { IfErr result (λ h. Halts h text.now
        (sink_run (K.faults out.old) (K.faults out.new) (K.bytes out.old) (K.bytes out.new))) }
    ensures later { K.faults out.old ≤ K.faults out.new }
{
    let mut pen = Pen::new(out);
    match pen.text(text) {
        Ok(()) => Ok(()),
        Err(_) => Err(Halt::Failed),
    }
}

/// Writes the line of a refusal.
pub fn write_refusal<K: Sink>(out: &mut K, refusal: &Refusal) -> Result<(), Failed>
    ensures writes { Writes result (refusal_text refusal.now) (K.bytes out.old) (K.bytes out.new) }
    ensures later { K.faults out.old ≤ K.faults out.new }
    ensures cause { OnErr result (Rose (K.faults out.old) (K.faults out.new)) }
{
    let mut pen = Pen::new(out);
    pen.refusal_line(refusal)
}

/// Writes the line of a note.
fn write_note<K: Sink>(out: &mut K, note: &Note) -> Result<(), Halt>
    ensures ok { OnOk result (Wrote (note_text (note_of note.now)) (K.bytes out.old) (K.bytes out.new)) }
    ensures err { IfErr result (λ h. Halts h (note_text (note_of note.now))
        (sink_run (K.faults out.old) (K.faults out.new) (K.bytes out.old) (K.bytes out.new))) }
    ensures later { K.faults out.old ≤ K.faults out.new }
{
    let mut pen = Pen::new(out);
    match pen.note_line(note) {
        Ok(()) => Ok(()),
        Err(_) => Err(Halt::Failed),
    }
}

/// Writes a line for each note.
pub fn write_notes<K: Sink>(out: &mut K, notes: &[Note]) -> Result<(), Halt>
    ensures ok { OnOk result (Wrote (notes_text (map note_of notes.now)) (K.bytes out.old) (K.bytes out.new)) }
    ensures err { IfErr result (λ h. Halts h (notes_text (map note_of notes.now))
        (sink_run (K.faults out.old) (K.faults out.new) (K.bytes out.old) (K.bytes out.new))) }
    ensures later { K.faults out.old ≤ K.faults out.new }
{
    for note in notes {
        if let Err(halt) = write_note(out, note) {
            return Err(halt);
        }
    }
    Ok(())
}
