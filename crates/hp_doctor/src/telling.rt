//! Writing what is told of lines, and how the telling stops.

ghost use Rattle.std.specs.Prelude.{◌≡◌, ◌≤◌, [], OnOk, IfErr};
ghost use Rattle.hp_doctor.specs.Explained.{explained_line, left, next_line, told, told_at};
ghost use Rattle.hp_doctor.specs.Telling.{Halts};
ghost use Rattle.hp_doctor.specs.Texts.{texts_of};
ghost use Rattle.hp_out.specs.Writing.{Wrote, sink_run};

use crate::notes::push_explanation;
use crate::texts::Texts;
use hp_io::Sink;
use hp_out::Pen;

/// Why the telling stopped.
#[derive(Clone, Copy)]
pub enum Halt {
    NoMemory,
    Failed,
}

/// Writes bytes as they are.
pub fn write<K: Sink>(out: &mut K, bytes: &[u8]) -> Result<(), Halt>
    ensures ok { OnOk result (Wrote bytes.now (K.bytes out.old) (K.bytes out.new)) }
    ensures err { IfErr result (λ h. Halts h bytes.now
        (sink_run (K.faults out.old) (K.faults out.new) (K.bytes out.old) (K.bytes out.new))) }
    ensures later { K.faults out.old ≤ K.faults out.new }
{
    let mut pen = Pen::new(out);
    match pen.text(bytes) {
        Ok(()) => Ok(()),
        Err(_) => Err(Halt::Failed),
    }
}

/// Tells the bytes of a piece behind those of a line: each line that ends there, with what it means.
pub fn tell_piece<K: Sink>(
    files: &Texts,
    line: &mut Vec<u8>,
    piece: &[u8],
    out: &mut K,
) -> Result<(), Halt>
    ensures ok { OnOk result (Wrote (told (texts_of files.now) line.old.items piece.now)
        (K.bytes out.old) (K.bytes out.new)) }
    ensures line { OnOk result (line.new.items ≡ left line.old.items piece.now) }
    ensures err { IfErr result (λ h. Halts h (told (texts_of files.now) line.old.items piece.now)
        (sink_run (K.faults out.old) (K.faults out.new) (K.bytes out.old) (K.bytes out.new))) }
    ensures later { K.faults out.old ≤ K.faults out.new }
{
    for byte in piece {
        tell_byte(files, line, *byte, out)?;
    }
    Ok(())
}

/// Tells a line where this byte ends it, and keeps the byte elsewhere.
fn tell_byte<K: Sink>(files: &Texts, line: &mut Vec<u8>, byte: u8, out: &mut K) -> Result<(), Halt>
    ensures ok { OnOk result (Wrote (told_at (texts_of files.now) line.old.items byte)
        (K.bytes out.old) (K.bytes out.new)) }
    ensures line { OnOk result (line.new.items ≡ next_line line.old.items byte) }
    ensures err { IfErr result (λ h. Halts h (told_at (texts_of files.now) line.old.items byte)
        (sink_run (K.faults out.old) (K.faults out.new) (K.bytes out.old) (K.bytes out.new))) }
    ensures later { K.faults out.old ≤ K.faults out.new }
{
    if byte == b'\n' {
        return tell_line(files, line, out);
    }
    match line.push(byte) {
        Ok(()) => Ok(()),
        Err(_) => Err(Halt::NoMemory),
    }
}

/// Tells a line, with what it means, and lets it go.
fn tell_line<K: Sink>(files: &Texts, line: &mut Vec<u8>, out: &mut K) -> Result<(), Halt>
    ensures ok { OnOk result (Wrote (explained_line (texts_of files.now) line.old.items)
        (K.bytes out.old) (K.bytes out.new)) }
    ensures line { OnOk result (line.new.items ≡ []) }
    ensures err { IfErr result (λ h. Halts h (explained_line (texts_of files.now) line.old.items)
        (sink_run (K.faults out.old) (K.faults out.new) (K.bytes out.old) (K.bytes out.new))) }
    ensures later { K.faults out.old ≤ K.faults out.new }
{
    match push_explanation(line, files) {
        Ok(()) => {
            let written = write(out, line.as_slice());
            line.clear();
            written
        }
        Err(_) => Err(Halt::NoMemory),
    }
}
