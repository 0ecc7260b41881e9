//! Writing a text whole.

ghost use Rattle.std.specs.Prelude.{◌≤◌, ◌<◌, ◌+◌, OnErr};
ghost use Rattle.std.specs.List.{flat_map};
ghost use Rattle.hp_io.specs.Rules.{Rose};
ghost use Rattle.hp_out.specs.Writing.{Writes};

use hp_io::{Failed, Sink};

/// Writes a whole text, or a proper prefix of it.
pub fn write_all<K: Sink>(sink: &mut K, text: &[u8]) -> Result<(), Failed>
    ensures writes { Writes result text.now (K.bytes sink.old) (K.bytes sink.new) }
    ensures later { K.faults sink.old ≤ K.faults sink.new }
    ensures cause { OnErr result (Rose (K.faults sink.old) (K.faults sink.new)) }
{
    let mut done = 0usize;
    while done < text.len() {
        let count = sink.write(&text[done..])?;
        done += count;
    }
    Ok(())
}

/// Writes a text in pieces, one behind the other.
pub fn write_pieces<K: Sink>(sink: &mut K, pieces: &[&[u8]]) -> Result<(), Failed>
    ensures writes { Writes result (flat_map (λ p. p.now) pieces.now) (K.bytes sink.old) (K.bytes sink.new) }
    ensures later { K.faults sink.old ≤ K.faults sink.new }
    ensures cause { OnErr result (Rose (K.faults sink.old) (K.faults sink.new)) }
{
    for piece in pieces {
        write_all(sink, piece)?;
    }
    Ok(())
}
