//! The line of a refusal, in memory.

ghost use Rattle.std.specs.Prelude.{◌≡◌, IfOk, Some};
ghost use Rattle.hp_out.specs.RefusalTexts.{refusal_text};

use hp_io::{Failed, Sink};
use hp_out::{Pen, Refusal};
use std::alloc::Global;

/// A sink that gathers what is written. A write fails where memory is wanting.
#[derive(Drop)]
struct Gathered {
    text: Vec<u8>,
    faults: u64,
}

impl Sink for Gathered {
    ghost bytes = { λ s. Some s.text.items };

    ghost faults = { λ s. s.faults };

    fn write(&mut self, piece: &[u8]) -> Result<usize, Failed> {
        match self.text.extend_from_slice(piece) {
            Ok(()) => Ok(piece.len()),
            Err(_) => {
                self.faults = self.faults.saturating_add(1);
                Err(Failed)
            }
        }
    }
}

/// The line by which a run is refused, with the line feed that ends it. The error is that memory ran out.
pub fn refusal_line(alloc: Global, refusal: Refusal) -> Result<Vec<u8>, Failed>
    ensures { IfOk result (λ text. text.items ≡ refusal_text refusal) }
{
    let mut gathered = Gathered {
        text: Vec::new(alloc),
        faults: 0,
    };
    let mut pen = Pen::new(&mut gathered);
    let written = pen.refusal_line(&refusal);
    match written {
        Ok(()) => Ok(gathered.text),
        Err(failed) => Err(failed),
    }
}
