//! A sink of one's own.
ghost use Rattle.std.specs.Prelude.{◌≡◌, [], Some};

use hp_io::{Failed, Sink};
use std::alloc::Global;

/// All that is written to it, in memory that grows. Where there is too little, the write fails, and it is counted.
#[derive(Drop)]
pub struct Tray {
    pub bytes: Vec<u8>,
    faults: u64,
}

impl Tray {
    /// Nothing written yet, and no write failed.
    pub fn new(alloc: Global) -> Tray
        ensures empty { result.bytes.items ≡ [] }
        ensures faults { result.faults ≡ 0 }
    {
        Tray {
            bytes: Vec::new(alloc),
            faults: 0,
        }
    }
}

impl Sink for Tray {
    ghost bytes = { λ s. Some s.bytes.items };

    ghost faults = { λ s. s.faults };

    fn write(&mut self, piece: &[u8]) -> Result<usize, Failed> {
        if self.bytes.extend_from_slice(piece).is_err() {
            self.faults = self.faults.saturating_add(1);
            return Err(Failed);
        }
        Ok(piece.len())
    }
}
