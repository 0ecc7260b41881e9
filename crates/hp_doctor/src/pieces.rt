//! What is read piece by piece.

ghost use Rattle.std.specs.Prelude.{◌≡◌, ◌≤◌, ℕ, List, None, Option, Some, length, OnErr, IfOk};
ghost use Rattle.hp_io.specs.Rules.{Rose, Taken};

use hp_io::Failed;
use std::io::Read;

/// An input that is read piece by piece, from its front to its end.
pub trait Pieces {
    // The bytes that are left to read, where it tells.
    ghost rest: { Self → Option (List ℕ) };

    // How often a read met a fault.
    ghost faults: { Self → ℕ };

    /// Reads the next bytes into the front of `buf`, and says how many. None, into a buffer that has room, is the end.
    fn read(&mut self, buf: &mut [u8]) -> Result<usize, Failed>
        ensures count { IfOk result (λ n. n ≤ length buf.old) }
        ensures length { length buf.new ≡ length buf.old }
        ensures taken { IfOk result (λ n. Taken n (length buf.old) buf.new (rest self.old) (rest self.new)) }
        ensures err { OnErr result (rest self.new ≡ rest self.old) }
        ensures later { faults self.old ≤ faults self.new }
        ensures cause { OnErr result (Rose (faults self.old) (faults self.new)) };
}

/// A real input, such as standard input. It tells nothing of its bytes.
#[derive(Drop)]
pub struct HostPieces<R: Read> {
    reader: R,
    faults: u64,
}

impl<R: Read> HostPieces<R> {
    pub fn new(reader: R) -> HostPieces<R>
        ensures { result.faults ≡ 0 }
    {
        HostPieces { reader, faults: 0 }
    }
}

impl<R: Read> Pieces for HostPieces<R> {
    ghost rest = { λ s. None };

    ghost faults = { λ s. s.faults };

    fn read(&mut self, buf: &mut [u8]) -> Result<usize, Failed> {
        match self.reader.read(buf) {
            Ok(count) => Ok(count),
            Err(_) => {
                self.faults = self.faults.saturating_add(1);
                Err(Failed)
            }
        }
    }
}

/// An input in memory, which gives so many bytes at most at a time. No read of it fails.
#[derive(Drop)]
pub struct MemPieces<'a> {
    left: &'a [u8],
    limit: usize,
    ghost gives_some: { 1 ≤ limit },
}

impl<'a> MemPieces<'a> {
    pub fn new(bytes: &'a [u8], limit: usize) -> MemPieces<'a>
        requires { 1 ≤ limit }
        ensures { result.left.now ≡ bytes.now }
    {
        MemPieces { left: bytes, limit }
    }
}

impl<'a> Pieces for MemPieces<'a> {
    ghost rest = { λ s. Some s.left.now };

    ghost faults = { λ s. 0 };

    fn read(&mut self, buf: &mut [u8]) -> Result<usize, Failed> {
        let count = self.left.len().min(buf.len()).min(self.limit);
        let (piece, left) = self.left.split_at(count);
        buf[..count].copy_from_slice(piece);
        self.left = left;
        Ok(count)
    }
}
