ghost use Rattle.std.specs.Prelude.{◌≡◌, ◌≤◌, ◌<◌, ℕ, List, Option, length, OnErr, IfOk};
ghost use Rattle.hp_io.specs.Rules.{Rose, Appended};

use crate::folder::Failed;

/// A target of written bytes.
pub trait Sink {
    // All that it took, where it tells.
    ghost bytes: { Self → Option (List ℕ) };

    // How often a write met a fault.
    ghost faults: { Self → ℕ };

    /// Takes some bytes from the front of the piece, and says how many.
    fn write(&mut self, piece: &[u8]) -> Result<usize, Failed>
        ensures count { IfOk result (λ n. n ≤ length piece.now) }
        ensures some { IfOk result (λ n. 0 < length piece.now → 0 < n) }
        ensures taken { IfOk result (λ n. Appended n piece.now (bytes self.old) (bytes self.new)) }
        ensures err { OnErr result (bytes self.new ≡ bytes self.old) }
        ensures later { faults self.old ≤ faults self.new }
        ensures cause { OnErr result (Rose (faults self.old) (faults self.new)) };
}
