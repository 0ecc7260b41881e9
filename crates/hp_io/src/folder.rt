ghost use Rattle.std.specs.Prelude.{◌≡◌, ◌≢◌, ◌≤◌, ℕ, Bool, true, List, Option, Some, None, IsSome, length, OnOk, OnErr, IfOk, IsErrOf, ◌⊎◌};
ghost use Rattle.hp_io.specs.declared.folder.Input.{Input};
ghost use Rattle.hp_io.specs.Rules.{Rose, Begins, Taken};

use thiserror::Error;

/// The files that a run reads: a plan by the one command that is given one.
#[derive(Clone, Copy, Debug, PartialEq, Eq)]
pub enum Input {
    Domain,
    Problem,
    Plan,
}

/// A call failed, and the fault was counted.
#[derive(Clone, Copy, Debug, PartialEq, Eq, Error)]
#[error("reading or writing failed")]
pub struct Failed;

/// Why an input couldn't be begun.
#[derive(Clone, Copy, Debug, PartialEq, Eq, Error)]
pub enum BeginError {
    /// The file isn't there, or it can't be opened.
    #[error("the file can't be opened")]
    Failed,
    #[error("out of memory")]
    NoMemory,
}

/// A folder of files, of which each input reads one at a time.
pub trait Folder {
    // A file's bytes or that there is none, where the folder tells.
    ghost file: { Self → List ℕ → Option (Option (List ℕ)) };

    // The bytes of an input that are left to read, where the folder tells.
    ghost rest: { Self → Input → Option (List ℕ) };

    ghost begun: { Self → Input → Bool };

    // How often a call on this input met a fault.
    ghost faults: { Self → Input → ℕ };

    /// Begins to read an input, at the front of the file of that name.
    /// An input that was begun before is begun anew.
    fn begin(&mut self, which: Input, name: &str) -> Result<(), BeginError>
        ensures files { (n : List ℕ) → file self.new n ≡ file self.old n }
        ensures begun { OnOk result (begun self.new which ≡ true) }
        ensures rest { OnOk result (Begins (file self.old name.now) (rest self.new which)) }
        ensures tells { IsSome (rest self.old which) → IsSome (rest self.new which) }
        ensures others { (w : Input) → w ≢ which
            → (rest self.new w ≡ rest self.old w) × (begun self.new w ≡ begun self.old w) }
        ensures err { OnErr result ((rest self.new which ≡ rest self.old which)
            × (begun self.new which ≡ begun self.old which)) }
        ensures later { (w : Input) → faults self.old w ≤ faults self.new w }
        ensures cause { IsErrOf result BeginError.Failed
            → Rose (faults self.old which) (faults self.new which) ⊎ (file self.old name.now ≡ Some None) };

    /// Reads the next bytes of an input into the front of `buf`, and says how many.
    /// None, into a buffer that has room, is the end of the input.
    fn read(&mut self, which: Input, buf: &mut [u8]) -> Result<usize, Failed>
        requires { begun self.old which ≡ true }
        ensures files { (n : List ℕ) → file self.new n ≡ file self.old n }
        ensures begun { (w : Input) → begun self.new w ≡ begun self.old w }
        ensures count { IfOk result (λ n. n ≤ length buf.old) }
        ensures length { length buf.new ≡ length buf.old }
        ensures taken { IfOk result (λ n.
            Taken n (length buf.old) buf.new (rest self.old which) (rest self.new which)) }
        ensures others { (w : Input) → w ≢ which → rest self.new w ≡ rest self.old w }
        ensures err { OnErr result (rest self.new which ≡ rest self.old which) }
        ensures later { (w : Input) → faults self.old w ≤ faults self.new w }
        ensures cause { OnErr result (Rose (faults self.old which) (faults self.new which)) };
}
