//! How a run ends.

use hp_syntax::RunFault;

/// How a run of a walk ends.
#[derive(Clone, Copy, Debug, PartialEq, Eq)]
pub enum Ending {
    /// At the last plan that was asked.
    Stopped,
    /// At the end of the walk, and no limit cut the tree.
    End,
    /// At the end of the walk, and a limit cut the tree somewhere.
    Cut,
    /// At a fault.
    Fault(RunFault),
}
