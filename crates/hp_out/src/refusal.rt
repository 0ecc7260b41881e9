//! Why a run does nothing.

use hp_io::Input;
use hp_syntax::{CheckFault, Span, TextKind, What};

/// Why a run does nothing; each has one line.
#[derive(Clone, Copy, Debug, PartialEq, Eq)]
pub enum Refusal {
    /// The words are no command.
    Usage,
    /// The file isn't there or couldn't be read.
    Read(Input),
    /// The text spells nothing; told with a byte offset.
    Text(Input, TextKind, u32),
    /// The forest of the text has no form: something else was wanted at the span.
    Form(Input, What, Span),
    /// A check finds a fault.
    Check(CheckFault),
    /// There is no pair of this number; told with how many there are.
    NoPair(u64, u64),
}
