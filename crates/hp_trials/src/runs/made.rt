//! Problems that are made: each is a problem of the language, and has a plan.

use crate::runs::trial::{tell, words_of};
use hp_io::{MemFolder, MemSink};
use hp_top::{Status, run};
use std::alloc::{AllocError, Global};

/// Room enough for the four lines that are written of a problem.
const ROOM: usize = 1_000;

/// Tries each number of packages.
pub fn try_all(alloc: Global, out: &mut Vec<u8>) -> Result<(), AllocError> {
    let mut planned = 0u32;
    for packages in 1u32..101 {
        if is_planned(alloc, packages)? {
            planned = planned.saturating_add(1);
        }
    }
    let line = format!(in alloc; "# made with 1 to 100 packages: {planned} have a plan")?;
    tell(out, line.as_str())
}

/// Whether what is made is summed up with the first line of its plan.
fn is_planned(alloc: Global, packages: u32) -> Result<bool, AllocError> {
    let line = format!(in alloc; "$ make 1 {packages}")?;
    let words = words_of(alloc, line.as_str())?;
    let mut folder = MemFolder::new(alloc);
    let mut sink = MemSink::new(alloc, ROOM)?;
    let status = run(alloc, words.as_slice(), &mut folder, &mut sink);
    Ok(status == Status::Done && sink.bytes().starts_with(b"made seed 1 packages "))
}
