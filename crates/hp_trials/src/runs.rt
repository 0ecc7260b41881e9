//! Whole runs. The commands of `data/cases.txt` are run first; its head says how a case is added. Then comes what is
//! told otherwise than by what a command writes.

mod cases;
mod failing;
mod made;
mod rereads;
mod statuses;
mod trial;
mod wide;

use std::alloc::{AllocError, Global};
use std::io;
use std::io::Write;
use std::rt::Files;

/// Tries what is made, in the order in which it stands in `stdout`.
fn try_made(alloc: Global, out: &mut Vec<u8>) -> Result<(), AllocError> {
    statuses::try_all(alloc, out)?;
    made::try_all(alloc, out)?;
    rereads::try_all(alloc, out)?;
    wide::try_all(alloc, out)
}

/// Prints what the runs write.
pub fn print_all(rt: &(impl Files + Print + AllocGlobal)) -> io::Result<()> {
    let mut out = Vec::from_slice(rt.alloc(), b"\n== runs\n")?;
    cases::try_all(rt, &mut out)?;
    failing::try_all(rt, &mut out)?;
    try_made(rt.alloc(), &mut out)?;
    io::writer(rt).write_all(out.as_slice())
}
