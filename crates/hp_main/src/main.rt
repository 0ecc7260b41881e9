//! The program: real files and standard output round the top call.
#![tactic(auto)]

use hp_io::{HostFolder, HostSink};
use hp_top::run;
use std::alloc::Global;
use std::env::Env;
use std::process::ExitCode;
use std::{env, io};

/// How the program ends where memory runs out before the words are there.
const NO_MEMORY: u8 = 1;

/// How the program ends where the system doesn't give the words. No status has this number.
const NO_WORDS: u8 = 12;

/// The program's words, without its own name.
fn words(rt: &(impl Env + Alloc<A = Global>)) -> io::Result<Vec<String>> {
    env::args(rt)?
        .skip(1)
        .collect(rt.alloc())
        .map_err(io::Error::from)
}

fn main(rt: HostRuntime) -> ExitCode {
    let words = match words(&rt) {
        Ok(words) => words,
        Err(error) => {
            return ExitCode::from(if error.kind() == io::ErrorKind::OutOfMemory {
                NO_MEMORY
            } else {
                NO_WORDS
            });
        }
    };
    let mut folder = HostFolder::new(&rt);
    let mut sink = HostSink::new(&rt);
    let status = run(rt.alloc(), words.as_slice(), &mut folder, &mut sink);
    ExitCode::from(status.code())
}
