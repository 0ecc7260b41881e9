//! The program: the command line, real files, standard input and output round the doctor's calls.
#![tactic(auto)]

ghost use Rattle.std.specs.Prelude.{◌<◌, ◌-◌, ◌^◌};
ghost use Rattle.std.specs.List.{All};
ghost use Rattle.hp_doctor_tree.specs.TreeTold.{HasSmallNumbers};

mod arguments;
mod derive_words;
mod trace_words;
mod tree_words;

use crate::arguments::{Asked, command, request};
use crate::derive_words::DeriveWords;
use crate::trace_words::TraceWords;
use crate::tree_words::{PlanWords, TreeWords};
use clap::Error;
use clap::error::ErrorKind;
use hp_doctor::{HostPieces, Names, Texts, explain, lint};
use hp_doctor_derive::{Asked as AskedDerive, derive};
use hp_doctor_trace::{Asked as AskedTrace, trace};
use hp_doctor_tree::{Asked as AskedTree, Wanted, tree};
use hp_doctor_why::{Limits, why};
use hp_io::{Failed, HostFolder, HostSink};
use hp_out::Paged;
use hp_syntax::Status;
use hp_syntax::limits::{GREATEST_DEPTH, MOST_LEVELS};
use hp_words::{is_path, path};
use std::alloc::Global;
use std::env::Env;
use std::marker::Brand;
use std::process::ExitCode;
use std::{env, io};

/// How the program ends where the system doesn't give the words. No status has this number.
const NO_WORDS: u8 = 12;

/// All words of the command line, the program's own name among them.
fn words(rt: &(impl Env + Alloc<A = Global>)) -> io::Result<Vec<String>> {
    env::args(rt)?.collect(rt.alloc()).map_err(io::Error::from)
}

/// Explains what comes on standard input, by these files. What is told goes out at once as long as it is little, and by
/// pages later.
fn explain_input(rt: &HostRuntime, names: Names) -> Status {
    let Ok(texts) = Texts::read(rt.alloc(), &mut HostFolder::new(rt), names) else {
        return Status::NoMemory;
    };
    let mut input = HostPieces::new(rt.reader());
    let mut out = Paged::<Brand, _>::new(HostSink::new(rt));
    let status = explain(rt.alloc(), &texts, &mut input, &mut out);
    let flushed = out.flush();
    drop(out.into_sink());
    close(status, flushed)
}

/// Tells what looks wrong in these files.
fn lint_files(rt: &HostRuntime, names: Names) -> Status {
    let Ok(texts) = Texts::read(rt.alloc(), &mut HostFolder::new(rt), names) else {
        return Status::NoMemory;
    };
    let mut out = Paged::<Brand, _>::new(HostSink::new(rt));
    let status = lint(rt.alloc(), &texts, &mut out);
    let flushed = out.flush();
    drop(out.into_sink());
    close(status, flushed)
}

/// Tells how the plan that is asked for came about.
fn tree_of_files(rt: &HostRuntime, words: TreeWords) -> Status {
    match words.plan {
        PlanWords::Path(word) => tree_at_path(rt, words, word),
        PlanWords::Number(number) => tell_tree(rt, words, Wanted::Nth(number)),
    }
}

/// Tells how the plan at a path came about, by the word of the path.
fn tree_at_path(rt: &HostRuntime, words: TreeWords, word: &str) -> Status {
    if !is_path(word) {
        return Status::Usage;
    }
    let Ok(path) = path(rt.alloc(), word) else {
        return Status::NoMemory;
    };
    tell_tree(rt, words, Wanted::At(path.as_slice()))
}

/// Tells how a plan came about.
fn tell_tree(rt: &HostRuntime, words: TreeWords, wanted: Wanted) -> Status
    requires { HasSmallNumbers wanted }
{
    if words.depth > GREATEST_DEPTH || words.nest > MOST_LEVELS {
        return Status::Usage;
    }
    let Ok(texts) = Texts::read(rt.alloc(), &mut HostFolder::new(rt), words.names) else {
        return Status::NoMemory;
    };
    let asked = AskedTree {
        depth: words.depth,
        nest: words.nest,
        pair: words.pair,
        wanted,
        dot: words.dot,
        changes: words.changes,
    };
    let mut out = Paged::<Brand, _>::new(HostSink::new(rt));
    let status = tree(rt.alloc(), &texts, &asked, &mut out);
    let flushed = out.flush();
    drop(out.into_sink());
    close(status, flushed)
}

/// Whether the word of a path is one, where there is such a word.
fn has_path(plan: PlanWords) -> bool {
    match plan {
        PlanWords::Path(word) => is_path(word),
        PlanWords::Number(_) => true,
    }
}

/// The words of a path that are none.
fn no_path(alloc: Global) -> Result<Error, Error> {
    let says = "PATH is numbers joined by points, as `gudsjilp plan --paths` tells them, or `-`";
    Ok(command(alloc)?.error(ErrorKind::ValueValidation, says)?)
}

/// Tells the search for the plans of these files.
fn trace_of_files(rt: &HostRuntime, words: TraceWords) -> Status {
    match words.from {
        Some(word) => trace_from(rt, words, word),
        None => tell_trace(rt, words, &[]),
    }
}

/// Tells the search from a path on, by the word of the path.
fn trace_from(rt: &HostRuntime, words: TraceWords, word: &str) -> Status {
    if !is_path(word) {
        return Status::Usage;
    }
    let Ok(path) = path(rt.alloc(), word) else {
        return Status::NoMemory;
    };
    tell_trace(rt, words, path.as_slice())
}

/// Tells the search from a path on.
fn tell_trace(rt: &HostRuntime, words: TraceWords, from: &[u64]) -> Status
    requires { All (λ i. i < 2 ^ 64 - 1) from.now }
{
    if words.depth > GREATEST_DEPTH || words.nest > MOST_LEVELS {
        return Status::Usage;
    }
    let Ok(texts) = Texts::read(rt.alloc(), &mut HostFolder::new(rt), words.names) else {
        return Status::NoMemory;
    };
    let asked = AskedTrace {
        depth: words.depth,
        nest: words.nest,
        pair: words.pair,
        from,
        most: words.most,
    };
    let mut out = Paged::<Brand, _>::new(HostSink::new(rt));
    let status = trace(rt.alloc(), &texts, &asked, &mut out);
    let flushed = out.flush();
    drop(out.into_sink());
    close(status, flushed)
}

/// Whether the word of a path from which on visits are shown is one, where there is such a word.
fn has_from(words: TraceWords) -> bool {
    match words.from {
        Some(word) => is_path(word),
        None => true,
    }
}

/// Tells why there is no plan of these files. The command line lets no number beyond the limits through.
fn tell_why(rt: &HostRuntime, names: Names, asked: Limits) -> Status {
    let Ok(texts) = Texts::read(rt.alloc(), &mut HostFolder::new(rt), names) else {
        return Status::NoMemory;
    };
    let mut out = Paged::<Brand, _>::new(HostSink::new(rt));
    let limits = Limits {
        depth: asked.depth.min(GREATEST_DEPTH),
        nest: asked.nest.min(MOST_LEVELS),
        ends: asked.ends,
    };
    let status = why(rt.alloc(), &texts, limits, &mut out);
    let flushed = out.flush();
    drop(out.into_sink());
    close(status, flushed)
}

/// Tells how far a plan can be derived. The command line lets no number beyond the limits through.
fn tell_derive(rt: &HostRuntime, words: DeriveWords) -> Status {
    let Ok(texts) = Texts::read(rt.alloc(), &mut HostFolder::new(rt), words.names) else {
        return Status::NoMemory;
    };
    let mut out = Paged::<Brand, _>::new(HostSink::new(rt));
    let asked = AskedDerive {
        depth: words.asked.depth.min(GREATEST_DEPTH),
        nest: words.asked.nest.min(MOST_LEVELS),
        pair: words.asked.pair,
    };
    let status = derive(rt.alloc(), &texts, asked, &mut out);
    let flushed = out.flush();
    drop(out.into_sink());
    close(status, flushed)
}

/// The status of a run that is over, by how the last page was written.
fn close(status: Status, flushed: Result<(), Failed>) -> Status {
    match (status, flushed) {
        (Status::NoMemory, Err(_)) => Status::NoMemory,
        (_, Err(_)) => Status::WriteFault,
        (status, Ok(())) => status,
    }
}

/// Does what the words ask for, and answers the number by which the program ends.
fn run(rt: &HostRuntime, words: &[String]) -> Result<u8, Error> {
    let matches = command(rt.alloc())?.try_get_matches_from(words)?;
    let status = match request(&matches) {
        Some(Asked::Where(names)) => explain_input(rt, names),
        Some(Asked::Lint(names)) => lint_files(rt, names),
        Some(Asked::Tree(words)) if !has_path(words.plan) => return Err(no_path(rt.alloc())?),
        Some(Asked::Tree(words)) => tree_of_files(rt, words),
        Some(Asked::Trace(words)) if !has_from(words) => return Err(no_path(rt.alloc())?),
        Some(Asked::Trace(words)) => trace_of_files(rt, words),
        Some(Asked::Why { names, limits }) => tell_why(rt, names, limits),
        Some(Asked::Derive(words)) => tell_derive(rt, words),
        None => Status::Usage,
    };
    Ok(status.code())
}

fn main(rt: HostRuntime) -> ExitCode {
    let Ok(words) = words(&rt) else {
        return ExitCode::from(NO_WORDS);
    };
    match run(&rt, words.as_slice()) {
        Ok(code) => ExitCode::from(code),
        Err(error) => {
            let printed = error.print(&rt);
            ExitCode::from(if printed.is_err() {
                Status::WriteFault.code()
            } else {
                code_of(&error)
            })
        }
    }
}

/// The number by which the program ends where the words are refused, or ask for help or the version.
fn code_of(error: &Error) -> u8 {
    match error.kind() {
        ErrorKind::DisplayHelp | ErrorKind::DisplayVersion => Status::Done.code(),
        ErrorKind::OutOfMemory => Status::NoMemory.code(),
        _ => Status::Usage.code(),
    }
}
