//! Texts that break off, and reads and writes that fail.

use crate::runs::trial::{ROOM, folder_of, tell, tell_status, words_of};
use hp_io::{MemFolder, MemSink};
use hp_top::{Status, run};
use std::alloc::{AllocError, Global};
use std::rt::Files;
use std::{fs, io};

/// More calls than a run makes.
const CALLS: u64 = 100;

/// The files of a run.
struct Texts {
    domain: Vec<u8>,
    problem: Vec<u8>,
}

impl Drop for Texts {
    fn drop(self) {
        let Texts { domain, problem } = self;
        drop(domain);
        drop(problem);
    }
}

/// How many runs came to what is wanted, and how many did not.
#[derive(Clone, Copy)]
struct Runs {
    wanted: u32,
    others: u32,
}

impl Runs {
    fn new() -> Runs {
        Runs {
            wanted: 0,
            others: 0,
        }
    }

    fn note(&mut self, is_wanted: bool) {
        if is_wanted {
            self.wanted = self.wanted.saturating_add(1);
        } else {
            self.others = self.others.saturating_add(1);
        }
    }
}

/// Tells how many runs came to what is wanted.
fn tell_runs(alloc: Global, out: &mut Vec<u8>, what: &str, runs: Runs) -> Result<(), AllocError> {
    let Runs { wanted, others } = runs;
    let line = format!(in alloc; "# {what}: {wanted} as is wanted, {others} otherwise")?;
    tell(out, line.as_str())
}

/// Tries what breaks off and what fails, over one domain and problem.
pub fn try_all(rt: &(impl Files + AllocGlobal), out: &mut Vec<u8>) -> io::Result<()> {
    let domain = fs::read(rt, "basic.domain")?;
    let problem = fs::read(rt, "swap.problem")?;
    Ok(try_texts(rt.alloc(), out, &Texts { domain, problem })?)
}

fn try_texts(alloc: Global, out: &mut Vec<u8>, texts: &Texts) -> Result<(), AllocError> {
    let prefixes = tried_prefixes(alloc, texts)?;
    tell_runs(alloc, out, "a domain breaks off", prefixes)?;
    try_failing(alloc, out, texts)?;
    tell(out, "# the first read and the first write fail")?;
    try_both(alloc, out, texts)
}

/// Looks for plans in a folder.
fn plan(alloc: Global, folder: &mut MemFolder, sink: &mut MemSink) -> Result<Status, AllocError> {
    let words = words_of(alloc, "$ plan d p 5 10")?;
    Ok(run(alloc, words.as_slice(), folder, sink))
}

fn folder_with(alloc: Global, texts: &Texts) -> Result<MemFolder, AllocError> {
    folder_of(alloc, texts.domain.as_slice(), texts.problem.as_slice())
}

/// Each prefix of the domain that ends before its last bracket, behind which nothing but blanks stands.
fn tried_prefixes(alloc: Global, texts: &Texts) -> Result<Runs, AllocError> {
    let mut runs = Runs::new();
    let mut prefix = Vec::new(alloc);
    let mut open = Vec::new(alloc);
    for byte in texts.domain.as_slice().trim_ascii_end() {
        let is_wanted = is_refused(alloc, prefix.as_slice(), open.as_slice(), texts)?;
        runs.note(is_wanted);
        prefix.push(*byte)?;
        push_bracket(&mut open, *byte, prefix.len())?;
    }
    Ok(runs)
}

/// Keeps the offsets of the brackets that are open, once a byte ends at this offset.
fn push_bracket(open: &mut Vec<usize>, byte: u8, end: usize) -> Result<(), AllocError> {
    match byte {
        b'(' => Ok(open.push(end.saturating_sub(1))?),
        b')' => {
            let _ = open.pop();
            Ok(())
        }
        _ => Ok(()),
    }
}

/// What is written of a domain that breaks off where these brackets are open.
fn refusal_of(alloc: Global, open: &[usize]) -> Result<String, AllocError> {
    match open.last() {
        Some(offset) => format!(in alloc; "refused domain Unclosed at {offset}\n"),
        None => String::from_str(alloc, "refused domain Expected Domain at 0-0\n"),
    }
}

/// Whether a prefix of the domain is refused at the innermost bracket that is open in it.
fn is_refused(
    alloc: Global,
    prefix: &[u8],
    open: &[usize],
    texts: &Texts,
) -> Result<bool, AllocError> {
    let refusal = refusal_of(alloc, open)?;
    let mut folder = folder_of(alloc, prefix, texts.problem.as_slice())?;
    let mut sink = MemSink::new(alloc, ROOM)?;
    let status = plan(alloc, &mut folder, &mut sink)?;
    Ok(status == Status::DomainRefused && sink.bytes() == refusal.as_bytes())
}

/// Lets each read fail in turn, and then each write.
fn try_failing(alloc: Global, out: &mut Vec<u8>, texts: &Texts) -> Result<(), AllocError> {
    let whole = whole_text(alloc, texts)?;
    let reads = tried_reads(alloc, texts, whole.as_slice())?;
    tell_runs(alloc, out, "a read fails", reads)?;
    let writes = tried_writes(alloc, texts, whole.as_slice())?;
    tell_runs(alloc, out, "a write fails", writes)
}

/// What is written where nothing fails.
fn whole_text(alloc: Global, texts: &Texts) -> Result<Vec<u8>, AllocError> {
    let mut folder = folder_with(alloc, texts)?;
    let mut sink = MemSink::new(alloc, ROOM)?;
    plan(alloc, &mut folder, &mut sink)?;
    Vec::from_slice(alloc, sink.bytes())
}

/// What came of a run in which a call was to fail.
#[derive(Clone, Copy)]
enum Outcome {
    /// The run made fewer calls, and wrote all.
    Whole,
    Wanted,
    Other,
}

/// Lets each read fail in turn, up to a run that makes fewer of them.
fn tried_reads(alloc: Global, texts: &Texts, whole: &[u8]) -> Result<Runs, AllocError> {
    let mut runs = Runs::new();
    for call in 0..CALLS {
        match tried_read(alloc, texts, call, whole)? {
            Outcome::Whole => return Ok(runs),
            Outcome::Wanted => runs.note(true),
            Outcome::Other => runs.note(false),
        }
    }
    Ok(runs)
}

/// A run in which a read fails is told as that, with the name of the file.
fn tried_read(
    alloc: Global,
    texts: &Texts,
    call: u64,
    whole: &[u8],
) -> Result<Outcome, AllocError> {
    let mut folder = folder_with(alloc, texts)?;
    folder.fail_at(call)?;
    let mut sink = MemSink::new(alloc, ROOM)?;
    let status = plan(alloc, &mut folder, &mut sink)?;
    Ok(read_outcome(status, sink.bytes(), whole))
}

fn read_outcome(status: Status, written: &[u8], whole: &[u8]) -> Outcome {
    match (status, written) {
        (Status::ReadFault, b"refused read domain\n" | b"refused read problem\n") =>
            Outcome::Wanted,
        (Status::Done, _) if written == whole => Outcome::Whole,
        _ => Outcome::Other,
    }
}

/// Lets each write fail in turn, up to a run that makes fewer of them.
fn tried_writes(alloc: Global, texts: &Texts, whole: &[u8]) -> Result<Runs, AllocError> {
    let mut runs = Runs::new();
    for call in 0..CALLS {
        match tried_write(alloc, texts, call, whole)? {
            Outcome::Whole => return Ok(runs),
            Outcome::Wanted => runs.note(true),
            Outcome::Other => runs.note(false),
        }
    }
    Ok(runs)
}

/// A run in which a write fails has written a part of the text, and no more.
fn tried_write(
    alloc: Global,
    texts: &Texts,
    call: u64,
    whole: &[u8],
) -> Result<Outcome, AllocError> {
    let mut folder = folder_with(alloc, texts)?;
    let mut sink = MemSink::new(alloc, ROOM)?;
    sink.fail_at(call)?;
    let status = plan(alloc, &mut folder, &mut sink)?;
    Ok(write_outcome(status, sink.bytes(), whole))
}

fn write_outcome(status: Status, written: &[u8], whole: &[u8]) -> Outcome {
    let is_part = written.len() < whole.len() && whole.starts_with(written);
    match status {
        Status::Done if written == whole => Outcome::Whole,
        Status::WriteFault if is_part => Outcome::Wanted,
        _ => Outcome::Other,
    }
}

/// The first read fails, and what is to be told of it can't be written.
fn try_both(alloc: Global, out: &mut Vec<u8>, texts: &Texts) -> Result<(), AllocError> {
    let mut folder = folder_with(alloc, texts)?;
    folder.fail_at(0)?;
    let mut sink = MemSink::new(alloc, ROOM)?;
    sink.fail_at(0)?;
    let status = plan(alloc, &mut folder, &mut sink)?;
    let line = format!(in alloc; "# bytes written: {}", sink.bytes().len())?;
    tell(out, line.as_str())?;
    tell_status(alloc, out, status)
}
