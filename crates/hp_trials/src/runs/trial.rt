//! One run over a folder and a sink in memory.

use hp_io::{MemFolder, MemSink};
use hp_top::{Status, run};
use std::alloc::{AllocError, Global};

/// Room enough for each text that is told whole.
pub const ROOM: usize = 20_000;

/// The words behind the dollar of a line, with one space between each two. Two quotes are an empty word.
pub fn words_of(alloc: Global, line: &str) -> Result<Vec<String>, AllocError> {
    let mut words = Vec::new(alloc);
    for word in line.split(' ').skip(1) {
        push_word(&mut words, alloc, if word == "''" { "" } else { word })?;
    }
    Ok(words)
}

fn push_word(words: &mut Vec<String>, alloc: Global, word: &str) -> Result<(), AllocError> {
    words.push(String::from_str(alloc, word)?)?;
    Ok(())
}

/// Tells a line.
pub fn tell(out: &mut Vec<u8>, line: &str) -> Result<(), AllocError> {
    out.extend_from_slice(line.as_bytes())?;
    out.extend_from_slice(b"\n")
}

/// Tells a status by its number.
pub fn tell_status(alloc: Global, out: &mut Vec<u8>, status: Status) -> Result<(), AllocError> {
    let line = format!(in alloc; "status {}", status.code())?;
    tell(out, line.as_str())
}

/// Runs the words over a folder into a sink with so much room, and tells what the sink took and the status.
pub fn try_words(
    alloc: Global,
    out: &mut Vec<u8>,
    folder: &mut MemFolder,
    words: &[String],
    room: usize,
) -> Result<(), AllocError> {
    let mut sink = MemSink::new(alloc, room)?;
    let status = run(alloc, words, folder, &mut sink);
    out.extend_from_slice(sink.bytes())?;
    if !sink.bytes().ends_with(b"\n") {
        tell(out, "")?;
    }
    tell_status(alloc, out, status)
}

/// A folder with two files, `d` and `p`.
pub fn folder_of(alloc: Global, domain: &[u8], problem: &[u8]) -> Result<MemFolder, AllocError> {
    let mut folder = MemFolder::new(alloc);
    folder.put("d", domain)?;
    folder.put("p", problem)?;
    Ok(folder)
}
