//! Folders and sinks, in memory and on the host.

use hp_fixtures::page::Page;
use hp_io::{Failed, Folder, HostFolder, HostSink, Input, MemFolder, MemSink, Sink};
use std::alloc::{AllocError, Global};
use std::rt::Files;

/// Begins an input, with a second try, and reads it in pieces, through the trait alone.
/// Says how many calls failed.
fn failures<F: Folder>(folder: &mut F, name: &str, text: &mut Vec<u8>) -> Result<u32, AllocError> {
    let mut buffer = [0u8; 2];
    let mut failures = 0u32;
    if folder.begin(Input::Problem, name).is_err() {
        failures += 1;
        if folder.begin(Input::Problem, name).is_err() {
            return Ok(2);
        }
    }
    for _ in 0..8 {
        match folder.read(Input::Problem, &mut buffer) {
            Ok(count) => text.extend_from_slice(&buffer[..count])?,
            Err(Failed) => failures = failures.saturating_add(1),
        }
    }
    Ok(failures)
}

/// Writes through the trait alone.
fn written<K: Sink>(sink: &mut K, piece: &str) -> Result<usize, Failed> {
    sink.write(piece.as_bytes())
}

/// A folder of three files, of which the first was put twice.
fn folder_of(alloc: Global) -> Result<MemFolder, AllocError> {
    let mut folder = MemFolder::new(alloc);
    folder.put("a", b"once")?;
    folder.put("b", b"other")?;
    folder.put("c", b"")?;
    folder.put("a", b"again")?;
    Ok(folder)
}

/// Reads a file of a folder: how many calls failed, and the text.
fn show_file(
    page: &mut Page,
    alloc: Global,
    folder: &mut MemFolder,
    name: &str,
) -> Result<(), AllocError> {
    let mut text = Vec::new(alloc);
    let failed = failures(folder, name, &mut text)?;
    page.row(text.as_slice(), &failed);
    Ok(())
}

fn show_files(page: &mut Page, alloc: Global) -> Result<(), AllocError> {
    page.title("Files a, b, c and d are read: their texts, and how many calls failed");
    for name in ["a", "b", "c", "d"] {
        show_file(page, alloc, &mut folder_of(alloc)?, name)?;
    }
    Ok(())
}

/// Two calls of a folder fail.
fn failing_at(alloc: Global, first: u64, second: u64) -> Result<MemFolder, AllocError> {
    let mut folder = folder_of(alloc)?;
    folder.fail_at(first)?;
    folder.fail_at(second)?;
    Ok(folder)
}

fn show_failing(page: &mut Page, alloc: Global) -> Result<(), AllocError> {
    page.title("Listed calls fail, of nine, and one more where the first fails");
    for (first, second) in [(0, 0), (1, 1), (2, 3), (0, 9), (8, 9), (9, 10)] {
        show_file(page, alloc, &mut failing_at(alloc, first, second)?, "a")?;
    }
    Ok(())
}

/// What a sink has after each piece, and how many bytes of it were taken.
fn show_pieces(page: &mut Page, sink: &mut MemSink, pieces: &[&str; 5]) {
    for piece in pieces {
        let taken = written(sink, piece);
        page.row(sink.bytes(), &taken);
    }
}

/// A sink that takes one byte a write, and whose writes 1 and 3 fail.
fn slow_sink(alloc: Global) -> Result<MemSink, AllocError> {
    let mut sink = MemSink::new(alloc, 5)?;
    sink.take_at_most(1);
    sink.fail_at(1)?;
    sink.fail_at(3)?;
    Ok(sink)
}

fn show_sinks(page: &mut Page, alloc: Global) -> Result<(), AllocError> {
    page.title("A sink has room for five bytes");
    let pieces = ["abc", "", "def", "", "g"];
    show_pieces(page, &mut MemSink::new(alloc, 5)?, &pieces);
    page.title("A sink takes a byte a write, and two writes fail");
    show_pieces(page, &mut slow_sink(alloc)?, &["ab", "b", "bc", "", "c"]);
    Ok(())
}

/// Folders and sinks in memory.
pub fn show_folders(page: &mut Page, alloc: Global) -> Result<(), AllocError> {
    show_files(page, alloc)?;
    show_failing(page, alloc)?;
    show_sinks(page, alloc)
}

/// A folder and a sink of the host.
pub fn show_host(page: &mut Page, rt: &(impl Files + Print)) {
    page.title("They stand on the host");
    let mut folder = HostFolder::new(rt);
    let begun = folder.begin(Input::Domain, "no such file");
    page.line("a file that is missing", &begun);
    page.line("nothing is written", &written(&mut HostSink::new(rt), ""));
}
