//! The cases of `data/cases.txt`.

ghost use Rattle.std.specs.Prelude.{◌≡◌, false};
ghost use Rattle.hp_io.specs.declared.folder.Input.{Input};
ghost use Rattle.hp_io.specs.Files.{is_begun};

use crate::runs::trial::{ROOM, tell, try_words, words_of};
use hp_fixtures::repeats::with_repeats;
use hp_io::MemFolder;
use std::alloc::{AllocError, Global};
use std::rt::Files;
use std::{fs, io};

/// A text that stands in the file of cases, and the name that a command finds it by.
#[derive(Drop)]
struct Given {
    name: String,
    text: String,
}

/// Tries the file of cases, and then sinks without room for the whole text.
pub fn try_all(rt: &(impl Files + AllocGlobal), out: &mut Vec<u8>) -> io::Result<()> {
    let text = fs::read_to_string(rt, "cases.txt")?;
    try_lines(rt, out, text.as_str())?;
    try_full_sinks(rt, out)
}

fn try_lines(rt: &(impl Files + AllocGlobal), out: &mut Vec<u8>, text: &str) -> io::Result<()> {
    let mut given = Vec::new(rt.alloc());
    for line in text.lines() {
        if !line.is_empty() && !line.starts_with('#') {
            try_line(rt, out, &mut given, line)?;
        }
    }
    Ok(())
}

/// Runs a line that is a command, and keeps the text that another line gives.
fn try_line(
    rt: &(impl Files + AllocGlobal),
    out: &mut Vec<u8>,
    given: &mut Vec<Given>,
    line: &str,
) -> io::Result<()> {
    tell(out, line)?;
    if line.starts_with('$') {
        return try_engines(rt, out, given.as_slice(), line);
    }
    match line.split_once(" =") {
        Some((name, text)) => Ok(give(rt.alloc(), given, name, text)?),
        None => Err(io::Error::from(io::ErrorKind::InvalidData)),
    }
}

/// Keeps a text, without the space before it.
fn give(alloc: Global, given: &mut Vec<Given>, name: &str, text: &str) -> Result<(), AllocError> {
    let text = with_repeats(alloc, text.strip_prefix(' ').unwrap_or(text))?;
    let name = String::from_str(alloc, name)?;
    given.push(Given { name, text })?;
    Ok(())
}

/// Runs a command over the files that its second and its third word name, into a sink with so much room.
fn try_command(
    rt: &(impl Files + AllocGlobal),
    out: &mut Vec<u8>,
    given: &[Given],
    line: &str,
    room: usize,
) -> io::Result<()> {
    let words = words_of(rt.alloc(), line)?;
    let mut folder = MemFolder::new(rt.alloc());
    put_words(rt, given, &mut folder, words.as_slice())?;
    Ok(try_words(rt.alloc(), out, &mut folder, words.as_slice(), room)?)
}

/// Whether a command makes a plan in place, down to a depth to which the engine of copies goes too.
fn has_copy(line: &str) -> bool {
    line.starts_with("$ plan ") && !line.contains("--plain") && !line.ends_with(" 20000")
}

/// Runs a command, and one that makes a plan in place by the engine of copies too.
fn try_engines(
    rt: &(impl Files + AllocGlobal),
    out: &mut Vec<u8>,
    given: &[Given],
    line: &str,
) -> io::Result<()> {
    let mut told = Vec::new(rt.alloc());
    try_command(rt, &mut told, given, line, ROOM)?;
    out.extend_from_slice(told.as_slice())?;
    if has_copy(line) {
        try_copies(rt, out, given, line, told.as_slice())?;
    }
    Ok(())
}

/// Runs a command by the engine of copies, and tells what it writes and its status where they aren't as told.
fn try_copies(
    rt: &(impl Files + AllocGlobal),
    out: &mut Vec<u8>,
    given: &[Given],
    line: &str,
    told: &[u8],
) -> io::Result<()> {
    let line = format!(in rt.alloc(); "{line} --plain")?;
    let mut copied = Vec::new(rt.alloc());
    try_command(rt, &mut copied, given, line.as_str(), ROOM)?;
    if copied.as_slice() != told {
        tell(out, "# by the engine of copies it differs")?;
        out.extend_from_slice(copied.as_slice())?;
    }
    Ok(())
}

fn put_words(
    rt: &(impl Files + AllocGlobal),
    given: &[Given],
    folder: &mut MemFolder,
    words: &[String],
) -> io::Result<()>
    requires { (w : Input) → is_begun folder.old w ≡ false }
    ensures { (w : Input) → is_begun folder.new w ≡ false }
{
    if let Some(domain) = words.get(1) {
        put_word(rt, given, folder, domain.as_str())?;
    }
    if let Some(problem) = words.get(2) {
        put_word(rt, given, folder, problem.as_str())?;
    }
    match words.get(3) {
        Some(plan) => put_word(rt, given, folder, plan.as_str()),
        None => Ok(()),
    }
}

/// Puts into a folder, from which nothing is read yet, what was given last by that name, or the file of that name. What
/// is not there stays missing.
fn put_word(
    rt: &(impl Files + AllocGlobal),
    given: &[Given],
    folder: &mut MemFolder,
    name: &str,
) -> io::Result<()>
    requires { (w : Input) → is_begun folder.old w ≡ false }
    ensures { (w : Input) → is_begun folder.new w ≡ false }
{
    if let Some(text) = text_of(given, name) {
        return Ok(folder.put(name, text.as_bytes())?);
    }
    match fs::read(rt, name) {
        Ok(bytes) => Ok(folder.put(name, bytes.as_slice())?),
        Err(error) if error.kind() == io::ErrorKind::NotFound => Ok(()),
        Err(error) => Err(error),
    }
}

/// The text that was given last by that name.
fn text_of<'a>(given: &'a [Given], name: &str) -> Option<&'a str> {
    let mut found = None;
    for one in given {
        if one.name.as_str() == name {
            found = Some(one.text.as_str());
        }
    }
    found
}

/// A sink without room for the whole text has a prefix of it.
fn try_full_sinks(rt: &(impl Files + AllocGlobal), out: &mut Vec<u8>) -> io::Result<()> {
    let line = "$ plan basic.domain swap.problem 5 10";
    for room in [0, 6] {
        tell(out, "# into a sink that is soon full")?;
        tell(out, line)?;
        try_command(rt, out, &[], line, room)?;
    }
    Ok(())
}
