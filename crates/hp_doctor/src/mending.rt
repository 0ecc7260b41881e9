//! Files whose brackets aren't in pairs: how they would be at their end, and what would be said of such a file then.

ghost use Rattle.std.specs.Prelude.{◌≡◌, ◌≤◌, ◌<◌, ◌+◌, ◌++◌, IfOk, IfSome, OnOk, Some, length, replicate};
ghost use Rattle.hp_doctor.specs.Mending.{IsMendedBy, IsSaid, IsSaidBy, IsWithin, closes_nothing, depth_behind};
ghost use Rattle.hp_doctor.specs.Mending.{mend_at_end, mend_of, steps_form, tried};
ghost use Rattle.hp_io.specs.declared.folder.Input.TheVariants as inputs;
ghost use Rattle.hp_syntax.specs.Grammar.{domain_form, problem_form};
ghost use Rattle.hp_syntax.specs.Text.{comment_after};

use crate::accepting::{Stop, domain_in, plan_in, problem_in};
use crate::loading::NoMemory;
use hp_io::Input;
use hp_out::Refusal;
use hp_syntax::limits::LARGEST_TEXT;
use std::alloc::{AllocError, Global};

/// How the brackets of a text are put in pairs at its end.
#[derive(Clone, Copy)]
pub enum Mend {
    /// By so many closing ones behind it.
    Close(usize),
    /// By cutting it in front of the bracket at this offset, which closes nothing.
    Cut(usize),
}

/// How the brackets of a file would be in pairs, and why it would be refused then, if it would be.
#[derive(Clone, Copy)]
pub struct Mended {
    pub mend: Mend,
    pub refusal: Option<Refusal>,
}

/// What would be said of a text if its brackets were in pairs, where they aren't. The error is that memory ran out.
pub fn mend_text(alloc: Global, which: Input, text: &[u8]) -> Result<Option<Mended>, NoMemory>
    ensures { IfOk result (IsMendedBy which text.now (mend_of text.now)) }
{
    match mend_of(text) {
        None => Ok(None),
        Some(mend) => mend_by(alloc, which, text, mend),
    }
}

fn mend_by(alloc: Global, which: Input, text: &[u8], mend: Mend) -> Result<Option<Mended>, NoMemory>
    requires { IsWithin (length text.now) mend }
    ensures { IfOk result (IsMendedBy which text.now (Some mend)) }
{
    let refusal = said_mended(alloc, which, text, mend)?;
    Ok(Some(Mended { mend, refusal }))
}

/// How the brackets of a text are put in pairs, where they aren't.
fn mend_of(text: &[u8]) -> Option<Mend>
    ensures mend { result ≡ mend_of text.now }
    ensures within { IfSome result (IsWithin (length text.now)) }
{
    if text.len() > LARGEST_TEXT {
        return None;
    }
    let mut depth: usize = 0;
    let mut in_comment = false;
    for (i, byte) in text.iter().enumerate() {
        in_comment = comment_after(in_comment, *byte);
        if closes_nothing(depth, in_comment, *byte) {
            return Some(Mend::Cut(i));
        }
        depth = depth_behind(depth, in_comment, *byte);
    }
    mend_at_end(text.len(), depth)
}

/// Whether a comment is open behind a byte.
fn comment_after(in_comment: bool, byte: u8) -> bool
    ensures { result ≡ comment_after in_comment byte }
{
    byte != b'\n' && (in_comment || byte == b';')
}

/// Whether a byte is a bracket that closes nothing.
fn closes_nothing(depth: usize, in_comment: bool, byte: u8) -> bool
    ensures { result ≡ closes_nothing depth in_comment byte }
{
    !in_comment && byte == b')' && depth == 0
}

/// How many brackets are open behind a byte.
fn depth_behind(depth: usize, in_comment: bool, byte: u8) -> usize
    requires { depth < LARGEST_TEXT }
    ensures depth { result ≡ depth_behind depth in_comment byte }
    ensures near { result ≤ depth + 1 }
{
    if in_comment {
        return depth;
    }
    match byte {
        b'(' => depth + 1,
        b')' => depth.saturating_sub(1),
        _ => depth,
    }
}

/// How the brackets that are open at the end of a text of this size are closed.
fn mend_at_end(size: usize, depth: usize) -> Option<Mend>
    requires size { size ≤ LARGEST_TEXT }
    requires depth { depth ≤ size }
    ensures mend { result ≡ mend_at_end size depth }
    ensures within { IfSome result (IsWithin size) }
{
    if depth == 0 || size + 1 + depth > LARGEST_TEXT {
        None
    } else {
        Some(Mend::Close(depth))
    }
}

/// Why a text would be refused if its brackets were put in pairs so; nothing where it would be read.
fn said_mended(
    alloc: Global,
    which: Input,
    text: &[u8],
    mend: Mend,
) -> Result<Option<Refusal>, NoMemory>
    requires { IsWithin (length text.now) mend }
    ensures { IfOk result (IsSaid which (tried text.now mend)) }
{
    match mend {
        Mend::Close(count) => said_closed(alloc, which, text, count),
        Mend::Cut(offset) => said_of(alloc, which, &text[..offset]),
    }
}

fn said_closed(
    alloc: Global,
    which: Input,
    text: &[u8],
    count: usize,
) -> Result<Option<Refusal>, NoMemory>
    ensures { IfOk result (IsSaid which (tried text.now (Mend.Close count))) }
{
    match closed_text(alloc, text, count) {
        Ok(closed) => said_of(alloc, which, closed.as_slice()),
        Err(_) => Err(NoMemory),
    }
}

/// A text with so many closing brackets behind it, on a line of their own.
fn closed_text(alloc: Global, text: &[u8], count: usize) -> Result<Vec<u8>, AllocError>
    ensures { IfOk result (λ t. t.items ≡ tried text.now (Mend.Close count)) }
{
    let mut closed = Vec::new(alloc);
    closed.extend_from_slice(text)?;
    closed.extend_from_slice(b"\n")?;
    push_closings(&mut closed, count)?;
    Ok(closed)
}

/// So many closing brackets.
pub fn push_closings(out: &mut Vec<u8>, count: usize) -> Result<(), AllocError>
    ensures { OnOk result (out.new.items ≡ out.old.items ++ replicate count 41) }
{
    for _ in 0..count {
        out.push(b')')?;
    }
    Ok(())
}

/// Why a text is refused as that of an input; nothing where it is read.
fn said_of(alloc: Global, which: Input, text: &[u8]) -> Result<Option<Refusal>, NoMemory>
    ensures { IfOk result (IsSaid which text.now) }
{
    match which {
        Input::Domain => said_of_domain(alloc, text),
        Input::Problem => said_of_problem(alloc, text),
        Input::Plan => said_of_plan(alloc, text),
    }
}

fn said_of_domain(alloc: Global, text: &[u8]) -> Result<Option<Refusal>, NoMemory>
    ensures { IfOk result (IsSaidBy inputs.Domain domain_form text.now) }
{
    match domain_in(alloc, text) {
        Ok(domain) => {
            drop(domain);
            Ok(None)
        }
        Err(Stop::Refused(refusal)) => Ok(Some(refusal)),
        Err(Stop::NoMemory) => Err(NoMemory),
    }
}

fn said_of_problem(alloc: Global, text: &[u8]) -> Result<Option<Refusal>, NoMemory>
    ensures { IfOk result (IsSaidBy inputs.Problem problem_form text.now) }
{
    match problem_in(alloc, text) {
        Ok(problem) => {
            drop(problem);
            Ok(None)
        }
        Err(Stop::Refused(refusal)) => Ok(Some(refusal)),
        Err(Stop::NoMemory) => Err(NoMemory),
    }
}

fn said_of_plan(alloc: Global, text: &[u8]) -> Result<Option<Refusal>, NoMemory>
    ensures { IfOk result (IsSaidBy inputs.Plan steps_form text.now) }
{
    match plan_in(alloc, text) {
        Ok(steps) => {
            drop(steps);
            Ok(None)
        }
        Err(Stop::Refused(refusal)) => Ok(Some(refusal)),
        Err(Stop::NoMemory) => Err(NoMemory),
    }
}
