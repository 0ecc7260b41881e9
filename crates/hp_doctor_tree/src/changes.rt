//! What a step changes, line by line.

ghost use Rattle.std.specs.Prelude.{◌≡◌, ◌++◌, OnOk, Some, codes, map, option_map, slice_get};
ghost use Rattle.hp_changes.specs.Changes.{changed_of};
ghost use Rattle.hp_syntax.specs.GroundViews.{ground_of};
ghost use Rattle.hp_syntax.specs.TermTexts.{term_text};
ghost use Rattle.hp_doctor_tree.specs.Drawings.{change_line, change_lines, changed_lines, changed_text, deed_changes, margin};

use crate::grounds::push_ground;
use crate::words::push_blanks;
use hp_changes::Changed;
use hp_syntax::Ground;
use std::alloc::AllocError;

/// Two blanks for each level.
pub(crate) fn push_margin(out: &mut Vec<u8>, level: usize) -> Result<(), AllocError>
    ensures { OnOk result (out.new.items ≡ out.old.items ++ margin level) }
{
    push_blanks(out, level)?;
    push_blanks(out, level)
}

/// A term behind a mark, to the end of the line.
fn push_marked_term(out: &mut Vec<u8>, mark: &[u8], term: &Ground) -> Result<(), AllocError>
    ensures { OnOk result (out.new.items
        ≡ out.old.items ++ mark.now ++ term_text (ground_of term.now) ++ codes "\n") }
{
    out.extend_from_slice(mark)?;
    push_ground(out, term)?;
    out.extend_from_slice(b"\n")
}

/// A term behind a mark on a line of its own, two blanks deeper than its step.
fn push_change(
    out: &mut Vec<u8>,
    level: usize,
    mark: &[u8],
    term: &Ground,
) -> Result<(), AllocError>
    ensures { OnOk result (out.new.items ≡ out.old.items ++ change_line level mark.now (ground_of term.now)) }
{
    push_margin(out, level)?;
    out.extend_from_slice(b"  ")?;
    push_marked_term(out, mark, term)
}

/// Terms behind a mark, each on a line of its own.
fn push_changes(
    out: &mut Vec<u8>,
    level: usize,
    mark: &[u8],
    terms: &[Ground],
) -> Result<(), AllocError>
    ensures { OnOk result (out.new.items
        ≡ out.old.items ++ change_lines level mark.now (map ground_of terms.now)) }
{
    for term in terms {
        push_change(out, level, mark, term)?;
    }
    Ok(())
}

/// What a step takes, adds, protects and frees.
fn push_changed(out: &mut Vec<u8>, level: usize, changed: &Changed) -> Result<(), AllocError>
    ensures { OnOk result (out.new.items ≡ out.old.items ++ changed_text level (changed_of changed.now)) }
{
    push_changes(out, level, b"- ", changed.taken.as_slice())?;
    push_changes(out, level, b"+ ", changed.added.as_slice())?;
    push_changes(out, level, b"protects ", changed.protected.as_slice())?;
    push_changes(out, level, b"frees ", changed.freed.as_slice())
}

/// What the deed of a number changes, if that is there.
fn changed_at(changes: &[Changed], number: usize) -> Option<&Changed>
    ensures { option_map (λ c. changed_of c.now) result ≡ slice_get (map changed_of changes.now) number }
{
    changes.get(number)
}

fn push_changed_if(
    out: &mut Vec<u8>,
    level: usize,
    changed: Option<&Changed>,
) -> Result<(), AllocError>
    ensures { OnOk result (out.new.items
        ≡ out.old.items ++ changed_lines level (option_map (λ c. changed_of c.now) changed.entry)) }
{
    match changed {
        Some(changed) => push_changed(out, level, changed),
        None => Ok(()),
    }
}

/// What a deed changes, by its number.
pub(crate) fn push_done_changes(
    out: &mut Vec<u8>,
    changes: &[Changed],
    level: usize,
    deed: Option<usize>,
) -> Result<(), AllocError>
    ensures { OnOk result (out.new.items ≡ out.old.items ++ deed_changes (map changed_of changes.now) level deed) }
{
    match deed {
        Some(number) => push_changed_if(out, level, changed_at(changes, number)),
        None => Ok(()),
    }
}
