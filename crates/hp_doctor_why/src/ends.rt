//! What is said of dead ends.
ghost use Rattle.std.specs.Prelude.{◌≡◌, ◌++◌, OnOk, map, option_map, slice_get, zip};
ghost use Rattle.std.specs.List.{flat_map};
ghost use Rattle.hp_syntax.specs.GroundViews.{ground_of};
ghost use Rattle.hp_syntax.specs.Views.{domain_of};
ghost use Rattle.hp_doctor.specs.Texts.{texts_of};
ghost use Rattle.hp_doctor_why.specs.Said as plain;
ghost use Rattle.hp_doctor_why.specs.Beside.{beside_text};
ghost use Rattle.hp_doctor_why.specs.Whys.{kept};

use crate::numbers::{push_number, push_path};
use crate::phrases::{DEAD_END, DECOMPOSITIONS, LAST_STEPS, NO_STEP, TOO_WIDE};
use crate::reasons::{Reason, Why};
use crate::tasks::{push_all_spaced, push_all_stuck};
use hp_dead_ends::{DeadEnd, DeadEnds};
use hp_doctor::Texts;
use hp_syntax::{Domain, Ground};
use std::alloc::AllocError;

/// How many of the last steps before a dead end are shown at most.
const STEPS_SHOWN: usize = 5;

/// The last of some steps, at most so many as are shown.
fn last_steps(steps: &[Ground]) -> &[Ground]
    ensures { map ground_of result.now ≡ plain.last_steps (map ground_of steps.now) }
{
    &steps[steps.len().saturating_sub(STEPS_SHOWN)..]
}

/// Puts the line of some last steps after other bytes.
fn push_last(out: &mut Vec<u8>, last: &[Ground]) -> Result<(), AllocError>
    ensures { OnOk result (out.new.items ≡ out.old.items ++ plain.last_line (map ground_of last.now)) }
{
    out.extend_from_slice(LAST_STEPS)?;
    push_all_spaced(out, last)?;
    out.extend_from_slice(b"\n")
}

/// Puts the line of the last of all steps after other bytes.
fn push_steps(out: &mut Vec<u8>, steps: &[Ground]) -> Result<(), AllocError>
    ensures { OnOk result (out.new.items ≡ out.old.items ++ plain.steps_line (map ground_of steps.now)) }
{
    if steps.is_empty() {
        return out.extend_from_slice(NO_STEP);
    }
    push_last(out, last_steps(steps))
}

/// Puts the last steps after other bytes, and what keeps the tasks from being done.
fn push_known(
    out: &mut Vec<u8>,
    files: &Texts,
    domain: &Domain,
    reason: &Reason,
) -> Result<(), AllocError>
    ensures { OnOk result (out.new.items ≡ out.old.items
        ++ plain.known_text (texts_of files.now) (domain_of domain.now) (kept reason.now)) }
{
    push_steps(out, reason.steps.as_slice())?;
    let guards = reason.guards.as_slice();
    push_all_stuck(out, files, domain, guards, reason.tasks.as_slice())
}

fn push_reason(
    out: &mut Vec<u8>,
    files: &Texts,
    domain: &Domain,
    reason: &Option<Reason>,
) -> Result<(), AllocError>
    ensures { OnOk result (out.new.items ≡ out.old.items
        ++ plain.reason_text (texts_of files.now) (domain_of domain.now) (option_map kept reason.now)) }
{
    match reason {
        Some(reason) => push_known(out, files, domain, reason),
        None => out.extend_from_slice(TOO_WIDE),
    }
}

fn push_decompositions(out: &mut Vec<u8>, decompositions: u64) -> Result<(), AllocError>
    ensures { OnOk result (out.new.items ≡ out.old.items ++ plain.decompositions_text decompositions) }
{
    out.extend_from_slice(DECOMPOSITIONS)?;
    push_number(out, decompositions)?;
    out.extend_from_slice(b"\n")
}

fn push_far(out: &mut Vec<u8>, steps: u64, decompositions: u64) -> Result<(), AllocError>
    ensures { OnOk result (out.new.items ≡ out.old.items ++ plain.far_text steps decompositions) }
{
    out.extend_from_slice(b": steps ")?;
    push_number(out, steps)?;
    push_decompositions(out, decompositions)
}

/// Puts where a dead end is after other bytes, and how far it came.
fn push_end_line(out: &mut Vec<u8>, end: &DeadEnd) -> Result<(), AllocError>
    ensures { OnOk result (out.new.items ≡ out.old.items ++ plain.end_line end.now) }
{
    out.extend_from_slice(DEAD_END)?;
    push_path(out, end.path.as_slice())?;
    push_far(out, end.steps, end.decompositions)
}

fn push_end(
    out: &mut Vec<u8>,
    files: &Texts,
    domain: &Domain,
    end: &DeadEnd,
    reason: &Option<Reason>,
) -> Result<(), AllocError>
    ensures { OnOk result (out.new.items ≡ out.old.items
        ++ plain.end_text (texts_of files.now) (domain_of domain.now) (end.now, option_map kept reason.now)) }
{
    push_end_line(out, end)?;
    push_reason(out, files, domain, reason)
}

/// Puts how many dead ends there are after other bytes, and how many came furthest.
fn push_count(out: &mut Vec<u8>, found: &DeadEnds) -> Result<(), AllocError>
    ensures { OnOk result (out.new.items ≡ out.old.items ++ plain.count_line found.now) }
{
    if found.all == 0 {
        return Ok(());
    }
    out.extend_from_slice(b"dead ends ")?;
    push_number(out, found.all)?;
    out.extend_from_slice(b" furthest ")?;
    push_number(out, found.as_far)?;
    out.extend_from_slice(b"\n")
}

/// Puts a dead end after other bytes, where reasons stand at its place.
fn push_beside(
    out: &mut Vec<u8>,
    files: &Texts,
    domain: &Domain,
    end: &DeadEnd,
    reasons: &[Option<Reason>],
    place: usize,
) -> Result<(), AllocError>
    ensures { OnOk result (out.new.items ≡ out.old.items ++ beside_text
        (plain.end_text (texts_of files.now) (domain_of domain.now)) end.now
        (slice_get (map (option_map kept) reasons.now) place)) }
{
    match reasons.get(place) {
        Some(reason) => push_end(out, files, domain, end, reason),
        None => Ok(()),
    }
}

/// Puts dead ends after other bytes, each with its reasons.
fn push_each(
    out: &mut Vec<u8>,
    files: &Texts,
    domain: &Domain,
    ends: &[DeadEnd],
    reasons: &[Option<Reason>],
) -> Result<(), AllocError>
    ensures { OnOk result (out.new.items ≡ out.old.items
        ++ flat_map (plain.end_text (texts_of files.now) (domain_of domain.now))
        (zip ends.now (map (option_map kept) reasons.now))) }
{
    for (place, end) in ends.iter().enumerate() {
        push_beside(out, files, domain, end, reasons, place)?;
    }
    Ok(())
}

/// Puts what is said of the dead ends after other bytes.
pub fn push_ends(
    out: &mut Vec<u8>,
    files: &Texts,
    domain: &Domain,
    why: &Why,
) -> Result<(), AllocError>
    ensures { OnOk result (out.new.items ≡ out.old.items
        ++ plain.ends_text (texts_of files.now) (domain_of domain.now) why.now) }
{
    push_count(out, &why.found)?;
    let ends = why.found.furthest.as_slice();
    push_each(out, files, domain, ends, why.reasons.as_slice())
}
