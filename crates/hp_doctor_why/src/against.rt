//! The satisfiers that make a negation or a `forall` false.
ghost use Rattle.std.specs.Prelude.{◌≡◌, ◌++◌, OnOk, map, option_map};
ghost use Rattle.hp_syntax.specs.GroundViews.{ground_of};
ghost use Rattle.hp_syntax.specs.Views.{domain_of};
ghost use Rattle.hp_choice.specs.FirstSatisfier.{values_of};
ghost use Rattle.hp_doctor_why.specs.Against as plain;

use crate::filled::{filled_names, names_at};
use crate::phrases::AGAINST;
use hp_syntax::{Domain, Ground, Name};
use std::alloc::AllocError;

/// Puts a variable and its value after other bytes, where it was written in another way before.
fn push_change(
    out: &mut Vec<u8>,
    name: &Name,
    before: &Name,
    after: &Name,
) -> Result<(), AllocError>
    ensures { OnOk result (out.new.items ≡ out.old.items ++ plain.change name.now before.now after.now) }
{
    if before == after {
        return Ok(());
    }
    out.extend_from_slice(b" ")?;
    out.extend_from_slice(name.bytes())?;
    out.extend_from_slice(b" = ")?;
    out.extend_from_slice(after.bytes())
}

/// Puts those variables with their values after other bytes that were written in another way before.
fn push_changes(
    out: &mut Vec<u8>,
    names: &[Name],
    before: &[Name],
    after: &[Name],
) -> Result<(), AllocError>
    ensures { OnOk result (out.new.items ≡ out.old.items ++ plain.changes names.now before.now after.now) }
{
    let count = names.len().min(before.len()).min(after.len());
    for place in 0..count {
        push_change(out, &names[place], &before[place], &after[place])?;
    }
    Ok(())
}

/// Puts a line with some text after other bytes, where there is any.
fn push_line(out: &mut Vec<u8>, text: &[u8]) -> Result<(), AllocError>
    ensures { OnOk result (out.new.items ≡ out.old.items ++ plain.against_line text.now) }
{
    match text {
        [] => Ok(()),
        [_, ..] => {
            out.extend_from_slice(AGAINST)?;
            out.extend_from_slice(text)?;
            out.extend_from_slice(b"\n")
        }
    }
}

/// Puts the variables of some names after other bytes that have a value by one satisfier and none by another.
fn push_names(
    out: &mut Vec<u8>,
    names: &[Name],
    values: &[Option<Ground>],
    against: &[Option<Ground>],
) -> Result<(), AllocError>
    ensures { OnOk result (out.new.items ≡ out.old.items ++ plain.against_names names.now
        (map (option_map ground_of) values.now) (map (option_map ground_of) against.now)) }
{
    let alloc = *out.allocator();
    let before = filled_names(alloc, names, values)?;
    let after = filled_names(alloc, names, against)?;
    let mut text = Vec::new(alloc);
    push_changes(&mut text, names, before.as_slice(), after.as_slice())?;
    push_line(out, text.as_slice())
}

/// Puts the variables of a rule after other bytes that have values by a satisfier that makes a part false, where there is
/// one, and none by the parts before.
pub fn push_against(
    out: &mut Vec<u8>,
    domain: &Domain,
    rule: usize,
    values: &[Option<Ground>],
    against: &Option<Vec<Option<Ground>>>,
) -> Result<(), AllocError>
    ensures { OnOk result (out.new.items ≡ out.old.items ++ plain.against_at (domain_of domain.now) rule
        (map (option_map ground_of) values.now) (option_map values_of against.now)) }
{
    match against {
        Some(against) => push_names(out, names_at(domain, rule), values, against.as_slice()),
        None => Ok(()),
    }
}
