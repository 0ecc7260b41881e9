//! Tasks that no operator and no method does.
ghost use Rattle.std.specs.Prelude.{◌≡◌, ◌++◌, OnOk, map, option_map};
ghost use Rattle.std.specs.List.{flat_map, list_any};
ghost use Rattle.hp_syntax.specs.Views.{domain_of, problem_of};
ghost use Rattle.hp_doctor.specs.Texts.{texts_of};
ghost use Rattle.hp_lint.specs.LintViews.{remark_of};
ghost use Rattle.hp_obstacles.specs.Obstacles.{stuck_of};
ghost use Rattle.hp_doctor_why.specs.Said as plain;
ghost use Rattle.hp_doctor_why.specs.Whys.{kept};

use crate::reasons::Reason;
use hp_doctor::{Accepted, Texts, push_remark};
use hp_lint::{Concern, Remark};
use hp_obstacles::Stuck;
use std::alloc::AllocError;

fn is_unserved(concern: Concern) -> bool
    ensures { result ≡ plain.is_unserved concern }
{
    match concern {
        Concern::NoRule => true,
        Concern::NothingGives => false,
        Concern::StandsOnce => false,
        Concern::Unbound => false,
        Concern::NamedLikeCall => false,
        Concern::NeverReached => false,
        Concern::NeverAsked => false,
    }
}

fn push_if_unserved(out: &mut Vec<u8>, files: &Texts, remark: &Remark) -> Result<(), AllocError>
    ensures { OnOk result (out.new.items
        ≡ out.old.items ++ plain.unserved_text (texts_of files.now) (remark_of remark.now)) }
{
    if is_unserved(remark.concern) {
        return push_remark(out, files, remark);
    }
    Ok(())
}

/// Puts those remarks after other bytes that tell of tasks which no rule does.
fn push_unserved(out: &mut Vec<u8>, files: &Texts, remarks: &[Remark]) -> Result<(), AllocError>
    ensures { OnOk result (out.new.items
        ≡ out.old.items ++ flat_map (plain.unserved_text (texts_of files.now)) (map remark_of remarks.now)) }
{
    for remark in remarks {
        push_if_unserved(out, files, remark)?;
    }
    Ok(())
}

fn lacks_rules(stuck: &Stuck) -> bool
    ensures { result ≡ plain.lacks_rules (stuck_of stuck.now) }
{
    stuck.obstacles.is_empty()
}

fn any_lacks_rules(tasks: &[Stuck]) -> bool
    ensures { result ≡ list_any plain.lacks_rules (map stuck_of tasks.now) }
{
    tasks.iter().any(|stuck| lacks_rules(stuck))
}

fn has_unserved(reason: &Option<Reason>) -> bool
    ensures { result ≡ plain.has_unserved (option_map kept reason.now) }
{
    match reason {
        Some(reason) => any_lacks_rules(reason.tasks.as_slice()),
        None => false,
    }
}

/// Whether no operator and no method has the name of some task among those of some dead end.
fn any_unserved(reasons: &[Option<Reason>]) -> bool
    ensures { result ≡ list_any plain.has_unserved (map (option_map kept) reasons.now) }
{
    reasons.iter().any(|reason| has_unserved(reason))
}

/// Puts the tasks that no rule does after other bytes, at their places.
fn push_all(out: &mut Vec<u8>, files: &Texts, read: &Accepted) -> Result<(), AllocError>
    ensures { OnOk result (out.new.items ≡ out.old.items ++ plain.all_unserved (texts_of files.now)
        (domain_of read.now.domain) (problem_of read.now.problem)) }
{
    let remarks = hp_lint::lint(*out.allocator(), &read.domain, &read.problem)?;
    push_unserved(out, files, remarks.as_slice())
}

/// Puts the tasks of both files that no rule does after other bytes, where a dead end has such a task.
pub fn push_rules(
    out: &mut Vec<u8>,
    files: &Texts,
    read: &Accepted,
    reasons: &[Option<Reason>],
) -> Result<(), AllocError>
    ensures { OnOk result (out.new.items ≡ out.old.items ++ plain.rules_text (texts_of files.now)
        (domain_of read.now.domain) (problem_of read.now.problem) (map (option_map kept) reasons.now)) }
{
    if any_unserved(reasons) {
        return push_all(out, files, read);
    }
    Ok(())
}
