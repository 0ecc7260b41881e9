//! What is said of where a plan stops.
ghost use Rattle.std.specs.Prelude.{◌≡◌, ◌++◌, OnOk, length, map, option_map};
ghost use Rattle.std.specs.List.{flat_map};
ghost use Rattle.hp_doctor.specs.declared.finding.Finding.TheVariants.{Met};
ghost use Rattle.hp_doctor.specs.Explained.{finding_text};
ghost use Rattle.hp_doctor.specs.Texts.{texts_of};
ghost use Rattle.hp_doctor_why.specs.Whys.{kept};
ghost use Rattle.hp_obstacles.specs.Obstacles.{obstacle_of, stuck_of};
ghost use Rattle.hp_syntax.specs.GroundViews.{ground_of};
ghost use Rattle.hp_syntax.specs.Views.{domain_of};
ghost use Rattle.hp_doctor_derive.specs.Plans.{plan_of};
ghost use Rattle.hp_doctor_derive.specs.Said as plain;

use crate::phrases::{
    ARE_DONE, AT_NO_DEPTH, DERIVED, GOES_ON, LEFT, NEXT, NO_RULE, NO_TASK, NOT_NEXT, NOT_WITHIN,
    OF_ITS, TO_DO, TOO_WIDE,
};
use crate::plans::{Plan, span_at};
use crate::stops::Found;
use hp_doctor::{Finding, Texts, push_in, sentence};
use hp_doctor_why::{Reason, head_span_at, push_number, push_obstacle, push_path, push_term};
use hp_following::FollowEnd;
use hp_obstacles::{Obstacle, Stuck};
use hp_syntax::{Domain, Ground, RunFault};
use hp_unmet::Unmet;
use std::alloc::AllocError;

/// Puts what keeps an operator or a branch from doing a task after other bytes, or that nothing does.
fn push_way(
    out: &mut Vec<u8>,
    files: &Texts,
    domain: &Domain,
    task: &Ground,
    obstacle: &Obstacle,
) -> Result<(), AllocError>
    ensures { OnOk result (out.new.items ≡ out.old.items
        ++ plain.way_text (texts_of files.now) (domain_of domain.now) (ground_of task.now) (obstacle_of obstacle.now)) }
{
    match obstacle.unmet {
        Unmet::None => {
            let span = head_span_at(domain, obstacle.rule);
            push_in(out, Some(&files.domain), span, GOES_ON)
        }
        // Where a part isn't met nothing is said of protections.
        Unmet::Head => push_obstacle(out, files, domain, task, &[], obstacle),
        Unmet::Part(_) => push_obstacle(out, files, domain, task, &[], obstacle),
        Unmet::Unknown => push_obstacle(out, files, domain, task, &[], obstacle),
    }
}

fn push_each_way(
    out: &mut Vec<u8>,
    files: &Texts,
    domain: &Domain,
    task: &Ground,
    obstacles: &[Obstacle],
) -> Result<(), AllocError>
    ensures { OnOk result (out.new.items ≡ out.old.items ++ flat_map (plain.way_text (texts_of files.now)
        (domain_of domain.now) (ground_of task.now)) (map obstacle_of obstacles.now)) }
{
    for obstacle in obstacles {
        push_way(out, files, domain, task, obstacle)?;
    }
    Ok(())
}

fn push_ways(
    out: &mut Vec<u8>,
    files: &Texts,
    domain: &Domain,
    task: &Ground,
    obstacles: &[Obstacle],
) -> Result<(), AllocError>
    ensures { OnOk result (out.new.items ≡ out.old.items ++ plain.ways_text (texts_of files.now)
        (domain_of domain.now) (ground_of task.now) (map obstacle_of obstacles.now)) }
{
    if obstacles.is_empty() {
        return out.extend_from_slice(NO_RULE);
    }
    push_each_way(out, files, domain, task, obstacles)
}

fn push_task_line(out: &mut Vec<u8>, task: &Ground) -> Result<(), AllocError>
    ensures { OnOk result (out.new.items ≡ out.old.items ++ plain.task_line (ground_of task.now)) }
{
    out.extend_from_slice(TO_DO)?;
    push_term(out, task)?;
    out.extend_from_slice(b":\n")
}

/// Puts a task after other bytes, and what keeps it from being done.
fn push_task(
    out: &mut Vec<u8>,
    files: &Texts,
    domain: &Domain,
    stuck: &Stuck,
) -> Result<(), AllocError>
    ensures { OnOk result (out.new.items ≡ out.old.items
        ++ plain.task_text (texts_of files.now) (domain_of domain.now) (stuck_of stuck.now)) }
{
    push_task_line(out, &stuck.task)?;
    push_ways(out, files, domain, &stuck.task, stuck.obstacles.as_slice())
}

fn push_each_task(
    out: &mut Vec<u8>,
    files: &Texts,
    domain: &Domain,
    tasks: &[Stuck],
) -> Result<(), AllocError>
    ensures { OnOk result (out.new.items ≡ out.old.items
        ++ flat_map (plain.task_text (texts_of files.now) (domain_of domain.now)) (map stuck_of tasks.now)) }
{
    for stuck in tasks {
        push_task(out, files, domain, stuck)?;
    }
    Ok(())
}

fn push_spaced(out: &mut Vec<u8>, task: &Ground) -> Result<(), AllocError>
    ensures { OnOk result (out.new.items ≡ out.old.items ++ plain.spaced_task (ground_of task.now)) }
{
    out.push(b' ')?;
    push_term(out, task)
}

/// Puts tasks after other bytes, each after a blank.
fn push_in_line(out: &mut Vec<u8>, tasks: &[Stuck]) -> Result<(), AllocError>
    ensures { OnOk result (out.new.items ≡ out.old.items ++ plain.in_line (map stuck_of tasks.now)) }
{
    for stuck in tasks {
        push_spaced(out, &stuck.task)?;
    }
    Ok(())
}

/// Puts the line of some tasks that may be done next after other bytes.
fn push_some_next(out: &mut Vec<u8>, tasks: &[Stuck]) -> Result<(), AllocError>
    ensures { OnOk result (out.new.items ≡ out.old.items ++ plain.some_next (map stuck_of tasks.now)) }
{
    out.extend_from_slice(NEXT)?;
    push_in_line(out, tasks)?;
    out.extend_from_slice(b"\n")
}

/// Puts the line of the tasks that may be done next after other bytes.
fn push_next(out: &mut Vec<u8>, tasks: &[Stuck]) -> Result<(), AllocError>
    ensures { OnOk result (out.new.items ≡ out.old.items ++ plain.next_line (map stuck_of tasks.now)) }
{
    if tasks.is_empty() {
        return out.extend_from_slice(NO_TASK);
    }
    push_some_next(out, tasks)
}

fn push_tasks(
    out: &mut Vec<u8>,
    files: &Texts,
    domain: &Domain,
    tasks: &[Stuck],
) -> Result<(), AllocError>
    ensures { OnOk result (out.new.items ≡ out.old.items
        ++ plain.tasks_text (texts_of files.now) (domain_of domain.now) (map stuck_of tasks.now)) }
{
    push_next(out, tasks)?;
    push_each_task(out, files, domain, tasks)
}

fn push_reason(
    out: &mut Vec<u8>,
    files: &Texts,
    domain: &Domain,
    reason: &Option<Reason>,
) -> Result<(), AllocError>
    ensures { OnOk result (out.new.items ≡ out.old.items
        ++ plain.reason_text (texts_of files.now) (domain_of domain.now) (option_map kept reason.now)) }
{
    match reason {
        Some(reason) => push_tasks(out, files, domain, reason.tasks.as_slice()),
        None => out.extend_from_slice(TOO_WIDE),
    }
}

/// Puts the tasks that are left after other bytes.
fn push_left(out: &mut Vec<u8>, reason: &Option<Reason>) -> Result<(), AllocError>
    ensures { OnOk result (out.new.items ≡ out.old.items ++ plain.left_text (option_map kept reason.now)) }
{
    match reason {
        Some(reason) => {
            push_in_line(out, reason.tasks.as_slice())?;
            out.extend_from_slice(b"\n")
        }
        None => out.extend_from_slice(b"\n"),
    }
}

fn push_done(out: &mut Vec<u8>, count: u64, path: &[u64]) -> Result<(), AllocError>
    ensures { OnOk result (out.new.items ≡ out.old.items ++ plain.are_done count path.now) }
{
    push_number(out, count)?;
    out.extend_from_slice(ARE_DONE)?;
    push_path(out, path)
}

fn push_all_done(out: &mut Vec<u8>, count: u64, path: &[u64]) -> Result<(), AllocError>
    ensures { OnOk result (out.new.items ≡ out.old.items ++ plain.all_done count path.now) }
{
    out.extend_from_slice(b"all ")?;
    push_done(out, count, path)?;
    out.extend_from_slice(LEFT)
}

fn push_some_done(out: &mut Vec<u8>, done: u64, count: u64, path: &[u64]) -> Result<(), AllocError>
    ensures { OnOk result (out.new.items ≡ out.old.items ++ plain.some_done done count path.now) }
{
    push_number(out, done)?;
    out.extend_from_slice(OF_ITS)?;
    push_done(out, count, path)?;
    out.extend_from_slice(b"\n")
}

/// Puts the step that comes next in the plan after other bytes, at its place.
fn push_step(out: &mut Vec<u8>, files: &Texts, plan: &Plan, step: u64) -> Result<(), AllocError>
    ensures { OnOk result (out.new.items ≡ out.old.items
        ++ plain.step_text (texts_of files.now) (plan_of plan.now) step) }
{
    let span = span_at(plan, step);
    push_in(out, files.plan.as_ref(), span, NOT_NEXT)
}

/// Puts that all steps are done after other bytes, and which tasks are left.
fn push_whole(out: &mut Vec<u8>, count: u64, found: &Found) -> Result<(), AllocError>
    ensures { OnOk result (out.new.items ≡ out.old.items
        ++ plain.whole_text count found.now.following (option_map kept found.now.reason)) }
{
    push_all_done(out, count, found.following.path.as_slice())?;
    push_left(out, &found.reason)
}

/// Puts how many steps are done after other bytes, which comes next, and what may be done there.
fn push_part(
    out: &mut Vec<u8>,
    files: &Texts,
    domain: &Domain,
    plan: &Plan,
    found: &Found,
) -> Result<(), AllocError>
    ensures { OnOk result (out.new.items ≡ out.old.items
        ++ plain.part_text (texts_of files.now) (domain_of domain.now) (plan_of plan.now) found.now.following
        (option_map kept found.now.reason)) }
{
    let count = plan.steps.len() as u64;
    let following = &found.following;
    push_some_done(out, following.steps, count, following.path.as_slice())?;
    push_step(out, files, plan, following.steps)?;
    push_reason(out, files, domain, &found.reason)
}

/// Puts where the plan stops after other bytes.
fn push_stop(
    out: &mut Vec<u8>,
    files: &Texts,
    domain: &Domain,
    plan: &Plan,
    found: &Found,
) -> Result<(), AllocError>
    ensures { OnOk result (out.new.items ≡ out.old.items
        ++ plain.stop_text (texts_of files.now) (domain_of domain.now) (plan_of plan.now) found.now.following
        (option_map kept found.now.reason)) }
{
    let count = plan.steps.len() as u64;
    if found.following.steps == count {
        push_whole(out, count, found)
    } else {
        push_part(out, files, domain, plan, found)
    }
}

fn push_derived(out: &mut Vec<u8>, path: &[u64]) -> Result<(), AllocError>
    ensures { OnOk result (out.new.items ≡ out.old.items ++ plain.derived_text path.now) }
{
    out.extend_from_slice(DERIVED)?;
    push_path(out, path)?;
    out.extend_from_slice(b"\n")
}

fn push_within(out: &mut Vec<u8>, depth: u32) -> Result<(), AllocError>
    ensures { OnOk result (out.new.items ≡ out.old.items ++ plain.within_text depth) }
{
    out.extend_from_slice(NOT_WITHIN)?;
    push_number(out, u64::from(depth))?;
    out.extend_from_slice(b": ")
}

fn push_fault(out: &mut Vec<u8>, files: &Texts, fault: RunFault) -> Result<(), AllocError>
    ensures { OnOk result (out.new.items ≡ out.old.items
        ++ finding_text (texts_of files.now) (Met fault)) }
{
    let says = sentence(Finding::Met(fault));
    push_in(out, Some(&files.domain), Some(fault.span), says)
}

/// Puts what is said of the walk along a plan after other bytes.
pub fn push_derive(
    out: &mut Vec<u8>,
    files: &Texts,
    domain: &Domain,
    plan: &Plan,
    depth: u32,
    found: &Found,
) -> Result<(), AllocError>
    ensures { OnOk result (out.new.items ≡ out.old.items
        ++ plain.derive_text (texts_of files.now) (domain_of domain.now) (plan_of plan.now) depth found.now) }
{
    match found.following.end {
        FollowEnd::Derived => push_derived(out, found.following.path.as_slice()),
        FollowEnd::Whole => {
            out.extend_from_slice(AT_NO_DEPTH)?;
            push_stop(out, files, domain, plan, found)
        }
        FollowEnd::Cut => {
            push_within(out, depth)?;
            push_stop(out, files, domain, plan, found)
        }
        FollowEnd::Fault(fault) => push_fault(out, files, fault),
    }
}
