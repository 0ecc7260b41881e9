//! What is said of tasks that nothing does.
ghost use Rattle.std.specs.Prelude.{◌≡◌, ◌++◌, OnOk, Some, map, option_map};
ghost use Rattle.std.specs.List.{flat_map};
ghost use Rattle.hp_syntax.specs.GroundViews.{ground_of};
ghost use Rattle.hp_syntax.specs.TermTexts.{term_text};
ghost use Rattle.hp_syntax.specs.Views.{domain_of};
ghost use Rattle.hp_doctor.specs.Explained.{told_in};
ghost use Rattle.hp_doctor.specs.Texts.{texts_of};
ghost use Rattle.hp_obstacles.specs.Facts.{kept};
ghost use Rattle.hp_obstacles.specs.Obstacles.{obstacle_of, stuck_of, unconcluded_of};
ghost use Rattle.hp_choice.specs.FirstSatisfier.{values_of};
ghost use Rattle.hp_doctor_why.specs.Against.{against_at};
ghost use Rattle.hp_doctor_why.specs.Filled.{filled_at, protected_text};
ghost use Rattle.hp_doctor_why.specs.Said as plain;

use crate::against::push_against;
use crate::axioms::{push_all_unconcluded, push_concluding_at};
use crate::filled::{push_filled_at, push_protected};
use crate::heads::push_mismatch_at;
use crate::phrases::{
    FACTS, FIRST_UNMET, LATER_UNMET, NO_FACT, NO_RULE, NOTHING_DOES, PROTECTED, UNKNOWN,
};
use crate::places::{head_span_at, part_span_at, span_at};
use hp_doctor::{Texts, push_in};
use hp_obstacles::{Facts, Obstacle, Stuck};
use hp_print::ground_text;
use hp_syntax::{Domain, Ground};
use hp_unmet::Unmet;
use itoa::Buffer;
use std::alloc::AllocError;

/// Puts the text of a term after other bytes.
pub fn push_term(out: &mut Vec<u8>, term: &Ground) -> Result<(), AllocError>
    ensures { OnOk result (out.new.items ≡ out.old.items ++ term_text (ground_of term.now)) }
{
    let text = ground_text(*out.allocator(), term)?;
    out.extend_from_slice(text.as_slice())
}

fn push_spaced(out: &mut Vec<u8>, term: &Ground) -> Result<(), AllocError>
    ensures { OnOk result (out.new.items ≡ out.old.items ++ plain.spaced (ground_of term.now)) }
{
    out.push(b' ')?;
    push_term(out, term)
}

/// Puts terms after other bytes, each after a blank.
pub fn push_all_spaced(out: &mut Vec<u8>, terms: &[Ground]) -> Result<(), AllocError>
    ensures { OnOk result (out.new.items
        ≡ out.old.items ++ flat_map plain.spaced (map ground_of terms.now)) }
{
    for term in terms {
        push_spaced(out, term)?;
    }
    Ok(())
}

pub fn push_more(out: &mut Vec<u8>, count: u64) -> Result<(), AllocError>
    ensures { OnOk result (out.new.items ≡ out.old.items ++ plain.more_text count) }
{
    if count == 0 {
        return Ok(());
    }
    let mut number = Buffer::new();
    out.extend_from_slice(b" and ")?;
    out.extend_from_slice(number.format(count).as_bytes())?;
    out.extend_from_slice(b" more")
}

/// Puts the line of some facts of a name after other bytes, where there are so many more.
fn push_some_facts(out: &mut Vec<u8>, first: &[Ground], more: u64) -> Result<(), AllocError>
    ensures { OnOk result (out.new.items
        ≡ out.old.items ++ plain.some_facts_line (map ground_of first.now) more) }
{
    out.extend_from_slice(FACTS)?;
    push_all_spaced(out, first)?;
    push_more(out, more)?;
    out.extend_from_slice(b"\n")
}

/// How many facts there are besides those that are kept.
fn more_facts(facts: &Facts) -> u64
    ensures { result ≡ plain.more_facts (kept facts.now) }
{
    facts.count.saturating_sub(facts.first.len() as u64)
}

/// Puts the line of the facts of a name after other bytes.
fn push_facts(out: &mut Vec<u8>, facts: &Facts) -> Result<(), AllocError>
    ensures { OnOk result (out.new.items ≡ out.old.items ++ plain.facts_line (kept facts.now)) }
{
    if facts.count == 0 {
        return out.extend_from_slice(NO_FACT);
    }
    push_some_facts(out, facts.first.as_slice(), more_facts(facts))
}

pub(crate) fn push_facts_if(out: &mut Vec<u8>, facts: &Option<Facts>) -> Result<(), AllocError>
    ensures { OnOk result (out.new.items
        ≡ out.old.items ++ plain.facts_text (option_map kept facts.now)) }
{
    match facts {
        Some(facts) => push_facts(out, facts),
        None => Ok(()),
    }
}

fn part_sentence(place: usize) -> &'static [u8]
    ensures { result.now ≡ plain.part_sentence place }
{
    if place == 0 {
        return FIRST_UNMET;
    }
    LATER_UNMET
}

/// Puts the place and the sentence of a part that nothing satisfies after other bytes, and the part with the values of
/// its variables.
fn push_part_here(
    out: &mut Vec<u8>,
    files: &Texts,
    domain: &Domain,
    obstacle: &Obstacle,
    place: usize,
) -> Result<(), AllocError>
    ensures { OnOk result (out.new.items ≡ out.old.items
        ++ (told_in (Some (texts_of files.now).domain)
        (plain.part_span_at (domain_of domain.now) obstacle.now.rule obstacle.now.branch place)
        (plain.part_sentence place)
        ++ filled_at (domain_of domain.now) obstacle.now.rule obstacle.now.branch place
        (values_of obstacle.now.values))) }
{
    let span = part_span_at(domain, obstacle.rule, obstacle.branch, place);
    push_in(out, Some(&files.domain), span, part_sentence(place))?;
    let values = obstacle.values.as_slice();
    push_filled_at(out, domain, obstacle.rule, obstacle.branch, place, values)
}

/// Puts the satisfier after other bytes that makes the part at a place false, the facts of its name, and the axioms.
fn push_part_further(
    out: &mut Vec<u8>,
    files: &Texts,
    domain: &Domain,
    obstacle: &Obstacle,
    place: usize,
) -> Result<(), AllocError>
    ensures { OnOk result (out.new.items ≡ out.old.items
        ++ (against_at (domain_of domain.now) obstacle.now.rule (values_of obstacle.now.values)
        (option_map values_of obstacle.now.against)
        ++ plain.facts_text (option_map kept obstacle.now.facts)
        ++ plain.concluding_at (texts_of files.now) (domain_of domain.now) obstacle.now.rule obstacle.now.branch place
        ++ flat_map (plain.unconcluded_text (texts_of files.now) (domain_of domain.now))
        (map unconcluded_of obstacle.now.axioms.items))) }
{
    let values = obstacle.values.as_slice();
    push_against(out, domain, obstacle.rule, values, &obstacle.against)?;
    push_facts_if(out, &obstacle.facts)?;
    push_concluding_at(out, files, domain, obstacle, place)?;
    push_all_unconcluded(out, files, domain, obstacle.axioms.as_slice())
}

/// Puts what is said of the part at a place after other bytes, which nothing satisfies.
fn push_part(
    out: &mut Vec<u8>,
    files: &Texts,
    domain: &Domain,
    obstacle: &Obstacle,
    place: usize,
) -> Result<(), AllocError>
    ensures { OnOk result (out.new.items ≡ out.old.items ++ plain.unmet_part_text (texts_of files.now)
        (domain_of domain.now) (obstacle_of obstacle.now) place) }
{
    push_part_here(out, files, domain, obstacle, place)?;
    push_part_further(out, files, domain, obstacle, place)
}

/// Puts after other bytes that a precondition is satisfied, and the protected atoms that the operator would delete.
fn push_satisfied(
    out: &mut Vec<u8>,
    files: &Texts,
    domain: &Domain,
    guards: &[Ground],
    obstacle: &Obstacle,
) -> Result<(), AllocError>
    ensures { OnOk result (out.new.items ≡ out.old.items
        ++ (told_in (Some (texts_of files.now).domain)
        (plain.head_span_at (domain_of domain.now) obstacle.now.rule) PROTECTED.now
        ++ protected_text (domain_of domain.now) obstacle.now.rule (values_of obstacle.now.values)
        (map ground_of guards.now))) }
{
    let span = head_span_at(domain, obstacle.rule);
    push_in(out, Some(&files.domain), span, PROTECTED)?;
    push_protected(
        out,
        domain,
        obstacle.rule,
        obstacle.values.as_slice(),
        guards,
    )
}

/// Puts what keeps an operator or a branch from doing a task after other bytes.
pub fn push_obstacle(
    out: &mut Vec<u8>,
    files: &Texts,
    domain: &Domain,
    task: &Ground,
    guards: &[Ground],
    obstacle: &Obstacle,
) -> Result<(), AllocError>
    ensures { OnOk result (out.new.items ≡ out.old.items ++ plain.obstacle_text (texts_of files.now)
        (domain_of domain.now) (ground_of task.now) (map ground_of guards.now) (obstacle_of obstacle.now)) }
{
    match obstacle.unmet {
        Unmet::None => push_satisfied(out, files, domain, guards, obstacle),
        Unmet::Head if obstacle.branch == 0 => {
            push_mismatch_at(out, files, domain, task, obstacle.rule)
        }
        Unmet::Head => Ok(()),
        Unmet::Part(place) => push_part(out, files, domain, obstacle, place),
        Unmet::Unknown => {
            let span = span_at(domain, obstacle.rule, obstacle.branch);
            push_in(out, Some(&files.domain), span, UNKNOWN)
        }
    }
}

fn push_each(
    out: &mut Vec<u8>,
    files: &Texts,
    domain: &Domain,
    task: &Ground,
    guards: &[Ground],
    obstacles: &[Obstacle],
) -> Result<(), AllocError>
    ensures { OnOk result (out.new.items ≡ out.old.items ++ flat_map (plain.obstacle_text (texts_of files.now)
        (domain_of domain.now) (ground_of task.now) (map ground_of guards.now)) (map obstacle_of obstacles.now)) }
{
    for obstacle in obstacles {
        push_obstacle(out, files, domain, task, guards, obstacle)?;
    }
    Ok(())
}

/// Puts what keeps the rules of a task's name from doing it after other bytes, or that there are none.
fn push_obstacles(
    out: &mut Vec<u8>,
    files: &Texts,
    domain: &Domain,
    task: &Ground,
    guards: &[Ground],
    obstacles: &[Obstacle],
) -> Result<(), AllocError>
    ensures { OnOk result (out.new.items ≡ out.old.items ++ plain.obstacles_text (texts_of files.now)
        (domain_of domain.now) (ground_of task.now) (map ground_of guards.now) (map obstacle_of obstacles.now)) }
{
    if obstacles.is_empty() {
        return out.extend_from_slice(NO_RULE);
    }
    push_each(out, files, domain, task, guards, obstacles)
}

fn push_stuck_line(out: &mut Vec<u8>, task: &Ground) -> Result<(), AllocError>
    ensures { OnOk result (out.new.items ≡ out.old.items ++ plain.stuck_line (ground_of task.now)) }
{
    out.extend_from_slice(NOTHING_DOES)?;
    push_term(out, task)?;
    out.extend_from_slice(b" here\n")
}

fn push_stuck(
    out: &mut Vec<u8>,
    files: &Texts,
    domain: &Domain,
    guards: &[Ground],
    stuck: &Stuck,
) -> Result<(), AllocError>
    ensures { OnOk result (out.new.items ≡ out.old.items ++ plain.stuck_text (texts_of files.now)
        (domain_of domain.now) (map ground_of guards.now) (stuck_of stuck.now)) }
{
    push_stuck_line(out, &stuck.task)?;
    push_obstacles(
        out,
        files,
        domain,
        &stuck.task,
        guards,
        stuck.obstacles.as_slice(),
    )
}

/// Puts tasks that nothing does after other bytes, each with what keeps it from being done, where these atoms are
/// protected.
pub fn push_all_stuck(
    out: &mut Vec<u8>,
    files: &Texts,
    domain: &Domain,
    guards: &[Ground],
    tasks: &[Stuck],
) -> Result<(), AllocError>
    ensures { OnOk result (out.new.items ≡ out.old.items ++ flat_map (plain.stuck_text (texts_of files.now)
        (domain_of domain.now) (map ground_of guards.now)) (map stuck_of tasks.now)) }
{
    for stuck in tasks {
        push_stuck(out, files, domain, guards, stuck)?;
    }
    Ok(())
}
