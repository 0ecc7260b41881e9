//! What fails at a dead end.

ghost use Rattle.std.specs.Prelude.{◌≡◌, ◌++◌, ◌-◌, IfOk, OnOk, codes, map, option_map, slice_get, take};
ghost use Rattle.std.specs.List.{flat_map};
ghost use Rattle.hp_choice.specs.FirstSatisfier.{values_of};
ghost use Rattle.hp_doctor.specs.Texts.{file_of};
ghost use Rattle.hp_doctor_tree.specs.Words.{marked};
ghost use Rattle.hp_doctor_why.specs.Filled.{filled_names, names_if, part_text};
ghost use Rattle.hp_obstacles.specs.Obstacles.{is_part, obstacle_of, stuck_of};
ghost use Rattle.hp_syntax.specs.GroundViews.{ground_of};
ghost use Rattle.hp_syntax.specs.Views.{domain_of, expression_of};
ghost use Rattle.hp_unmet.specs.Conjunctions as parts;
ghost use Rattle.hp_doctor_trace.specs.Failing as plain;
ghost use Rattle.hp_doctor_trace.specs.Failing.{Adds, failing_of};

use crate::lines::push_indent;
use hp_doctor::Text;
use hp_doctor_tree::{push_ground, push_number, push_place};
use hp_doctor_why::{filled_names, names_at, part_span_at, part_text};
use hp_obstacles::{Obstacle, Stuck};
use hp_syntax::{Domain, Expr, Ground, Span};
use hp_unmet::{Unmet, part_at};
use std::alloc::{AllocError, Global};

/// How many lines say what fails at one dead end at most.
const LINES_SHOWN: usize = 5;

/// A task that may be done next, with an obstacle of which a part is unmet, or with none where no rule has its name.
#[derive(Clone, Copy)]
struct Failing<'a> {
    task: &'a Ground,
    obstacle: Option<&'a Obstacle>,
}

// ---- which lines there are

/// Whether there is a line for an obstacle.
fn has_line(obstacle: &Obstacle) -> bool
    ensures { result ≡ is_part (obstacle_of obstacle.now).unmet }
{
    match obstacle.unmet {
        Unmet::Part(_) => true,
        Unmet::None => false,
        Unmet::Head => false,
        Unmet::Unknown => false,
    }
}

fn add_obstacle<'a>(
    failing: &mut Vec<Failing<'a>>,
    task: &'a Ground,
    obstacle: &'a Obstacle,
) -> Result<(), AllocError>
    ensures { OnOk result (Adds (plain.failing_by (ground_of task.now) (obstacle_of obstacle.now))
        failing.old.items failing.new.items) }
{
    if has_line(obstacle) {
        let obstacle = Some(obstacle);
        failing.push(Failing { task, obstacle })?;
    }
    Ok(())
}

fn add_obstacles<'a>(
    failing: &mut Vec<Failing<'a>>,
    task: &'a Ground,
    obstacles: &'a [Obstacle],
) -> Result<(), AllocError>
    ensures { OnOk result (Adds (flat_map (plain.failing_by (ground_of task.now)) (map obstacle_of obstacles.now))
        failing.old.items failing.new.items) }
{
    for obstacle in obstacles {
        add_obstacle(failing, task, obstacle)?;
    }
    Ok(())
}

fn add_task<'a>(
    failing: &mut Vec<Failing<'a>>,
    task: &'a Ground,
    obstacles: &'a [Obstacle],
) -> Result<(), AllocError>
    ensures { OnOk result (Adds (plain.failing_in (ground_of task.now) (map obstacle_of obstacles.now))
        failing.old.items failing.new.items) }
{
    if obstacles.is_empty() {
        let obstacle = None;
        failing.push(Failing { task, obstacle })?;
        return Ok(());
    }
    add_obstacles(failing, task, obstacles)
}

fn add_stuck<'a>(failing: &mut Vec<Failing<'a>>, stuck: &'a Stuck) -> Result<(), AllocError>
    ensures { OnOk result (Adds (plain.failing_at (stuck_of stuck.now)) failing.old.items failing.new.items) }
{
    add_task(failing, &stuck.task, stuck.obstacles.as_slice())
}

/// What fails of some tasks.
fn all_failing(alloc: Global, stuck: &[Stuck]) -> Result<Vec<Failing<'_>>, AllocError>
    ensures { IfOk result (λ v. map failing_of v.items ≡ plain.all_failing (map stuck_of stuck.now)) }
{
    let mut failing = Vec::new(alloc);
    for one in stuck {
        add_stuck(&mut failing, one)?;
    }
    Ok(failing)
}

// ---- one line

/// The text of a part of the obstacle's precondition, with the obstacle's values.
fn filled_text(
    alloc: Global,
    domain: &Domain,
    obstacle: &Obstacle,
    part: &Expr,
) -> Result<Vec<u8>, AllocError>
    ensures { IfOk result (λ v. v.items ≡ part_text
        (filled_names (names_if (slice_get (domain_of domain.now).rules obstacle.now.rule))
        (values_of obstacle.now.values)) (expression_of part.now)) }
{
    let names = names_at(domain, obstacle.rule);
    let filled = filled_names(alloc, names, obstacle.values.as_slice())?;
    part_text(alloc, filled.as_slice(), part)
}

/// The text of the part at a place, if there is one.
fn text_at(
    alloc: Global,
    domain: &Domain,
    obstacle: &Obstacle,
    place: usize,
) -> Result<Vec<u8>, AllocError>
    ensures { IfOk result (λ v. v.items ≡ plain.text_if
        (filled_names (names_if (slice_get (domain_of domain.now).rules obstacle.now.rule))
        (values_of obstacle.now.values))
        (parts.part_at (domain_of domain.now).rules obstacle.now.rule obstacle.now.branch place)) }
{
    match part_at(domain, obstacle.rule, obstacle.branch, place) {
        Some(part) => filled_text(alloc, domain, obstacle, part),
        None => Ok(Vec::new(alloc)),
    }
}

/// Words after a blank, where there are any.
fn push_spaced(out: &mut Vec<u8>, words: &[u8]) -> Result<(), AllocError>
    ensures { OnOk result (out.new.items ≡ out.old.items ++ marked (codes " ") words.now) }
{
    if words.is_empty() {
        return Ok(());
    }
    out.extend_from_slice(b" ")?;
    out.extend_from_slice(words)
}

/// Where a part begins, if there is one.
fn push_beginning(out: &mut Vec<u8>, file: &Text, span: Option<Span>) -> Result<(), AllocError>
    ensures { OnOk result (out.new.items ≡ out.old.items ++ plain.place_if (file_of file.now) span) }
{
    match span {
        Some(span) => push_place(out, file, span.from),
        None => Ok(()),
    }
}

/// The text of the part at a place after a blank, where there is any.
fn push_text(
    out: &mut Vec<u8>,
    domain: &Domain,
    obstacle: &Obstacle,
    place: usize,
) -> Result<(), AllocError>
    ensures { OnOk result (out.new.items ≡ out.old.items ++ marked (codes " ") (plain.text_if
        (filled_names (names_if (slice_get (domain_of domain.now).rules obstacle.now.rule))
        (values_of obstacle.now.values))
        (parts.part_at (domain_of domain.now).rules obstacle.now.rule obstacle.now.branch place))) }
{
    let text = text_at(*out.allocator(), domain, obstacle, place)?;
    push_spaced(out, text.as_slice())
}

/// That nothing satisfies the part at a place.
fn push_part(
    out: &mut Vec<u8>,
    file: &Text,
    domain: &Domain,
    obstacle: &Obstacle,
    place: usize,
) -> Result<(), AllocError>
    ensures { OnOk result (out.new.items ≡ out.old.items
        ++ plain.part_words (file_of file.now) (domain_of domain.now).rules (obstacle_of obstacle.now) place) }
{
    let span = part_span_at(domain, obstacle.rule, obstacle.branch, place);
    push_beginning(out, file, span)?;
    out.extend_from_slice(b" nothing satisfies")?;
    push_text(out, domain, obstacle, place)
}

fn push_unmet(
    out: &mut Vec<u8>,
    file: &Text,
    domain: &Domain,
    obstacle: &Obstacle,
) -> Result<(), AllocError>
    ensures { OnOk result (out.new.items ≡ out.old.items ++ plain.unmet_words (file_of file.now)
        (domain_of domain.now).rules (obstacle_of obstacle.now) (obstacle_of obstacle.now).unmet) }
{
    match obstacle.unmet {
        Unmet::None => Ok(()),
        Unmet::Head => Ok(()),
        Unmet::Part(place) => push_part(out, file, domain, obstacle, place),
        Unmet::Unknown => Ok(()),
    }
}

/// What keeps a task from being done.
fn push_words(
    out: &mut Vec<u8>,
    file: &Text,
    domain: &Domain,
    obstacle: Option<&Obstacle>,
) -> Result<(), AllocError>
    ensures { OnOk result (out.new.items ≡ out.old.items ++ plain.failing_words (file_of file.now)
        (domain_of domain.now).rules (option_map (λ o. obstacle_of o.now) obstacle.entry)) }
{
    match obstacle {
        Some(obstacle) => push_unmet(out, file, domain, obstacle),
        None => out.extend_from_slice(b"no operator and no method has this name"),
    }
}

fn push_failing(
    out: &mut Vec<u8>,
    file: &Text,
    domain: &Domain,
    level: usize,
    failing: &Failing<'_>,
) -> Result<(), AllocError>
    ensures { OnOk result (out.new.items ≡ out.old.items ++ plain.failing_line (file_of file.now)
        (domain_of domain.now).rules level (failing_of failing.now)) }
{
    push_indent(out, level)?;
    out.extend_from_slice(b"  ")?;
    push_ground(out, failing.task)?;
    out.extend_from_slice(b"  ")?;
    push_words(out, file, domain, failing.obstacle)?;
    out.extend_from_slice(b"\n")
}

// ---- the first lines

fn push_each(
    out: &mut Vec<u8>,
    file: &Text,
    domain: &Domain,
    level: usize,
    failing: &[Failing<'_>],
) -> Result<(), AllocError>
    ensures { OnOk result (out.new.items ≡ out.old.items ++ flat_map (plain.failing_line (file_of file.now)
        (domain_of domain.now).rules level) (map failing_of failing.now)) }
{
    for one in failing {
        push_failing(out, file, domain, level, one)?;
    }
    Ok(())
}

/// Those that have a line, as at most so many are shown.
fn first_failing<'a, 'b>(failing: &'b [Failing<'a>]) -> &'b [Failing<'a>]
    ensures { map failing_of result.now ≡ take LINES_SHOWN (map failing_of failing.now) }
{
    if failing.len() <= LINES_SHOWN {
        return failing;
    }
    &failing[..LINES_SHOWN]
}

/// How many of so many have no line.
fn left_out(count: usize) -> usize
    ensures { result ≡ count - LINES_SHOWN }
{
    count.saturating_sub(LINES_SHOWN)
}

/// How many lines are left out, where any are.
fn push_more(out: &mut Vec<u8>, level: usize, count: usize) -> Result<(), AllocError>
    ensures { OnOk result (out.new.items ≡ out.old.items ++ plain.more_line level count) }
{
    if count == 0 {
        return Ok(());
    }
    push_indent(out, level)?;
    out.extend_from_slice(b"  and ")?;
    push_number(out, count)?;
    out.extend_from_slice(b" more\n")
}

fn push_first(
    out: &mut Vec<u8>,
    file: &Text,
    domain: &Domain,
    level: usize,
    failing: &[Failing<'_>],
) -> Result<(), AllocError>
    ensures { OnOk result (out.new.items ≡ out.old.items ++ plain.failing_text (file_of file.now)
        (domain_of domain.now).rules level (map failing_of failing.now)) }
{
    push_each(out, file, domain, level, first_failing(failing))?;
    push_more(out, level, left_out(failing.len()))
}

/// What fails at a dead end of a level.
pub(crate) fn push_stuck(
    out: &mut Vec<u8>,
    file: &Text,
    domain: &Domain,
    level: usize,
    stuck: &[Stuck],
) -> Result<(), AllocError>
    ensures { OnOk result (out.new.items ≡ out.old.items ++ plain.stuck_text (file_of file.now)
        (domain_of domain.now).rules level (map stuck_of stuck.now)) }
{
    let failing = all_failing(*out.allocator(), stuck)?;
    push_first(out, file, domain, level, failing.as_slice())
}
