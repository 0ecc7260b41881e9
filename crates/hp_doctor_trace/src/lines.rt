//! The lines of visits.

ghost use Rattle.std.specs.Prelude.{◌≡◌, ◌++◌, ◌+◌, ◌-◌, ◌<◌, OnOk, Some, codes, decimal, length, map, option_map, slice_get};
ghost use Rattle.hp_doctor.specs.Texts.{file_of, texts_of};
ghost use Rattle.hp_syntax.specs.TermTexts.{term_text};
ghost use Rattle.hp_syntax.specs.Views.{domain_of, operator_of, rule_of};
ghost use Rattle.hp_obstacles.specs.Obstacles.{stuck_of};
ghost use Rattle.hp_way.specs.Ways.{deed_of};
ghost use Rattle.hp_doctor_tree.specs.Words.{place_text};
ghost use Rattle.hp_doctor_trace.specs.Failing.{indent};
ghost use Rattle.hp_doctor_trace.specs.Lines.{closing, dead_text, deed_text, done_words, end_text, line_at, opening, rule_words, seen_text, visit_text};

use crate::stuck::push_stuck;
use hp_doctor::{Text, Texts};
use hp_doctor_tree::{
    push_blanks, push_branch_line, push_fault, push_ground, push_number, push_place, rule_at,
};
use hp_obstacles::Stuck;
use hp_syntax::{Domain, Operator, Rule};
use hp_trace::{Seen, TracedVisit, is_dead_end};
use hp_way::Deed;
use std::alloc::AllocError;

/// Two blanks for each level.
pub(crate) fn push_indent(out: &mut Vec<u8>, level: usize) -> Result<(), AllocError>
    ensures { OnOk result (out.new.items ≡ out.old.items ++ indent level) }
{
    push_blanks(out, level)?;
    push_blanks(out, level)
}

// ---- a decomposition

fn push_operator(out: &mut Vec<u8>, file: &Text, operator: &Operator) -> Result<(), AllocError>
    ensures { OnOk result (out.new.items ≡ out.old.items ++ codes "  "
        ++ place_text (file_of file.now) (operator_of operator.now).head.span.from) }
{
    out.extend_from_slice(b"  ")?;
    push_place(out, file, operator.head.span.from)
}

fn push_own_rule(
    out: &mut Vec<u8>,
    file: &Text,
    branch: usize,
    rule: &Rule,
) -> Result<(), AllocError>
    ensures { OnOk result (out.new.items
        ≡ out.old.items ++ rule_words (file_of file.now) branch (Some (rule_of rule.now))) }
{
    match rule {
        Rule::Operator(operator) => push_operator(out, file, operator),
        Rule::Method(method) => push_branch_line(out, file, method, branch),
        Rule::Axiom(_) => Ok(()),
    }
}

fn push_rule(
    out: &mut Vec<u8>,
    file: &Text,
    branch: usize,
    rule: Option<&Rule>,
) -> Result<(), AllocError>
    ensures { OnOk result (out.new.items ≡ out.old.items
        ++ rule_words (file_of file.now) branch (option_map (λ r. rule_of r.now) rule.entry)) }
{
    match rule {
        Some(rule) => push_own_rule(out, file, branch, rule),
        None => Ok(()),
    }
}

/// The task that was done, and by which rule.
fn push_done(out: &mut Vec<u8>, file: &Text, domain: &Domain, deed: &Deed) -> Result<(), AllocError>
    ensures { OnOk result (out.new.items ≡ out.old.items
        ++ done_words (file_of file.now) (domain_of domain.now).rules (deed_of deed.now)) }
{
    push_ground(out, &deed.task)?;
    push_rule(out, file, deed.branch, rule_at(domain, deed.rule))
}

/// A dead end of a level, and what fails there.
fn push_dead(
    out: &mut Vec<u8>,
    file: &Text,
    domain: &Domain,
    level: usize,
    stuck: &[Stuck],
) -> Result<(), AllocError>
    ensures { OnOk result (out.new.items ≡ out.old.items
        ++ dead_text (file_of file.now) (domain_of domain.now).rules level (map stuck_of stuck.now)) }
{
    push_word(out, level, b"dead end\n")?;
    push_stuck(out, file, domain, level, stuck)
}

/// That a decomposition of a level is a dead end, where it is.
fn push_end(
    out: &mut Vec<u8>,
    file: &Text,
    domain: &Domain,
    level: usize,
    is_dead: bool,
    stuck: &[Stuck],
) -> Result<(), AllocError>
    ensures { OnOk result (out.new.items ≡ out.old.items
        ++ end_text (file_of file.now) (domain_of domain.now).rules level is_dead (map stuck_of stuck.now)) }
{
    if is_dead {
        push_dead(out, file, domain, level, stuck)
    } else {
        Ok(())
    }
}

fn push_deed(
    out: &mut Vec<u8>,
    file: &Text,
    domain: &Domain,
    level: usize,
    deed: &Deed,
) -> Result<(), AllocError>
    ensures { OnOk result (out.new.items ≡ out.old.items
        ++ deed_text (file_of file.now) (domain_of domain.now).rules level (deed_of deed.now)) }
{
    push_indent(out, level.saturating_sub(1))?;
    push_done(out, file, domain, deed)?;
    out.extend_from_slice(b"\n")
}

// ---- a visit

/// A word at a level.
fn push_word(out: &mut Vec<u8>, level: usize, word: &[u8]) -> Result<(), AllocError>
    ensures { OnOk result (out.new.items ≡ out.old.items ++ indent level ++ word.now) }
{
    push_indent(out, level)?;
    out.extend_from_slice(word)
}

fn push_seen(
    out: &mut Vec<u8>,
    files: &Texts,
    domain: &Domain,
    level: usize,
    seen: &Seen,
    is_dead: bool,
    stuck: &[Stuck],
) -> Result<(), AllocError>
    ensures { OnOk result (out.new.items ≡ out.old.items ++ seen_text (texts_of files.now)
        (domain_of domain.now).rules level is_dead (map stuck_of stuck.now) seen.now) }
{
    match seen {
        Seen::Did(deed) => {
            push_deed(out, &files.domain, domain, level, deed)?;
            push_end(out, &files.domain, domain, level, is_dead, stuck)
        }
        Seen::Plan => push_word(out, level, b"plan\n"),
        Seen::DepthCut => push_word(out, level, b"depth cut\n"),
        Seen::LevelCut => push_word(out, level, b"level cut\n"),
        Seen::Fault(fault) => {
            push_indent(out, level)?;
            push_fault(out, files, *fault)
        }
    }
}

fn push_visit(
    out: &mut Vec<u8>,
    files: &Texts,
    domain: &Domain,
    visit: &TracedVisit,
    next: Option<&TracedVisit>,
) -> Result<(), AllocError>
    ensures { OnOk result (out.new.items ≡ out.old.items ++ visit_text (texts_of files.now)
        (domain_of domain.now).rules visit.now (option_map (λ v. v.now) next.entry)) }
{
    let is_dead = is_dead_end(visit.level, next);
    let stuck = visit.stuck.as_slice();
    push_seen(out, files, domain, visit.level, &visit.seen, is_dead, stuck)
}

/// The visit of a number, if there is one.
pub(crate) fn visit_at(visits: &[TracedVisit], number: usize) -> Option<&TracedVisit>
    ensures { option_map (λ v. v.now) result ≡ slice_get visits.now number }
{
    visits.get(number)
}

/// The lines of the visit of a number.
pub(crate) fn push_line(
    out: &mut Vec<u8>,
    files: &Texts,
    domain: &Domain,
    visits: &[TracedVisit],
    number: usize,
) -> Result<(), AllocError>
    requires { number < length visits.now }
    ensures { OnOk result (out.new.items ≡ out.old.items
        ++ line_at (texts_of files.now) (domain_of domain.now).rules visits.now number) }
{
    match visit_at(visits, number) {
        Some(visit) => push_visit(out, files, domain, visit, visit_at(visits, number + 1)),
        None => Ok(()),
    }
}

// ---- before and after

/// What stands before the first visit: without any the root is a dead end.
pub(crate) fn opening(visits: &[TracedVisit]) -> &'static [u8]
    ensures { result.now ≡ opening visits.now }
{
    match visits {
        [] => b"dead end\n",
        [_, ..] => b"",
    }
}

/// How many visits there are, or that these are the first ones.
pub(crate) fn push_closing(out: &mut Vec<u8>, most: usize, count: usize) -> Result<(), AllocError>
    ensures { OnOk result (out.new.items ≡ out.old.items ++ closing most count) }
{
    if most < count {
        out.extend_from_slice(b"first ")?;
        push_number(out, most)?;
        out.extend_from_slice(b" visits\n")
    } else {
        out.extend_from_slice(b"visits ")?;
        push_number(out, count)?;
        out.extend_from_slice(b"\n")
    }
}
