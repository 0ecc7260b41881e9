//! What is said of what was at fault, where a fault ended a search.
ghost use Rattle.std.specs.Prelude.{◌≡◌, ◌++◌, OnOk, Some, map, option_map, slice_get};
ghost use Rattle.hp_syntax.specs.GroundViews.{ground_of};
ghost use Rattle.hp_syntax.specs.Views.{atom_of, domain_of, expression_of};
ghost use Rattle.hp_choice.specs.FirstSatisfier.{values_of};
ghost use Rattle.hp_blame.specs.Blames.{blame_kept, culprit_kept};
ghost use Rattle.hp_doctor.specs.Texts.{texts_of};
ghost use Rattle.hp_unmet.specs.Conjunctions.{asked_in};
ghost use Rattle.hp_unmet.specs.Trials.{conjunction_of};
ghost use Rattle.hp_doctor_why.specs.Blamed as plain;
ghost use Rattle.hp_doctor_why.specs.Filled.{filled_names};
ghost use Rattle.hp_doctor_why.specs.Said.{span_at};

use crate::filled::filled_names;
use crate::phrases::{FILLED, FROM, FROM_TASK, NO_VALUE, RULE_AT_FAULT, TASK_AT_FAULT};
use crate::places::span_at;
use crate::tasks::push_term;
use hp_blame::{Blame, Culprit, atom_mentions, mentions};
use hp_doctor::{Texts, push_in};
use hp_print::{atom_pat_text, pat_text};
use hp_syntax::{AtomPat, Domain, Expr, ExprKind, Ground, Name};
use hp_unmet::{Parts, asked_in};
use std::alloc::AllocError;

/// The parts of a precondition, the names of its variables with their values filled in, and what was at fault there.
#[derive(Clone, Copy)]
struct Scene<'a> {
    asked: Parts<'a>,
    names: &'a [Name],
    culprit: &'a Culprit,
}

fn source_in(part: &Expr, variable: usize) -> Option<&AtomPat>
    ensures { option_map (λ a. atom_of a.now) result ≡ plain.source_in variable (expression_of part.now) }
{
    match &part.kind {
        ExprKind::Atom(atom) if atom_mentions(atom, variable) => Some(atom),
        ExprKind::Atom(_) => None,
        ExprKind::And(_) => None,
        ExprKind::Or(_) => None,
        ExprKind::Not(_) => None,
        ExprKind::Forall(_, _, _) => None,
        ExprKind::Assign(_, _) => None,
        ExprKind::Call(_) => None,
    }
}

fn source_at(parts: &[Expr], variable: usize, place: usize) -> Option<&AtomPat>
    ensures { option_map (λ a. atom_of a.now) result
        ≡ plain.source_at variable (map expression_of parts.now) place }
{
    match parts.get(place) {
        Some(part) => source_in(part, variable),
        None => None,
    }
}

/// The first atom among so many parts in which a variable stands.
fn source(parts: &[Expr], variable: usize, before: usize) -> Option<&AtomPat>
    ensures { option_map (λ a. atom_of a.now) result ≡ plain.source variable (map expression_of parts.now) before }
{
    for place in 0..before {
        match source_at(parts, variable, place) {
            Some(atom) => return Some(atom),
            None => {}
        }
    }
    None
}

/// Puts the atom from which a value comes after other bytes, where there is one.
fn push_from_part(
    out: &mut Vec<u8>,
    names: &[Name],
    source: Option<&AtomPat>,
) -> Result<(), AllocError>
    ensures { OnOk result (out.new.items
        ≡ out.old.items ++ plain.from_part names.now (option_map (λ a. atom_of a.now) source.entry)) }
{
    match source {
        Some(atom) => {
            let text = atom_pat_text(*out.allocator(), atom, names)?;
            out.extend_from_slice(FROM)?;
            out.extend_from_slice(text.as_slice())
        }
        None => Ok(()),
    }
}

/// Puts where the value of a variable comes from after other bytes.
fn push_from(out: &mut Vec<u8>, scene: Scene<'_>, variable: usize) -> Result<(), AllocError>
    ensures { OnOk result (out.new.items ≡ out.old.items ++ plain.from_text scene.entry.names.now variable
        (conjunction_of scene.entry.asked) scene.entry.culprit.now.before) }
{
    if atom_mentions(scene.asked.head, variable) {
        return out.extend_from_slice(FROM_TASK);
    }
    let found = source(scene.asked.parts, variable, scene.culprit.before);
    push_from_part(out, scene.names, found)
}

fn push_no_value(out: &mut Vec<u8>, name: &Name) -> Result<(), AllocError>
    ensures { OnOk result (out.new.items ≡ out.old.items ++ (name.now ++ NO_VALUE.now)) }
{
    out.extend_from_slice(name.bytes())?;
    out.extend_from_slice(NO_VALUE)
}

fn push_value(
    out: &mut Vec<u8>,
    scene: Scene<'_>,
    variable: usize,
    name: &Name,
    value: &Ground,
) -> Result<(), AllocError>
    ensures { OnOk result (out.new.items ≡ out.old.items ++ plain.value_text name.now
        (plain.from_text scene.entry.names.now variable (conjunction_of scene.entry.asked)
        scene.entry.culprit.now.before) (Some (Some (ground_of value.now)))) }
{
    out.extend_from_slice(name.bytes())?;
    out.extend_from_slice(b" is ")?;
    push_term(out, value)?;
    push_from(out, scene, variable)?;
    out.extend_from_slice(b"\n")
}

/// Puts what a variable of the pattern is after other bytes, and of any other variable nothing.
fn push_variable(
    out: &mut Vec<u8>,
    scene: Scene<'_>,
    variable: usize,
    name: &Name,
) -> Result<(), AllocError>
    requires names { scene.names.now ≡ filled_names scene.asked.vars.now (values_of scene.culprit.now.values) }
    ensures { OnOk result (out.new.items ≡ out.old.items ++ plain.variable_text (conjunction_of scene.entry.asked)
        (culprit_kept scene.entry.culprit.now) variable name.now) }
{
    if !mentions(&scene.culprit.pattern, variable) {
        return Ok(());
    }
    match scene.culprit.values.get(variable) {
        Some(Some(value)) => push_value(out, scene, variable, name, value),
        Some(None) => push_no_value(out, name),
        None => push_no_value(out, name),
    }
}

/// Puts what each variable of the pattern is after other bytes.
fn push_variables(out: &mut Vec<u8>, scene: Scene<'_>) -> Result<(), AllocError>
    requires names { scene.names.now ≡ filled_names scene.asked.vars.now (values_of scene.culprit.now.values) }
    ensures { OnOk result (out.new.items ≡ out.old.items ++ plain.variables_from (conjunction_of scene.entry.asked)
        (culprit_kept scene.entry.culprit.now) 0 scene.entry.asked.vars.now) }
{
    for (variable, name) in scene.asked.vars.iter().enumerate() {
        push_variable(out, scene, variable, name)?;
    }
    Ok(())
}

/// Puts the pattern with the values of its variables after other bytes.
fn push_pattern(out: &mut Vec<u8>, scene: Scene<'_>) -> Result<(), AllocError>
    requires names { scene.names.now ≡ filled_names scene.asked.vars.now (values_of scene.culprit.now.values) }
    ensures { OnOk result (out.new.items ≡ out.old.items ++ plain.pattern_line (conjunction_of scene.entry.asked)
        (culprit_kept scene.entry.culprit.now)) }
{
    let text = pat_text(*out.allocator(), &scene.culprit.pattern, scene.names)?;
    out.extend_from_slice(FILLED)?;
    out.extend_from_slice(text.as_slice())?;
    out.extend_from_slice(b"\n")
}

/// Puts the pattern and what its variables are after other bytes.
fn push_scene(out: &mut Vec<u8>, asked: Parts<'_>, culprit: &Culprit) -> Result<(), AllocError>
    ensures { OnOk result (out.new.items ≡ out.old.items
        ++ plain.culprit_text (culprit_kept culprit.now) (Some (conjunction_of asked.entry))) }
{
    let names = filled_names(*out.allocator(), asked.vars, culprit.values.as_slice())?;
    let scene = Scene {
        asked,
        names: names.as_slice(),
        culprit,
    };
    push_pattern(out, scene)?;
    push_variables(out, scene)
}

fn push_culprit(out: &mut Vec<u8>, domain: &Domain, culprit: &Culprit) -> Result<(), AllocError>
    ensures { OnOk result (out.new.items ≡ out.old.items ++ plain.culprit_text (culprit_kept culprit.now)
        (asked_in (domain_of domain.now).rules culprit.now.rule culprit.now.branch)) }
{
    match asked_in(domain, culprit.rule, culprit.branch) {
        Some(asked) => push_scene(out, asked, culprit),
        None => Ok(()),
    }
}

fn push_task_line(out: &mut Vec<u8>, task: &Ground) -> Result<(), AllocError>
    ensures { OnOk result (out.new.items ≡ out.old.items ++ plain.task_line (ground_of task.now)) }
{
    out.extend_from_slice(TASK_AT_FAULT)?;
    push_term(out, task)?;
    out.extend_from_slice(b"\n")
}

/// Puts the place of the rule after other bytes.
fn push_rule_line(
    out: &mut Vec<u8>,
    files: &Texts,
    domain: &Domain,
    culprit: &Culprit,
) -> Result<(), AllocError>
    ensures { OnOk result (out.new.items ≡ out.old.items
        ++ plain.rule_line (texts_of files.now) (span_at (domain_of domain.now)) (culprit_kept culprit.now)) }
{
    let span = span_at(domain, culprit.rule, culprit.branch);
    push_in(out, Some(&files.domain), span, RULE_AT_FAULT)
}

fn push_known(
    out: &mut Vec<u8>,
    files: &Texts,
    domain: &Domain,
    blame: &Blame,
) -> Result<(), AllocError>
    ensures { OnOk result (out.new.items ≡ out.old.items
        ++ plain.blame_line (texts_of files.now) (domain_of domain.now) (span_at (domain_of domain.now))
        (blame_kept blame.now)) }
{
    push_task_line(out, &blame.task)?;
    push_rule_line(out, files, domain, &blame.culprit)?;
    push_culprit(out, domain, &blame.culprit)
}

/// Puts what was at fault after other bytes, where it is known.
pub fn push_blame(
    out: &mut Vec<u8>,
    files: &Texts,
    domain: &Domain,
    blame: &Option<Blame>,
) -> Result<(), AllocError>
    ensures { OnOk result (out.new.items ≡ out.old.items
        ++ plain.blame_text (texts_of files.now) (domain_of domain.now) (span_at (domain_of domain.now))
        (option_map blame_kept blame.now)) }
{
    match blame {
        Some(blame) => push_known(out, files, domain, blame),
        None => Ok(()),
    }
}
