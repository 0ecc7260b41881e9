//! What is said of the axioms that have the name of an unmet atom.
ghost use Rattle.std.specs.Prelude.{◌≡◌, ◌++◌, OnOk, Some, map, option_map};
ghost use Rattle.std.specs.List.{flat_map};
ghost use Rattle.hp_syntax.specs.Views.{domain_of, rule_of};
ghost use Rattle.hp_choice.specs.FirstSatisfier.{values_of};
ghost use Rattle.hp_doctor.specs.Explained.{told_in};
ghost use Rattle.hp_doctor.specs.Texts.{texts_of};
ghost use Rattle.hp_obstacles.specs.Facts.{kept};
ghost use Rattle.hp_obstacles.specs.Obstacles.{unconcluded_of};
ghost use Rattle.hp_doctor_why.specs.Filled.{filled_at};
ghost use Rattle.hp_doctor_why.specs.Said as plain;

use crate::filled::push_filled_at;
use crate::phrases::{AXIOM_UNMET, CONCLUDES, NOT_CONCLUDED, OTHER_CONCLUDED, UNKNOWN};
use crate::places::{head_span_at, part_span_at, span_at};
use crate::tasks::push_facts_if;
use hp_doctor::{Texts, push_in};
use hp_obstacles::{Obstacle, Unconcluded, is_negated_at, name_at};
use hp_syntax::{Domain, Name, Rule};
use hp_unmet::Unmet;
use std::alloc::AllocError;

/// Puts that an axiom concludes atoms of a name after other bytes, where it does.
fn push_axiom(out: &mut Vec<u8>, files: &Texts, name: &Name, rule: &Rule) -> Result<(), AllocError>
    ensures { OnOk result (out.new.items
        ≡ out.old.items ++ plain.axiom_text (texts_of files.now) CONCLUDES.now name.now (rule_of rule.now)) }
{
    match rule {
        Rule::Axiom(axiom) if axiom.head.name == *name => {
            push_in(out, Some(&files.domain), Some(axiom.head.span), CONCLUDES)
        }
        Rule::Axiom(_) => Ok(()),
        Rule::Operator(_) => Ok(()),
        Rule::Method(_) => Ok(()),
    }
}

/// Puts the axioms that conclude atoms of a name after other bytes.
fn push_axioms(
    out: &mut Vec<u8>,
    files: &Texts,
    rules: &[Rule],
    name: &Name,
) -> Result<(), AllocError>
    ensures { OnOk result (out.new.items ≡ out.old.items
        ++ flat_map (plain.axiom_text (texts_of files.now) CONCLUDES.now name.now) (map rule_of rules.now)) }
{
    for rule in rules {
        push_axiom(out, files, name, rule)?;
    }
    Ok(())
}

/// Puts the axioms that conclude atoms of the name for whose negation the part at a place asks after other bytes.
pub fn push_concluding_at(
    out: &mut Vec<u8>,
    files: &Texts,
    domain: &Domain,
    obstacle: &Obstacle,
    place: usize,
) -> Result<(), AllocError>
    ensures { OnOk result (out.new.items ≡ out.old.items ++ plain.concluding_at (texts_of files.now)
        (domain_of domain.now) obstacle.now.rule obstacle.now.branch place) }
{
    if !is_negated_at(domain, obstacle.rule, obstacle.branch, place) {
        return Ok(());
    }
    match name_at(domain, obstacle.rule, obstacle.branch, place) {
        Some(name) => push_axioms(out, files, domain.rules.as_slice(), name),
        None => Ok(()),
    }
}

/// Puts the part at a place of a branch of an axiom after other bytes, which nothing satisfies.
fn push_part(
    out: &mut Vec<u8>,
    files: &Texts,
    domain: &Domain,
    axiom: &Unconcluded,
    place: usize,
) -> Result<(), AllocError>
    ensures { OnOk result (out.new.items ≡ out.old.items ++ plain.unconcluded_by (texts_of files.now)
        (domain_of domain.now) (unconcluded_of axiom.now) (Unmet.Part place)) }
{
    let span = part_span_at(domain, axiom.rule, axiom.branch, place);
    push_in(out, Some(&files.domain), span, AXIOM_UNMET)?;
    let values = axiom.values.as_slice();
    push_filled_at(out, domain, axiom.rule, axiom.branch, place, values)?;
    push_facts_if(out, &axiom.facts)
}

/// Puts what keeps a branch of an axiom from concluding an atom after other bytes.
fn push_unconcluded(
    out: &mut Vec<u8>,
    files: &Texts,
    domain: &Domain,
    axiom: &Unconcluded,
) -> Result<(), AllocError>
    ensures { OnOk result (out.new.items ≡ out.old.items ++ plain.unconcluded_text (texts_of files.now)
        (domain_of domain.now) (unconcluded_of axiom.now)) }
{
    match axiom.unmet {
        Unmet::None => {
            let span = span_at(domain, axiom.rule, axiom.branch);
            push_in(out, Some(&files.domain), span, OTHER_CONCLUDED)
        }
        Unmet::Head => {
            let span = head_span_at(domain, axiom.rule);
            push_in(out, Some(&files.domain), span, NOT_CONCLUDED)
        }
        Unmet::Part(place) => push_part(out, files, domain, axiom, place),
        Unmet::Unknown => {
            let span = span_at(domain, axiom.rule, axiom.branch);
            push_in(out, Some(&files.domain), span, UNKNOWN)
        }
    }
}

/// Puts what keeps branches of axioms from concluding an atom after other bytes.
pub fn push_all_unconcluded(
    out: &mut Vec<u8>,
    files: &Texts,
    domain: &Domain,
    axioms: &[Unconcluded],
) -> Result<(), AllocError>
    ensures { OnOk result (out.new.items ≡ out.old.items
        ++ flat_map (plain.unconcluded_text (texts_of files.now) (domain_of domain.now))
        (map unconcluded_of axioms.now)) }
{
    for axiom in axioms {
        push_unconcluded(out, files, domain, axiom)?;
    }
    Ok(())
}
