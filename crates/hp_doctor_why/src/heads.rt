//! Where the head of a rule differs from a task.
ghost use Rattle.std.specs.Prelude.{◌≡◌, ◌++◌, OnOk, map, slice_get};
ghost use Rattle.hp_syntax.specs.GroundViews.{ground_of, grounds_of};
ghost use Rattle.hp_syntax.specs.Views.{atom_of, domain_of, rule_of};
ghost use Rattle.hp_doctor.specs.Texts.{texts_of};
ghost use Rattle.hp_doctor_why.specs.Heads as plain;

use crate::filled::rule_names;
use crate::phrases::{NO_MATCH, OTHER_BOUND, OTHER_COUNT, OTHER_PART, OTHER_VALUE};
use hp_doctor::{Texts, push_in};
use hp_mismatch::{Misfit, first_misfit, takes};
use hp_syntax::{AtomPat, Domain, Ground, Rule};
use std::alloc::AllocError;

/// The arguments of a task.
fn arguments(task: &Ground) -> &[Ground]
    ensures { grounds_of result.now ≡ plain.arguments (ground_of task.now) }
{
    match task {
        Ground::List(parts) => match parts.as_slice() {
            [] => &[],
            [_, rest @ ..] => rest,
        },
        Ground::Sym(_) => &[],
        Ground::Num(_) => &[],
    }
}

fn count_sentence(fits: bool) -> &'static [u8]
    ensures { result.now ≡ plain.count_sentence fits }
{
    if fits { NO_MATCH } else { OTHER_COUNT }
}

/// Puts an argument that doesn't match after other bytes, at its place.
fn push_misfit(out: &mut Vec<u8>, files: &Texts, misfit: Misfit) -> Result<(), AllocError>
    ensures { OnOk result (out.new.items ≡ out.old.items ++ plain.misfit_text (texts_of files.now) misfit) }
{
    match misfit {
        Misfit::Value(span) => push_in(out, Some(&files.domain), Some(span), OTHER_VALUE),
        Misfit::Variable(span) => push_in(out, Some(&files.domain), Some(span), OTHER_BOUND),
        Misfit::List(span) => push_in(out, Some(&files.domain), Some(span), OTHER_PART),
    }
}

/// Puts where the head of a rule with so many variables differs from terms after other bytes.
fn push_mismatch(
    out: &mut Vec<u8>,
    files: &Texts,
    vars: usize,
    head: &AtomPat,
    terms: &[Ground],
) -> Result<(), AllocError>
    ensures { OnOk result (out.new.items ≡ out.old.items
        ++ plain.mismatch_text (texts_of files.now) vars (atom_of head.now) (grounds_of terms.now)) }
{
    let misfit = first_misfit(*out.allocator(), head, terms, vars)?;
    match misfit {
        Some(misfit) => push_misfit(out, files, misfit),
        None => {
            let fits = takes(head, terms);
            push_in(
                out,
                Some(&files.domain),
                Some(head.span),
                count_sentence(fits),
            )
        }
    }
}

/// The head of a rule.
fn head_of(rule: &Rule) -> &AtomPat
    ensures { atom_of result.now ≡ plain.head_of (rule_of rule.now) }
{
    match rule {
        Rule::Operator(operator) => &operator.head,
        Rule::Method(method) => &method.head,
        Rule::Axiom(axiom) => &axiom.head,
    }
}

/// Puts where the head of the rule at a place differs from a task after other bytes.
pub fn push_mismatch_at(
    out: &mut Vec<u8>,
    files: &Texts,
    domain: &Domain,
    task: &Ground,
    rule: usize,
) -> Result<(), AllocError>
    ensures { OnOk result (out.new.items ≡ out.old.items
        ++ plain.mismatch_at (texts_of files.now) (domain_of domain.now) (ground_of task.now) rule) }
{
    match domain.rules.get(rule) {
        Some(rule) => {
            let vars = rule_names(rule).len();
            push_mismatch(out, files, vars, head_of(rule), arguments(task))
        }
        None => Ok(()),
    }
}
