//! What deeds are by their rules, and what they cost.

ghost use Rattle.std.specs.Prelude.{◌≡◌, ◌+◌, ◌-◌, ◌^◌, ◌<◌, ◌++◌, None, Some, OnOk, IfOk, codes, decimal, map, option_map, slice_get, slice_index};
ghost use Rattle.std.specs.Option.{option_copied};
ghost use Rattle.hp_syntax.specs.Views.{branch_of, domain_of, method_of, rule_of};
ghost use Rattle.hp_way.specs.Ways.{deed_of};
ghost use Rattle.hp_doctor_tree.specs.Deeds.{branch_by, branch_words, cost_before, cost_of, count_on, is_step, last_of, named_branch, own_cost, step_words, steps_from, sum_words};

use crate::words::{push_amount, push_number};
use hp_syntax::{Branch, Domain, Method, Name, Rule};
use hp_way::Deed;
use std::alloc::{AllocError, Global};

/// The deed of a number, if there is one.
pub(crate) fn deed_at(deeds: &[Deed], number: usize) -> Option<&Deed>
    ensures { option_map (λ d. deed_of d.now) result ≡ slice_get (map deed_of deeds.now) number }
{
    deeds.get(number)
}

/// The rule of a number, if there is one.
pub fn rule_at(domain: &Domain, number: usize) -> Option<&Rule>
    ensures { option_map (λ r. rule_of r.now) result ≡ slice_get (domain_of domain.now).rules number }
{
    domain.rules.get(number)
}

/// The branch of a number, if there is one.
fn branch_at(method: &Method, number: usize) -> Option<&Branch>
    ensures { option_map (λ b. branch_of b.now) result ≡ slice_get (method_of method.now).branches number }
{
    method.branches.get(number)
}

/// Whether a deed by this rule is a step.
fn is_operator(rule: &Rule) -> bool
    ensures { result ≡ is_step (Some (rule_of rule.now)) }
{
    match rule {
        Rule::Operator(_) => true,
        Rule::Method(_) => false,
        Rule::Axiom(_) => false,
    }
}

/// Whether a deed by this rule is a step, where the rule is there.
fn is_step(rule: Option<&Rule>) -> bool
    ensures { result ≡ is_step (option_map (λ r. rule_of r.now) rule.entry) }
{
    match rule {
        Some(rule) => is_operator(rule),
        None => false,
    }
}

/// How many steps there are with one deed more.
fn count_on(count: usize, step: bool) -> usize
    requires { count < 2 ^ 64 - 1 }
    ensures { result ≡ count_on count step }
{
    if step { count + 1 } else { count }
}

/// How many steps there are up to each deed.
pub(crate) fn steps(
    alloc: Global,
    domain: &Domain,
    deeds: &[Deed],
) -> Result<Vec<usize>, AllocError>
    ensures { IfOk result (λ v. v.items ≡ steps_from (domain_of domain.now).rules 0 (map deed_of deeds.now)) }
{
    let mut steps = Vec::new(alloc);
    let mut count = 0;
    for deed in deeds {
        count = count_on(count, is_step(rule_at(domain, deed.rule)));
        steps.push(count)?;
    }
    Ok(steps)
}

/// What the steps up to a deed cost, 0 where there is none.
fn cost_of(deed: Option<&Deed>) -> i128
    ensures { result ≡ cost_of (option_map (λ d. deed_of d.now) deed.entry) }
{
    match deed {
        Some(deed) => deed.cost,
        None => 0,
    }
}

/// What the steps before a deed cost.
fn cost_before(deeds: &[Deed], number: usize) -> i128
    ensures { result ≡ cost_before (map deed_of deeds.now) number }
{
    if number == 0 {
        return 0;
    }
    cost_of(deed_at(deeds, number - 1))
}

/// What a deed costs itself.
fn own_cost(deeds: &[Deed], number: usize) -> i128
    ensures { result ≡ own_cost (map deed_of deeds.now) number }
{
    cost_of(deed_at(deeds, number)).saturating_sub(cost_before(deeds, number))
}

/// How many steps there are up to a deed.
fn step_at(steps: &[usize], number: usize) -> usize
    ensures { result ≡ slice_index steps.now number }
{
    if number < steps.len() {
        steps[number]
    } else {
        0
    }
}

/// The step that a deed is, from 1 on, and what it costs.
pub(crate) fn push_step(
    out: &mut Vec<u8>,
    steps: &[usize],
    deeds: &[Deed],
    number: usize,
) -> Result<(), AllocError>
    ensures { OnOk result (out.new.items ≡ out.old.items ++ step_words steps.now (map deed_of deeds.now) number) }
{
    out.extend_from_slice(b"step ")?;
    push_number(out, step_at(steps, number))?;
    out.extend_from_slice(b" cost ")?;
    push_amount(out, own_cost(deeds, number))
}

/// The name of a branch, or its number where it has none and there are several.
pub(crate) fn push_branch(
    out: &mut Vec<u8>,
    method: &Method,
    number: usize,
) -> Result<(), AllocError>
    ensures { OnOk result (out.new.items ≡ out.old.items ++ branch_words (method_of method.now).branches number) }
{
    push_branch_by(
        out,
        method.branches.len(),
        number,
        branch_at(method, number),
    )
}

fn push_branch_by(
    out: &mut Vec<u8>,
    count: usize,
    number: usize,
    branch: Option<&Branch>,
) -> Result<(), AllocError>
    ensures { OnOk result (out.new.items
        ≡ out.old.items ++ branch_by count number (option_map (λ b. branch_of b.now) branch.entry)) }
{
    match branch {
        Some(branch) => push_named(out, count, number, branch.name.as_ref()),
        None => Ok(()),
    }
}

fn push_named(
    out: &mut Vec<u8>,
    count: usize,
    number: usize,
    name: Option<&Name>,
) -> Result<(), AllocError>
    ensures { OnOk result (out.new.items ≡ out.old.items ++ named_branch count number (option_copied name.entry)) }
{
    match name {
        Some(name) => {
            out.extend_from_slice(b"branch ")?;
            out.extend_from_slice(name.bytes())
        }
        None => push_unnamed(out, count, number),
    }
}

fn push_unnamed(out: &mut Vec<u8>, count: usize, number: usize) -> Result<(), AllocError>
    ensures { OnOk result (out.new.items ≡ out.old.items ++ named_branch count number None) }
{
    if count > 1 {
        push_numbered(out, number)
    } else {
        Ok(())
    }
}

fn push_numbered(out: &mut Vec<u8>, number: usize) -> Result<(), AllocError>
    ensures { OnOk result (out.new.items ≡ out.old.items ++ codes "branch " ++ decimal (number + 1)) }
{
    let Some(from_one) = number.checked_add(1) else {
        return Err(AllocError);
    };
    out.extend_from_slice(b"branch ")?;
    push_number(out, from_one)
}

/// What all steps cost, and how many they are.
pub(crate) fn push_sum(out: &mut Vec<u8>, steps: &[usize], deeds: &[Deed]) -> Result<(), AllocError>
    ensures { OnOk result (out.new.items ≡ out.old.items ++ sum_words steps.now (map deed_of deeds.now)) }
{
    out.extend_from_slice(b"cost ")?;
    push_amount(out, cost_before(deeds, deeds.len()))?;
    out.extend_from_slice(b" steps ")?;
    push_number(out, last_of(steps))
}

/// The last of some numbers, or 0.
fn last_of(numbers: &[usize]) -> usize
    ensures { result ≡ last_of 0 numbers.now }
{
    let mut last = 0;
    for number in numbers {
        last = *number;
    }
    last
}
