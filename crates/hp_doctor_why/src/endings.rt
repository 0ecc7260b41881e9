//! What is said of a pair: how the search for its plan ended, and then of the dead ends.
ghost use Rattle.std.specs.Prelude.{◌≡◌, ◌++◌, OnOk, codes, decimal, option_map};
ghost use Rattle.hp_syntax.specs.Report.{pair_header};
ghost use Rattle.hp_syntax.specs.Views.{domain_of, problem_of};
ghost use Rattle.hp_doctor.specs.declared.finding.Finding.TheVariants.{Met};
ghost use Rattle.hp_doctor.specs.Explained.{finding_text};
ghost use Rattle.hp_doctor.specs.Texts.{texts_of};
ghost use Rattle.hp_doctor_why.specs.Said as plain;

use crate::blamed::push_blame;
use crate::cuts::push_cut;
use crate::ends::push_ends;
use crate::numbers::{push_number, push_path};
use crate::phrases::{
    DEEPER, DEPTH_CUT, FAULT_WITHIN, LEVEL_CUT, MORE_LEVELS, NO_PLAN, NO_PLAN_WITHIN, PLAN,
};
use crate::reasons::Why;
use crate::unserved::push_rules;
use hp_dead_ends::SearchEnd;
use hp_doctor::{Accepted, Finding, Texts, push_in, sentence};
use hp_syntax::RunFault;
use hp_syntax::limits::USUAL_LEVELS;
use itoa::Buffer;
use std::alloc::AllocError;

fn push_expansions(out: &mut Vec<u8>, count: u64) -> Result<(), AllocError>
    ensures { OnOk result (out.new.items ≡ out.old.items ++ plain.expansions_text count) }
{
    out.extend_from_slice(b", after ")?;
    push_number(out, count)?;
    out.extend_from_slice(b" expansions\n")
}

fn push_nest(out: &mut Vec<u8>, nest: u32) -> Result<(), AllocError>
    ensures { OnOk result (out.new.items ≡ out.old.items ++ plain.nest_option nest) }
{
    if nest == USUAL_LEVELS {
        return Ok(());
    }
    out.extend_from_slice(b" --nest ")?;
    push_number(out, u64::from(nest))
}

/// Puts the names of both files after other bytes.
fn push_files(out: &mut Vec<u8>, files: &Texts) -> Result<(), AllocError>
    ensures { OnOk result (out.new.items ≡ out.old.items ++ plain.files_text (texts_of files.now)) }
{
    out.extend_from_slice(files.domain.name)?;
    out.extend_from_slice(b" ")?;
    out.extend_from_slice(files.problem.name)
}

fn push_first_plan(out: &mut Vec<u8>, depth: u32, nest: u32) -> Result<(), AllocError>
    ensures { OnOk result (out.new.items ≡ out.old.items ++ plain.first_plan_text depth nest) }
{
    out.extend_from_slice(b" 1 ")?;
    push_number(out, u64::from(depth))?;
    push_nest(out, nest)
}

/// Puts the command that prints the plan after other bytes.
fn push_plan(out: &mut Vec<u8>, files: &Texts, depth: u32, nest: u32) -> Result<(), AllocError>
    ensures { OnOk result (out.new.items ≡ out.old.items ++ plain.plan_line (texts_of files.now) depth nest) }
{
    out.extend_from_slice(PLAN)?;
    push_files(out, files)?;
    push_first_plan(out, depth, nest)?;
    out.extend_from_slice(b"\n")
}

fn push_within(out: &mut Vec<u8>, depth: u32) -> Result<(), AllocError>
    ensures { OnOk result (out.new.items ≡ out.old.items ++ plain.within_depth depth) }
{
    out.extend_from_slice(NO_PLAN_WITHIN)?;
    push_number(out, u64::from(depth))
}

/// Puts that a fault ended the search after other bytes, and what it means at its place.
fn push_fault(
    out: &mut Vec<u8>,
    files: &Texts,
    depth: u32,
    expansions: u64,
    fault: RunFault,
) -> Result<(), AllocError>
    ensures { OnOk result (out.new.items ≡ out.old.items
        ++ (FAULT_WITHIN.now ++ decimal depth ++ plain.expansions_text expansions
        ++ finding_text (texts_of files.now) (Met fault))) }
{
    out.extend_from_slice(FAULT_WITHIN)?;
    push_number(out, u64::from(depth))?;
    push_expansions(out, expansions)?;
    push_in(
        out,
        Some(&files.domain),
        Some(fault.span),
        sentence(Finding::Met(fault)),
    )
}

/// Puts how the search ended after other bytes.
fn push_ending(
    out: &mut Vec<u8>,
    files: &Texts,
    depth: u32,
    nest: u32,
    end: SearchEnd,
    expansions: u64,
) -> Result<(), AllocError>
    ensures { OnOk result (out.new.items ≡ out.old.items
        ++ plain.ending_text (texts_of files.now) depth nest end expansions) }
{
    match end {
        SearchEnd::Plan => push_plan(out, files, depth, nest),
        SearchEnd::Whole => {
            out.extend_from_slice(NO_PLAN)?;
            push_expansions(out, expansions)
        }
        SearchEnd::Cut => {
            push_within(out, depth)?;
            push_expansions(out, expansions)
        }
        SearchEnd::Fault(fault) => push_fault(out, files, depth, expansions, fault),
    }
}

/// Puts where the depth cut the tree first after other bytes, if it did.
fn push_depth_cut(out: &mut Vec<u8>, path: &Option<Vec<u64>>, depth: u32) -> Result<(), AllocError>
    ensures { OnOk result (out.new.items ≡ out.old.items
        ++ plain.cut_by_depth (option_map (λ p. p.items) path.now) depth) }
{
    let Some(path) = path else {
        return Ok(());
    };
    out.extend_from_slice(b"depth ")?;
    push_number(out, u64::from(depth))?;
    out.extend_from_slice(DEPTH_CUT)?;
    push_path(out, path.as_slice())?;
    out.extend_from_slice(DEEPER)
}

/// Puts where the levels of axioms cut the tree first after other bytes, if they did.
fn push_level_cut(out: &mut Vec<u8>, path: &Option<Vec<u64>>, nest: u32) -> Result<(), AllocError>
    ensures { OnOk result (out.new.items ≡ out.old.items
        ++ plain.cut_by_levels (option_map (λ p. p.items) path.now) nest) }
{
    let Some(path) = path else {
        return Ok(());
    };
    push_number(out, u64::from(nest))?;
    out.extend_from_slice(LEVEL_CUT)?;
    push_path(out, path.as_slice())?;
    out.extend_from_slice(MORE_LEVELS)
}

fn push_cuts(out: &mut Vec<u8>, why: &Why, depth: u32, nest: u32) -> Result<(), AllocError>
    ensures { OnOk result (out.new.items ≡ out.old.items ++ plain.cuts_text why.now depth nest) }
{
    push_depth_cut(out, &why.found.depth_cut, depth)?;
    push_cut(out, &why.cut)?;
    push_level_cut(out, &why.found.level_cut, nest)
}

/// Puts what is said where there is no plan after other bytes.
fn push_no_plan(
    out: &mut Vec<u8>,
    files: &Texts,
    read: &Accepted,
    depth: u32,
    nest: u32,
    why: &Why,
) -> Result<(), AllocError>
    ensures { OnOk result (out.new.items ≡ out.old.items
        ++ plain.no_plan_text (texts_of files.now) (domain_of read.now.domain) (problem_of read.now.problem)
        depth nest why.now) }
{
    push_cuts(out, why, depth, nest)?;
    push_ends(out, files, &read.domain, why)?;
    push_rules(out, files, read, why.reasons.as_slice())
}

/// Puts what is said after the ending after other bytes: where there is a plan, nothing, and after a fault what was at
/// fault first.
fn push_others(
    out: &mut Vec<u8>,
    files: &Texts,
    read: &Accepted,
    depth: u32,
    nest: u32,
    why: &Why,
) -> Result<(), AllocError>
    ensures { OnOk result (out.new.items ≡ out.old.items
        ++ plain.others_text (texts_of files.now) (domain_of read.now.domain) (problem_of read.now.problem)
        depth nest why.now why.now.found.end) }
{
    match why.found.end {
        SearchEnd::Plan => Ok(()),
        SearchEnd::Whole | SearchEnd::Cut => push_no_plan(out, files, read, depth, nest, why),
        SearchEnd::Fault(_) => {
            push_blame(out, files, &read.domain, &why.blame)?;
            push_no_plan(out, files, read, depth, nest, why)
        }
    }
}

/// Puts what is said of a pair after other bytes.
pub fn push_why(
    out: &mut Vec<u8>,
    files: &Texts,
    read: &Accepted,
    depth: u32,
    nest: u32,
    why: &Why,
) -> Result<(), AllocError>
    ensures { OnOk result (out.new.items ≡ out.old.items
        ++ plain.why_text (texts_of files.now) (domain_of read.now.domain) (problem_of read.now.problem)
        depth nest why.now) }
{
    push_ending(out, files, depth, nest, why.found.end, why.found.expansions)?;
    push_others(out, files, read, depth, nest, why)
}

/// Puts the line of one of several pairs after other bytes, by its number from 1 on.
#[tactic(auto, unfolding(hp_syntax::specs::Report::pair_line))]
pub fn push_header(out: &mut Vec<u8>, number: usize, count: usize) -> Result<(), AllocError>
    ensures { OnOk result (out.new.items ≡ out.old.items ++ pair_header number count) }
{
    if count < 2 {
        return Ok(());
    }
    let mut first = Buffer::new();
    let mut second = Buffer::new();
    out.extend_from_slice(b"problem ")?;
    out.extend_from_slice(first.format(number).as_bytes())?;
    out.extend_from_slice(b" of ")?;
    out.extend_from_slice(second.format(count).as_bytes())?;
    out.extend_from_slice(b"\n")
}
