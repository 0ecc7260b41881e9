//! Telling how far a plan can be derived.
ghost use Rattle.std.specs.Prelude.{◌≡◌, ◌≤◌, IfErr, OnOk, IfOk, Some, map};
ghost use Rattle.hp_code.specs.Codes.{code_of};
ghost use Rattle.hp_code.specs.CodeViews.{IsCodeOf};
ghost use Rattle.hp_doctor.specs.Accepting.{IsAccepted};
ghost use Rattle.hp_doctor.specs.Linted.{Tells};
ghost use Rattle.hp_doctor.specs.Texts.{texts_of};
ghost use Rattle.hp_out.specs.Writing.{sink_run};
ghost use Rattle.hp_syntax.specs.declared.limits.TheConstants.{GREATEST_DEPTH, MOST_LEVELS};
ghost use Rattle.hp_syntax.specs.Checks.{domain_faults, first_of};
ghost use Rattle.hp_syntax.specs.GroundPatterns.{IsGroundPair};
ghost use Rattle.hp_syntax.specs.Numbered.{IsNumberedDomain};
ghost use Rattle.hp_syntax.specs.Views.{domain_of, pair_of, problem_of};
ghost use Rattle.hp_doctor_tree.specs.TreeTold.{TellsOf};
ghost use Rattle.hp_doctor_derive.specs.Plans.{IsPlanIf, plan_of, text_given};
ghost use Rattle.hp_doctor_derive.specs.Said.{derive_text};
ghost use Rattle.hp_doctor_derive.specs.Told.{IsDeriveOf, TellsDerived, end_status};

use crate::plans::{Plan, plan_given};
use crate::stops::{Found, found_of};
use crate::words::push_derive;
use hp_code::lower;
use hp_doctor::{Accepted, Stop, Texts, accept, refuse, status_told, write};
use hp_doctor_tree::pair_at;
use hp_doctor_why::Search;
use hp_following::FollowEnd;
use hp_io::Sink;
use hp_laws::pair_laws::{accepted_domains_are_checked, accepted_pairs_are_ground};
use hp_out::Refusal;
use hp_syntax::laws::forms_are_numbered;
use hp_syntax::{Domain, Pair, Status};
use std::alloc::Global;

/// What is asked of a plan: the depth, how deep axioms may call one another, and the number of the pair, from 1 on.
#[derive(Clone, Copy, Debug)]
pub struct Asked {
    pub depth: u32,
    pub nest: u32,
    pub pair: u64,
}

/// The status by how the walk along the plan ended.
fn end_status(end: FollowEnd) -> Status
    ensures { result ≡ end_status end }
{
    match end {
        FollowEnd::Derived => Status::Done,
        FollowEnd::Whole => Status::NoPlan,
        FollowEnd::Cut => Status::CutShort,
        FollowEnd::Fault(_) => Status::RunFault,
    }
}

/// Writes where the plan stops, and answers the status.
fn tell_found<K: Sink>(
    alloc: Global,
    files: &Texts,
    domain: &Domain,
    plan: &Plan,
    depth: u32,
    found: &Found,
    out: &mut K,
) -> Status
    ensures tells { Tells (
      derive_text (texts_of files.now) (domain_of domain.now) (plan_of plan.now) depth found.now,
      end_status found.now.following.end,
    ) result (sink_run (K.faults out.old) (K.faults out.new) (K.bytes out.old) (K.bytes out.new)) }
    ensures later { K.faults out.old ≤ K.faults out.new }
{
    let mut text = Vec::new(alloc);
    match push_derive(&mut text, files, domain, plan, depth, found) {
        Ok(()) => {
            let told = write(out, text.as_slice());
            status_told(told, end_status(found.following.end))
        }
        Err(_) => Status::NoMemory,
    }
}

/// Walks along the plan in the tree of a pair, and writes where it stops.
fn answer_pair<K: Sink>(
    alloc: Global,
    files: &Texts,
    domain: &Domain,
    pair: &Pair,
    plan: &Plan,
    asked: Asked,
    out: &mut K,
) -> Status
    requires numbered { IsNumberedDomain (domain_of domain.now) }
    requires checked { first_of (domain_faults (domain_of domain.now)) ≡ None }
    requires pair { IsGroundPair (pair_of pair.now) }
    requires depth { asked.depth ≤ GREATEST_DEPTH }
    requires nest { asked.nest ≤ MOST_LEVELS }
    ensures tells { TellsOf (IsDeriveOf (texts_of files.now) asked (domain_of domain.now) (pair_of pair.now)
        (plan_of plan.now)) result
        (sink_run (K.faults out.old) (K.faults out.new) (K.bytes out.old) (K.bytes out.new)) }
    ensures later { K.faults out.old ≤ K.faults out.new }
{
    let Ok(code) = lower(alloc, domain) else {
        return Status::NoMemory;
    };
    let search = Search {
        domain,
        code: &code,
        pair,
        depth: asked.depth,
        nest: asked.nest,
    };
    match found_of(alloc, search, plan.steps.as_slice()) {
        Ok(found) => tell_found(alloc, files, domain, plan, asked.depth, &found, out),
        Err(_) => Status::NoMemory,
    }
}

/// Writes what is told of a plan that is read.
fn answer_plan<K: Sink>(
    alloc: Global,
    files: &Texts,
    accepted: &Accepted,
    plan: &Plan,
    asked: Asked,
    out: &mut K,
) -> Status
    requires accepted { IsAccepted (texts_of files.now) (domain_of accepted.now.domain)
        (problem_of accepted.now.problem) }
    requires plan { IsPlanIf (text_given (texts_of files.now)) (plan_of plan.now) }
    requires depth { asked.depth ≤ GREATEST_DEPTH }
    requires nest { asked.nest ≤ MOST_LEVELS }
    ensures tells { TellsDerived (texts_of files.now) asked result
        (sink_run (K.faults out.old) (K.faults out.new) (K.bytes out.old) (K.bytes out.new)) }
    ensures later { K.faults out.old ≤ K.faults out.new }
{
    // Nothing runs here: the laws make known that what is accepted can be compiled and walked.
    forms_are_numbered();
    accepted_domains_are_checked();
    accepted_pairs_are_ground();
    let pairs = accepted.problem.pairs.as_slice();
    match pair_at(pairs, asked.pair) {
        Some(pair) => answer_pair(alloc, files, &accepted.domain, pair, plan, asked, out),
        None => {
            let refusal = Refusal::NoPair(asked.pair, pairs.len() as u64);
            refuse(alloc, files, refusal, out)
        }
    }
}

/// Reads the plan of files whose domain and problem are accepted, and writes what is told of it.
fn answer_accepted<K: Sink>(
    alloc: Global,
    files: &Texts,
    accepted: &Accepted,
    asked: Asked,
    out: &mut K,
) -> Status
    requires accepted { IsAccepted (texts_of files.now) (domain_of accepted.now.domain)
        (problem_of accepted.now.problem) }
    requires depth { asked.depth ≤ GREATEST_DEPTH }
    requires nest { asked.nest ≤ MOST_LEVELS }
    ensures tells { TellsDerived (texts_of files.now) asked result
        (sink_run (K.faults out.old) (K.faults out.new) (K.bytes out.old) (K.bytes out.new)) }
    ensures later { K.faults out.old ≤ K.faults out.new }
{
    match plan_given(alloc, files) {
        Ok(plan) => answer_plan(alloc, files, accepted, &plan, asked, out),
        Err(Stop::Refused(refusal)) => refuse(alloc, files, refusal, out),
        Err(Stop::NoMemory) => Status::NoMemory,
    }
}

/// Reads and checks a domain and a problem as the planner does, then a plan, and walks along the plan in the tree of one
/// of the pairs, down to a depth. Writes the path of the plan where it is derived, else how many of its steps are done,
/// where, which step can't be done next, and what may be done next there. Of each task that may be, it is written what
/// keeps the operators and branches of its name from doing it. Where the planner would refuse the files, its line is
/// written with what it means. The status is that of verifying the plan.
pub fn derive<K: Sink>(alloc: Global, files: &Texts, asked: Asked, out: &mut K) -> Status
    requires depth { asked.depth ≤ GREATEST_DEPTH }
    requires nest { asked.nest ≤ MOST_LEVELS }
    // All that there is to tell was written, or, after memory ran out, a prefix of it, and after a fault of the sink a
    // proper one. There is no other status than that of what is told and those two.
    ensures tells { TellsDerived (texts_of files.now) asked result
        (sink_run (K.faults out.old) (K.faults out.new) (K.bytes out.old) (K.bytes out.new)) }
    ensures sink_count { K.faults out.old ≤ K.faults out.new }
{
    match accept(alloc, files) {
        Ok(accepted) => answer_accepted(alloc, files, &accepted, asked, out),
        Err(Stop::Refused(refusal)) => refuse(alloc, files, refusal, out),
        Err(Stop::NoMemory) => Status::NoMemory,
    }
}
