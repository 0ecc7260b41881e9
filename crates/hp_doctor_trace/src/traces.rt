//! Telling the walk of a pair.

ghost use Rattle.std.specs.List.{All};
ghost use Rattle.std.specs.Prelude.{◌≡◌, ◌<◌, ◌≤◌, ◌-◌, ◌^◌, None, OnOk, option_map};
ghost use Rattle.hp_code.specs.CodeViews.{rules_in};
ghost use Rattle.hp_code.specs.Codes.{code_of};
ghost use Rattle.hp_doctor.specs.Accepting.{IsAccepted};
ghost use Rattle.hp_doctor.specs.Linted.{Tells};
ghost use Rattle.hp_doctor.specs.Texts.{texts_of};
ghost use Rattle.hp_out.specs.Writing.{sink_run};
ghost use Rattle.hp_syntax.specs.declared.limits.TheConstants.{GREATEST_DEPTH, MOST_LEVELS};
ghost use Rattle.hp_syntax.specs.Checks.{domain_faults, first_of};
ghost use Rattle.hp_syntax.specs.GroundPatterns.{IsGroundPair};
ghost use Rattle.hp_syntax.specs.Numbered.{IsNumberedDomain};
ghost use Rattle.hp_syntax.specs.Views.{domain_of, pair_of, problem_of};
ghost use Rattle.hp_doctor_tree.specs.TreeTold.{TellsOf};
ghost use Rattle.hp_doctor_trace.specs.TraceTold.{IsTraceOf, TellsTrace, is_absent, seen_status, status_by, trace_answer, trace_status};
ghost use Rattle.hp_doctor_trace.specs.Lines.{trace_text};

use crate::lines::visit_at;
use crate::telling::tell_trace;
use hp_code::laws::compiled_rules_are_a_code;
use hp_code::lower;
use hp_doctor::{Accepted, Stop, Texts, accept, refuse, status_told, write};
use hp_doctor_tree::pair_at;
use hp_io::Sink;
use hp_laws::pair_laws::{accepted_domains_are_checked, accepted_pairs_are_ground};
use hp_out::Refusal;
use hp_syntax::laws::forms_are_numbered;
use hp_syntax::{Domain, Pair, Status};
use hp_trace::{Seen, TracedVisit, trace as trace_of};
use std::alloc::Global;

/// What is told where there is no decomposition at a path.
pub const NO_DECOMPOSITION: &[u8] = b"no decomposition at path\n";

/// What is asked of the walk of a pair.
#[derive(Clone, Copy)]
pub struct Asked<'a> {
    pub depth: u32,
    /// How deep axioms may call one another.
    pub nest: u32,
    /// The number of the pair, from 1 on.
    pub pair: u64,
    /// The path at or below which the visits are told; that of the root has no number.
    pub from: &'a [u64],
    /// How many visits are told at most.
    pub most: usize,
}

// ---- the status

fn seen_status(seen: &Seen) -> Status
    ensures { result ≡ seen_status seen.now }
{
    match seen {
        Seen::Did(_) => Status::Done,
        Seen::Plan => Status::Done,
        Seen::DepthCut => Status::Done,
        Seen::LevelCut => Status::Done,
        Seen::Fault(_) => Status::RunFault,
    }
}

fn status_by(visit: Option<&TracedVisit>) -> Status
    ensures { result ≡ status_by (option_map (λ v. v.now) visit.entry) }
{
    match visit {
        Some(visit) => seen_status(&visit.seen),
        None => Status::Done,
    }
}

/// The status of a trace of so many visits at most: that of the last one that is told.
fn trace_status(visits: &[TracedVisit], most: usize) -> Status
    ensures { result ≡ trace_status most visits.now }
{
    let shown = most.min(visits.len());
    status_by(visit_at(visits, shown.saturating_sub(1)))
}

// ---- a pair

fn has_none(visits: &[TracedVisit], from: &[u64]) -> bool
    ensures { result ≡ is_absent from.now visits.now }
{
    match (from, visits) {
        ([_, ..], []) => true,
        (_, _) => false,
    }
}

/// Writes the visits of a walk, and answers the status.
fn answer_visits<K: Sink>(
    alloc: Global,
    files: &Texts,
    domain: &Domain,
    visits: &[TracedVisit],
    most: usize,
    out: &mut K,
) -> Status
    ensures tells { Tells (
      trace_text (texts_of files.now) (domain_of domain.now).rules most visits.now,
      trace_status most visits.now,
    ) result
        (sink_run (K.faults out.old) (K.faults out.new) (K.bytes out.old) (K.bytes out.new)) }
    ensures later { K.faults out.old ≤ K.faults out.new }
{
    let told = tell_trace(alloc, files, domain, visits, most, out);
    status_told(told, trace_status(visits, most))
}

/// Writes that there is no decomposition at a path, and answers the status.
fn answer_absent<K: Sink>(out: &mut K) -> Status
    ensures tells { Tells (NO_DECOMPOSITION.now, Status.NoSuchPath) result
        (sink_run (K.faults out.old) (K.faults out.new) (K.bytes out.old) (K.bytes out.new)) }
    ensures later { K.faults out.old ≤ K.faults out.new }
{
    let told = write(out, NO_DECOMPOSITION);
    status_told(told, Status::NoSuchPath)
}

/// Writes the visits from a path on, and answers the status.
fn answer_trace<K: Sink>(
    alloc: Global,
    files: &Texts,
    domain: &Domain,
    visits: &[TracedVisit],
    from: &[u64],
    most: usize,
    out: &mut K,
) -> Status
    ensures tells { Tells (trace_answer (texts_of files.now) (domain_of domain.now).rules from.now most visits.now)
        result (sink_run (K.faults out.old) (K.faults out.new) (K.bytes out.old) (K.bytes out.new)) }
    ensures later { K.faults out.old ≤ K.faults out.new }
{
    if has_none(visits, from) {
        answer_absent(out)
    } else {
        answer_visits(alloc, files, domain, visits, most, out)
    }
}

/// Walks the tree of a pair, and writes its first visits.
fn answer_pair<K: Sink>(
    alloc: Global,
    files: &Texts,
    domain: &Domain,
    pair: &Pair,
    asked: &Asked,
    out: &mut K,
) -> Status
    requires numbered { IsNumberedDomain (domain_of domain.now) }
    requires checked { first_of (domain_faults (domain_of domain.now)) ≡ None }
    requires pair { IsGroundPair (pair_of pair.now) }
    requires depth { asked.now.depth ≤ GREATEST_DEPTH }
    requires nest { asked.now.nest ≤ MOST_LEVELS }
    requires small { All (λ i. i < 2 ^ 64 - 1) asked.now.from.now }
    ensures tells { TellsOf (IsTraceOf (texts_of files.now) asked.now (domain_of domain.now).rules (pair_of pair.now))
        result (sink_run (K.faults out.old) (K.faults out.new) (K.bytes out.old) (K.bytes out.new)) }
    ensures later { K.faults out.old ≤ K.faults out.new }
{
    // Nothing runs here: the law makes known that a code reads back as the lowered rules.
    compiled_rules_are_a_code();
    let Ok(code) = lower(alloc, domain) else {
        return Status::NoMemory;
    };
    let (depth, nest, from, most) = (asked.depth, asked.nest, asked.from, asked.most);
    match trace_of(alloc, domain, &code, pair, depth, nest, from, most) {
        Ok(visits) => answer_trace(alloc, files, domain, visits.as_slice(), from, most, out),
        Err(_) => Status::NoMemory,
    }
}

// ---- the files

/// Writes what is asked of files that are accepted.
fn answer_accepted<K: Sink>(
    alloc: Global,
    files: &Texts,
    accepted: &Accepted,
    asked: &Asked,
    out: &mut K,
) -> Status
    requires accepted { IsAccepted (texts_of files.now) (domain_of accepted.now.domain)
        (problem_of accepted.now.problem) }
    requires depth { asked.now.depth ≤ GREATEST_DEPTH }
    requires nest { asked.now.nest ≤ MOST_LEVELS }
    requires small { All (λ i. i < 2 ^ 64 - 1) asked.now.from.now }
    ensures tells { TellsTrace (texts_of files.now) asked.now result
        (sink_run (K.faults out.old) (K.faults out.new) (K.bytes out.old) (K.bytes out.new)) }
    ensures later { K.faults out.old ≤ K.faults out.new }
{
    // Nothing runs here: the laws make known that what is accepted can be compiled and walked.
    forms_are_numbered();
    accepted_domains_are_checked();
    accepted_pairs_are_ground();
    let pairs = accepted.problem.pairs.as_slice();
    match pair_at(pairs, asked.pair) {
        Some(pair) => answer_pair(alloc, files, &accepted.domain, pair, asked, out),
        None => {
            let refusal = Refusal::NoPair(asked.pair, pairs.len() as u64);
            refuse(alloc, files, refusal, out)
        }
    }
}

/// Reads and checks a domain and a problem as the planner does, walks the tree of one of its pairs, and writes the first
/// visits of the walk, one by one: each task that is done or decomposed with where its rule is, the plans, the cuts, the
/// dead ends, and the fault that ends the walk. Where the planner would refuse the files, its line is written with what
/// it means. The status is the planner's.
pub fn trace<K: Sink>(alloc: Global, files: &Texts, asked: &Asked, out: &mut K) -> Status
    requires depth { asked.now.depth ≤ GREATEST_DEPTH }
    requires nest { asked.now.nest ≤ MOST_LEVELS }
    requires small { All (λ i. i < 2 ^ 64 - 1) asked.now.from.now }
    // All that there is to tell was written, or, out of memory, a prefix of it, and after a fault of the sink a proper
    // one. There is no other status than that of what is told and those two.
    ensures tells { TellsTrace (texts_of files.now) asked.now result
        (sink_run (K.faults out.old) (K.faults out.new) (K.bytes out.old) (K.bytes out.new)) }
    ensures sink_count { K.faults out.old ≤ K.faults out.new }
{
    match accept(alloc, files) {
        Ok(accepted) => answer_accepted(alloc, files, &accepted, asked, out),
        Err(Stop::Refused(refusal)) => refuse(alloc, files, refusal, out),
        Err(Stop::NoMemory) => Status::NoMemory,
    }
}
