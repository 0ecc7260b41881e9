//! Telling why each pair of a problem has no plan.
ghost use Rattle.std.specs.Prelude.{◌≡◌, ◌≤◌, ℕ, IfErr, IfOk, List, OnOk, Some, slice_get};
ghost use Rattle.hp_out.specs.Writing.{Wrote, sink_run};
ghost use Rattle.hp_syntax.specs.Views.{domain_of, pair_of, problem_of};
ghost use Rattle.hp_doctor.specs.Accepting.{IsAccepted};
ghost use Rattle.hp_doctor.specs.Texts.{texts_of};
ghost use Rattle.hp_doctor_why.specs.Queries.{IsAskable, IsReady, StopsQuery, TellsQuery, asked_of, files_of, read_problem};
ghost use Rattle.hp_doctor_why.specs.Told.{StopsAt, TellsPair, TellsWhy};

use crate::endings::{push_header, push_why};
use crate::reasons::{Search, why_of};
use hp_code::{Code, lower};
use hp_doctor::{Accepted, Halt, Stop, Texts, accept, refuse, status_told, write};
use hp_io::Sink;
use hp_laws::pair_laws::accepted_domains_are_checked;
use hp_syntax::{Pair, Status};
use std::alloc::{AllocError, Global};

/// The limits of what is told of each pair: the depth, how deep axioms may call one another, and how many of the furthest dead ends
/// are shown at most.
#[derive(Clone, Copy, Debug)]
pub struct Limits {
    pub depth: u32,
    pub nest: u32,
    pub ends: usize,
}

/// The files, what is read in them, the code of the domain, and the limits.
#[derive(Clone, Copy)]
struct Query<'a> {
    files: &'a Texts<'a>,
    read: &'a Accepted,
    code: &'a Code,
    limits: Limits,
}

/// The text of a pair, one of so many, by its number from 1 on.
fn pair_text(
    alloc: Global,
    query: Query<'_>,
    pair: &Pair,
    number: usize,
    count: usize,
) -> Result<Vec<u8>, AllocError>
    requires ready { IsReady query }
    requires at { (k : ℕ) × (slice_get (read_problem query).pairs k ≡ Some (pair_of pair.now)) }
    ensures tells { IfOk result (λ v. TellsPair (files_of query.entry) (asked_of query.entry) (pair_of pair.now) number count
        v.items) }
{
    let Limits { depth, nest, ends } = query.limits;
    let search = Search {
        domain: &query.read.domain,
        code: query.code,
        pair,
        depth,
        nest,
    };
    let why = why_of(alloc, search, ends)?;
    let mut text = Vec::new(alloc);
    push_header(&mut text, number, count)?;
    push_why(&mut text, query.files, query.read, depth, nest, &why)?;
    Ok(text)
}

/// Writes what is told of a pair.
fn tell_pair<K: Sink>(
    alloc: Global,
    query: Query<'_>,
    pair: &Pair,
    number: usize,
    count: usize,
    out: &mut K,
) -> Result<(), Halt>
    requires ready { IsReady query }
    requires at { (k : ℕ) × (slice_get (read_problem query).pairs k ≡ Some (pair_of pair.now)) }
    ensures ok { OnOk result ((text : List ℕ)
        × TellsPair (files_of query.entry) (asked_of query.entry) (pair_of pair.now) number count text
        × Wrote text (K.bytes out.old) (K.bytes out.new)) }
    ensures err { IfErr result (StopsAt (files_of query.entry) (asked_of query.entry) (pair_of pair.now) number count
        (sink_run (K.faults out.old) (K.faults out.new) (K.bytes out.old) (K.bytes out.new))) }
    ensures later { K.faults out.old ≤ K.faults out.new }
{
    match pair_text(alloc, query, pair, number, count) {
        Ok(text) => write(out, text.as_slice()),
        Err(_) => Err(Halt::NoMemory),
    }
}

/// Writes what is told of each pair, in order.
fn tell_pairs<K: Sink>(alloc: Global, query: Query<'_>, out: &mut K) -> Result<(), Halt>
    requires ready { IsReady query }
    ensures ok { OnOk result (TellsQuery query.entry
        (sink_run (K.faults out.old) (K.faults out.new) (K.bytes out.old) (K.bytes out.new))) }
    ensures err { IfErr result (StopsQuery query.entry
        (sink_run (K.faults out.old) (K.faults out.new) (K.bytes out.old) (K.bytes out.new))) }
    ensures later { K.faults out.old ≤ K.faults out.new }
{
    let pairs = query.read.problem.pairs.as_slice();
    let count = pairs.len();
    for (number, pair) in pairs.iter().enumerate() {
        if let Err(halt) = tell_pair(alloc, query, pair, number + 1, count, out) {
            return Err(halt);
        }
    }
    Ok(())
}

/// Writes what is told of files that are accepted.
fn tell_read<K: Sink>(
    alloc: Global,
    files: &Texts,
    read: &Accepted,
    limits: Limits,
    out: &mut K,
) -> Status
    requires accepted { IsAccepted (texts_of files.now) (domain_of read.now.domain) (problem_of read.now.problem) }
    requires askable { IsAskable limits }
    ensures tells { TellsWhy (texts_of files.now) limits result
        (sink_run (K.faults out.old) (K.faults out.new) (K.bytes out.old) (K.bytes out.new)) }
    ensures later { K.faults out.old ≤ K.faults out.new }
{
    // Nothing runs here: the law makes known that the domain can be compiled.
    accepted_domains_are_checked();
    match lower(alloc, &read.domain) {
        Ok(code) => {
            let query = Query {
                files,
                read,
                code: &code,
                limits,
            };
            let told = tell_pairs(alloc, query, out);
            status_told(told, Status::Done)
        }
        Err(_) => Status::NoMemory,
    }
}

/// Reads and checks a domain and a problem as the planner does, and writes of each pair why it has no plan within a
/// depth, by rules whose axioms may call one another so deep: how the search ended, and what keeps the tasks at the
/// furthest dead ends from being done, each at its place. Where the planner would refuse the files, its line is written
/// with what it means, and the status is the planner's; else it is `Done`, whatever is told. Memory is taken for the
/// files, for the search, and for what is told of one pair.
pub fn why<K: Sink>(alloc: Global, files: &Texts, limits: Limits, out: &mut K) -> Status
    requires askable { IsAskable limits }
    // All that there is to tell was written, of each pair by what is right of it, or, after memory ran out, a prefix of
    // what is told of some of the first pairs, and after a fault of the sink a proper one.
    ensures tells { TellsWhy (texts_of files.now) limits result
        (sink_run (K.faults out.old) (K.faults out.new) (K.bytes out.old) (K.bytes out.new)) }
    ensures sink_count { K.faults out.old ≤ K.faults out.new }
{
    match accept(alloc, files) {
        Ok(read) => tell_read(alloc, files, &read, limits, out),
        Err(Stop::Refused(refusal)) => refuse(alloc, files, refusal, out),
        Err(Stop::NoMemory) => Status::NoMemory,
    }
}
