//! Telling how a plan came about.

ghost use Rattle.std.specs.Prelude.{◌≡◌, ◌≤◌, ◌<◌, ◌-◌, ◌^◌, ◌++◌, None, IfOk, OnOk, IfErr, codes, decimal, map, option_map};
ghost use Rattle.hp_changes.specs.Changes.{changed_of};
ghost use Rattle.hp_changes.specs.Changing.{AreAlong};
ghost use Rattle.std.specs.List.{All};
ghost use Rattle.hp_code.specs.CodeViews.{rules_in};
ghost use Rattle.hp_code.specs.Codes.{code_of};
ghost use Rattle.hp_doctor.specs.Accepting.{IsAccepted};
ghost use Rattle.hp_doctor.specs.Linted.{Tells};
ghost use Rattle.hp_doctor.specs.Telling.{Halts};
ghost use Rattle.hp_doctor.specs.Texts.{file_of, texts_of};
ghost use Rattle.hp_out.specs.Writing.{Wrote, sink_run};
ghost use Rattle.hp_syntax.specs.declared.limits.TheConstants.{GREATEST_DEPTH, MOST_LEVELS};
ghost use Rattle.hp_syntax.specs.Checks.{domain_faults, first_of};
ghost use Rattle.hp_syntax.specs.GroundPatterns.{IsGroundPair};
ghost use Rattle.hp_syntax.specs.Numbered.{IsNumberedDomain};
ghost use Rattle.hp_syntax.specs.PlaceTexts.{at_span};
ghost use Rattle.hp_syntax.specs.Report.{fault_word};
ghost use Rattle.hp_syntax.specs.Views.{domain_of, pair_of, problem_of};
ghost use Rattle.hp_syntax.specs.Walk.{root};
ghost use Rattle.hp_way.specs.Ways.{IsWay, deed_of, tree_of};
ghost use Rattle.hp_derivation.specs.Goings.{parts_of};
ghost use Rattle.hp_doctor_tree.specs.TreeTold.{HasChanges, HasSmallNumbers, IsPathOfWay, IsTreeOf, IsWantedWay, TellsOf, TellsTree, absent_text, fault_text, pair_at, parts_or_none, plan_text, way_answer};

use crate::deeds::steps;
use crate::drawing::Drawing;
use crate::telling::tell_drawing;
use hp_changes::Changed;
use hp_code::laws::compiled_rules_are_a_code;
use hp_code::{Code, lower};
use hp_derivation::{Derivation, Stood, derivation_of};
use hp_doctor::{
    Accepted, Finding, Halt, Stop, Text, Texts, accept, push_in, refuse, sentence, status_told,
    write,
};
use hp_io::{Input, Sink};
use hp_laws::pair_laws::{accepted_domains_are_checked, accepted_pairs_are_ground};
use hp_out::Refusal;
use hp_syntax::laws::forms_are_numbered;
use hp_syntax::{Domain, FaultKind, Pair, RunFault, Status};
use hp_way::{Deed, Numbered, Way, changes_on_the_way, numbered_way, way_to};
use itoa::Buffer;
use std::alloc::{AllocError, Global};

/// Which plan of a pair is asked for.
#[derive(Clone, Copy)]
pub enum Wanted<'a> {
    /// The one at a path.
    At(&'a [u64]),
    /// The one of a number, from 1 on.
    Nth(u64),
}

/// What is asked of the tree of a pair.
#[derive(Clone, Copy)]
pub struct Asked<'a> {
    pub depth: u32,
    /// How deep axioms may call one another.
    pub nest: u32,
    /// The number of the pair, from 1 on.
    pub pair: u64,
    /// Which of its plans.
    pub wanted: Wanted<'a>,
    /// A graph is wanted in place of lines.
    pub dot: bool,
    /// What each step changes is wanted behind its line.
    pub changes: bool,
}

// ---- a plan

/// A plan that is told: the deeds that lead to it, what each of them changes where that is asked for, and whether it is
/// drawn as a graph.
#[derive(Clone, Copy)]
struct Plan<'a> {
    deeds: &'a [Deed],
    changes: &'a [Changed],
    dot: bool,
}

/// All tasks by their numbers, and the order in which they are read; none where nothing was derived.
fn parts(derivation: &Option<Derivation>) -> (&[Stood], &[usize])
    ensures tasks { result.0.now ≡ (parts_or_none (option_map parts_of derivation.now)).0 }
    ensures order { result.1.now ≡ (parts_or_none (option_map parts_of derivation.now)).1 }
{
    match derivation {
        Some(derivation) => (derivation.tasks.as_slice(), derivation.order.as_slice()),
        None => (&[], &[]),
    }
}

/// Writes a plan, by the deeds that lead to it.
fn tell_plan<K: Sink>(
    alloc: Global,
    file: &Text,
    domain: &Domain,
    pair: &Pair,
    plan: &Plan,
    out: &mut K,
) -> Result<(), Halt>
    ensures ok { OnOk result (Wrote (plan_text (file_of file.now) (domain_of domain.now).rules (pair_of pair.now)
        (map deed_of plan.now.deeds.now) (map changed_of plan.now.changes.now) plan.now.dot)
        (K.bytes out.old) (K.bytes out.new)) }
    ensures err { IfErr result (λ h. Halts h (plan_text (file_of file.now) (domain_of domain.now).rules
        (pair_of pair.now) (map deed_of plan.now.deeds.now) (map changed_of plan.now.changes.now) plan.now.dot)
        (sink_run (K.faults out.old) (K.faults out.new) (K.bytes out.old) (K.bytes out.new))) }
    ensures later { K.faults out.old ≤ K.faults out.new }
{
    let Ok(counted) = steps(alloc, domain, plan.deeds) else {
        return Err(Halt::NoMemory);
    };
    let Ok(derived) = derivation_of(alloc, domain, pair, plan.deeds) else {
        return Err(Halt::NoMemory);
    };
    let (tasks, order) = parts(&derived);
    let drawing = Drawing {
        domain,
        deeds: plan.deeds,
        steps: counted.as_slice(),
        changes: plan.changes,
        tasks,
        dot: plan.dot,
    };
    tell_drawing(alloc, file, &drawing, order, out)
}

// ---- no plan

/// That there is no plan of a number within a depth.
fn push_no_plan(out: &mut Vec<u8>, number: u64, depth: u32) -> Result<(), AllocError>
    ensures { OnOk result (out.new.items ≡ out.old.items ++ codes "no plan " ++ decimal number
        ++ codes " within depth " ++ decimal depth ++ codes "\n") }
{
    let mut buffer = Buffer::new();
    out.extend_from_slice(b"no plan ")?;
    out.extend_from_slice(buffer.format(number).as_bytes())?;
    out.extend_from_slice(b" within depth ")?;
    out.extend_from_slice(buffer.format(depth).as_bytes())?;
    out.extend_from_slice(b"\n")
}

/// That there is no plan such as is asked for.
fn push_absent(out: &mut Vec<u8>, asked: &Asked) -> Result<(), AllocError>
    ensures { OnOk result (out.new.items ≡ out.old.items ++ absent_text asked.now.wanted asked.now.depth) }
{
    match asked.wanted {
        Wanted::At(_) => out.extend_from_slice(b"no plan at path\n"),
        Wanted::Nth(number) => push_no_plan(out, number, asked.depth),
    }
}

/// Writes that there is no plan such as is asked for.
fn tell_absent<K: Sink>(alloc: Global, asked: &Asked, out: &mut K) -> Result<(), Halt>
    ensures ok { OnOk result (Wrote (absent_text asked.now.wanted asked.now.depth) (K.bytes out.old) (K.bytes out.new)) }
    ensures err { IfErr result (λ h. Halts h (absent_text asked.now.wanted asked.now.depth)
        (sink_run (K.faults out.old) (K.faults out.new) (K.bytes out.old) (K.bytes out.new))) }
    ensures later { K.faults out.old ≤ K.faults out.new }
{
    let mut text = Vec::new(alloc);
    match push_absent(&mut text, asked) {
        Ok(()) => write(out, text.as_slice()),
        Err(_) => Err(Halt::NoMemory),
    }
}

fn fault_word(kind: FaultKind) -> &'static [u8]
    ensures { result.now ≡ fault_word kind }
{
    match kind {
        FaultKind::NotGround => b"NotGround",
        FaultKind::NotNumber => b"NotNumber",
        FaultKind::Overflow => b"Overflow",
        FaultKind::ZeroDivisor => b"ZeroDivisor",
        FaultKind::NegativePower => b"NegativePower",
        FaultKind::NotList => b"NotList",
        FaultKind::TooDeep => b"TooDeep",
        FaultKind::FractionPower => b"FractionPower",
    }
}

/// The word of a fault and its span, on a line of their own.
fn push_fault_line(out: &mut Vec<u8>, fault: RunFault) -> Result<(), AllocError>
    ensures { OnOk result (out.new.items
        ≡ out.old.items ++ codes "fault " ++ at_span (fault_word fault.kind) fault.span ++ codes "\n") }
{
    let mut number = Buffer::new();
    out.extend_from_slice(b"fault ")?;
    out.extend_from_slice(fault_word(fault.kind))?;
    out.extend_from_slice(b" at ")?;
    out.extend_from_slice(number.format(fault.span.from).as_bytes())?;
    out.extend_from_slice(b"-")?;
    out.extend_from_slice(number.format(fault.span.to).as_bytes())?;
    out.extend_from_slice(b"\n")
}

/// A fault, and what it means.
pub fn push_fault(out: &mut Vec<u8>, files: &Texts, fault: RunFault) -> Result<(), AllocError>
    ensures { OnOk result (out.new.items ≡ out.old.items ++ fault_text (texts_of files.now) fault) }
{
    push_fault_line(out, fault)?;
    let file = files.of(Input::Domain);
    push_in(out, file, Some(fault.span), sentence(Finding::Met(fault)))
}

/// Writes a fault, and what it means.
fn tell_fault<K: Sink>(
    alloc: Global,
    files: &Texts,
    fault: RunFault,
    out: &mut K,
) -> Result<(), Halt>
    ensures ok { OnOk result (Wrote (fault_text (texts_of files.now) fault) (K.bytes out.old) (K.bytes out.new)) }
    ensures err { IfErr result (λ h. Halts h (fault_text (texts_of files.now) fault)
        (sink_run (K.faults out.old) (K.faults out.new) (K.bytes out.old) (K.bytes out.new))) }
    ensures later { K.faults out.old ≤ K.faults out.new }
{
    let mut text = Vec::new(alloc);
    match push_fault(&mut text, files, fault) {
        Ok(()) => write(out, text.as_slice()),
        Err(_) => Err(Halt::NoMemory),
    }
}

// ---- the plan that is asked for

/// Writes a plan, and answers the status.
fn answer_plan<K: Sink>(
    alloc: Global,
    file: &Text,
    domain: &Domain,
    pair: &Pair,
    plan: &Plan,
    out: &mut K,
) -> Status
    ensures tells { Tells (
      plan_text (file_of file.now) (domain_of domain.now).rules (pair_of pair.now)
          (map deed_of plan.now.deeds.now) (map changed_of plan.now.changes.now) plan.now.dot,
      Status.Done,
    ) result
        (sink_run (K.faults out.old) (K.faults out.new) (K.bytes out.old) (K.bytes out.new)) }
    ensures later { K.faults out.old ≤ K.faults out.new }
{
    let told = tell_plan(alloc, file, domain, pair, plan, out);
    status_told(told, Status::Done)
}

/// Writes that there is no plan such as is asked for, and answers the status.
fn answer_absent<K: Sink>(alloc: Global, asked: &Asked, out: &mut K) -> Status
    ensures tells { Tells (absent_text asked.now.wanted asked.now.depth, Status.NoSuchPath) result
        (sink_run (K.faults out.old) (K.faults out.new) (K.bytes out.old) (K.bytes out.new)) }
    ensures later { K.faults out.old ≤ K.faults out.new }
{
    let told = tell_absent(alloc, asked, out);
    status_told(told, Status::NoSuchPath)
}

/// Writes a fault, and answers the status.
fn answer_fault<K: Sink>(alloc: Global, files: &Texts, fault: RunFault, out: &mut K) -> Status
    ensures tells { Tells (fault_text (texts_of files.now) fault, Status.RunFault) result
        (sink_run (K.faults out.old) (K.faults out.new) (K.bytes out.old) (K.bytes out.new)) }
    ensures later { K.faults out.old ≤ K.faults out.new }
{
    let told = tell_fault(alloc, files, fault, out);
    status_told(told, Status::RunFault)
}

/// The way to the plan that is asked for, and what the deeds on it change where that is asked for.
struct Found {
    way: Way,
    changes: Vec<Changed>,
}

// A derived drop would do the same, but be proved anew wherever it is let go.
impl Drop for Found {
    fn drop(self) {
        let Found { way, changes } = self;
        drop(way);
        drop(changes);
    }
}

/// Writes where the way to the plan that is asked for leads, and answers the status.
fn answer_way<K: Sink>(
    alloc: Global,
    files: &Texts,
    domain: &Domain,
    pair: &Pair,
    found: &Found,
    asked: &Asked,
    out: &mut K,
) -> Status
    ensures tells { Tells (way_answer (texts_of files.now) asked.now (domain_of domain.now).rules (pair_of pair.now)
        found.now.way (map changed_of found.now.changes.items))
        result (sink_run (K.faults out.old) (K.faults out.new) (K.bytes out.old) (K.bytes out.new)) }
    ensures later { K.faults out.old ≤ K.faults out.new }
{
    match &found.way {
        Way::Plan(deeds) => {
            let plan = Plan {
                deeds: deeds.as_slice(),
                changes: found.changes.as_slice(),
                dot: asked.dot,
            };
            answer_plan(alloc, &files.domain, domain, pair, &plan, out)
        }
        Way::Absent => answer_absent(alloc, asked, out),
        Way::Fault(fault) => answer_fault(alloc, files, *fault, out),
    }
}

/// The way to the plan at a path, and the path.
fn way_at(
    alloc: Global,
    code: &Code,
    pair: &Pair,
    asked: &Asked,
    path: &[u64],
) -> Result<Numbered, AllocError>
    requires pair { IsGroundPair (pair_of pair.now) }
    requires depth { asked.now.depth ≤ GREATEST_DEPTH }
    requires nest { asked.now.nest ≤ MOST_LEVELS }
    requires small { All (λ i. i < 2 ^ 64 - 1) path.now }
    ensures way { IfOk result (λ w. IsWay (rules_in (code_of code.now)) asked.now.nest
        (root (pair_of pair.now) asked.now.depth) path.now w.way) }
    ensures path { IfOk result (λ w. w.path.items ≡ path.now) }
{
    let own = Vec::from_slice(alloc, path)?;
    let way = way_to(alloc, code, pair, asked.depth, asked.nest, path)?;
    Ok(Numbered { way, path: own })
}

/// The way to the plan that is asked for, and its path.
fn wanted_way(
    alloc: Global,
    code: &Code,
    pair: &Pair,
    asked: &Asked,
) -> Result<Numbered, AllocError>
    requires pair { IsGroundPair (pair_of pair.now) }
    requires depth { asked.now.depth ≤ GREATEST_DEPTH }
    requires nest { asked.now.nest ≤ MOST_LEVELS }
    requires small { HasSmallNumbers asked.now.wanted }
    ensures way { IfOk result (λ w. IsWantedWay (rules_in (code_of code.now)) asked.now.nest
        (root (pair_of pair.now) asked.now.depth) asked.now.wanted w.way) }
    ensures path { IfOk result (λ w. IsPathOfWay (rules_in (code_of code.now)) asked.now.nest
        (root (pair_of pair.now) asked.now.depth) w.way w.path.items) }
{
    match asked.wanted {
        Wanted::At(path) => way_at(alloc, code, pair, asked, path),
        Wanted::Nth(number) => { numbered_way(alloc, code, pair, asked.depth, asked.nest, number) }
    }
}

/// What the decompositions on the way to a path change.
fn changes_to(
    alloc: Global,
    code: &Code,
    pair: &Pair,
    asked: &Asked,
    path: &[u64],
) -> Result<Vec<Changed>, AllocError>
    requires pair { IsGroundPair (pair_of pair.now) }
    requires depth { asked.now.depth ≤ GREATEST_DEPTH }
    requires nest { asked.now.nest ≤ MOST_LEVELS }
    ensures { IfOk result (λ v. AreAlong (tree_of (rules_in (code_of code.now)) asked.now.nest
        (root (pair_of pair.now) asked.now.depth)) path.now v.items) }
{
    match changes_on_the_way(alloc, code, pair, asked.depth, asked.nest, path)? {
        Some(changes) => Ok(changes),
        // A node has 2^64 - 1 decompositions or more, and nothing could hold its children.
        None => Err(AllocError),
    }
}

/// What the deeds of a way change, where that is asked for.
fn wanted_changes(
    alloc: Global,
    code: &Code,
    pair: &Pair,
    asked: &Asked,
    found: &Numbered,
) -> Result<Vec<Changed>, AllocError>
    requires pair { IsGroundPair (pair_of pair.now) }
    requires depth { asked.now.depth ≤ GREATEST_DEPTH }
    requires nest { asked.now.nest ≤ MOST_LEVELS }
    requires path { IsPathOfWay (rules_in (code_of code.now)) asked.now.nest
        (root (pair_of pair.now) asked.now.depth) found.now.way found.now.path.items }
    ensures { IfOk result (λ v. HasChanges (rules_in (code_of code.now)) asked.now.nest
        (root (pair_of pair.now) asked.now.depth) asked.now.changes found.now.way (map changed_of v.items)) }
{
    if !asked.changes {
        return Ok(Vec::new(alloc));
    }
    match &found.way {
        Way::Plan(_) => changes_to(alloc, code, pair, asked, found.path.as_slice()),
        Way::Absent => Ok(Vec::new(alloc)),
        Way::Fault(_) => Ok(Vec::new(alloc)),
    }
}

/// The way to the plan that is asked for, and what the deeds on it change where that is asked for.
fn find(alloc: Global, code: &Code, pair: &Pair, asked: &Asked) -> Result<Found, AllocError>
    requires pair { IsGroundPair (pair_of pair.now) }
    requires depth { asked.now.depth ≤ GREATEST_DEPTH }
    requires nest { asked.now.nest ≤ MOST_LEVELS }
    requires small { HasSmallNumbers asked.now.wanted }
    ensures way { IfOk result (λ f. IsWantedWay (rules_in (code_of code.now)) asked.now.nest
        (root (pair_of pair.now) asked.now.depth) asked.now.wanted f.way) }
    ensures changes { IfOk result (λ f. HasChanges (rules_in (code_of code.now)) asked.now.nest
        (root (pair_of pair.now) asked.now.depth) asked.now.changes f.way (map changed_of f.changes.items)) }
{
    let found = wanted_way(alloc, code, pair, asked)?;
    let changes = wanted_changes(alloc, code, pair, asked, &found)?;
    Ok(Found {
        way: found.into_way(),
        changes,
    })
}

/// Goes to the plan of a pair that is asked for, and writes what stands there.
fn answer_pair<K: Sink>(
    alloc: Global,
    files: &Texts,
    domain: &Domain,
    pair: &Pair,
    asked: &Asked,
    out: &mut K,
) -> Status
    requires numbered { IsNumberedDomain (domain_of domain.now) }
    requires checked { first_of (domain_faults (domain_of domain.now)) ≡ None }
    requires pair { IsGroundPair (pair_of pair.now) }
    requires depth { asked.now.depth ≤ GREATEST_DEPTH }
    requires nest { asked.now.nest ≤ MOST_LEVELS }
    requires small { HasSmallNumbers asked.now.wanted }
    ensures tells { TellsOf (IsTreeOf (texts_of files.now) asked.now (domain_of domain.now).rules (pair_of pair.now))
        result (sink_run (K.faults out.old) (K.faults out.new) (K.bytes out.old) (K.bytes out.new)) }
    ensures later { K.faults out.old ≤ K.faults out.new }
{
    // Nothing runs here: the law makes known that a code reads back as the lowered rules.
    compiled_rules_are_a_code();
    let Ok(code) = lower(alloc, domain) else {
        return Status::NoMemory;
    };
    match find(alloc, &code, pair, asked) {
        Ok(found) => answer_way(alloc, files, domain, pair, &found, asked, out),
        Err(_) => Status::NoMemory,
    }
}

// ---- the files

/// The pair of a number, from 1 on, if there is one.
pub fn pair_at(pairs: &[Pair], number: u64) -> Option<&Pair>
    ensures { option_map (λ p. pair_of p.now) result ≡ pair_at number (map pair_of pairs.now) }
{
    if number == 0 {
        return None;
    }
    pairs.get((number - 1) as usize)
}

/// Writes what is asked of files that are accepted.
fn answer_accepted<K: Sink>(
    alloc: Global,
    files: &Texts,
    accepted: &Accepted,
    asked: &Asked,
    out: &mut K,
) -> Status
    requires accepted { IsAccepted (texts_of files.now) (domain_of accepted.now.domain)
        (problem_of accepted.now.problem) }
    requires depth { asked.now.depth ≤ GREATEST_DEPTH }
    requires nest { asked.now.nest ≤ MOST_LEVELS }
    requires small { HasSmallNumbers asked.now.wanted }
    ensures tells { TellsTree (texts_of files.now) asked.now result
        (sink_run (K.faults out.old) (K.faults out.new) (K.bytes out.old) (K.bytes out.new)) }
    ensures later { K.faults out.old ≤ K.faults out.new }
{
    // Nothing runs here: the laws make known that what is accepted can be compiled and walked.
    forms_are_numbered();
    accepted_domains_are_checked();
    accepted_pairs_are_ground();
    let pairs = accepted.problem.pairs.as_slice();
    match pair_at(pairs, asked.pair) {
        Some(pair) => answer_pair(alloc, files, &accepted.domain, pair, asked, out),
        None => {
            let refusal = Refusal::NoPair(asked.pair, pairs.len() as u64);
            refuse(alloc, files, refusal, out)
        }
    }
}

/// Reads and checks a domain and a problem as the planner does, goes to the plan that is asked for in the tree of one of
/// its pairs, and writes all tasks on its way: each below the one that it came from, with where its rule is, or as a
/// graph. Where there is no such plan, or a fault comes before it, that is written. Where the planner would refuse the
/// files, its line is written with what it means. The status is the planner's.
pub fn tree<K: Sink>(alloc: Global, files: &Texts, asked: &Asked, out: &mut K) -> Status
    requires depth { asked.now.depth ≤ GREATEST_DEPTH }
    requires nest { asked.now.nest ≤ MOST_LEVELS }
    requires small { HasSmallNumbers asked.now.wanted }
    // All that there is to tell was written, or, after want of memory, a prefix of it, and after a fault of the sink a
    // proper one. There is no other status than that of what is told and those two.
    ensures tells { TellsTree (texts_of files.now) asked.now result
        (sink_run (K.faults out.old) (K.faults out.new) (K.bytes out.old) (K.bytes out.new)) }
    ensures sink_count { K.faults out.old ≤ K.faults out.new }
{
    match accept(alloc, files) {
        Ok(accepted) => answer_accepted(alloc, files, &accepted, asked, out),
        Err(Stop::Refused(refusal)) => refuse(alloc, files, refusal, out),
        Err(Stop::NoMemory) => Status::NoMemory,
    }
}
