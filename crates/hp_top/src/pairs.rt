//! The pairs of an accepted problem, planned one by one, each by itself.

ghost use Rattle.std.specs.List.{All};
ghost use Rattle.std.specs.Prelude.{◌≡◌, ◌≤◌, ◌<◌, List, IfOk, IfErr, OnOk, None, map, true};
ghost use Rattle.hp_net.specs.Standings.{IsAtItsNode, tree_visits};
ghost use Rattle.hp_code.specs.CodeViews.{IsCodeOf};
ghost use Rattle.hp_code.specs.Codes.{code_of};
ghost use Rattle.hp_out.specs.Writing.{Wrote, sink_run};
ghost use Rattle.hp_plain.specs.Walked.{stands_walked, tree_walked};
ghost use Rattle.hp_search.specs.Planned.{stands_planned, tree_planned};
ghost use Rattle.hp_syntax.specs.Checks.{domain_faults, first_of};
ghost use Rattle.hp_syntax.specs.GroundPatterns.{IsGroundPair};
ghost use Rattle.hp_syntax.specs.Report.{badness, behind, pair_header, worse};
ghost use Rattle.hp_syntax.specs.Syntax.{Rule};
ghost use Rattle.hp_syntax.specs.Views.{domain_of, pair_of};
ghost use Rattle.hp_top.specs.Engines.{CanBeFound, CanPlan, IsOfOneTree, IsWanted, PlansBy, told_of_pairs, told_pair, told_visits};
ghost use Rattle.hp_top.specs.Outcome.{pair_visits};
ghost use Rattle.hp_telling.specs.Telling.{Halts, IsTold};

use crate::deepening::tell_least;
use hp_best::laws::priced_costs_never_fall;
use hp_code::Code;
use hp_code::laws::{compiled_rules_are_a_code, lowered_rules_have_the_tree};
use hp_io::Sink;
use hp_laws::tree_laws::visits_are_in_the_tree;
use hp_net::Walk;
use hp_out::Pen;
use hp_plain::PlainWalk;
use hp_search::Planner;
use hp_syntax::limits::{GREATEST_DEPTH, GREATEST_PLAIN_DEPTH, MOST_LEVELS};
use hp_syntax::{Domain, Ground, Pair, Status};
use hp_telling::{Detail, Halt, tell, tell_after, tell_best, tell_verdict};
use std::alloc::{AllocError, Global};

/// What is looked for in each pair.
#[derive(Clone, Copy)]
pub enum Sought<'a> {
    /// So many plans, each told in this detail.
    Plans {
        plans: u64,
        detail: Detail,
    },
    /// The cheapest plan. Where the domain is priced, what costs too much is left out.
    Cheapest {
        priced: bool,
    },
    /// So many plans behind the plan at a path.
    After {
        plans: u64,
        detail: Detail,
        path: &'a [u64],
    },
    /// A plan with these steps.
    Derivation {
        steps: &'a [Ground],
    },
    /// The first plan of the least depth that has one, told with its state where states are told. The depth that is
    /// wanted is the limit then.
    Shallowest {
        states: bool,
    },
}

/// What is looked for in each pair, and how far.
#[derive(Clone, Copy)]
pub struct Wanted<'a> {
    pub sought: Sought<'a>,
    pub depth: u32,
    /// How deep axioms may call one another.
    pub levels: u32,
}

/// The engine that looks for plans.
#[derive(Clone, Copy)]
pub enum Engine<'a> {
    /// The engine of copies, by the rules of a domain.
    Copies(&'a Domain),
    /// The search in place, by the code of a domain.
    InPlace(&'a Code),
}

/// The walk of a pair from its root, by the engine of copies.
fn walk_of<'a>(
    alloc: Global,
    domain: &'a Domain,
    pair: &Pair,
    depth: u32,
    levels: u32,
) -> Result<PlainWalk<'a>, AllocError>
    requires checked { first_of (domain_faults (domain_of domain.now)) ≡ None }
    requires pair { IsGroundPair (pair_of pair.now) }
    requires depth { depth ≤ GREATEST_PLAIN_DEPTH }
    requires levels { levels ≤ MOST_LEVELS }
    ensures live { IfOk result (λ w. w.live ≡ true) }
    ensures at { IfOk result (λ w. All (IsAtItsNode (tree_walked w)) (stands_walked w).rest) }
    ensures new { IfOk result (λ w. (stands_walked w).rest ≡ tree_visits (tree_walked w)) }
    ensures visits { IfOk result (λ w. (stands_walked w).rest
        ≡ pair_visits (domain_of domain.now).rules levels depth (pair_of pair.now)) }
{
    // Nothing runs here: the law makes known that each visit's path reaches its node.
    visits_are_in_the_tree();
    PlainWalk::new(alloc, domain, pair, depth, levels)
}

/// The walk of a pair from its root, in place.
fn planner_of<'a>(
    alloc: Global,
    code: &'a Code,
    pair: &Pair,
    depth: u32,
    levels: u32,
) -> Result<Planner<'a>, AllocError>
    requires pair { IsGroundPair (pair_of pair.now) }
    requires depth { depth ≤ GREATEST_DEPTH }
    requires levels { levels ≤ MOST_LEVELS }
    ensures live { IfOk result (λ p. p.live ≡ true) }
    ensures at { IfOk result (λ p. All (IsAtItsNode (tree_planned p)) (stands_planned p).rest) }
    ensures new { IfOk result (λ p. (stands_planned p).rest ≡ tree_visits (tree_planned p)) }
    ensures visits { IfOk result (λ p. (rules : List Rule) → IsCodeOf rules (code_of code.now)
        → (stands_planned p).rest ≡ pair_visits rules levels depth (pair_of pair.now)) }
{
    // Nothing runs here: the laws make known that the tree by a code is the tree by its rules.
    compiled_rules_are_a_code();
    lowered_rules_have_the_tree();
    visits_are_in_the_tree();
    Planner::new(alloc, code, pair, depth, levels)
}

/// Tells what is sought of a new walk.
fn tell_walk<W: Walk, K: Sink>(
    alloc: Global,
    walk: &mut W,
    sought: Sought,
    out: &mut K,
) -> Result<Status, Halt>
    requires live { W.is_live walk.old ≡ true }
    requires at { All (IsAtItsNode (W.tree walk.old)) (W.stands walk.old).rest }
    requires new { (W.stands walk.old).rest ≡ tree_visits (W.tree walk.old) }
    requires found { CanBeFound sought (W.stands walk.old).rest }
    ensures told { IsTold (told_visits sought.entry (W.stands walk.old).rest) result
        (sink_run (K.faults out.old) (K.faults out.new) (K.bytes out.old) (K.bytes out.new)) }
    ensures later { K.faults out.old ≤ K.faults out.new }
{
    match sought {
        Sought::Plans { plans, detail } => tell(walk, plans, detail, out),
        Sought::Cheapest { priced } => tell_best(alloc, walk, priced, out),
        Sought::After {
            plans,
            detail,
            path,
        } => tell_after(walk, path, plans, detail, out),
        Sought::Derivation { steps } => tell_verdict(walk, steps, out),
        Sought::Shallowest { .. } => unreachable!(),
    }
}

/// Tells what is wanted of a pair, by the engine of copies.
fn tell_by_copies<K: Sink>(
    alloc: Global,
    domain: &Domain,
    pair: &Pair,
    wanted: Wanted,
    out: &mut K,
) -> Result<Status, Halt>
    requires checked { first_of (domain_faults (domain_of domain.now)) ≡ None }
    requires pair { IsGroundPair (pair_of pair.now) }
    requires wanted { IsWanted (Engine.Copies domain) wanted }
    ensures told { IsTold (told_pair wanted.entry (domain_of domain.now).rules (pair_of pair.now)) result
        (sink_run (K.faults out.old) (K.faults out.new) (K.bytes out.old) (K.bytes out.new)) }
    ensures later { K.faults out.old ≤ K.faults out.new }
{
    // Nothing runs here: the law makes known that costs never fall by priced rules.
    priced_costs_never_fall();
    let Ok(mut walk) = walk_of(alloc, domain, pair, wanted.depth, wanted.levels) else {
        return Err(Halt::NoMemory);
    };
    tell_walk(alloc, &mut walk, wanted.sought, out)
}

/// Tells what is wanted of the tree of a pair, in place.
fn tell_tree_in_place<K: Sink>(
    alloc: Global,
    code: &Code,
    pair: &Pair,
    wanted: Wanted,
    out: &mut K,
) -> Result<Status, Halt>
    requires pair { IsGroundPair (pair_of pair.now) }
    requires wanted { IsWanted (Engine.InPlace code) wanted }
    requires tree { IsOfOneTree wanted.sought }
    ensures told { (rules : List Rule) → IsCodeOf rules (code_of code.now)
        → IsTold (told_pair wanted.entry rules (pair_of pair.now)) result
        (sink_run (K.faults out.old) (K.faults out.new) (K.bytes out.old) (K.bytes out.new)) }
    ensures later { K.faults out.old ≤ K.faults out.new }
{
    // Nothing runs here: the law makes known that costs never fall by priced rules.
    priced_costs_never_fall();
    let Ok(mut walk) = planner_of(alloc, code, pair, wanted.depth, wanted.levels) else {
        return Err(Halt::NoMemory);
    };
    tell_walk(alloc, &mut walk, wanted.sought, out)
}

/// Tells what is wanted of a pair, in place.
fn tell_in_place<K: Sink>(
    alloc: Global,
    code: &Code,
    pair: &Pair,
    wanted: Wanted,
    out: &mut K,
) -> Result<Status, Halt>
    requires pair { IsGroundPair (pair_of pair.now) }
    requires wanted { IsWanted (Engine.InPlace code) wanted }
    ensures told { (rules : List Rule) → IsCodeOf rules (code_of code.now)
        → IsTold (told_pair wanted.entry rules (pair_of pair.now)) result
        (sink_run (K.faults out.old) (K.faults out.new) (K.bytes out.old) (K.bytes out.new)) }
    ensures later { K.faults out.old ≤ K.faults out.new }
{
    if let Sought::Shallowest { states } = wanted.sought {
        return tell_least(alloc, code, pair, wanted.depth, wanted.levels, states, out);
    }
    tell_tree_in_place(alloc, code, pair, wanted, out)
}

/// Tells what is wanted of a pair, by an engine.
fn tell_pair<K: Sink>(
    alloc: Global,
    engine: Engine,
    pair: &Pair,
    wanted: Wanted,
    out: &mut K,
) -> Result<Status, Halt>
    requires engine { CanPlan engine }
    requires pair { IsGroundPair (pair_of pair.now) }
    requires wanted { IsWanted engine wanted }
    ensures told { (rules : List Rule) → PlansBy rules engine.entry
        → IsTold (told_pair wanted.entry rules (pair_of pair.now)) result
        (sink_run (K.faults out.old) (K.faults out.new) (K.bytes out.old) (K.bytes out.new)) }
    ensures later { K.faults out.old ≤ K.faults out.new }
{
    match engine {
        Engine::Copies(domain) => tell_by_copies(alloc, domain, pair, wanted, out),
        Engine::InPlace(code) => tell_in_place(alloc, code, pair, wanted, out),
    }
}

/// Writes the line of a pair, where there are several.
fn write_header<K: Sink>(number: u64, count: u64, out: &mut K) -> Result<(), Halt>
    ensures written { OnOk result (Wrote (pair_header number count) (K.bytes out.old) (K.bytes out.new)) }
    ensures err { IfErr result (λ h. Halts h (pair_header number count)
        (sink_run (K.faults out.old) (K.faults out.new) (K.bytes out.old) (K.bytes out.new))) }
    ensures later { K.faults out.old ≤ K.faults out.new }
{
    if count < 2 {
        return Ok(());
    }
    let mut pen = Pen::new(out);
    match pen.pair_line(number, count) {
        Ok(()) => Ok(()),
        Err(_) => Err(Halt::Failed),
    }
}

/// Tells what is wanted of one of so many pairs, by its number, from 1 on.
fn tell_numbered<K: Sink>(
    alloc: Global,
    engine: Engine,
    pair: &Pair,
    number: u64,
    count: u64,
    wanted: Wanted,
    out: &mut K,
) -> Result<Status, Halt>
    requires engine { CanPlan engine }
    requires pair { IsGroundPair (pair_of pair.now) }
    requires wanted { IsWanted engine wanted }
    ensures told { (rules : List Rule) → PlansBy rules engine.entry → IsTold (behind (pair_header number count)
        (told_pair wanted.entry rules (pair_of pair.now))) result
        (sink_run (K.faults out.old) (K.faults out.new) (K.bytes out.old) (K.bytes out.new)) }
    ensures later { K.faults out.old ≤ K.faults out.new }
{
    match write_header(number, count, out) {
        Ok(()) => tell_pair(alloc, engine, pair, wanted, out),
        Err(halt) => Err(halt),
    }
}

/// How bad a status is.
fn badness(status: Status) -> u8
    ensures { result ≡ badness status }
{
    match status {
        Status::Done => 0,
        Status::NoPlan => 1,
        Status::CutShort => 2,
        Status::RunFault => 3,
        _ => 4,
    }
}

/// The worse of two statuses.
fn worse(first: Status, second: Status) -> Status
    ensures { result ≡ worse first second }
{
    if badness(first) < badness(second) {
        second
    } else {
        first
    }
}

/// Tells what is wanted of each pair in order, by an engine, and answers the worst status. What stops one pair's plans,
/// a fault or a cut, doesn't keep the later ones from being planned; only want of memory and a failed write do.
pub fn tell_pairs<K: Sink>(
    alloc: Global,
    engine: Engine,
    pairs: &[Pair],
    wanted: Wanted,
    out: &mut K,
) -> Result<Status, Halt>
    requires engine { CanPlan engine }
    requires pairs { All IsGroundPair (map pair_of pairs.now) }
    requires wanted { IsWanted engine wanted }
    ensures told { (rules : List Rule) → PlansBy rules engine.entry
        → IsTold (told_of_pairs wanted.entry rules (map pair_of pairs.now)) result
        (sink_run (K.faults out.old) (K.faults out.new) (K.bytes out.old) (K.bytes out.new)) }
    ensures later { K.faults out.old ≤ K.faults out.new }
{
    let count = pairs.len() as u64;
    let mut status = Status::Done;
    for (number, pair) in pairs.iter().enumerate() {
        match tell_numbered(alloc, engine, pair, number as u64 + 1, count, wanted, out) {
            Ok(other) => status = worse(status, other),
            Err(halt) => return Err(halt),
        }
    }
    Ok(status)
}
