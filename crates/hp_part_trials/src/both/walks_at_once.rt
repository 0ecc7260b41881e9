//! Calls that two walks make at once, and whether they then stand alike.
ghost use Rattle.std.specs.Prelude.{◌≡◌, ◌≢◌, [], None, true, OnOk};
ghost use Rattle.hp_net.specs.Standings.{next_below};

use crate::both::rounds::Rounds;
use hp_io::MemSink;
use hp_net::{Step, Walk};
use hp_out::Pen;
use std::alloc::{AllocError, Global};

/// Room enough for what is told of a node.
const ROOM: usize = 20_000;

/// What is told of the node reached as if it were a plan: its cost, its steps, what holds there and what is protected.
pub fn node_text<W: Walk>(alloc: Global, walk: &W) -> Result<MemSink, AllocError>
    requires { W.is_live walk.now ≡ true }
{
    let mut sink = MemSink::new(alloc, ROOM)?;
    match Pen::new(&mut sink).plan_lines(1, walk, true, false) {
        Ok(()) => Ok(sink),
        Err(_) => Err(AllocError),
    }
}

// Whether two walks are at one path, and tell the same there.
fn stand_alike<V: Walk, W: Walk>(alloc: Global, first: &V, second: &W) -> Result<bool, AllocError>
    requires first { V.is_live first.now ≡ true }
    requires second { W.is_live second.now ≡ true }
{
    let text = node_text(alloc, first)?;
    let other = node_text(alloc, second)?;
    Ok(first.path() == second.path() && text.bytes() == other.bytes())
}

// Counts two walks that don't stand alike.
fn compare<V: Walk, W: Walk>(rounds: &mut Rounds, first: &V, second: &W) -> Result<(), AllocError>
    requires first { V.is_live first.now ≡ true }
    requires second { W.is_live second.now ≡ true }
{
    let is_alike = stand_alike(rounds.alloc, first, second)?;
    rounds.note_same(is_alike);
    Ok(())
}

// At times leaves out what lies below the child that both walks just answered.
fn prune_at_times<V: Walk, W: Walk>(
    rounds: &mut Rounds,
    first: &mut V,
    second: &mut W,
) -> Result<(), AllocError>
    requires first { V.is_live first.old ≡ true }
    requires second { W.is_live second.old ≡ true }
    requires first_did { (V.stands first.old).at_did ≡ true }
    requires second_did { (W.stands second.old).at_did ≡ true }
    ensures first { OnOk result (V.is_live first.new ≡ true) }
    ensures second { OnOk result (W.is_live second.new ≡ true) }
{
    if rounds.is_drawn(4) {
        first.prune();
        second.prune();
        rounds.calls.prune = rounds.calls.prune.saturating_add(1);
        compare(rounds, first, second)?;
    }
    Ok(())
}

// Mostly goes to the parents, where nothing more comes at the nodes reached.
fn back_mostly<V: Walk, W: Walk>(
    rounds: &mut Rounds,
    first: &mut V,
    second: &mut W,
) -> Result<(), AllocError>
    requires first { V.is_live first.old ≡ true }
    requires second { W.is_live second.old ≡ true }
    requires first_below { (V.stands first.old).path ≢ [] }
    requires second_below { (W.stands second.old).path ≢ [] }
    requires first_done { next_below (V.stands first.old).path (V.stands first.old).rest ≡ None }
    requires second_done { next_below (W.stands second.old).path (W.stands second.old).rest ≡ None }
    ensures first { OnOk result (V.is_live first.new ≡ true) }
    ensures second { OnOk result (W.is_live second.new ≡ true) }
{
    if !rounds.is_drawn(4) {
        first.back();
        second.back();
        rounds.calls.back = rounds.calls.back.saturating_add(1);
        compare(rounds, first, second)?;
    }
    Ok(())
}

// The next visit of both walks, at times without what lies below it. Whether it was the end.
fn next_of_both<V: Walk, W: Walk>(
    rounds: &mut Rounds,
    first: &mut V,
    second: &mut W,
) -> Result<bool, AllocError>
    requires first { V.is_live first.old ≡ true }
    requires second { W.is_live second.old ≡ true }
    ensures first { OnOk result (V.is_live first.new ≡ true) }
    ensures second { OnOk result (W.is_live second.new ≡ true) }
{
    let step = first.next()?;
    let other = second.next()?;
    rounds.note_next(step, other);
    compare(rounds, first, second)?;
    if let (Step::Did, Step::Did) = (step, other) {
        prune_at_times(rounds, first, second)?;
    }
    Ok(step == Step::End)
}

// The next visit of both walks at or below the nodes reached, at times without what lies below it, and the way back.
fn step_of_both<V: Walk, W: Walk>(
    rounds: &mut Rounds,
    first: &mut V,
    second: &mut W,
) -> Result<(), AllocError>
    requires first { V.is_live first.old ≡ true }
    requires second { W.is_live second.old ≡ true }
    ensures first { OnOk result (V.is_live first.new ≡ true) }
    ensures second { OnOk result (W.is_live second.new ≡ true) }
{
    let step = first.step()?;
    let other = second.step()?;
    rounds.note_step(step, other);
    compare(rounds, first, second)?;
    match (step, other) {
        (Some(Step::Did), Some(Step::Did)) => prune_at_times(rounds, first, second),
        (None, None) if !first.path().is_empty() && !second.path().is_empty() => {
            back_mostly(rounds, first, second)
        }
        _ => Ok(()),
    }
}

// A drawn call of both walks. Whether they are at the end.
fn call_both<V: Walk, W: Walk>(
    rounds: &mut Rounds,
    first: &mut V,
    second: &mut W,
) -> Result<bool, AllocError>
    requires first { V.is_live first.old ≡ true }
    requires second { W.is_live second.old ≡ true }
    ensures first { OnOk result (V.is_live first.new ≡ true) }
    ensures second { OnOk result (W.is_live second.new ≡ true) }
{
    if rounds.is_drawn(2) {
        return next_of_both(rounds, first, second);
    }
    step_of_both(rounds, first, second)?;
    Ok(false)
}

/// Makes drawn calls of both walks, so many at most, up to the end.
pub fn call_on<V: Walk, W: Walk>(
    rounds: &mut Rounds,
    first: &mut V,
    second: &mut W,
    most: usize,
) -> Result<(), AllocError>
    requires first { V.is_live first.old ≡ true }
    requires second { W.is_live second.old ≡ true }
{
    for _call in 0..most {
        if call_both(rounds, first, second)? {
            break;
        }
    }
    Ok(())
}
