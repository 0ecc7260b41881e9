//! Drawn calls of both walks of many small trees.
ghost use Rattle.std.specs.Prelude.{◌≤◌, IfSome};
ghost use Rattle.hp_syntax.specs.declared.limits.TheConstants.{GREATEST_PLAIN_DEPTH, MOST_LEVELS};
ghost use Rattle.hp_syntax.specs.Views.{domain_of, pair_of};
ghost use Rattle.hp_part_trials.specs.Accepted.{IsAccepted};

use crate::both::loading::{Loaded, load, walk_by_copies, walk_in_place};
use crate::both::rounds::Rounds;
use crate::both::walks_at_once::call_on;
use hp_fixtures::page::Page;
use hp_syntax::limits::{GREATEST_PLAIN_DEPTH, MOST_LEVELS};
use std::alloc::{AllocError, Global};

/// How often each tree is walked, each time by other calls.
const ROUNDS: usize = 16;

/// How many calls are drawn of a walk at most, besides those that follow one at once.
const CALLS: usize = 60;

/// Two texts, a depth, and how deep axioms may call one another.
#[derive(Clone, Copy)]
struct Drawn<'a> {
    domain: &'a str,
    problem: &'a str,
    depth: u32,
    levels: u32,
}

// The number that a word writes, if it is no greater than this.
fn number_up_to(word: &str, most: u32) -> Option<u32>
    ensures { IfSome result (λ n. n ≤ most) }
{
    match word.parse::<u32>() {
        Ok(number) if number <= most => Some(number),
        _ => None,
    }
}

// What stands behind a number sign: a line of two numbers, and two texts with an empty line between them.
fn drawn_in(piece: &str) -> Option<Drawn<'_>>
    ensures depth { IfSome result (λ d. d.depth ≤ GREATEST_PLAIN_DEPTH) }
    ensures levels { IfSome result (λ d. d.levels ≤ MOST_LEVELS) }
{
    let (numbers, texts) = piece.split_once('\n')?;
    let (domain, problem) = texts.split_once("\n\n")?;
    let (depth, levels) = numbers.trim().split_once(' ')?;
    let depth = number_up_to(depth, GREATEST_PLAIN_DEPTH)?;
    let levels = number_up_to(levels, MOST_LEVELS)?;
    Some(Drawn {
        domain,
        problem,
        depth,
        levels,
    })
}

// Walks a tree in both ways at once.
fn try_round(
    rounds: &mut Rounds,
    loaded: &Loaded,
    depth: u32,
    levels: u32,
) -> Result<(), AllocError>
    requires accepted { IsAccepted (domain_of loaded.now.domain) (pair_of loaded.now.pair) }
    requires depth { depth ≤ GREATEST_PLAIN_DEPTH }
    requires levels { levels ≤ MOST_LEVELS }
{
    let mut first = walk_in_place(rounds.alloc, loaded, depth, levels)?;
    let mut second = walk_by_copies(rounds.alloc, loaded, depth, levels)?;
    call_on(rounds, &mut first, &mut second, CALLS)
}

fn try_rounds(
    rounds: &mut Rounds,
    loaded: &Loaded,
    depth: u32,
    levels: u32,
) -> Result<(), AllocError>
    requires accepted { IsAccepted (domain_of loaded.now.domain) (pair_of loaded.now.pair) }
    requires depth { depth ≤ GREATEST_PLAIN_DEPTH }
    requires levels { levels ≤ MOST_LEVELS }
{
    for _round in 0..ROUNDS {
        try_round(rounds, loaded, depth, levels)?;
    }
    Ok(())
}

// Tries a pair, if it is accepted.
fn try_drawn(rounds: &mut Rounds, drawn: Drawn<'_>) -> Result<(), AllocError>
    requires depth { drawn.depth ≤ GREATEST_PLAIN_DEPTH }
    requires levels { drawn.levels ≤ MOST_LEVELS }
{
    match load(rounds.alloc, drawn.domain, drawn.problem) {
        Some(loaded) => {
            rounds.pairs = rounds.pairs.saturating_add(1);
            try_rounds(rounds, &loaded, drawn.depth, drawn.levels)
        }
        None => Ok(()),
    }
}

fn try_piece(rounds: &mut Rounds, piece: &str) -> Result<(), AllocError> {
    match drawn_in(piece) {
        Some(drawn) => try_drawn(rounds, drawn),
        None => Ok(()),
    }
}

/// Tries each pair of a text, as its head tells of it.
pub fn show_drawn(page: &mut Page, alloc: Global, text: &str) -> Result<(), AllocError> {
    let mut rounds = Rounds::new(alloc);
    for piece in text.split('#').skip(1) {
        try_piece(&mut rounds, piece)?;
    }
    page.title("Drawn calls of both at once");
    page.line("pairs", &rounds.pairs);
    page.line("calls", &rounds.calls);
    page.line("answers", &rounds.answers);
    page.line("differ", &rounds.differ);
    Ok(())
}
