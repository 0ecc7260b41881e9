//! The part of a line that is shown around a place in it.

ghost use Rattle.std.specs.Prelude.{◌≡◌, ◌≤◌, ◌+◌, length};
ghost use Rattle.hp_places.specs.Stretches.{goes_on, letter_end, letter_start, moved_back, moved_on, part_from};
ghost use Rattle.hp_places.specs.Stretches.{part_to};

/// How many bytes of a line are shown at most.
const WIDEST: usize = 200;

/// How many of these stand before the place, where the line goes on behind them.
const AHEAD: usize = 60;

/// Where the part of a line begins that is shown around the place behind so many bytes of it.
#[tactic(auto, unfolding(crate::specs::Stretches::part_from))]
pub fn part_from(line: &[u8], before: usize) -> usize
    ensures from { result ≡ part_from line.now before }
    ensures before { result ≤ before }
    ensures within { result ≤ length line.now }
{
    let room = line.len().saturating_sub(WIDEST);
    let nearest = before.saturating_sub(AHEAD).min(room);
    if nearest == 0 {
        0
    } else {
        letter_end(line, nearest)
    }
}

/// Where the part of a line ends that begins at an offset.
#[tactic(auto, unfolding(crate::specs::Stretches::part_to))]
pub fn part_to(line: &[u8], from: usize) -> usize
    requires { from ≤ length line.now }
    ensures to { result ≡ part_to line.now from }
    ensures order { from ≤ result }
    ensures within { result ≤ length line.now }
{
    if line.len() - from <= WIDEST {
        line.len()
    } else {
        letter_start(line, from + WIDEST)
    }
}

/// An offset at which no letter goes on, at most three bytes on.
#[tactic(auto, unfolding(crate::specs::Stretches::letter_end))]
fn letter_end(line: &[u8], at: usize) -> usize
    requires { at ≤ length line.now }
    ensures end { result ≡ letter_end line.now at }
    ensures near { result ≤ at + 3 }
    ensures within { result ≤ length line.now }
{
    let second = moved_on(line, at);
    let third = moved_on(line, second);
    moved_on(line, third)
}

#[tactic(auto, unfolding(crate::specs::Stretches::moved_on))]
fn moved_on(line: &[u8], at: usize) -> usize
    requires { at ≤ length line.now }
    ensures moved { result ≡ moved_on line.now at }
    ensures near { result ≤ at + 1 }
    ensures within { result ≤ length line.now }
{
    if at < line.len() && goes_on(line[at]) {
        at + 1
    } else {
        at
    }
}

/// An offset at which no letter goes on, at most three bytes back.
#[tactic(auto, unfolding(crate::specs::Stretches::letter_start))]
fn letter_start(line: &[u8], at: usize) -> usize
    ensures start { result ≡ letter_start line.now at }
    ensures near { at ≤ result + 3 }
    ensures before { result ≤ at }
{
    let second = moved_back(line, at);
    let third = moved_back(line, second);
    moved_back(line, third)
}

#[tactic(auto, unfolding(crate::specs::Stretches::moved_back))]
fn moved_back(line: &[u8], at: usize) -> usize
    ensures moved { result ≡ moved_back line.now at }
    ensures near { at ≤ result + 1 }
    ensures before { result ≤ at }
{
    if at < line.len() && goes_on(line[at]) {
        at.saturating_sub(1)
    } else {
        at
    }
}

/// Whether a byte goes on with a letter of several bytes in UTF-8.
fn goes_on(byte: u8) -> bool
    ensures { result ≡ goes_on byte }
{
    128 <= byte && byte < 192
}
