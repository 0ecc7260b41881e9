//! Words of paths.
ghost use Rattle.std.specs.Prelude.{◌≡◌, ◌<◌, ◌≤◌, ◌-◌, ◌^◌, true, length, map, IfOk};
ghost use Rattle.std.specs.List.{All, list_all};
ghost use Rattle.hp_words.specs.Numbers.{number_from};
ghost use Rattle.hp_words.specs.PathWords.{is_path_number, path_number, pieces, piece_end, are_numbers, is_path, path_of};

use crate::numbers::{is_number, number_up_to};
use std::alloc::{AllocError, Global};

/// The most numbers that a path has in words.
pub const MOST_NUMBERS: u32 = 20_000;

/// The greatest number of a path in words. A walk tells each greater one as 2^64 - 1.
pub const GREATEST_NUMBER: u128 = 18_446_744_073_709_551_614;

/// The number of a path that a piece of a word spells.
fn path_number(piece: &[u8]) -> Option<u64>
    ensures { result ≡ path_number piece.now }
{
    if !is_number(piece) {
        return None;
    }
    number_up_to(piece, GREATEST_NUMBER)
}

/// The number that a piece of the word of a path spells.
fn number(piece: &[u8]) -> u64
    requires { is_path_number piece.now ≡ true }
    ensures { result ≡ number_from 0 piece.now }
{
    path_number(piece).unwrap()
}

/// Where the first piece ends, at a point or with the word.
fn piece_end(bytes: &[u8]) -> usize
    ensures end { result ≡ piece_end 0 bytes.now }
    ensures within { result ≤ length bytes.now }
{
    let mut end = 0;
    for byte in bytes {
        if *byte == b'.' {
            return end;
        }
        end += 1;
    }
    end
}

/// Whether a word is as many numbers as a path may have, or fewer, joined by points.
fn are_numbers(word: &[u8]) -> bool
    ensures { result ≡ are_numbers MOST_NUMBERS (pieces word.now) }
{
    let mut rest = word;
    let mut left = MOST_NUMBERS;
    while left > 0 {
        let (piece, behind) = rest.split_at(piece_end(rest));
        if path_number(piece).is_none() {
            return false;
        }
        let Some((_, others)) = behind.split_first() else {
            return true;
        };
        rest = others;
        left -= 1;
    }
    false
}

/// The numbers that points join.
fn numbers(alloc: Global, word: &[u8]) -> Result<Vec<u64>, AllocError>
    requires { list_all is_path_number (pieces word.now) ≡ true }
    ensures items { IfOk result (λ v. v.items ≡ map (number_from 0) (pieces word.now)) }
    ensures small { IfOk result (λ v. All (λ i. i < 2 ^ 64 - 1) v.items) }
{
    let mut numbers = Vec::new(alloc);
    let mut rest = word;
    loop {
        let (piece, behind) = rest.split_at(piece_end(rest));
        numbers.push(number(piece))?;
        let Some((_, others)) = behind.split_first() else {
            return Ok(numbers);
        };
        rest = others;
    }
}

/// Whether a word tells a path: `-` for the empty one, or 1 to 20,000 numbers joined by points, each at most 2^64 - 2
/// and without a leading zero. It takes no memory.
pub fn is_path(word: &str) -> bool
    ensures { result ≡ is_path word.now }
{
    word == "-" || are_numbers(word.as_bytes())
}

/// The path that a word tells.
pub fn path(alloc: Global, word: &str) -> Result<Vec<u64>, AllocError>
    requires { is_path word.now ≡ true }
    ensures path { IfOk result (λ v. v.items ≡ path_of word.now) }
    ensures small { IfOk result (λ v. All (λ i. i < 2 ^ 64 - 1) v.items) }
{
    if word == "-" {
        return Ok(Vec::new(alloc));
    }
    numbers(alloc, word.as_bytes())
}
