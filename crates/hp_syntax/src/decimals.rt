ghost use Rattle.std.specs.Prelude.{◌≡◌, ◌+◌, ◌%◌, ◌<◌, ◌==◌, [], cond, codes};
ghost use Rattle.hp_syntax.specs.TermTexts.{decimals_text};

use std::marker::Model;

/// The text of decimals, with a point before them, in room of its own. Contracts see it as its bytes.
#[derive(Debug, Drop)]
pub struct Decimals {
    bytes: [u8; 4],
    len: usize,
}

impl Model for Decimals {
    ghost use Rattle.std.specs.Prelude.{ℕ, ◌≤◌, List, take};

    ghost Value = { List ℕ };

    ghost view = { λ d. take d.len d.bytes };

    ghost invariant = { λ d. d.len ≤ 4 };
}

impl Decimals {
    /// The text of less than 1000 thousandths behind a point, without zeros at its end, and nothing where there
    /// are none.
    pub fn new(rest: u32) -> Decimals
        requires { rest < 1000 }
        ensures { result ≡ decimals_text rest }
    {
        Decimals {
            bytes: [b'.', digit(rest / 100), digit(rest / 10), digit(rest)],
            len: length(rest),
        }
    }

    /// Its bytes.
    pub fn as_bytes(&self) -> &[u8]
        ensures { result.now ≡ self.now }
    {
        &self.bytes[..self.len]
    }
}

/// The sign of a number, which is written only before a negative one.
pub fn sign(is_negative: bool) -> &'static [u8]
    ensures { result.now ≡ cond is_negative (codes "-") [] }
{
    if is_negative { b"-" } else { b"" }
}

// The last digit of a number.
fn digit(number: u32) -> u8
    ensures { result ≡ 48 + number % 10 }
{
    b'0' + (number % 10) as u8
}

// How many bytes the point and its digits take.
fn length(rest: u32) -> usize
    ensures { result ≡ cond (rest == 0) 0 (cond (rest % 100 == 0) 2 (cond (rest % 10 == 0) 3 4)) }
{
    if rest == 0 {
        0
    } else if rest.is_multiple_of(100) {
        2
    } else if rest.is_multiple_of(10) {
        3
    } else {
        4
    }
}
