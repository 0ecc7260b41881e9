//! The first refusal of a text, found from token to token and with no memory from the heap.

ghost use Rattle.std.specs.Prelude.{◌≡◌, ◌+◌, ◌<◌, ◌≤◌, ◌^◌, ℕ, [], None, length, reverse, IfSome, IfNone};
ghost use Rattle.hp_syntax.specs.Refusal as text;
ghost use Rattle.hp_syntax.specs.Refusal.{IsClear, refusal_at};
ghost use Rattle.hp_syntax.specs.Text.{Blank, Opening, Closing, NameByte, End, IsToken, kind_at, spelling_of};
ghost use Rattle.hp_text.specs.Refusals.{plain_refusal, TellsFirst};
ghost use Rattle.hp_text.specs.Scan.{IsScanned};
ghost use Rattle.hp_text.specs.Spellings.{plain_spelling};

use crate::byte::is_name_byte;
use crate::gap::{skip_gap, token_end};
use crate::spelling::{Spelling, is_numeral, is_small_number, spelling_of};
use arrayvec::ArrayVec;
use hp_syntax::TextKind;
use hp_syntax::limits::{DEEPEST_NESTING, LARGEST_TEXT, LONGEST_TOKEN};

/// The refusal of a text, which arises at the earliest offset.
#[derive(Clone, Copy, Debug, PartialEq, Eq)]
pub struct FirstRefusal {
    pub kind: TextKind,
    pub offset: u32,
}

// How far a text was looked at, with nothing refused.
#[derive(Drop)]
struct State {
    at: usize,
    // The offsets of the brackets that are open, the innermost last.
    brackets: ArrayVec<u32, DEEPEST_NESTING>,
}

fn refused(kind: TextKind, offset: usize) -> Option<FirstRefusal>
    requires { offset < 2 ^ 32 }
    ensures { plain_refusal result ≡ text.refused kind offset }
{
    Some(FirstRefusal {
        kind,
        offset: offset as u32,
    })
}

fn spelling_refusal(spelling: Spelling, from: usize) -> Option<FirstRefusal>
    requires { from < 2 ^ 32 }
    ensures { plain_refusal result ≡ text.numeral_refusal (plain_spelling spelling) from }
{
    match spelling {
        Spelling::Name | Spelling::Number(_) => None,
        Spelling::NoNumber => refused(TextKind::BadNumber, from),
        Spelling::OutOfRange => refused(TextKind::NumberRange, from),
    }
}

// Most numerals are known to be in range with no number computed.
#[inline(always)]
fn numeral_refusal(token: &[u8], from: usize) -> Option<FirstRefusal>
    requires { from < 2 ^ 32 }
    ensures { plain_refusal result ≡ text.numeral_refusal (spelling_of token.now) from }
{
    if !is_numeral(token) || is_small_number(token) {
        return None;
    }
    spelling_refusal(spelling_of(token), from)
}

// The first refusal in a token, of which only the bytes before `end` are looked at. A numeral
// is looked at once.
#[inline(always)]
fn token_refusal(bytes: &[u8], from: usize, to: usize, end: usize) -> Option<FirstRefusal>
    requires token { IsToken bytes.now from to }
    requires within { to ≤ length bytes.now }
    requires begun { from < end }
    requires small { end ≤ LARGEST_TEXT }
    requires clear { IsClear bytes.now from }
    ensures refused { IfSome result (TellsFirst bytes.now) }
    ensures clear { IfNone result ((i : ℕ) → i < to → i < end → refusal_at bytes.now i ≡ None) }
{
    let longest = from + LONGEST_TOKEN;
    if to > longest && end > longest {
        return refused(TextKind::TokenLong, from);
    }
    if to > end {
        return None;
    }
    numeral_refusal(&bytes[from..to], from)
}

impl State {
    fn new() -> State
        ensures at { result.at ≡ 0 }
        ensures brackets { result.brackets.items ≡ [] }
    {
        State {
            at: 0,
            brackets: ArrayVec::new(),
        }
    }

    #[inline(always)]
    fn open_bracket(&mut self) -> Option<FirstRefusal>
        requires { self.old.at < LARGEST_TEXT }
        ensures refused { plain_refusal result
            ≡ text.kind_refusal [] self.old.at Opening (reverse self.old.brackets.items) }
        ensures brackets { IfNone result (reverse self.new.brackets.items
            ≡ text.opened Opening self.old.at (reverse self.old.brackets.items)) }
        ensures at { IfNone result (self.new.at ≡ self.old.at + 1) }
    {
        if self.brackets.is_full() {
            return refused(TextKind::TooNested, self.at);
        }
        self.brackets.push(self.at as u32);
        self.at += 1;
        None
    }

    #[inline(always)]
    fn close_bracket(&mut self) -> Option<FirstRefusal>
        requires { self.old.at < LARGEST_TEXT }
        ensures refused { plain_refusal result
            ≡ text.kind_refusal [] self.old.at Closing (reverse self.old.brackets.items) }
        ensures brackets { IfNone result (reverse self.new.brackets.items
            ≡ text.opened Closing self.old.at (reverse self.old.brackets.items)) }
        ensures at { IfNone result (self.new.at ≡ self.old.at + 1) }
    {
        if self.brackets.pop().is_none() {
            return refused(TextKind::ExtraClose, self.at);
        }
        self.at += 1;
        None
    }

    // Looks at the token that begins here.
    #[inline(always)]
    fn pass_token(&mut self, bytes: &[u8], end: usize) -> Option<FirstRefusal>
        requires end { end ≤ length bytes.now }
        requires small { end ≤ LARGEST_TEXT }
        requires within { self.old.at < end }
        requires byte { kind_at bytes.now self.old.at ≡ NameByte }
        requires scanned { IsScanned bytes.now end self.old }
        ensures refused { IfSome result (TellsFirst bytes.now) }
        ensures scanned { IfNone result (IsScanned bytes.now end self.new) }
        ensures grows { IfNone result (self.old.at < self.new.at) }
    {
        let from = self.at;
        let to = token_end(bytes, from);
        self.at = to.min(end);
        token_refusal(bytes, from, to, end)
    }

    // The refusal at the end of the text.
    fn end_refusal(&self) -> Option<FirstRefusal>
        ensures { plain_refusal result ≡ text.kind_refusal [] 0 End (reverse self.now.brackets.items) }
    {
        match self.brackets.as_slice().last() {
            Some(offset) => refused(TextKind::Unclosed, *offset as usize),
            None => None,
        }
    }

    // Looks at the bracket or token that begins here.
    #[inline(always)]
    fn pass_part(&mut self, bytes: &[u8], end: usize) -> Option<FirstRefusal>
        requires end { end ≤ length bytes.now }
        requires small { end ≤ LARGEST_TEXT }
        requires within { self.old.at < end }
        requires stop { kind_at bytes.now self.old.at ≡ Blank → ⊥ }
        requires scanned { IsScanned bytes.now end self.old }
        ensures refused { IfSome result (TellsFirst bytes.now) }
        ensures scanned { IfNone result (IsScanned bytes.now end self.new) }
        ensures grows { IfNone result (self.old.at < self.new.at) }
    {
        let byte = bytes[self.at];
        if byte == b'(' {
            return self.open_bracket();
        }
        if byte == b')' {
            return self.close_bracket();
        }
        if is_name_byte(byte) {
            return self.pass_token(bytes, end);
        }
        refused(TextKind::BadByte, self.at)
    }

    // Passes a gap, and looks at what stands behind it.
    #[inline(always)]
    fn step(&mut self, bytes: &[u8], end: usize) -> Option<FirstRefusal>
        requires end { end ≤ length bytes.now }
        requires small { end ≤ LARGEST_TEXT }
        requires within { self.old.at < end }
        requires scanned { IsScanned bytes.now end self.old }
        ensures refused { IfSome result (TellsFirst bytes.now) }
        ensures scanned { IfNone result (IsScanned bytes.now end self.new) }
        ensures grows { IfNone result (self.old.at < self.new.at) }
    {
        let at = skip_gap(bytes, self.at);
        if at >= end {
            self.at = end;
            return None;
        }
        self.at = at;
        self.pass_part(bytes, end)
    }
}

/// The refusal of a text, where it has one.
pub fn first_refusal(bytes: &[u8]) -> Option<FirstRefusal>
    ensures refused { IfSome result (TellsFirst bytes.now) }
    ensures clear { IfNone result (IsClear bytes.now (length bytes.now + 1)) }
{
    let mut state = State::new();
    let end = bytes.len().min(LARGEST_TEXT);
    while state.at < end {
        let refusal = state.step(bytes, end);
        if refusal.is_some() {
            return refusal;
        }
    }
    if end < bytes.len() {
        return refused(TextKind::TooLarge, end);
    }
    state.end_refusal()
}
