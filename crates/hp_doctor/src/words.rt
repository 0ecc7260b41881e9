//! The words of lines.

ghost use Rattle.std.specs.Prelude.{◌≡◌, ◌<◌, ◌^◌, ◌≤◌, IfSome, bytes_eq, option_copied};
ghost use Rattle.hp_doctor.specs.Findings.{check_of, fault_of, input_of, kind_of, part_of, what_of};
ghost use Rattle.hp_doctor.specs.Words.{before, behind, behind_at, count_of, number_of, offset_of, span_of};

use hp_io::Input;
use hp_syntax::{CheckKind, FaultKind, Span, TextKind, What};

/// Whether these are the same bytes.
pub fn is(word: &[u8], other: &[u8]) -> bool
    ensures { result ≡ bytes_eq word.now other.now }
{
    word == other
}

/// What stands before the first of these bytes, and what stands behind it.
pub fn parted(bytes: &[u8], mark: u8) -> (&[u8], &[u8])
    ensures before { result.0.now ≡ before mark bytes.now }
    ensures behind { result.1.now ≡ behind mark bytes.now }
{
    for (i, byte) in bytes.iter().enumerate() {
        if *byte == mark {
            return (&bytes[..i], &bytes[i + 1..]);
        }
    }
    (bytes, &[])
}

/// The first word, and what follows it.
pub fn next(words: &[u8]) -> (&[u8], &[u8])
    ensures before { result.0.now ≡ before 32 words.now }
    ensures behind { result.1.now ≡ behind 32 words.now }
{
    parted(words, b' ')
}

/// The number that digits spell, up to the most that it may be.
fn number(word: &[u8], most: u64) -> Option<u64>
    ensures number { result ≡ number_of most word.now }
    ensures within { IfSome result (λ n. n ≤ most) }
{
    if word.is_empty() {
        return None;
    }
    let most = u128::from(most);
    let mut number = 0u128;
    for byte in word {
        if !byte.is_ascii_digit() {
            return None;
        }
        number = number * 10 + u128::from(*byte - b'0');
        if number > most {
            return None;
        }
    }
    Some(number as u64)
}

/// A count.
pub fn count(word: &[u8]) -> Option<u64>
    ensures { result ≡ count_of word.now }
{
    number(word, u64::MAX)
}

/// An offset in a text.
pub fn offset(word: &[u8]) -> Option<u32>
    ensures { result ≡ offset_of word.now }
{
    let number = number(word, u64::from(u32::MAX))?;
    Some(number as u32)
}

/// A span of a text.
pub fn span(word: &[u8]) -> Option<Span>
    ensures { result ≡ span_of word.now }
{
    let (from, to) = parted(word, b'-');
    let from = offset(from)?;
    let to = offset(to)?;
    Some(Span { from, to })
}

/// What follows the word `at`.
pub fn behind_at(words: &[u8]) -> Option<&[u8]>
    ensures { option_copied result ≡ behind_at words.now }
{
    let (word, others) = next(words);
    if is(word, b"at") { Some(others) } else { None }
}

pub fn input(word: &[u8]) -> Option<Input>
    ensures { result ≡ input_of word.now }
{
    if is(word, b"domain") {
        Some(Input::Domain)
    } else if is(word, b"problem") {
        Some(Input::Problem)
    } else if is(word, b"plan") {
        Some(Input::Plan)
    } else {
        None
    }
}

pub fn text_kind(word: &[u8]) -> Option<TextKind>
    ensures { result ≡ kind_of word.now }
{
    if is(word, b"BadByte") {
        Some(TextKind::BadByte)
    } else if is(word, b"BadNumber") {
        Some(TextKind::BadNumber)
    } else if is(word, b"NumberRange") {
        Some(TextKind::NumberRange)
    } else if is(word, b"TokenLong") {
        Some(TextKind::TokenLong)
    } else if is(word, b"Unclosed") {
        Some(TextKind::Unclosed)
    } else if is(word, b"ExtraClose") {
        Some(TextKind::ExtraClose)
    } else if is(word, b"TooNested") {
        Some(TextKind::TooNested)
    } else if is(word, b"TooLarge") {
        Some(TextKind::TooLarge)
    } else {
        None
    }
}

pub fn what(word: &[u8]) -> Option<What>
    ensures { result ≡ what_of word.now }
{
    if is(word, b"Domain") {
        Some(What::Domain)
    } else if is(word, b"Problem") {
        Some(What::Problem)
    } else if is(word, b"Name") {
        Some(What::Name)
    } else if is(word, b"Rules") {
        Some(What::Rules)
    } else if is(word, b"Rule") {
        Some(What::Rule)
    } else if is(word, b"Head") {
        Some(What::Head)
    } else if is(word, b"Pre") {
        Some(What::Pre)
    } else if is(word, b"Expr") {
        Some(What::Expr)
    } else {
        part_wanted(word)
    }
}

/// The smaller parts of a rule or a problem that can be wanted.
fn part_wanted(word: &[u8]) -> Option<What>
    ensures { result ≡ part_of word.now }
{
    if is(word, b"Variable") {
        Some(What::Variable)
    } else if is(word, b"Term") {
        Some(What::Term)
    } else if is(word, b"Tail") {
        Some(What::Tail)
    } else if is(word, b"Atom") {
        Some(What::Atom)
    } else if is(word, b"Atoms") {
        Some(What::Atoms)
    } else if is(word, b"Effects") {
        Some(What::Effects)
    } else if is(word, b"Tasks") {
        Some(What::Tasks)
    } else if is(word, b"Ground") {
        Some(What::Ground)
    } else if is(word, b"End") {
        Some(What::End)
    } else {
        None
    }
}

pub fn check_kind(word: &[u8]) -> Option<CheckKind>
    ensures { result ≡ check_of word.now }
{
    if is(word, b"OtherDomain") {
        Some(CheckKind::OtherDomain)
    } else if is(word, b"UnknownCall") {
        Some(CheckKind::UnknownCall)
    } else if is(word, b"CallArity") {
        Some(CheckKind::CallArity)
    } else if is(word, b"VariableInProblem") {
        Some(CheckKind::VariableInProblem)
    } else if is(word, b"CallInHead") {
        Some(CheckKind::CallInHead)
    } else if is(word, b"TooManyVariables") {
        Some(CheckKind::TooManyVariables)
    } else if is(word, b"ExprNested") {
        Some(CheckKind::ExprNested)
    } else if is(word, b"UnknownOrder") {
        Some(CheckKind::UnknownOrder)
    } else {
        None
    }
}

pub fn fault_kind(word: &[u8]) -> Option<FaultKind>
    ensures { result ≡ fault_of word.now }
{
    if is(word, b"NotGround") {
        Some(FaultKind::NotGround)
    } else if is(word, b"NotNumber") {
        Some(FaultKind::NotNumber)
    } else if is(word, b"Overflow") {
        Some(FaultKind::Overflow)
    } else if is(word, b"ZeroDivisor") {
        Some(FaultKind::ZeroDivisor)
    } else if is(word, b"NegativePower") {
        Some(FaultKind::NegativePower)
    } else if is(word, b"NotList") {
        Some(FaultKind::NotList)
    } else if is(word, b"TooDeep") {
        Some(FaultKind::TooDeep)
    } else if is(word, b"FractionPower") {
        Some(FaultKind::FractionPower)
    } else {
        None
    }
}
