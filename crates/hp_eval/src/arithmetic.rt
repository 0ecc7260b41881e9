//! Arithmetic of calls on counts of thousandths, by 64-bit steps that tell what doesn't fit.
ghost use Rattle.std.specs.Prelude.{◌≡◌, ◌≢◌, ℤ, Ok, Err, Some, FitsSigned, pos, unsigned_abs, ◌*ℤ◌, int_div, replicate};
ghost use Rattle.std.specs.Int.{w64};
ghost use Rattle.std.specs.Option.{SomeIff};
ghost use Rattle.hp_syntax.specs.Calls as plain;
ghost use Rattle.hp_eval.specs.CallRows.{step_of, two_of, numbers_called, answered, as_number, fitted};

use hp_syntax::{FaultKind, RunFault, Span};

/// The value of a call: a number, the symbol `t`, or the empty list.
#[derive(Clone, Copy)]
pub(crate) enum Called {
    Number(i64),
    True,
    Nothing,
}

/// A function of two numbers that is carried from the left through all arguments.
#[derive(Clone, Copy)]
pub(crate) enum Carried {
    Sum,
    Product,
}

/// A function of two numbers.
#[derive(Clone, Copy)]
pub(crate) enum OfTwo {
    Difference,
    Quotient,
    Remainder,
    Power,
    Least,
    Greatest,
    Less,
    AtMost,
    AtLeast,
    Greater,
}

/// A function of numbers.
#[derive(Clone, Copy)]
pub(crate) enum OfNumbers {
    InTurn(Carried),
    OfTwo(OfTwo),
    Absolute,
}

/// The value of a test.
pub(crate) fn truth(holds: bool) -> Called
    ensures { answered (Ok result) ≡ plain.truth holds }
{
    if holds { Called::True } else { Called::Nothing }
}

fn fault(kind: FaultKind, span: Span) -> RunFault
    ensures { result ≡ plain.fault_at kind span }
{
    RunFault { kind, span }
}

fn fitting(n: Option<i64>, span: Span) -> Result<i64, RunFault>
    ensures { (v : ℤ) → SomeIff n (FitsSigned w64 v) v → result ≡ fitted span v }
{
    match n {
        Some(n) => Ok(n),
        None => Err(fault(FaultKind::Overflow, span)),
    }
}

fn number(n: Option<i64>, span: Span) -> Result<Called, RunFault>
    ensures { (v : ℤ) → SomeIff n (FitsSigned w64 v) v → answered result ≡ plain.number span v }
{
    let n = fitting(n, span)?;
    Ok(Called::Number(n))
}

fn narrowed(n: i128) -> Option<i64>
    ensures { SomeIff result (FitsSigned w64 n) n }
{
    i64::try_from(n).ok()
}

// The product of two counts, also by 1000 in place of one of them, fits into 128 bits.
fn product(m: i64, n: i64) -> Option<i64>
    ensures { SomeIff result (FitsSigned w64 (plain.product m n)) (plain.product m n) }
{
    narrowed(i128::from(m) * i128::from(n) / 1000)
}

fn checked_step(function: Carried, m: i64, n: i64) -> Option<i64>
    ensures { SomeIff result (FitsSigned w64 (step_of function m n)) (step_of function m n) }
{
    match function {
        Carried::Sum => m.checked_add(n),
        Carried::Product => product(m, n),
    }
}

fn in_turn(function: Carried, span: Span, first: i64, rest: &[i64]) -> Result<i64, RunFault>
    ensures { as_number result ≡ plain.in_turn (step_of function) span first rest.now }
{
    let mut total = first;
    for n in rest {
        total = fitting(checked_step(function, total, *n), span)?;
    }
    Ok(total)
}

/// A function carried from the left through all numbers.
fn from_left(function: Carried, span: Span, numbers: &[i64]) -> Result<Called, RunFault>
    ensures { answered result ≡ plain.from_left (step_of function) span (Some numbers.now) }
{
    match numbers {
        [] => Ok(Called::Nothing),
        [first, rest @ ..] => {
            let total = in_turn(function, span, *first, rest)?;
            Ok(Called::Number(total))
        }
    }
}

fn divided(m: i64, n: i64) -> Option<i64>
    requires divisor { n ≢ pos 0 }
    ensures { SomeIff result (FitsSigned w64 (int_div (m *ℤ pos 1000) n)) (int_div (m *ℤ pos 1000) n) }
{
    narrowed(i128::from(m) * 1000 / i128::from(n))
}

fn quotient(m: i64, n: i64, span: Span) -> Result<Called, RunFault>
    ensures { answered result ≡ plain.quotient span m n }
{
    if n == 0 {
        Err(fault(FaultKind::ZeroDivisor, span))
    } else {
        number(divided(m, n), span)
    }
}

fn remainder(m: i64, n: i64, span: Span) -> Result<Called, RunFault>
    ensures { answered result ≡ plain.remainder span m n }
{
    if n == 0 {
        Err(fault(FaultKind::ZeroDivisor, span))
    } else {
        Ok(Called::Number(m.wrapping_rem(n)))
    }
}

// Where a total repeats, all further ones are the same, and that is soon. A number of less than 1 in size makes each
// total less in size, down to 0 within 1000 turns. One of more than 1 in size makes each total greater in size, by a
// thousandth at least and, as it grows, by about a thousandth part of it, so that it leaves 64 bits within 40,000
// turns. 1 repeats at once. The totals of -1 alternate and never repeat, so it is answered without them.
fn repeated(m: i64, times: u64, span: Span) -> Result<i64, RunFault>
    ensures { as_number result ≡ plain.in_turn plain.product span (pos 1000) (replicate times m) }
{
    let mut total = 1000;
    for _ in 0..times {
        let next = fitting(product(total, m), span)?;
        if next == total {
            break;
        }
        total = next;
    }
    Ok(total)
}

fn whole_power(m: i64, times: i64, span: Span) -> Result<Called, RunFault>
    ensures { answered result ≡ plain.whole_power span m times }
{
    if times < 0 {
        Err(fault(FaultKind::NegativePower, span))
    } else if m == -1000 {
        let power = if times % 2 == 0 { 1000 } else { -1000 };
        Ok(Called::Number(power))
    } else {
        let total = repeated(m, times as u64, span)?;
        Ok(Called::Number(total))
    }
}

fn power(m: i64, n: i64, span: Span) -> Result<Called, RunFault>
    ensures { answered result ≡ plain.power span m n }
{
    if n % 1000 != 0 {
        Err(fault(FaultKind::FractionPower, span))
    } else {
        whole_power(m, n / 1000, span)
    }
}

fn of_both(function: OfTwo, m: i64, n: i64, span: Span) -> Result<Called, RunFault>
    ensures { answered result ≡ two_of function span m n }
{
    match function {
        OfTwo::Difference => number(m.checked_sub(n), span),
        OfTwo::Quotient => quotient(m, n, span),
        OfTwo::Remainder => remainder(m, n, span),
        OfTwo::Power => power(m, n, span),
        OfTwo::Least => Ok(Called::Number(m.min(n))),
        OfTwo::Greatest => Ok(Called::Number(m.max(n))),
        OfTwo::Less => Ok(truth(m < n)),
        OfTwo::AtMost => Ok(truth(m <= n)),
        OfTwo::AtLeast => Ok(truth(m >= n)),
        OfTwo::Greater => Ok(truth(m > n)),
    }
}

/// A function of two numbers, or nothing where there aren't two.
fn of_two(function: OfTwo, span: Span, numbers: &[i64]) -> Result<Called, RunFault>
    ensures { answered result ≡ plain.of_two (two_of function) span (Some numbers.now) }
{
    match numbers {
        [m, n] => of_both(function, *m, *n, span),
        _ => Ok(Called::Nothing),
    }
}

/// The absolute value of a number; a fault where there isn't one number.
fn absolute(span: Span, numbers: &[i64]) -> Result<Called, RunFault>
    ensures { answered result ≡ plain.of_one (λ s n. plain.number s (pos (unsigned_abs n))) span (Some numbers.now) }
{
    match numbers {
        [n] => number(n.checked_abs(), span),
        _ => Ok(Called::Nothing),
    }
}

/// A function of these numbers.
pub(crate) fn of_numbers(
    function: OfNumbers,
    span: Span,
    numbers: &[i64],
) -> Result<Called, RunFault>
    ensures { answered result ≡ numbers_called function span numbers.now }
{
    match function {
        OfNumbers::InTurn(function) => from_left(function, span, numbers),
        OfNumbers::OfTwo(function) => of_two(function, span, numbers),
        OfNumbers::Absolute => absolute(span, numbers),
    }
}
