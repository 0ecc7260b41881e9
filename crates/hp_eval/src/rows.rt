//! The rows of the call table, by their names.
ghost use Rattle.std.specs.Prelude.{◌≡◌, bytes_eq};
ghost use Rattle.hp_syntax.specs.Calls as plain;
ghost use Rattle.hp_eval.specs.CallRows.{table_row, test_row};

use crate::arithmetic::{Carried, OfNumbers, OfTwo};
use hp_syntax::Name;

/// A row of the call table.
#[derive(Clone, Copy)]
pub(crate) enum Row {
    OfNumbers(OfNumbers),
    Equal,
    Unequal,
    Member,
    Unknown,
}

fn is(name: &Name, bytes: &[u8]) -> bool
    ensures { result ≡ bytes_eq name.now bytes.now }
{
    name.bytes() == bytes
}

fn test_named(name: &Name) -> Row
    ensures { table_row result ≡ test_row name.now }
{
    if is(name, b"<") {
        Row::OfNumbers(OfNumbers::OfTwo(OfTwo::Less))
    } else if is(name, b"<=") {
        Row::OfNumbers(OfNumbers::OfTwo(OfTwo::AtMost))
    } else if is(name, b">=") {
        Row::OfNumbers(OfNumbers::OfTwo(OfTwo::AtLeast))
    } else if is(name, b">") {
        Row::OfNumbers(OfNumbers::OfTwo(OfTwo::Greater))
    } else if is(name, b"=") {
        Row::Equal
    } else if is(name, b"!=") {
        Row::Unequal
    } else if is(name, b"member") {
        Row::Member
    } else {
        Row::Unknown
    }
}

/// The row of a name.
pub(crate) fn row_named(name: &Name) -> Row
    ensures { table_row result ≡ plain.row name.now }
{
    if is(name, b"+") {
        Row::OfNumbers(OfNumbers::InTurn(Carried::Sum))
    } else if is(name, b"*") {
        Row::OfNumbers(OfNumbers::InTurn(Carried::Product))
    } else if is(name, b"-") {
        Row::OfNumbers(OfNumbers::OfTwo(OfTwo::Difference))
    } else if is(name, b"/") {
        Row::OfNumbers(OfNumbers::OfTwo(OfTwo::Quotient))
    } else if is(name, b"mod") {
        Row::OfNumbers(OfNumbers::OfTwo(OfTwo::Remainder))
    } else if is(name, b"^") {
        Row::OfNumbers(OfNumbers::OfTwo(OfTwo::Power))
    } else if is(name, b"min") {
        Row::OfNumbers(OfNumbers::OfTwo(OfTwo::Least))
    } else if is(name, b"max") {
        Row::OfNumbers(OfNumbers::OfTwo(OfTwo::Greatest))
    } else if is(name, b"abs") {
        Row::OfNumbers(OfNumbers::Absolute)
    } else {
        test_named(name)
    }
}
