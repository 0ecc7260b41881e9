//! Words, names and numbers.

ghost use Rattle.std.specs.Prelude.{◌≡◌, ◌++◌, OnOk, codes};
ghost use Rattle.std.specs.List.{flat_map};
ghost use Rattle.hp_syntax.specs.TermTexts.{num_text};
ghost use Rattle.hp_syntax.specs.Views.{order_of};
ghost use Rattle.hp_syntax.specs.Written.{name_of, order_word};

use hp_syntax::{Decimals, Name, SortOrder, sign};
use itoa::Buffer;
use std::alloc::AllocError;

/// A number, by its count of thousandths.
pub fn push_number(text: &mut Vec<u8>, number: i64) -> Result<(), AllocError>
    ensures { OnOk result (text.new.items ≡ text.old.items ++ num_text number) }
{
    let magnitude = number.unsigned_abs();
    let decimals = Decimals::new((magnitude % 1000) as u32);
    let mut whole = Buffer::new();
    let digits = whole.format(magnitude / 1000).as_bytes();
    push_all(text, &[sign(number < 0), digits, decimals.as_bytes()])
}

/// Texts, one behind the other.
pub fn push_all(text: &mut Vec<u8>, texts: &[&[u8]]) -> Result<(), AllocError>
    ensures { OnOk result (text.new.items ≡ text.old.items ++ flat_map (λ t. t.now) texts.now) }
{
    for part in texts {
        text.extend_from_slice(part)?;
    }
    Ok(())
}

/// The name of a variable, or nothing where it has none.
pub fn variable_name(vars: &[Name], v: u32) -> &[u8]
    ensures { result.now ≡ name_of vars.now v }
{
    match vars.get(v as usize) {
        Some(name) => name.bytes(),
        None => b"",
    }
}

/// The name of a variable.
pub fn push_variable(text: &mut Vec<u8>, vars: &[Name], v: u32) -> Result<(), AllocError>
    ensures { OnOk result (text.new.items ≡ text.old.items ++ name_of vars.now v) }
{
    text.extend_from_slice(variable_name(vars, v))
}

/// The name of an order.
pub fn order_word(order: &SortOrder) -> &[u8]
    ensures { result.now ≡ order_word (order_of order.now) }
{
    match order {
        SortOrder::Up => b"<",
        SortOrder::Down => b">",
        SortOrder::Unknown(name, _) => name.bytes(),
    }
}

/// The beginning of a list that begins with a word.
pub fn push_begun(text: &mut Vec<u8>, word: &[u8]) -> Result<(), AllocError>
    ensures { OnOk result (text.new.items ≡ text.old.items ++ codes "(" ++ word.now) }
{
    text.push(b'(')?;
    text.extend_from_slice(word)
}
