//! What variables stand for, and when two values are equal.
ghost use Rattle.std.specs.Prelude.{◌≡◌, IfOk};
ghost use Rattle.hp_syntax.specs.GroundViews.{ground_of, grounds_of};
ghost use Rattle.hp_syntax.specs.Terms.{Listed, Number, Symbol, same_term, same_terms};
ghost use Rattle.hp_syntax.specs.Values as plain;
ghost use Rattle.hp_mismatch.specs.ValueViews.{bindings_of, value_of};

use hp_syntax::{Ground, Name};
use std::alloc::{AllocError, Global};

/// A term that isn't copied. A list is one by its parts, so a tail may stand for the last parts of a longer list.
#[derive(Clone, Copy)]
pub enum Value<'a> {
    Sym(&'a Name),
    Num(i64),
    List(&'a [Ground]),
}

/// A term as a value.
pub fn as_value(term: &Ground) -> Value<'_>
    ensures { value_of result ≡ ground_of term.now }
{
    match term {
        Ground::Sym(name) => Value::Sym(name),
        Ground::Num(n) => Value::Num(*n),
        Ground::List(parts) => Value::List(parts.as_slice()),
    }
}

/// So many variables, none of which stands for anything.
pub fn unbound<'a>(alloc: Global, count: usize) -> Result<Vec<Option<Value<'a>>>, AllocError>
    ensures { IfOk result (λ v. bindings_of v.items ≡ plain.unbound count) }
{
    let free = vec![in alloc; None; count]?;
    Ok(free)
}

/// Whether a value is the symbol of a name.
pub fn is_symbol(name: &Name, value: Value<'_>) -> bool
    ensures { result ≡ same_term (Symbol name.now) (value_of value.entry) }
{
    match value {
        Value::Sym(own) => name == own,
        Value::Num(_) => false,
        Value::List(_) => false,
    }
}

/// Whether a value is a number.
pub fn is_number(n: i64, value: Value<'_>) -> bool
    ensures { result ≡ same_term (Number n) (value_of value.entry) }
{
    match value {
        Value::Sym(_) => false,
        Value::Num(own) => n == own,
        Value::List(_) => false,
    }
}

/// Whether two values are equal.
#[cycle(same)]
pub fn is_same(a: Value<'_>, b: Value<'_>) -> bool
    ensures { result ≡ same_term (value_of a.entry) (value_of b.entry) }
{
    match a {
        Value::Sym(name) => is_symbol(name, b),
        Value::Num(n) => is_number(n, b),
        Value::List(parts) => is_list_of(parts, b),
    }
}

/// Whether a value is the list of these parts.
#[cycle(same)]
fn is_list_of(parts: &[Ground], value: Value<'_>) -> bool
    ensures { result ≡ same_term (Listed (grounds_of parts.now)) (value_of value.entry) }
{
    match value {
        Value::Sym(_) => false,
        Value::Num(_) => false,
        Value::List(own) => are_same(parts, own),
    }
}

/// Whether as many terms are equal one by one. However many they are, no call waits for the next one.
#[cycle(same)]
fn are_same(a: &[Ground], b: &[Ground]) -> bool
    ensures { result ≡ same_terms (grounds_of a.now) (grounds_of b.now) }
{
    if a.len() != b.len() {
        return false;
    }
    for place in 0..a.len() {
        if !is_same(as_value(&a[place]), as_value(&b[place])) {
            return false;
        }
    }
    true
}
