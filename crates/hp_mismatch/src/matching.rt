//! Matching patterns with terms that aren't copied.
//!
//! A call that answers false may leave further values.
ghost use Rattle.std.specs.Prelude.{◌≡◌};
ghost use Rattle.hp_syntax.specs.GroundViews.{grounds_of};
ghost use Rattle.hp_syntax.specs.Matching as plain;
ghost use Rattle.hp_syntax.specs.Views.{pattern_of, patterns_of};
ghost use Rattle.hp_mismatch.specs.ValueViews.{bindings_of, extended, match_listed, value_of};

use crate::values::{Value, as_value, is_number, is_same, is_symbol};
use hp_syntax::{Ground, Pat, PatKind, Tail};

/// Lets a variable stand for a value, or compares its own with it. A number that no variable has meets nothing.
fn meet<'a>(v: u32, found: Value<'a>, values: &mut Vec<Option<Value<'a>>>) -> bool
    ensures { plain.meet v (value_of found.entry) (bindings_of values.old.items)
        ≡ extended result (bindings_of values.new.items) }
{
    let place = v as usize;
    if place >= values.len() {
        return false;
    }
    match values[place] {
        Some(own) => is_same(own, found),
        None => {
            values[place] = Some(found);
            true
        }
    }
}

/// Matches a tail with all terms that are left.
pub fn match_tail<'a>(
    tail: Option<Tail>,
    terms: &'a [Ground],
    values: &mut Vec<Option<Value<'a>>>,
) -> bool
    ensures { plain.match_tail tail (grounds_of terms.now) (bindings_of values.old.items)
        ≡ extended result (bindings_of values.new.items) }
{
    match tail {
        Some(tail) => meet(tail.var, Value::List(terms), values),
        None => terms.is_empty(),
    }
}

/// Matches a pattern with a value.
#[cycle(matching)]
pub fn match_pattern<'a>(pat: &Pat, found: Value<'a>, values: &mut Vec<Option<Value<'a>>>) -> bool
    ensures { plain.match_pattern (pattern_of pat.now) (value_of found.entry) (bindings_of values.old.items)
        ≡ extended result (bindings_of values.new.items) }
{
    match &pat.kind {
        PatKind::Var(v) => meet(*v, found, values),
        PatKind::Sym(name) => is_symbol(name, found),
        PatKind::Num(n) => is_number(*n, found),
        PatKind::List(parts, tail) => match_list(parts.as_slice(), *tail, found, values),
        PatKind::Call(_, _) => false,
    }
}

/// Matches the parts of a pattern with those of a value.
#[cycle(matching)]
fn match_list<'a>(
    parts: &[Pat],
    tail: Option<Tail>,
    found: Value<'a>,
    values: &mut Vec<Option<Value<'a>>>,
) -> bool
    ensures { match_listed (patterns_of parts.now) tail (value_of found.entry) (bindings_of values.old.items)
        ≡ extended result (bindings_of values.new.items) }
{
    match found {
        Value::Sym(_) => false,
        Value::Num(_) => false,
        Value::List(terms) => match_parts(parts, tail, terms, values),
    }
}

/// Matches patterns with terms, one by one, and then the tail with those that are left.
#[cycle(matching)]
fn match_parts<'a>(
    parts: &[Pat],
    tail: Option<Tail>,
    terms: &'a [Ground],
    values: &mut Vec<Option<Value<'a>>>,
) -> bool
    ensures { plain.match_parts (patterns_of parts.now) tail (grounds_of terms.now) (bindings_of values.old.items)
        ≡ extended result (bindings_of values.new.items) }
{
    if terms.len() < parts.len() {
        return false;
    }
    for place in 0..parts.len() {
        if !match_pattern(&parts[place], as_value(&terms[place]), values) {
            return false;
        }
    }
    match_tail(tail, &terms[parts.len()..], values)
}
