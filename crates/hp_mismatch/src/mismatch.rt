//! The first argument of a head that doesn't match.
ghost use Rattle.std.specs.Prelude.{◌≡◌, IfOk};
ghost use Rattle.hp_syntax.specs.GroundViews.{grounds_of};
ghost use Rattle.hp_syntax.specs.Values as values;
ghost use Rattle.hp_syntax.specs.Views.{atom_of, patterns_of};
ghost use Rattle.hp_mismatch.specs.Mismatch as plain;
ghost use Rattle.hp_mismatch.specs.ValueViews.{bindings_of};

use crate::matching::{match_pattern, match_tail};
use crate::misfit::{Misfit, misfit_of};
use crate::values::{Value, as_value, unbound};
use hp_syntax::{AtomPat, Ground, Pat, Tail};
use std::alloc::{AllocError, Global};

/// The tail, where it doesn't match the terms that are left.
fn tail_misfit<'a>(
    tail: Option<Tail>,
    terms: &'a [Ground],
    values: &mut Vec<Option<Value<'a>>>,
) -> Option<Misfit>
    ensures { result ≡ plain.tail_misfit tail (grounds_of terms.now) (bindings_of values.old.items) }
{
    let matches = match_tail(tail, terms, values);
    match tail {
        Some(tail) if !matches => Some(Misfit::Variable(tail.span)),
        Some(_) => None,
        None => None,
    }
}

/// The first of some arguments that doesn't match under the values that those before it gave, or the tail.
fn mismatch<'a>(
    args: &[Pat],
    tail: Option<Tail>,
    terms: &'a [Ground],
    values: &mut Vec<Option<Value<'a>>>,
) -> Option<Misfit>
    ensures { result
        ≡ plain.mismatch (patterns_of args.now) tail (grounds_of terms.now) (bindings_of values.old.items) }
{
    let count = args.len().min(terms.len());
    for place in 0..count {
        if !match_pattern(&args[place], as_value(&terms[place]), values) {
            return Some(misfit_of(&args[place]));
        }
    }
    if count < args.len() {
        return None;
    }
    tail_misfit(tail, &terms[count..], values)
}

/// Whether a head takes so many arguments.
pub fn takes(head: &AtomPat, terms: &[Ground]) -> bool
    ensures { result ≡ plain.takes (atom_of head.now).tail (plain.pattern_count (atom_of head.now).args)
        (plain.term_count (grounds_of terms.now)) }
{
    let args = head.args.as_slice();
    match head.tail {
        Some(_) => args.len() <= terms.len(),
        None => args.len() == terms.len(),
    }
}

/// The first argument of a head that doesn't match the arguments of a task, of a rule with so many variables.
pub fn first_misfit(
    alloc: Global,
    head: &AtomPat,
    terms: &[Ground],
    vars: usize,
) -> Result<Option<Misfit>, AllocError>
    ensures { IfOk result (λ m. m ≡ plain.mismatch (atom_of head.now).args (atom_of head.now).tail
        (grounds_of terms.now) (values.unbound vars)) }
{
    let mut values = unbound(alloc, vars)?;
    let found = mismatch(head.args.as_slice(), head.tail, terms, &mut values);
    Ok(found)
}
