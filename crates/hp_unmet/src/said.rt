//! What says a term: a pattern, and an atom where the term is one.
ghost use Rattle.std.specs.Prelude.{List, IfOk, map};
ghost use Rattle.hp_syntax.specs.GroundViews.{as_terms, ground_of, grounds_of};
ghost use Rattle.hp_syntax.specs.Terms.{Term, Symbol, Number, Listed, More};
ghost use Rattle.hp_syntax.specs.Views.{atom_of, pattern_of};
ghost use Rattle.hp_unmet.specs.Said.{AllSay, Says, SaysAtom, SaysIfAtom};

use hp_syntax::{AtomPat, Ground, Name, Pat, PatKind, Span};
use std::alloc::{AllocError, Global};

// The span of what stands in no text.
const NOWHERE: Span = Span { from: 0, to: 0 };

fn symbol(name: Name) -> Pat
    ensures { Says (pattern_of result) (Symbol name) }
{
    Pat {
        span: NOWHERE,
        kind: PatKind::Sym(name),
    }
}

fn number(n: i64) -> Pat
    ensures { Says (pattern_of result) (Number n) }
{
    Pat {
        span: NOWHERE,
        kind: PatKind::Num(n),
    }
}

fn listing(parts: Vec<Pat>) -> Pat
    ensures { (ts : List Term) → AllSay (map pattern_of parts.items) ts
        → Says (pattern_of result) (Listed (as_terms ts)) }
{
    Pat {
        span: NOWHERE,
        kind: PatKind::List(parts, None),
    }
}

/// A pattern that says a term.
#[cycle(pattern)]
fn to_pattern(alloc: Global, term: &Ground) -> Result<Pat, AllocError>
    ensures { IfOk result (λ p. Says (pattern_of p) (ground_of term.now)) }
{
    match term {
        Ground::Sym(name) => {
            let own = name.copy(alloc)?;
            Ok(symbol(own))
        }
        Ground::Num(n) => Ok(number(*n)),
        Ground::List(parts) => {
            let own = to_patterns(alloc, parts.as_slice())?;
            Ok(listing(own))
        }
    }
}

#[cycle(pattern)]
fn to_patterns(alloc: Global, terms: &[Ground]) -> Result<Vec<Pat>, AllocError>
    ensures { IfOk result (λ ps. AllSay (map pattern_of ps.items) (map ground_of terms.now)) }
{
    let mut patterns = Vec::with_capacity(alloc, terms.len())?;
    for term in terms {
        let pattern = to_pattern(alloc, term)?;
        patterns.push(pattern)?;
    }
    Ok(patterns)
}

/// An atom of a name and arguments.
fn named_atom(alloc: Global, name: &Name, args: &[Ground]) -> Result<AtomPat, AllocError>
    ensures { IfOk result (λ a. SaysAtom (atom_of a) (Listed (More (Symbol name.now) (grounds_of args.now)))) }
{
    let own = name.copy(alloc)?;
    let parts = to_patterns(alloc, args)?;
    Ok(AtomPat {
        span: NOWHERE,
        name: own,
        args: parts,
        tail: None,
    })
}

/// The atom that a list says, which begins with this term.
fn headed_atom(
    alloc: Global,
    first: &Ground,
    args: &[Ground],
) -> Result<Option<AtomPat>, AllocError>
    ensures { IfOk result (λ o. SaysIfAtom o (Listed (More (ground_of first.now) (grounds_of args.now)))) }
{
    match first {
        Ground::Sym(name) => {
            let atom = named_atom(alloc, name, args)?;
            Ok(Some(atom))
        }
        Ground::Num(_) => Ok(None),
        Ground::List(_) => Ok(None),
    }
}

fn listed_atom(alloc: Global, parts: &[Ground]) -> Result<Option<AtomPat>, AllocError>
    ensures { IfOk result (λ o. SaysIfAtom o (Listed (grounds_of parts.now))) }
{
    match parts {
        [] => Ok(None),
        [first, args @ ..] => headed_atom(alloc, first, args),
    }
}

/// An atom that says a term, where it is one.
pub fn to_atom(alloc: Global, term: &Ground) -> Result<Option<AtomPat>, AllocError>
    ensures { IfOk result (λ o. SaysIfAtom o (ground_of term.now)) }
{
    match term {
        Ground::List(parts) => listed_atom(alloc, parts.as_slice()),
        Ground::Sym(_) => Ok(None),
        Ground::Num(_) => Ok(None),
    }
}
