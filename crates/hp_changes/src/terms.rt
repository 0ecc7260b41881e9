//! Terms that are copied, compared and looked for.
ghost use Rattle.std.specs.Prelude.{◌≡◌, ◌++◌, false, true, IfOk, MatchOption, OnOk, map};
ghost use Rattle.hp_syntax.specs.GroundViews.{ground_of, grounds_of};
ghost use Rattle.hp_syntax.specs.Terms.{Symbol, Number, Listed, member, same_term, same_terms};
ghost use Rattle.hp_changes.specs.Changes.{apart, once};
ghost use Rattle.hp_changes.specs.Changing.{unplaced};

use hp_syntax::{Ground, Name};
use std::alloc::{AllocError, Global};

/// A term in memory of its own.
#[cycle(copied)]
fn copy(alloc: Global, term: &Ground) -> Result<Ground, AllocError>
    ensures { IfOk result (λ g. ground_of g ≡ ground_of term.now) }
{
    match term {
        Ground::Sym(name) => {
            let own = name.copy(alloc)?;
            Ok(Ground::Sym(own))
        }
        Ground::Num(n) => Ok(Ground::Num(*n)),
        Ground::List(parts) => {
            let own = copies(alloc, parts.as_slice())?;
            Ok(Ground::List(own))
        }
    }
}

/// Terms in memory of their own.
#[cycle(copied)]
fn copies(alloc: Global, terms: &[Ground]) -> Result<Vec<Ground>, AllocError>
    ensures { IfOk result (λ v. map ground_of v.items ≡ map ground_of terms.now) }
{
    let mut all = Vec::new(alloc);
    for term in terms {
        let own = copy(alloc, term)?;
        all.push(own)?;
    }
    Ok(all)
}

/// Whether a term is the symbol of a name.
fn is_symbol(name: &Name, term: &Ground) -> bool
    ensures { result ≡ same_term (Symbol name.now) (ground_of term.now) }
{
    match term {
        Ground::Sym(own) => name == own,
        Ground::Num(_) => false,
        Ground::List(_) => false,
    }
}

/// Whether a term is a number.
fn is_number(n: i64, term: &Ground) -> bool
    ensures { result ≡ same_term (Number n) (ground_of term.now) }
{
    match term {
        Ground::Sym(_) => false,
        Ground::Num(own) => n == *own,
        Ground::List(_) => false,
    }
}

/// Whether two terms are equal.
#[cycle(same)]
fn is_same(a: &Ground, b: &Ground) -> bool
    ensures { result ≡ same_term (ground_of a.now) (ground_of b.now) }
{
    match a {
        Ground::Sym(name) => is_symbol(name, b),
        Ground::Num(n) => is_number(*n, b),
        Ground::List(parts) => is_list_of(parts.as_slice(), b),
    }
}

/// Whether a term is the list of these parts.
#[cycle(same)]
fn is_list_of(parts: &[Ground], term: &Ground) -> bool
    ensures { result ≡ same_term (Listed (grounds_of parts.now)) (ground_of term.now) }
{
    match term {
        Ground::Sym(_) => false,
        Ground::Num(_) => false,
        Ground::List(own) => are_same(parts, own.as_slice()),
    }
}

/// Whether as many terms are equal one by one. However many they are, no call waits for the next one.
#[cycle(same)]
fn are_same(a: &[Ground], b: &[Ground]) -> bool
    ensures { result ≡ same_terms (grounds_of a.now) (grounds_of b.now) }
{
    if a.len() != b.len() {
        return false;
    }
    for place in 0..a.len() {
        if !is_same(&a[place], &b[place]) {
            return false;
        }
    }
    true
}

/// Whether a term stands at a place.
fn is_at(terms: &[Ground], place: usize, term: &Ground) -> bool
    ensures { result ≡ true → member (ground_of term.now) (map ground_of terms.now) ≡ true }
{
    place < terms.len() && is_same(term, &terms[place])
}

/// The first place of a term among others.
fn first_place(terms: &[Ground], term: &Ground) -> Option<usize>
    ensures { MatchOption result (member (ground_of term.now) (map ground_of terms.now) ≡ false)
        (λ place. member (ground_of term.now) (map ground_of terms.now) ≡ true) }
{
    for place in 0..terms.len() {
        if is_same(term, &terms[place]) {
            return Some(place);
        }
    }
    None
}

/// A place of a term among others, where the likely one is looked at first.
fn place_of(terms: &[Ground], likely: usize, term: &Ground) -> Option<usize>
    ensures { MatchOption result (member (ground_of term.now) (map ground_of terms.now) ≡ false)
        (λ place. member (ground_of term.now) (map ground_of terms.now) ≡ true) }
{
    if is_at(terms, likely, term) {
        return Some(likely);
    }
    first_place(terms, term)
}

/// Adds a term to others, where none of these is at a place.
fn push_absent(
    alloc: Global,
    terms: &mut Vec<Ground>,
    term: &Ground,
    place: Option<usize>,
) -> Result<(), AllocError>
    ensures { OnOk result (map ground_of terms.new.items ≡ map ground_of terms.old.items
        ++ unplaced place (ground_of term.now)) }
{
    match place {
        Some(_) => Ok(()),
        None => {
            let own = copy(alloc, term)?;
            Ok(terms.push(own)?)
        }
    }
}

/// The terms that are none of the others, in their order.
pub(crate) fn apart(
    alloc: Global,
    terms: &[Ground],
    others: &[Ground],
) -> Result<Vec<Ground>, AllocError>
    ensures { IfOk result (λ v. map ground_of v.items ≡ apart (map ground_of terms.now) (map ground_of others.now)) }
{
    let mut kept = Vec::new(alloc);
    // Most terms stand in the same order in both, so the likely place is that behind the last one found.
    let mut likely = 0;
    for term in terms {
        let place = place_of(others, likely, term);
        push_absent(alloc, &mut kept, term, place)?;
        likely = behind(place, likely);
    }
    Ok(kept)
}

/// The place behind one, or another where there is none.
fn behind(place: Option<usize>, other: usize) -> usize {
    match place {
        Some(place) => place.saturating_add(1),
        None => other,
    }
}

/// Each term once, where it comes first.
pub(crate) fn once(alloc: Global, terms: &[Ground]) -> Result<Vec<Ground>, AllocError>
    ensures { IfOk result (λ v. map ground_of v.items ≡ once (map ground_of terms.now)) }
{
    let mut kept = Vec::new(alloc);
    for term in terms {
        let place = first_place(kept.as_slice(), term);
        push_absent(alloc, &mut kept, term, place)?;
    }
    Ok(kept)
}
