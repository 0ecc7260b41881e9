//! Terms and atoms.

ghost use Rattle.std.specs.Prelude.{◌≡◌};
ghost use Rattle.hp_syntax.specs.Calls as calls;
ghost use Rattle.hp_syntax.specs.Checks as checks;
ghost use Rattle.hp_syntax.specs.Checks.{earlier, first_of};
ghost use Rattle.hp_syntax.specs.Views.{pattern_of, patterns_of, atom_of, atoms_of};
ghost use Rattle.hp_check.specs.Places.{place_of};

use crate::calls::arity_of;
use crate::watch::{Region, Watch};
use hp_syntax::{AtomPat, CheckKind, Name, Pat, PatKind, Span, Tail};

fn variable(watch: &mut Watch, place: Region, span: Span)
    ensures { watch.new.first ≡ earlier watch.old.first (first_of (checks.variable_faults (place_of place) span)) }
{
    if let Region::Problem = place {
        watch.found(CheckKind::VariableInProblem, place, span);
    }
}

fn tail(watch: &mut Watch, place: Region, tail: Option<Tail>)
    ensures { watch.new.first ≡ earlier watch.old.first (first_of (checks.tail_faults (place_of place) tail)) }
{
    if let Some(tail) = tail {
        variable(watch, place, tail.span);
    }
}

/// A call is one of the call table, with as many arguments.
#[inline(never)]
fn arity(watch: &mut Watch, place: Region, span: Span, name: &Name, count: usize)
    ensures { watch.new.first ≡ earlier watch.old.first (first_of
        (checks.arity_faults (calls.arity_of name.now) count (place_of place) span)) }
{
    match arity_of(name) {
        None => watch.found(CheckKind::UnknownCall, place, span),
        Some(arity) => watch.found_if(!arity.takes(count), CheckKind::CallArity, place, span),
    }
}

/// A call doesn't stand in a head.
fn head(watch: &mut Watch, place: Region, span: Span)
    ensures { watch.new.first ≡ earlier watch.old.first (first_of (checks.head_faults (place_of place) span)) }
{
    if let Region::Head = place {
        watch.found(CheckKind::CallInHead, place, span);
    }
}

/// A term.
#[cycle(pattern)]
#[tactic(auto, unfolding(hp_syntax::specs::Views::pattern_of, hp_syntax::specs::Checks::pattern_faults))]
#[inline(always)]
pub fn pattern(watch: &mut Watch, place: Region, pat: &Pat)
    ensures { watch.new.first ≡ earlier watch.old.first
        (first_of (checks.pattern_faults (place_of place) (pattern_of pat.now))) }
{
    match &pat.kind {
        PatKind::Var(_) => variable(watch, place, pat.span),
        PatKind::Sym(_) | PatKind::Num(_) => {}
        PatKind::List(parts, end) => {
            patterns(watch, place, parts.as_slice());
            tail(watch, place, *end);
        }
        PatKind::Call(name, args) => {
            arity(watch, place, pat.span, name, args.len());
            head(watch, place, pat.span);
            patterns(watch, place, args.as_slice());
        }
    }
}

#[cycle(pattern)]
#[inline(never)]
fn patterns(watch: &mut Watch, place: Region, pats: &[Pat])
    ensures { watch.new.first ≡ earlier watch.old.first
        (first_of (checks.patterns_faults (place_of place) (patterns_of pats.now))) }
{
    for pat in pats {
        pattern(watch, place, pat);
    }
}

/// An atom.
pub fn atom(watch: &mut Watch, place: Region, atom: &AtomPat)
    ensures { watch.new.first ≡ earlier watch.old.first
        (first_of (checks.atom_faults (place_of place) (atom_of atom.now))) }
{
    patterns(watch, place, atom.args.as_slice());
    tail(watch, place, atom.tail);
}

/// Each atom of a list.
pub fn atoms(watch: &mut Watch, place: Region, list: &[AtomPat])
    ensures { watch.new.first ≡ earlier watch.old.first
        (first_of (checks.atoms_faults (place_of place) (atoms_of list.now))) }
{
    for part in list {
        atom(watch, place, part);
    }
}
