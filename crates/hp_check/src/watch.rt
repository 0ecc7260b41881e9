//! The first fault so far.

ghost use Rattle.std.specs.Prelude.{◌≡◌, None};
ghost use Rattle.hp_syntax.specs.Checks.{comes_before, earlier, first_of, found, found_if};
ghost use Rattle.hp_check.specs.Places.{place_of};

use hp_syntax::{CheckFault, CheckKind, Span};

/// Where a part stands: in the head of a rule, elsewhere in it, or in a problem.
#[derive(Clone, Copy, PartialEq, Eq)]
pub enum Region {
    Head,
    Body,
    Problem,
}

/// Whether the first fault is told before the second: the domain's before the problem's, then by
/// where the span begins, then by number.
fn comes_before(first: CheckFault, second: CheckFault) -> bool
    ensures { result ≡ comes_before first second }
{
    if first.in_problem != second.in_problem {
        return second.in_problem;
    }
    first.span.from < second.span.from
        || (first.span.from == second.span.from && (first.kind as u8) < (second.kind as u8))
}

/// The first fault of the parts that were looked at.
#[derive(Clone, Copy)]
pub struct Watch {
    pub first: Option<CheckFault>,
}

impl Watch {
    pub fn new() -> Watch
        ensures { result.first ≡ None }
    {
        Watch { first: None }
    }

    /// A fault was found. Kept out of line, so that what finds none stays small.
    #[cold]
    #[inline(never)]
    pub fn found(&mut self, kind: CheckKind, place: Region, span: Span)
        ensures { self.new.first ≡ earlier self.old.first (first_of (found kind (place_of place) span)) }
    {
        let fault = CheckFault {
            kind,
            in_problem: place == Region::Problem,
            span,
        };
        self.first = match self.first {
            Some(first) if !comes_before(fault, first) => Some(first),
            _ => Some(fault),
        };
    }

    /// A fault was found where a test passes.
    pub fn found_if(&mut self, test: bool, kind: CheckKind, place: Region, span: Span)
        ensures { self.new.first ≡ earlier self.old.first (first_of (found_if test kind (place_of place) span)) }
    {
        if test {
            self.found(kind, place, span);
        }
    }
}
