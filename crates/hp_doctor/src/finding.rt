//! What a line of the planner tells of a place.

ghost use Rattle.std.specs.Prelude.{◌≡◌};
ghost use Rattle.hp_doctor.specs.Explained.{aim_of, refusal_aim};

use hp_io::Input;
use hp_out::{Refusal, text_of};
use hp_syntax::{RunFault, Span};

/// What a line of the planner tells of a place.
#[derive(Clone, Copy, Debug, PartialEq, Eq)]
pub enum Finding {
    /// Nothing was done.
    Refused(Refusal),
    /// A task that no rule serves.
    Unserved { in_problem: bool, span: Span },
    /// A fault was met in a walk.
    Met(RunFault),
}

/// What a finding is about: a file, where it is about one, and a span of it, where it has one.
#[derive(Clone, Copy, Debug, PartialEq, Eq)]
pub struct Aim {
    pub which: Option<Input>,
    pub span: Option<Span>,
}

impl Finding {
    /// What it is about. A text refusal is told with an offset, where its span is empty.
    pub fn aim(self) -> Aim
        ensures { result ≡ aim_of self }
    {
        match self {
            Finding::Refused(refusal) => refusal_aim(refusal),
            Finding::Unserved { in_problem, span } => Aim {
                which: Some(text_of(in_problem)),
                span: Some(span),
            },
            Finding::Met(fault) => Aim {
                which: Some(Input::Domain),
                span: Some(fault.span),
            },
        }
    }
}

fn refusal_aim(refusal: Refusal) -> Aim
    ensures { result ≡ refusal_aim refusal }
{
    let (which, span) = match refusal {
        Refusal::Usage => (None, None),
        Refusal::Read(which) => (Some(which), None),
        Refusal::Text(which, _, offset) => (
            Some(which),
            Some(Span {
                from: offset,
                to: offset,
            }),
        ),
        Refusal::Form(which, _, span) => (Some(which), Some(span)),
        Refusal::Check(fault) => (Some(text_of(fault.in_problem)), Some(fault.span)),
        Refusal::NoPair(_, _) => (Some(Input::Problem), None),
    };
    Aim { which, span }
}
