ghost use Rattle.std.specs.Prelude.{◌≡◌};
ghost use Rattle.hp_terms.specs.declared.refusal.FormRefusal.TheVariants.{NoMemory};

use hp_syntax::{Span, What};
use std::alloc::{AllocError, AllocFailed};

/// Why a forest has no form. A span is that of the first node that isn't what is wanted; where a
/// list ends too early, that of its closing bracket; where a file does, the empty one at its end.
#[derive(Clone, Copy, Debug, PartialEq, Eq)]
pub enum FormRefusal {
    /// Something else is wanted here.
    Expected { what: What, span: Span },
    /// Memory ran out.
    NoMemory,
}

impl From<AllocError> for FormRefusal {
    ghost from_gives = { λ _ e. e ≡ NoMemory };

    fn from(_error: AllocError) -> FormRefusal {
        FormRefusal::NoMemory
    }
}

impl<T: Drop> From<AllocFailed<T>> for FormRefusal {
    ghost from_gives = { λ _ e. e ≡ NoMemory };

    fn from(_error: AllocFailed<T>) -> FormRefusal {
        FormRefusal::NoMemory
    }
}
