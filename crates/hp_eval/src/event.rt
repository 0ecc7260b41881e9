use hp_syntax::RunFault;
use std::alloc::{AllocError, AllocFailed};

/// Why an evaluation stops. Cells may have been added by then, and nothing else is changed.
#[derive(Clone, Copy, Debug, PartialEq, Eq)]
pub enum EvalStop {
    /// The first fault of the value.
    Fault(RunFault),
    NoMemory,
}

impl From<RunFault> for EvalStop {
    ghost use Rattle.std.specs.Prelude.{◌≡◌};
    ghost use Rattle.hp_eval.specs.declared.event.EvalStop.TheVariants.{Fault};

    ghost from_gives = { λ fault stop. stop ≡ Fault fault };

    fn from(fault: RunFault) -> EvalStop {
        EvalStop::Fault(fault)
    }
}

impl From<AllocError> for EvalStop {
    ghost use Rattle.std.specs.Prelude.{◌≡◌};
    ghost use Rattle.hp_eval.specs.declared.event.EvalStop.TheVariants.{NoMemory};

    ghost from_gives = { λ _ stop. stop ≡ NoMemory };

    fn from(_refused: AllocError) -> EvalStop {
        EvalStop::NoMemory
    }
}

impl<T: Drop> From<AllocFailed<T>> for EvalStop {
    ghost use Rattle.std.specs.Prelude.{◌≡◌};
    ghost use Rattle.hp_eval.specs.declared.event.EvalStop.TheVariants.{NoMemory};

    ghost from_gives = { λ _ stop. stop ≡ NoMemory };

    fn from(_refused: AllocFailed<T>) -> EvalStop {
        EvalStop::NoMemory
    }
}

/// An event of a call for satisfiers: bindings, a cut by a limit, a fault, or the end.
#[derive(Clone, Copy, Debug, PartialEq, Eq)]
pub enum Event {
    /// The bindings are in the slots.
    Sat,
    /// The axiom levels that are left didn't suffice to look further here.
    Cut,
    /// After a fault nothing more comes.
    Fault(RunFault),
    End,
}
