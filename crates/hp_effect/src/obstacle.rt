//! Obstacles of effects.
use hp_eval::EvalStop;
use hp_syntax::RunFault;
use std::alloc::AllocError;

/// Why effects stop.
#[derive(Clone, Copy, Debug, PartialEq, Eq)]
pub enum Obstacle {
    /// A limit on axioms cut the search for satisfiers short.
    Cut,
    Fault(RunFault),
    NoMemory,
}

impl From<EvalStop> for Obstacle {
    ghost use Rattle.std.specs.Prelude.{◌≡◌};
    ghost use Rattle.hp_effect.specs.Gathering.{obstacle_of};

    ghost from_gives = { λ stop obstacle. obstacle ≡ obstacle_of stop };

    fn from(stop: EvalStop) -> Obstacle {
        match stop {
            EvalStop::Fault(fault) => Obstacle::Fault(fault),
            EvalStop::NoMemory => Obstacle::NoMemory,
        }
    }
}

impl From<AllocError> for Obstacle {
    ghost use Rattle.std.specs.Prelude.{◌≡◌};
    ghost use Rattle.hp_effect.specs.declared.obstacle.Obstacle.TheVariants.{NoMemory};

    ghost from_gives = { λ _ obstacle. obstacle ≡ NoMemory };

    fn from(_refused: AllocError) -> Obstacle {
        Obstacle::NoMemory
    }
}
