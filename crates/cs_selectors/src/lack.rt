// Why a selector reaches nothing.
use std::alloc::{AllocError, AllocFailed};

/// What a selector lacks.
#[derive(Clone, Copy)]
pub enum Lack {
    /// A value to look into, which tells its fields, a label that isn't left out, or values that are taken.
    LeftOut,
    /// A declaration of its label.
    Unknown,
    /// A regular declaration of it.
    NotRegular,
}

/// Why the search for the values of a selector ends before they are found.
#[derive(Clone, Copy)]
pub(crate) enum Stop {
    /// Memory ran out.
    OutOfMemory,
    /// This is lacking.
    Lacks(Lack),
}

impl From<AllocError> for Stop {
    ghost use Rattle.std.specs.Prelude.{◌≡◌};
    ghost use Rattle.cs_selectors.specs.declared.lack.Stop.TheVariants.{OutOfMemory};

    ghost from_gives = { λ _ e. e ≡ OutOfMemory };

    fn from(_refused: AllocError) -> Stop {
        Stop::OutOfMemory
    }
}

impl<T: Drop> From<AllocFailed<T>> for Stop {
    ghost use Rattle.std.specs.Prelude.{◌≡◌};
    ghost use Rattle.cs_selectors.specs.declared.lack.Stop.TheVariants.{OutOfMemory};

    ghost from_gives = { λ _ e. e ≡ OutOfMemory };

    fn from(_refused: AllocFailed<T>) -> Stop {
        Stop::OutOfMemory
    }
}
