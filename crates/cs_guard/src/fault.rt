// The refusals of `guard`.
use cs_meanings::meaning;
use std::alloc::AllocError;
use std::error::Error;
use std::fmt;

/// Why the recursion of a package is refused.
#[derive(Debug, Drop)]
pub enum GuardFault {
    /// Memory ran out.
    OutOfMemory,
    /// A cycle of strong references: each name refers strongly to the next, and the last to the first.
    Cycle { names: Vec<String> },
    /// A chain of more than 64 strong references: each name refers strongly to the next.
    ChainTooLong { names: Vec<String> },
}

impl fmt::Display for GuardFault {
    fn fmt<W: fmt::Write>(&self, f: &mut fmt::Formatter<W>) -> fmt::Result {
        f.write_str(meaning(match self {
            GuardFault::OutOfMemory => 15,
            GuardFault::Cycle { .. } => 12,
            GuardFault::ChainTooLong { .. } => 16,
        }))
    }
}

impl Error for GuardFault {}

impl From<AllocError> for GuardFault {
    ghost use Rattle.std.specs.Prelude.{◌≡◌};
    ghost use Rattle.cs_guard.specs.declared.fault.GuardFault.TheVariants.{OutOfMemory};

    ghost from_gives = { λ _ e. e ≡ OutOfMemory };

    fn from(_refused: AllocError) -> GuardFault {
        GuardFault::OutOfMemory
    }
}
