// The refusals of conditions.
use cs_meanings::meaning;
use std::alloc::{AllocError, AllocFailed};
use std::error::Error;
use std::fmt;

/// Why files don't stand for files without conditions. A file is named by its index in the list, an offset counts its bytes from 0.
#[derive(Debug, Drop)]
pub enum ConditionFault {
    /// Memory ran out.
    OutOfMemory,
    /// The condition at the offset is none that is taken: its label is no name of a field of its literal, or what is under it, or a value of the
    /// field, stands in its way.
    LeftOut { file: usize, offset: usize },
    /// The field of the condition at the offset may be absent.
    MayBeAbsent { file: usize, offset: usize },
}

impl fmt::Display for ConditionFault {
    fn fmt<W: fmt::Write>(&self, f: &mut fmt::Formatter<W>) -> fmt::Result {
        f.write_str(meaning(match self {
            ConditionFault::OutOfMemory => 15,
            ConditionFault::LeftOut { .. } => 5,
            ConditionFault::MayBeAbsent { .. } => 10,
        }))
    }
}

impl Error for ConditionFault {}

impl From<AllocError> for ConditionFault {
    ghost use Rattle.std.specs.Prelude.{◌≡◌};
    ghost use Rattle.cs_conditions.specs.declared.fault.ConditionFault.TheVariants.{OutOfMemory};

    ghost from_gives = { λ _ e. e ≡ OutOfMemory };

    fn from(_refused: AllocError) -> ConditionFault {
        ConditionFault::OutOfMemory
    }
}

impl<T: Drop> From<AllocFailed<T>> for ConditionFault {
    ghost use Rattle.std.specs.Prelude.{◌≡◌};
    ghost use Rattle.cs_conditions.specs.declared.fault.ConditionFault.TheVariants.{OutOfMemory};

    ghost from_gives = { λ _ e. e ≡ OutOfMemory };

    fn from(_refused: AllocFailed<T>) -> ConditionFault {
        ConditionFault::OutOfMemory
    }
}
