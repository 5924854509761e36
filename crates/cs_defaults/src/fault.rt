// The refusals of marks.
use cs_meanings::meaning;
use std::alloc::{AllocError, AllocFailed};
use std::error::Error;
use std::fmt;

/// Why files don't stand for files without marks. A file is named by its index in the list, an offset counts its bytes from 0.
#[derive(Debug, Drop)]
pub enum DefaultFault {
    /// Memory ran out.
    OutOfMemory,
    /// The mark at the offset is out of place, or the default there could be excluded by another declaration of its label; or a literal with embeddings or
    /// a name with selectors stands there, which files here come without.
    Mark { file: usize, offset: usize },
}

impl fmt::Display for DefaultFault {
    fn fmt<W: fmt::Write>(&self, f: &mut fmt::Formatter<W>) -> fmt::Result {
        f.write_str(meaning(match self {
            DefaultFault::OutOfMemory => 15,
            DefaultFault::Mark { .. } => 5,
        }))
    }
}

impl Error for DefaultFault {}

impl From<AllocError> for DefaultFault {
    ghost use Rattle.std.specs.Prelude.{◌≡◌};
    ghost use Rattle.cs_defaults.specs.declared.fault.DefaultFault.TheVariants.{OutOfMemory};

    ghost from_gives = { λ _ e. e ≡ OutOfMemory };

    fn from(_refused: AllocError) -> DefaultFault {
        DefaultFault::OutOfMemory
    }
}

impl<T: Drop> From<AllocFailed<T>> for DefaultFault {
    ghost use Rattle.std.specs.Prelude.{◌≡◌};
    ghost use Rattle.cs_defaults.specs.declared.fault.DefaultFault.TheVariants.{OutOfMemory};

    ghost from_gives = { λ _ e. e ≡ OutOfMemory };

    fn from(_refused: AllocFailed<T>) -> DefaultFault {
        DefaultFault::OutOfMemory
    }
}
