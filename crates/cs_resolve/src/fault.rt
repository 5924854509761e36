// The refusals of `resolve`.
use cs_meanings::meaning;
use std::alloc::{AllocError, AllocFailed};
use std::error::Error;
use std::fmt;

/// Why files aren't a package. A file is named by its index in the list, an offset counts its bytes from 0.
#[derive(Debug, Drop)]
pub enum ResolveFault {
    /// Memory ran out.
    OutOfMemory,
    /// The file is the first whose package name differs from the first one named.
    PackageName { file: usize },
    /// The name at the offset isn't declared.
    UnknownName { file: usize, offset: usize },
    /// The name at the offset names a field.
    FieldReference { file: usize, offset: usize },
    /// The struct literal at the offset has to end with `...`, and doesn't.
    NotOpened { file: usize, offset: usize },
    /// The package has more than 1,000 definitions, or more than 50,000 nodes of expressions. So many definitions it has.
    TooLarge { definitions: usize },
}

impl fmt::Display for ResolveFault {
    fn fmt<W: fmt::Write>(&self, f: &mut fmt::Formatter<W>) -> fmt::Result {
        f.write_str(meaning(match self {
            ResolveFault::OutOfMemory => 15,
            ResolveFault::PackageName { .. } => 8,
            ResolveFault::UnknownName { .. } => 9,
            ResolveFault::FieldReference { .. } => 10,
            ResolveFault::NotOpened { .. } => 11,
            ResolveFault::TooLarge { .. } => 14,
        }))
    }
}

impl Error for ResolveFault {}

impl From<AllocError> for ResolveFault {
    ghost use Rattle.std.specs.Prelude.{◌≡◌};
    ghost use Rattle.cs_resolve.specs.declared.fault.ResolveFault.TheVariants.{OutOfMemory};

    ghost from_gives = { λ _ e. e ≡ OutOfMemory };

    fn from(_refused: AllocError) -> ResolveFault {
        ResolveFault::OutOfMemory
    }
}

impl<T: Drop> From<AllocFailed<T>> for ResolveFault {
    ghost use Rattle.std.specs.Prelude.{◌≡◌};
    ghost use Rattle.cs_resolve.specs.declared.fault.ResolveFault.TheVariants.{OutOfMemory};

    ghost from_gives = { λ _ e. e ≡ OutOfMemory };

    fn from(_refused: AllocFailed<T>) -> ResolveFault {
        ResolveFault::OutOfMemory
    }
}
