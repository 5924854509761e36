// The refusals of `without_selectors`.
use cs_meanings::meaning;
use std::alloc::{AllocError, AllocFailed};
use std::error::Error;
use std::fmt;

/// Why files with selectors stand for no files without. A file is named by its index in the list, an offset counts its bytes from 0 and is that of the
/// selector.
#[derive(Debug, Drop)]
pub enum SelectorFault {
    /// Memory ran out.
    OutOfMemory,
    /// The selector looks into what doesn't tell its fields itself, as a reference or alternatives, for a label that is left out or has more than 64 values,
    /// or beside a `[string]` whose value has parts.
    LeftOut { file: usize, offset: usize },
    /// Its definition isn't declared, or nothing declares its label.
    UnknownName { file: usize, offset: usize },
    /// No declaration of its label is regular.
    NotRegular { file: usize, offset: usize },
    /// The files have more than 4,096 selectors.
    TooLarge,
}

impl fmt::Display for SelectorFault {
    fn fmt<W: fmt::Write>(&self, f: &mut fmt::Formatter<W>) -> fmt::Result {
        f.write_str(meaning(match self {
            SelectorFault::OutOfMemory => 15,
            SelectorFault::LeftOut { .. } => 5,
            SelectorFault::UnknownName { .. } => 9,
            SelectorFault::NotRegular { .. } => 10,
            SelectorFault::TooLarge => 14,
        }))
    }
}

impl Error for SelectorFault {}

impl From<AllocError> for SelectorFault {
    ghost use Rattle.std.specs.Prelude.{◌≡◌};
    ghost use Rattle.cs_selectors.specs.declared.fault.SelectorFault.TheVariants.{OutOfMemory};

    ghost from_gives = { λ _ e. e ≡ OutOfMemory };

    fn from(_refused: AllocError) -> SelectorFault {
        SelectorFault::OutOfMemory
    }
}

impl<T: Drop> From<AllocFailed<T>> for SelectorFault {
    ghost use Rattle.std.specs.Prelude.{◌≡◌};
    ghost use Rattle.cs_selectors.specs.declared.fault.SelectorFault.TheVariants.{OutOfMemory};

    ghost from_gives = { λ _ e. e ≡ OutOfMemory };

    fn from(_refused: AllocFailed<T>) -> SelectorFault {
        SelectorFault::OutOfMemory
    }
}
