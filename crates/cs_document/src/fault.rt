// The refusals of documents. No function here reads a text: `NotJson` and `NotInteger` are those of `cs_json`, of which
// `Doc::copy` answers the same type.
use cs_meanings::meaning;
use std::alloc::{AllocError, AllocFailed};
use std::error::Error;
use std::fmt;

/// Why a document was not read or made.
#[derive(Debug, Drop)]
pub enum DocFault {
    /// Memory ran out.
    OutOfMemory,
    /// `serde_json` reads no value from the text: it isn't JSON or isn't UTF-8, nests deeper than 127, or has
    /// a number that is too large. That shows at the offset, in bytes; a text that is cut off ends there.
    NotJson { offset: usize, is_cut: bool },
    /// The text has a number that isn't an integer, or doesn't fit in 64 signed bits. The first one is at the offset.
    NotInteger { offset: usize },
}

impl fmt::Display for DocFault {
    fn fmt<W: fmt::Write>(&self, f: &mut fmt::Formatter<W>) -> fmt::Result {
        f.write_str(meaning(match self {
            DocFault::OutOfMemory => 15,
            DocFault::NotJson { .. } => 25,
            DocFault::NotInteger { .. } => 26,
        }))
    }
}

impl Error for DocFault {}

impl From<AllocError> for DocFault {
    ghost use Rattle.std.specs.Prelude.{◌≡◌};
    ghost use Rattle.cs_document.specs.declared.fault.DocFault.TheVariants.{OutOfMemory};

    ghost from_gives = { λ _ e. e ≡ OutOfMemory };

    fn from(_refused: AllocError) -> DocFault {
        DocFault::OutOfMemory
    }
}

impl<T: Drop> From<AllocFailed<T>> for DocFault {
    ghost use Rattle.std.specs.Prelude.{◌≡◌};
    ghost use Rattle.cs_document.specs.declared.fault.DocFault.TheVariants.{OutOfMemory};

    ghost from_gives = { λ _ e. e ≡ OutOfMemory };

    fn from(_refused: AllocFailed<T>) -> DocFault {
        DocFault::OutOfMemory
    }
}
