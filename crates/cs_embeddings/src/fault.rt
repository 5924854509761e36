// The refusals of embeddings.
use cs_meanings::meaning;
use std::alloc::{AllocError, AllocFailed};
use std::error::Error;
use std::fmt;

/// Why files don't stand for files without embeddings. A file is named by its index in the list, an offset counts its bytes from 0.
#[derive(Debug, Drop)]
pub enum EmbeddingFault {
    /// Memory ran out.
    OutOfMemory,
    /// The definition that is embedded at the offset isn't declared.
    UnknownName { file: usize, offset: usize },
    /// What is embedded at the offset isn't put together from literals, or embeds itself; or there is an `if` at the offset, which files here
    /// come without.
    NoStruct { file: usize, offset: usize },
    /// The value at the offset stands beside another one of its label in a literal with embeddings, and one of them would have to be opened.
    Reopened { file: usize, offset: usize },
    /// A body is higher than 28 with what it embeds.
    TooHigh { file: usize },
    /// There are more than 50,000 nodes with what is embedded.
    TooLarge,
}

impl fmt::Display for EmbeddingFault {
    fn fmt<W: fmt::Write>(&self, f: &mut fmt::Formatter<W>) -> fmt::Result {
        f.write_str(meaning(match self {
            EmbeddingFault::OutOfMemory => 15,
            EmbeddingFault::UnknownName { .. } => 9,
            EmbeddingFault::NoStruct { .. } | EmbeddingFault::Reopened { .. } => 11,
            EmbeddingFault::TooHigh { .. } => 7,
            EmbeddingFault::TooLarge => 14,
        }))
    }
}

impl Error for EmbeddingFault {}

impl From<AllocError> for EmbeddingFault {
    ghost use Rattle.std.specs.Prelude.{◌≡◌};
    ghost use Rattle.cs_embeddings.specs.declared.fault.EmbeddingFault.TheVariants.{OutOfMemory};

    ghost from_gives = { λ _ e. e ≡ OutOfMemory };

    fn from(_refused: AllocError) -> EmbeddingFault {
        EmbeddingFault::OutOfMemory
    }
}

impl<T: Drop> From<AllocFailed<T>> for EmbeddingFault {
    ghost use Rattle.std.specs.Prelude.{◌≡◌};
    ghost use Rattle.cs_embeddings.specs.declared.fault.EmbeddingFault.TheVariants.{OutOfMemory};

    ghost from_gives = { λ _ e. e ≡ OutOfMemory };

    fn from(_refused: AllocFailed<T>) -> EmbeddingFault {
        EmbeddingFault::OutOfMemory
    }
}
