// The refusals of `lex` and `parse_file`.
use cs_meanings::meaning;
use std::alloc::{AllocError, AllocFailed};
use std::error::Error;
use std::fmt;

/// Why a source has no tokens, or no tree. Offsets count the bytes of the source from 0.
#[derive(Debug, Drop)]
pub enum SyntaxFault {
    /// Memory ran out.
    OutOfMemory,
    /// No token of the profile begins at the offset.
    NoToken { offset: usize },
    /// The tokens don't spell a file, and one of them is at the offset.
    Syntax { offset: usize },
    /// The same, where that token begins a form of CUE that this profile leaves out.
    LeftOut { offset: usize },
    /// The integer at the offset doesn't fit in 64 signed bits.
    IntegerRange { offset: usize },
    /// The tokens nest deeper than 28, or a body is higher than that.
    TooHigh,
}

impl fmt::Display for SyntaxFault {
    fn fmt<W: fmt::Write>(&self, f: &mut fmt::Formatter<W>) -> fmt::Result {
        f.write_str(meaning(match self {
            SyntaxFault::OutOfMemory => 15,
            SyntaxFault::NoToken { .. } => 3,
            SyntaxFault::Syntax { .. } => 4,
            SyntaxFault::LeftOut { .. } => 5,
            SyntaxFault::IntegerRange { .. } => 6,
            SyntaxFault::TooHigh => 7,
        }))
    }
}

impl Error for SyntaxFault {}

impl From<AllocError> for SyntaxFault {
    ghost use Rattle.std.specs.Prelude.{◌≡◌};
    ghost use Rattle.cs_grammar.specs.declared.fault.SyntaxFault.TheVariants.{OutOfMemory};

    ghost from_gives = { λ _ e. e ≡ OutOfMemory };

    fn from(_refused: AllocError) -> SyntaxFault {
        SyntaxFault::OutOfMemory
    }
}

impl<T: Drop> From<AllocFailed<T>> for SyntaxFault {
    ghost use Rattle.std.specs.Prelude.{◌≡◌};
    ghost use Rattle.cs_grammar.specs.declared.fault.SyntaxFault.TheVariants.{OutOfMemory};

    ghost from_gives = { λ _ e. e ≡ OutOfMemory };

    fn from(_refused: AllocFailed<T>) -> SyntaxFault {
        SyntaxFault::OutOfMemory
    }
}
