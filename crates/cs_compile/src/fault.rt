// The refusals of `compile`.
use cs_meanings::meaning;
use std::alloc::AllocError;
use std::error::Error;
use std::fmt;

/// Why a package can't be compiled.
#[derive(Debug, Drop)]
pub enum CompileFault {
    /// Memory ran out.
    OutOfMemory,
    /// The package doesn't declare the root.
    UnknownRoot,
}

impl fmt::Display for CompileFault {
    fn fmt<W: fmt::Write>(&self, f: &mut fmt::Formatter<W>) -> fmt::Result {
        f.write_str(meaning(match self {
            CompileFault::OutOfMemory => 15,
            CompileFault::UnknownRoot => 13,
        }))
    }
}

impl Error for CompileFault {}

impl From<AllocError> for CompileFault {
    ghost use Rattle.std.specs.Prelude.{◌≡◌};
    ghost use Rattle.cs_compile.specs.declared.fault.CompileFault.TheVariants.{OutOfMemory};

    ghost from_gives = { λ _ e. e ≡ OutOfMemory };

    fn from(_refused: AllocError) -> CompileFault {
        CompileFault::OutOfMemory
    }
}
