// The refusals of `heights`.
use std::alloc::{AllocError, AllocFailed};
use std::error::Error;
use std::fmt;

/// Why a graph has no heights.
#[derive(Debug, Drop)]
pub enum GraphFault {
    /// Memory ran out.
    OutOfMemory,
    /// A cycle of references: each number refers to the next, and the last to the first, which is the lowest.
    Cycle { numbers: Vec<usize> },
}

impl fmt::Display for GraphFault {
    fn fmt<W: fmt::Write>(&self, f: &mut fmt::Formatter<W>) -> fmt::Result {
        f.write_str(match self {
            GraphFault::OutOfMemory => "memory ran out",
            GraphFault::Cycle { .. } => "numbers refer to one another in a cycle",
        })
    }
}

impl Error for GraphFault {}

impl From<AllocError> for GraphFault {
    ghost use Rattle.std.specs.Prelude.{◌≡◌};
    ghost use Rattle.cs_graph.specs.declared.fault.GraphFault.TheVariants.{OutOfMemory};

    ghost from_gives = { λ _ e. e ≡ OutOfMemory };

    fn from(_refused: AllocError) -> GraphFault {
        GraphFault::OutOfMemory
    }
}

impl<T: Drop> From<AllocFailed<T>> for GraphFault {
    ghost use Rattle.std.specs.Prelude.{◌≡◌};
    ghost use Rattle.cs_graph.specs.declared.fault.GraphFault.TheVariants.{OutOfMemory};

    ghost from_gives = { λ _ e. e ≡ OutOfMemory };

    fn from(_refused: AllocFailed<T>) -> GraphFault {
        GraphFault::OutOfMemory
    }
}
