use cs_meanings::meaning;
use std::alloc::AllocError;
use std::error::Error;
use std::fmt;

/// Why there is no table.
#[derive(Debug, Drop)]
pub enum TableFault {
    /// Memory ran out.
    OutOfMemory,
    /// So many items and rules were to be judged, which make more than 67,108,864 pairs.
    TooManyPairs { items: usize, rules: usize },
}

impl fmt::Display for TableFault {
    fn fmt<W: fmt::Write>(&self, f: &mut fmt::Formatter<W>) -> fmt::Result {
        f.write_str(meaning(match self {
            TableFault::OutOfMemory => 15,
            TableFault::TooManyPairs { .. } => 27,
        }))
    }
}

impl Error for TableFault {}

impl From<AllocError> for TableFault {
    ghost use Rattle.std.specs.Prelude.{◌≡◌};
    ghost use Rattle.cs_table.specs.declared.fault.TableFault.TheVariants.{OutOfMemory};

    ghost from_gives = { λ _ e. e ≡ OutOfMemory };

    fn from(_refused: AllocError) -> TableFault {
        TableFault::OutOfMemory
    }
}
