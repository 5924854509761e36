// The refusals of schemas, when they are read or made.
use cs_meanings::meaning;
use std::alloc::{AllocError, AllocFailed};
use std::error::Error;
use std::fmt;

/// Why a document isn't a schema of the profile. A place is the JSON pointer of the schema object at fault.
#[derive(Debug, Drop)]
pub enum SchemaFault {
    /// Memory ran out.
    OutOfMemory,
    /// The profile doesn't have the keyword.
    Keyword { place: String, name: String },
    /// The keyword's value doesn't have its shape; with the empty name, the value at the place isn't a schema.
    Shape { place: String, name: String },
    /// A `$ref` names a definition that the schema doesn't have.
    Reference { place: String, name: String },
    /// Definitions reach themselves: each refers directly to the next, and the last to the first.
    Loop { names: Vec<String> },
}

impl fmt::Display for SchemaFault {
    fn fmt<W: fmt::Write>(&self, f: &mut fmt::Formatter<W>) -> fmt::Result {
        f.write_str(meaning(match self {
            SchemaFault::OutOfMemory => 15,
            SchemaFault::Keyword { .. } => 21,
            SchemaFault::Shape { .. } => 22,
            SchemaFault::Reference { .. } => 23,
            SchemaFault::Loop { .. } => 24,
        }))
    }
}

impl Error for SchemaFault {}

impl From<AllocError> for SchemaFault {
    ghost use Rattle.std.specs.Prelude.{◌≡◌};
    ghost use Rattle.cs_profile.specs.declared.fault.SchemaFault.TheVariants.{OutOfMemory};

    ghost from_gives = { λ _ e. e ≡ OutOfMemory };

    fn from(_refused: AllocError) -> SchemaFault {
        SchemaFault::OutOfMemory
    }
}

impl<T: Drop> From<AllocFailed<T>> for SchemaFault {
    ghost use Rattle.std.specs.Prelude.{◌≡◌};
    ghost use Rattle.cs_profile.specs.declared.fault.SchemaFault.TheVariants.{OutOfMemory};

    ghost from_gives = { λ _ e. e ≡ OutOfMemory };

    fn from(_refused: AllocFailed<T>) -> SchemaFault {
        SchemaFault::OutOfMemory
    }
}
