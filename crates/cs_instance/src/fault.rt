use cs_meanings::meaning;
use cs_table::TableFault;
use std::alloc::AllocError;
use std::error::Error;
use std::fmt;

/// Why a document can't be judged.
#[derive(Debug, Drop)]
pub enum InstanceFault {
    /// Memory ran out.
    OutOfMemory,
    /// The package doesn't declare the root.
    UnknownRoot,
    /// The document has so many values and the root reaches so many rules, which make more than 67,108,864 pairs.
    TooManyPairs { items: usize, rules: usize },
}

impl fmt::Display for InstanceFault {
    fn fmt<W: fmt::Write>(&self, f: &mut fmt::Formatter<W>) -> fmt::Result {
        f.write_str(meaning(match self {
            InstanceFault::OutOfMemory => 15,
            InstanceFault::UnknownRoot => 13,
            InstanceFault::TooManyPairs { .. } => 27,
        }))
    }
}

impl Error for InstanceFault {}

impl From<AllocError> for InstanceFault {
    ghost use Rattle.std.specs.Prelude.{◌≡◌};
    ghost use Rattle.cs_instance.specs.declared.fault.InstanceFault.TheVariants.{OutOfMemory};

    ghost from_gives = { λ _ e. e ≡ OutOfMemory };

    fn from(_refused: AllocError) -> InstanceFault {
        InstanceFault::OutOfMemory
    }
}

impl From<TableFault> for InstanceFault {
    ghost use Rattle.std.specs.Prelude.{◌≡◌};
    ghost use Rattle.cs_instance.specs.Faults.{fault_of};

    ghost from_gives = { λ e f. f ≡ fault_of e };

    fn from(fault: TableFault) -> InstanceFault {
        match fault {
            TableFault::OutOfMemory => InstanceFault::OutOfMemory,
            TableFault::TooManyPairs { items, rules } => {
                InstanceFault::TooManyPairs { items, rules }
            }
        }
    }
}
