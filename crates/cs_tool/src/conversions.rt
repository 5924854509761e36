// What the refusals of each crate are among those of the tool.
ghost use Rattle.std.specs.Prelude.{◌≡◌};
ghost use Rattle.cs_tool.specs.Conversions.{of_syntax, of_resolve, of_guard, of_instance, of_compile, of_schema, of_validate, of_document, of_schema_text};

use crate::Fault;
use cs_compile::CompileFault;
use cs_guard::GuardFault;
use cs_instance::InstanceFault;
use cs_json::DocFault;
use cs_resolve::ResolveFault;
use cs_schema::SchemaFault;
use cs_syntax::SyntaxFault;
use cs_validate::ValidateFault;

/// The fault of the tool that has the name of a crate's fault and carries the same, and behind a `;` what it carries beside that.
macro_rules! told {
    ($fault:expr; $of:ident { $($name:ident $({ $($part:ident),* $(; $more:ident: $value:expr)? })?),* }) => {
        match $fault {
            $($of::$name $({ $($part),* })? => Fault::$name $({ $($part,)* $($more: $value)? })?,)*
        }
    };
}

/// What a fault of the source in a file is.
pub(crate) fn of_syntax(file: usize, fault: SyntaxFault) -> Fault
    ensures { result ≡ of_syntax file fault }
{
    match fault {
        SyntaxFault::OutOfMemory => Fault::OutOfMemory,
        SyntaxFault::NoToken { offset } => Fault::NoToken { file, offset },
        SyntaxFault::Syntax { offset } => Fault::Syntax { file, offset },
        SyntaxFault::LeftOut { offset } => Fault::LeftOut { file, offset },
        SyntaxFault::IntegerRange { offset } => Fault::IntegerRange { file, offset },
        SyntaxFault::TooHigh => Fault::TooHigh { file },
    }
}

impl From<ResolveFault> for Fault {
    ghost from_gives = { λ e f. f ≡ of_resolve e };

    fn from(fault: ResolveFault) -> Fault {
        told!(fault; ResolveFault { OutOfMemory, PackageName { file }, UnknownName { file, offset }, FieldReference { file, offset },
            NotOpened { file, offset }, TooLarge { definitions } })
    }
}

impl From<GuardFault> for Fault {
    ghost from_gives = { λ e f. f ≡ of_guard e };

    fn from(fault: GuardFault) -> Fault {
        told!(fault; GuardFault { OutOfMemory, Cycle { names }, ChainTooLong { names } })
    }
}

impl From<InstanceFault> for Fault {
    ghost from_gives = { λ e f. f ≡ of_instance e };

    fn from(fault: InstanceFault) -> Fault {
        told!(fault; InstanceFault { OutOfMemory, UnknownRoot, TooManyPairs { items, rules; by_schema: false } })
    }
}

impl From<CompileFault> for Fault {
    ghost from_gives = { λ e f. f ≡ of_compile e };

    fn from(fault: CompileFault) -> Fault {
        told!(fault; CompileFault { OutOfMemory, UnknownRoot })
    }
}

impl From<SchemaFault> for Fault {
    ghost from_gives = { λ e f. f ≡ of_schema e };

    fn from(fault: SchemaFault) -> Fault {
        told!(fault; SchemaFault { OutOfMemory, Keyword { place, name }, Shape { place, name }, Reference { place, name }, Loop { names } })
    }
}

impl From<ValidateFault> for Fault {
    ghost from_gives = { λ e f. f ≡ of_validate e };

    fn from(fault: ValidateFault) -> Fault {
        told!(fault; ValidateFault { OutOfMemory, TooManyPairs { items, rules; by_schema: true } })
    }
}

/// What a fault of a schema's text is.
pub(crate) fn of_schema_text(fault: DocFault) -> Fault
    ensures { result ≡ of_schema_text fault }
{
    match fault {
        DocFault::OutOfMemory => Fault::OutOfMemory,
        DocFault::NotJson { offset, is_cut } => Fault::SchemaNotJson { offset, is_cut },
        DocFault::NotInteger { offset } => Fault::NotInteger {
            offset,
            in_schema: true,
        },
    }
}

/// The fault of a document's text.
impl From<DocFault> for Fault {
    ghost from_gives = { λ e f. f ≡ of_document e };

    fn from(fault: DocFault) -> Fault {
        told!(fault; DocFault { OutOfMemory, NotJson { offset, is_cut }, NotInteger { offset; in_schema: false } })
    }
}
