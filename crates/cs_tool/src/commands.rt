// The command line.
ghost use Rattle.std.specs.Prelude.{IsOkUnless};

use crate::Fault;
use clap::Command;
use std::alloc::Global;

/// The program's command: `export`, `vet`, `validate` and `agree` with their words. Sources are the values of `FILE`, in the
/// order of the words. Only memory can run out.
pub fn command<'a>(alloc: Global) -> Result<Command<'a>, Fault>
    ensures memory { IsOkUnless result Fault.OutOfMemory }
{
    Ok(cs_command::command(alloc)?)
}
