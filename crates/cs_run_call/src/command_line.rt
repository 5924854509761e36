// The command line: the words of the process, and what is shown where they name no command that can be answered.
use cs_place::put_shown;
use cs_tool::Fault;
use std::alloc::{AllocError, Global};
use std::io;
use std::io::Write;

/// The status of a faulty command line.
pub const COMMAND_LINE: u8 = 3;

/// The words of the process; `None` where one isn't UTF-8, which is told.
pub fn process_words(rt: &HostRuntime) -> Result<Option<Vec<String>>, Fault> {
    match std::env::args(rt) {
        Ok(arguments) => {
            // `collect` would ask for the room of all of them first, and go on where that is refused.
            let mut words = Vec::new(rt.alloc());
            for word in arguments {
                words.push(word)?;
            }
            Ok(Some(words))
        }
        Err(error) if error.kind() == io::ErrorKind::OutOfMemory => Err(Fault::OutOfMemory),
        Err(_) => {
            let _ = eprintln!(rt; "error: an argument is not UTF-8");
            Ok(None)
        }
    }
}

/// The status of what `clap` prints: help on standard output, a fault of the command line on standard error.
pub fn show(rt: &HostRuntime, error: &clap::Error) -> Result<u8, Fault> {
    if error.kind() == clap::error::ErrorKind::OutOfMemory {
        return Err(Fault::OutOfMemory);
    }
    if error.use_stderr() {
        let text = fault_text(rt.alloc(), error)?;
        // A fault that can't be printed changes no status.
        let _ = rt.stderr().write_all(text.as_bytes());
        return Ok(COMMAND_LINE);
    }
    error.print(rt).or(Err(Fault::WriteFailed))?;
    Ok(0)
}

/// What `clap` says of a fault of the command line, whose words stand in it: each line as it is shown.
fn fault_text(alloc: Global, error: &clap::Error) -> Result<String, AllocError> {
    let mut said = String::new(alloc);
    write!(said, "{error}")?;
    let mut text = String::new(alloc);
    for line in said.lines() {
        put_shown(&mut text, line)?;
        text.push('\n')?;
    }
    Ok(text)
}
