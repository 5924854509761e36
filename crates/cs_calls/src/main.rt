// Makes calls whose answers `cue2schema` doesn't show, and takes standard input through single steps, for measuring.
//
// Without words, or with the word `rows`, standard input is rows, a line each: a call and its cells, with ` => ` between them. Each row is
// printed with what the call answers behind it, or the line of the refusal. A line that names no call is printed as it stands. `rows.rt`
// says how a cell is spelled, and `call.rt` what each call answers.
//
// Otherwise the first word is a step, and a count is printed. The second word is how many times the step is taken:
// - `lex`, `parse`, `resolve`, `guard`: a source; its tokens, its definitions, or those of its package.
// - `compile`, `document`, `text`: a source; the definitions of the schema of its first definition, the keys at the top of the
//   schema's document, or the bytes of its text.
// - `read`, `flatten`, `copy`: a JSON text; the values at the top of its document, or all of them, or those at the top of a
//   copy. `flatten` and `copy` read once.
// - `list`: a JSON text, which is read straight into the list of its values; how many there are.
// - `fill`: how many items a table has, with 8,192 rules; its judgements.
//
// The word `again` makes a call of the tool twice, and prints a line for each answer: behind it stand the call, the root and the
// document, and standard input is the source, or the schema. The call is `export`, `vet`, `validate`, `agree`, or `run` for
// `agree` over a reader and a writer.
//
// Where memory runs out, it ends as `cue2schema` does: by `error 15` and status 5.
#![tactic(auto)]

mod again;
mod call;
mod documents;
mod judges;
mod places;
mod rows;
mod sources;
mod step;
mod texts;
mod tokens;
mod verdicts;

use crate::again::Inputs;
use crate::step::{Step, step_of};
use cs_tool::{Fault, read_up_to, write_text};
use std::alloc::Global;
use std::process::ExitCode;
use std::{io, str};

fn main(rt: HostRuntime) -> ExitCode {
    match printed(&rt) {
        Ok(()) => ExitCode::from(0),
        Err(Fault::OutOfMemory) => {
            let _ = eprintln!(rt; "error 15");
            ExitCode::from(5)
        }
        Err(_) => {
            let _ = eprintln!(rt; "no such step, or an input that is refused");
            ExitCode::from(1)
        }
    }
}

/// Prints what the words of the process ask for.
fn printed(rt: &HostRuntime) -> Result<(), Fault> {
    let words = words_of(rt)?;
    let Some(input) = read_up_to(rt.alloc(), &mut rt.stdin(), usize::MAX)? else {
        return Err(Fault::InputTooLong);
    };
    let lines = lines_of(rt.alloc(), &input, &words)?;
    write_text(&mut rt.stdout(), &lines)
}

/// The words of the process.
fn words_of(rt: &HostRuntime) -> Result<Vec<String>, Fault> {
    match std::env::args(rt) {
        Ok(arguments) => {
            let mut words = Vec::new(rt.alloc());
            for word in arguments {
                words.push(word)?;
            }
            Ok(words)
        }
        Err(error) if error.kind() == io::ErrorKind::OutOfMemory => Err(Fault::OutOfMemory),
        Err(_) => Err(Fault::ReadFailed),
    }
}

/// What the words ask for, as lines. `ReadFailed` where they name no step, or no number.
fn lines_of(alloc: Global, input: &[u8], words: &[String]) -> Result<Vec<u8>, Fault> {
    match step_of(word_at(words, 1, "rows")) {
        None => Err(Fault::ReadFailed),
        Some(Step::Rows) => rows::answered(alloc, text_of(input)?),
        Some(Step::Again) => answered_twice(alloc, input, words),
        Some(step) => {
            let Ok(times) = word_at(words, 2, "1").parse::<u32>() else {
                return Err(Fault::ReadFailed);
            };
            let count = counted(alloc, input, step, times)?;
            Ok(format!(in alloc; "{count}\n")?.into_bytes())
        }
    }
}

/// A word of the process.
fn word_at<'a>(words: &'a [String], place: usize, default: &'a str) -> &'a str {
    match words.get(place) {
        Some(word) => word.as_str(),
        None => default,
    }
}

fn text_of(input: &[u8]) -> Result<&str, Fault> {
    match str::from_utf8(input) {
        Ok(text) => Ok(text),
        Err(_) => Err(Fault::NotUtf8 { file: 0 }),
    }
}

/// What the call that the words name answers twice.
fn answered_twice(alloc: Global, text: &[u8], words: &[String]) -> Result<Vec<u8>, Fault> {
    let inputs = Inputs {
        text,
        root: word_at(words, 3, ""),
        doc: word_at(words, 4, "").as_bytes(),
    };
    again::answered_twice(alloc, word_at(words, 2, ""), inputs)
}

/// What a step counts, the last of so many times.
fn counted(alloc: Global, input: &[u8], step: Step, times: u32) -> Result<usize, Fault> {
    match step {
        Step::Flatten | Step::Copy => documents::counted_of_one(alloc, input, step, times),
        Step::Read | Step::List | Step::Fill => documents::counted(alloc, input, step, times),
        _ => sources::counted(alloc, text_of(input)?, step, times),
    }
}
