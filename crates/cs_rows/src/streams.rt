// `run` and `write_fault`, with the first, the second, the third read or write failing and so on, until a run meets none.
use crate::fakes::{Blanks, Input, Output};
use crate::tables::{Row, cell, check, expanded};
use cs_tool::{Fault, Request, export, run, write_fault};
use std::alloc::{AllocError, Global};
use std::io::ErrorKind;
use std::test::Fail;

/// A call, its source or its schema, its document, the input, and what `run` answers: its truth value and what it writes
/// before the newline, or the number of a refusal. `-` stands for no source or no document. The call `line` writes the line
/// of the refusal of `export`.
const REQUESTS: &str = r##"export => - => - => #P: int & >=1 & <=65535
  … => true {"$defs":{"P":{"maximum":65535,"minimum":1,"type":"integer"}},"$ref":"#/$defs/P","$schema":"https://json-schema.org/draft/2020-12/schema"}
export => #P: int & >=1 & <=65535 => - => -
  … => true {"$defs":{"P":{"maximum":65535,"minimum":1,"type":"integer"}},"$ref":"#/$defs/P","$schema":"https://json-schema.org/draft/2020-12/schema"}
export => #P: bool => - => #P: int => true {"$defs":{"P":{"type":"boolean"}},"$ref":"#/$defs/P","$schema":"https://json-schema.org/draft/2020-12/schema"}
export => - => - => #P: int & => 4
vet => - => 65535 => #P: int & >=1 & <=65535 => true valid
vet => #P: int & >=1 & <=65535 => 1 => #P: int & >=1 & <=65535 => true valid
vet => - => 1 => #P: int & >=1 & <=65535 => true valid
vet => #P: string => 1 => #P: int => false invalid
vet => - => [1 => #P: int => 25
validate => {"type":"integer"} => - => 7 => true valid
validate => {"type":"integer"} => - => "a" => false invalid
validate => {"type":"integer"} => 7 => "a" => true valid
validate => true => - => 1e3 => 26
agree => - => 0 => #P: int & >=1 & <=65535 => false invalid
agree => #P: int => 1 => #P: string => true valid
agree => - => 1 => #Q: int => 13
line => #P: {int: string, x: int} => - => - => true error 10 at 21
line => #Q: int => - => - => true error 13"##;

/// A call and its texts, as a row has them.
#[derive(Clone, Copy)]
struct Case<'a> {
    call: &'a str,
    text: &'a str,
    doc: &'a str,
    input: &'a str,
    wanted: &'a str,
}

fn case_of(row: &str) -> Case<'_> {
    let (call, rest) = cell(row);
    let (text, rest) = cell(rest);
    let (doc, rest) = cell(rest);
    let (input, wanted) = cell(rest);
    let wanted = wanted.trim();
    Case {
        call,
        text,
        doc,
        input,
        wanted,
    }
}

/// The sources of a text, none for `-`.
fn files_of(alloc: Global, text: &str) -> Result<Vec<Vec<u8>>, AllocError> {
    let mut files = Vec::new(alloc);
    if text != "-" {
        files.push(Vec::from_slice(alloc, text.as_bytes())?)?;
    }
    Ok(files)
}

/// The request of a case for `#P`.
fn request_of(alloc: Global, case: Case<'_>) -> Result<Request, AllocError> {
    let root = String::from_str(alloc, "#P")?;
    let doc = Vec::from_slice(alloc, case.doc.as_bytes())?;
    if case.call == "validate" {
        let schema = Vec::from_slice(alloc, case.text.as_bytes())?;
        let doc = if case.doc == "-" { None } else { Some(doc) };
        return Ok(Request::Validate { schema, doc });
    }
    let files = files_of(alloc, case.text)?;
    Ok(match case.call {
        "vet" => Request::Vet { files, root, doc },
        "agree" => Request::Agree { files, root, doc },
        _ => Request::Export { files, root },
    })
}

/// Writes the line of the refusal of `export`.
fn line(alloc: Global, source: &str, output: &mut Output) -> Result<bool, Fault> {
    match export(alloc, &[source.as_bytes()], "#P") {
        Ok(_) => Ok(false),
        Err(fault) => {
            write_fault(&fault, output)?;
            Ok(true)
        }
    }
}

/// What the case answers over that input.
fn answer(
    alloc: Global,
    case: Case<'_>,
    input: &mut Input<'_>,
    output: &mut Output,
) -> Result<bool, Fault> {
    if case.call == "line" {
        return line(alloc, case.text, output);
    }
    let request = request_of(alloc, case)?;
    run(alloc, request, input, output)
}

/// Whether it is refused by that number.
fn is_refused(answer: &Result<bool, Fault>, number: u32) -> bool {
    match answer {
        Ok(_) => false,
        Err(fault) => fault.number() == number,
    }
}

/// Whether the case is answered, and the line written, as the row says.
fn is_wanted(case: Case<'_>, answer: &Result<bool, Fault>, written: &str) -> bool {
    match answer {
        Ok(true) => {
            case.wanted.strip_prefix("true ") == written.strip_suffix("\n") && !written.is_empty()
        }
        Ok(false) => {
            case.wanted.strip_prefix("false ") == written.strip_suffix("\n") && !written.is_empty()
        }
        Err(fault) => {
            case.wanted.parse::<u32>().unwrap_or(0) == fault.number() && written.is_empty()
        }
    }
}

/// Whether each read that fails in turn is told by 30 with nothing written, until a run meets none.
fn are_reads_told(alloc: Global, case: Case<'_>, a_call: usize, kind: ErrorKind) -> bool {
    for calls in 0..1000 {
        let mut input = Input::new(case.input.as_bytes(), a_call, calls, kind);
        let mut output = Output::new(alloc, 1000, 1000, None);
        let answer = answer(alloc, case, &mut input, &mut output);
        if !input.has_failed {
            return is_wanted(case, &answer, output.text());
        }
        if !is_refused(&answer, 30) || !output.text().is_empty() {
            return false;
        }
    }
    false
}

/// Whether what was written is so many bytes of the line of the row, or all of it with its newline.
fn is_front(case: Case<'_>, written: &str, count: usize) -> bool {
    let line = case.wanted.split_once(' ').unwrap_or(("", "")).1;
    match line.get(..count) {
        Some(front) => written == front,
        None => written.strip_suffix("\n") == Some(line),
    }
}

/// Whether each write, and then the flush, that goes wrong in turn is told by 31 after a front of the line, until a run meets
/// none.
fn are_writes_told(alloc: Global, case: Case<'_>, a_call: usize, kind: Option<ErrorKind>) -> bool {
    for calls in 0..1000 {
        let mut input = Input::new(case.input.as_bytes(), 7, 1000, ErrorKind::Other);
        let mut output = Output::new(alloc, a_call, calls, kind);
        let answer = answer(alloc, case, &mut input, &mut output);
        if !output.has_failed {
            return is_wanted(case, &answer, output.text());
        }
        let count = calls.saturating_mul(a_call);
        if !is_refused(&answer, 31) || !is_front(case, output.text(), count) {
            return false;
        }
    }
    false
}

/// Whether all that fails is told where so many bytes are given and taken a call, an interrupted call too.
fn are_all_told(alloc: Global, case: Case<'_>, a_call: usize) -> bool {
    are_reads_told(alloc, case, a_call, ErrorKind::Other)
        && are_reads_told(alloc, case, a_call, ErrorKind::Interrupted)
        && are_writes_told(alloc, case, a_call, Some(ErrorKind::Other))
        && are_writes_told(alloc, case, a_call, Some(ErrorKind::Interrupted))
        && are_writes_told(alloc, case, a_call, None)
}

/// Whether the row holds, a byte a call and many at once.
pub(crate) fn is_told(alloc: Global, row: &str) -> bool {
    let case = case_of(row);
    are_all_told(alloc, case, 1) && are_all_told(alloc, case, 3) && are_all_told(alloc, case, 1000)
}

#[test]
fn each_read_and_write_fails_in_turn(rt: HostRuntime) -> Result<(), Fail> {
    check(rt.alloc(), REQUESTS, Row::Stream)
}

/// The same requests, where nothing fails: a byte comes a call, and as many are taken a call as the first cell says.
const WHOLE: &str = r##"1 => export => - => - => #P: int & >=1 & <=65535
  … => true {"$defs":{"P":{"maximum":65535,"minimum":1,"type":"integer"}},"$ref":"#/$defs/P","$schema":"https://json-schema.org/draft/2020-12/schema"}
1000 => export => - => - => #P: ⟨3999×int | ⟩int
  … => true {"$defs":{"P":{"anyOf":[⟨3999×{"type":"integer"},⟩{"type":"integer"}]}},"$ref":"#/$defs/P","$schema":"https://json-schema.org/draft/2020-12/schema"}"##;

/// Whether the request is answered so, and the writer of an answer is flushed once.
fn is_answered(alloc: Global, case: Case<'_>, a_call: usize) -> bool {
    let mut input = Input::new(case.input.as_bytes(), 1, usize::MAX, ErrorKind::Other);
    let mut output = Output::new(alloc, a_call, usize::MAX, None);
    let answer = answer(alloc, case, &mut input, &mut output);
    let is_flushed = answer.is_err() || output.flush_calls == 1;
    is_flushed && is_wanted(case, &answer, output.text())
}

/// Whether the row holds.
pub(crate) fn is_whole(alloc: Global, row: &str) -> Result<bool, AllocError> {
    let (a_call, rest) = cell(row);
    let case = case_of(rest);
    let input = expanded(alloc, case.input)?;
    let wanted = expanded(alloc, case.wanted)?;
    let case = Case {
        call: case.call,
        text: case.text,
        doc: case.doc,
        input: &input,
        wanted: &wanted,
    };
    Ok(is_answered(alloc, case, a_call.parse::<usize>().unwrap_or(0)))
}

#[test]
fn runs_are_whole(rt: HostRuntime) -> Result<(), Fail> {
    check(rt.alloc(), WHOLE, Row::Whole)
}

/// A call, its schema, its document, how many blanks are the input, and the number of its refusal.
const BLANKS: &str = r##"export => - => - => 1048576 => 13
export => - => - => 1048577 => 1
vet => - => 1 => 1048576 => 13
vet => - => 1 => 1048577 => 1
agree => - => 1 => 1048576 => 13
agree => - => 1 => 1048577 => 1
validate => true => - => 67108864 => 25
validate => true => - => 67108865 => 28"##;

/// The same of an input without an end.
const ENDLESS: &str = "validate => true => - => 18446744073709551615 => 28";

/// The bytes of the longest input that is read whole.
const LIMIT: usize = 67_108_864;

/// What the row's request answers over that input.
fn over_blanks(
    alloc: Global,
    case: Case<'_>,
    input: &mut Blanks,
    output: &mut Output,
) -> Result<bool, Fault> {
    let request = request_of(alloc, case)?;
    run(alloc, request, input, output)
}

/// Whether the row's request is refused as it says, with nothing written, after as many reads as what is read of the input has parts
/// of 4,096 bytes, and one for its end or for what is past the limit.
pub(crate) fn are_blanks_refused(alloc: Global, row: &str) -> bool {
    let case = case_of(row);
    let left = case.input.parse::<usize>().unwrap_or(0);
    let mut input = Blanks { left, calls: 0 };
    let mut output = Output::new(alloc, 1000, 1000, None);
    let answer = over_blanks(alloc, case, &mut input, &mut output);
    let is_read_in_parts = input.calls == left.min(LIMIT) / 4096 + 1;
    is_read_in_parts && answer.is_err() && is_wanted(case, &answer, output.text())
}

#[test]
fn inputs_have_a_length(rt: HostRuntime) -> Result<(), Fail> {
    check(rt.alloc(), BLANKS, Row::Blanks)
}

#[test]
fn an_endless_input_is_refused(rt: HostRuntime) -> Result<(), Fail> {
    check(rt.alloc(), ENDLESS, Row::Blanks)
}
