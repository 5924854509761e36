// `run_lines`, with the first, the second, the third read or write failing and so on, until a run meets none; and how often it flushes.
use crate::fakes::{Input, Output};
use crate::tables::{Row, cell, check};
use cs_judge::{LinesOutcome, Prepared, prepare, run_lines};
use cs_tool::{Fault, Profile, Rules, Vocabulary};
use std::alloc::{AllocError, Global};
use std::io::{ErrorKind, sink};
use std::test::Fail;

/// The call that judges, its source or its schema, the input, and the answers, or the number of a refusal. A `;` is a newline,
/// and there is one behind each answer. `validate` takes the keywords of the default profile, and `validate_by` all.
const LINES: &str =
    r##"vet => #P: int & >=1 & <=65535 => 8080;0;[1;65535 => valid;invalid;error 25;valid
vet => #P: string => "a";"b"; => valid;valid
vet => #P: int =>  =>
vet => #P: int => ; => error 25
validate => {"type":"integer"} => 1;"a";;1.5; => valid;invalid;error 25;error 26
validate => {"type":"integer"} => 1 => valid
validate => [1 => 1;2 => 20
validate => {"maxLength":2} => "ab";"abc" => 21
validate_by => {"maxLength":2} => "ab";"abc" => valid;invalid
agree => #P: [...int] => [];[1,"a"] => valid;invalid
agree => #Q: int => 1;2 => 13"##;

/// A call and its text, as a row has them, with the input and the answers.
#[derive(Clone, Copy)]
struct Case<'a> {
    call: &'a str,
    text: &'a str,
    input: &'a str,
    wanted: &'a str,
}

/// The rules of a call for `#P`.
fn rules_of(alloc: Global, call: &str, text: &str) -> Result<Rules, AllocError> {
    let text = Vec::from_slice(alloc, text.as_bytes())?;
    if let Some(vocabulary) = vocabulary_of(call) {
        return Ok(Rules::Schema {
            vocabulary,
            schema: text,
        });
    }
    let profile = Profile::Default;
    let sources = vec![in alloc; text]?;
    let root = String::from_str(alloc, "#P")?;
    Ok(match call {
        "vet" => Rules::Root {
            profile,
            sources,
            root,
        },
        _ => Rules::Both {
            profile,
            sources,
            root,
        },
    })
}

/// The keywords that a call takes, if it judges by a schema.
fn vocabulary_of(call: &str) -> Option<Vocabulary> {
    match call {
        "validate" => Some(Vocabulary::Default),
        "validate_by" => Some(Vocabulary::Wide),
        _ => None,
    }
}

/// What the run over that input answers.
fn answer(
    alloc: Global,
    case: Case<'_>,
    input: &mut Input<'_>,
    output: &mut Output,
) -> Result<LinesOutcome, Fault> {
    let rules = rules_of(alloc, case.call, case.text)?;
    run(alloc, &rules, input, output)
}

/// The run over that input by the rules.
fn run(
    alloc: Global,
    rules: &Rules,
    input: &mut Input<'_>,
    output: &mut Output,
) -> Result<LinesOutcome, Fault> {
    let prepared = prepare(alloc, rules)?;
    run_prepared(alloc, &prepared, input, output)
}

/// The same by prepared rules.
fn run_prepared(
    alloc: Global,
    prepared: &Prepared<'_>,
    input: &mut Input<'_>,
    output: &mut Output,
) -> Result<LinesOutcome, Fault> {
    let judge = prepared.judge(alloc)?;
    run_lines(alloc, judge, "", None, input, output, &mut sink())
}

/// The outcome of the answers.
fn outcome_of(answers: &str) -> LinesOutcome {
    if answers.contains("error") {
        LinesOutcome::SomeRefused
    } else if answers.contains("invalid") {
        LinesOutcome::SomeInvalid
    } else {
        LinesOutcome::AllValid
    }
}

/// Whether the run ended as the row says: with all answers written, or refused with nothing written.
fn is_wanted(case: Case<'_>, answer: &Result<LinesOutcome, Fault>, written: &str) -> bool {
    match answer {
        Ok(outcome) => *outcome == outcome_of(case.wanted) && written == case.wanted,
        Err(fault) => {
            case.wanted.trim().parse::<u32>().unwrap_or(0) == fault.number() && written.is_empty()
        }
    }
}

/// Whether it is refused by that number.
fn is_refused(answer: &Result<LinesOutcome, Fault>, number: u32) -> bool {
    match answer {
        Ok(_) => false,
        Err(fault) => fault.number() == number,
    }
}

/// The first of the answers: one for each line that ends in the bytes.
fn answers_in<'a>(answers: &'a str, bytes: &[u8]) -> &'a str {
    let lines = bytes.iter().filter(|byte| **byte == b'\n').count();
    let mut end = 0usize;
    for line in answers.split_inclusive('\n').take(lines) {
        end = end.saturating_add(line.len());
    }
    answers.get(..end).unwrap_or("?")
}

/// Whether each read that fails in turn is told by 30, with the answers to the lines that end before it, until a run meets none.
fn are_reads_told(alloc: Global, case: Case<'_>, a_call: usize) -> bool {
    let bytes = case.input.as_bytes();
    for calls in 0..1000 {
        let mut input = Input::new(bytes, a_call, calls, ErrorKind::Other);
        let mut output = Output::new(alloc, 1000, 1000, None);
        let answer = answer(alloc, case, &mut input, &mut output);
        if !input.has_failed {
            return is_wanted(case, &answer, output.text());
        }
        let given = &bytes[..bytes.len().min(calls.saturating_mul(a_call))];
        if !is_refused(&answer, 30) || output.text() != answers_in(case.wanted, given) {
            return false;
        }
    }
    false
}

/// Whether each write or flush that goes wrong in turn is told by 31 after a front of the answers, until a run meets none.
fn are_writes_told(alloc: Global, case: Case<'_>, a_call: usize, kind: Option<ErrorKind>) -> bool {
    for calls in 0..1000 {
        let mut input = Input::new(case.input.as_bytes(), 7, 1000, ErrorKind::Other);
        let mut output = Output::new(alloc, a_call, calls, kind);
        let answer = answer(alloc, case, &mut input, &mut output);
        if !output.has_failed {
            return is_wanted(case, &answer, output.text());
        }
        if !is_refused(&answer, 31) || !case.wanted.starts_with(output.text()) {
            return false;
        }
    }
    false
}

/// Whether all that fails is told where so many bytes are given and taken a call.
fn are_all_told(alloc: Global, case: Case<'_>, a_call: usize) -> bool {
    are_reads_told(alloc, case, a_call)
        && are_writes_told(alloc, case, a_call, Some(ErrorKind::Other))
        && are_writes_told(alloc, case, a_call, None)
}

/// Whether the row holds, a byte a call and many at once.
pub(crate) fn are_told(alloc: Global, row: &str) -> Result<bool, AllocError> {
    let (call, rest) = cell(row);
    let (text, rest) = cell(rest);
    let (input, wanted) = cell(rest);
    let input = input.replace(alloc, ';', "\n")?;
    let mut answers = wanted.trim().replace(alloc, ';', "\n")?;
    if !answers.is_empty() {
        answers.push('\n')?;
    }
    let case = Case {
        call,
        text,
        input: &input,
        wanted: &answers,
    };
    Ok(
        are_all_told(alloc, case, 1)
            && are_all_told(alloc, case, 3)
            && are_all_told(alloc, case, 1000),
    )
}

#[test]
fn each_read_and_write_of_a_run_over_lines_fails_in_turn(rt: HostRuntime) -> Result<(), Fail> {
    check(rt.alloc(), LINES, Row::Lines)
}

/// The input, how many of its bytes come a call, and how many flushes have something new: one before each read that follows a line.
const FLUSHES: &str = r##"1;2;3; => 1 => 3
1;2;3; => 2 => 3
1;2;3; => 4 => 2
1;2;3; => 6 => 1
1;2;3; => 1000 => 1
1;2;3 => 2 => 3
1;2;3 => 1000 => 2
12345 => 2 => 1
 => 1000 => 0"##;

/// Whether the run flushes so often.
pub(crate) fn is_flushed(alloc: Global, row: &str) -> Result<bool, AllocError> {
    let (text, rest) = cell(row);
    let (a_call, wanted) = cell(rest);
    let text = text.replace(alloc, ';', "\n")?;
    let a_call = a_call.parse::<usize>().unwrap_or(0);
    let mut input = Input::new(text.as_bytes(), a_call, 1000, ErrorKind::Other);
    let mut output = Output::new(alloc, 1000, 1000, None);
    let rules = rules_of(alloc, "vet", "#P: int")?;
    let answer = run(alloc, &rules, &mut input, &mut output);
    Ok(answer.is_ok() && wanted.trim().parse::<usize>() == Ok(output.flushes))
}

#[test]
fn answers_are_flushed_before_the_next_read(rt: HostRuntime) -> Result<(), Fail> {
    check(rt.alloc(), FLUSHES, Row::Flushes)
}
