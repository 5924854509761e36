// The commands that judge no document and compare nothing. `check` and `explain` speak of sources and refusals alone.
use cs_check::{Checked, Findings, schema_findings, source_findings, wide_schema_findings};
use cs_compare::write_lines;
use cs_fault_words::{About, explained};
use cs_listing::{put_listing, put_listing_json};
use cs_place::Named;
use cs_reason_words::Form;
use cs_run_call::{COMMAND_LINE, Call, Status, named_text, over_sources, read_input, tell_refusal};
use cs_samples::{QuestionFault, SampleTexts, Sampled, samples};
use cs_tool::{Fault, Profile, accepted_package, read_root, write_text};
use cs_widen::widen_in;
use std::alloc::{AllocError, Global};
use std::io::Write;

/// The numbers that refusals have.
const NUMBERS: &str = "the numbers are 1 to 17, 20 to 28, 30 and 31";
/// The status of warnings alone, and of samples that are left, where they count; and of no sample.
const WARNED: u8 = 1;
/// The status of faults.
const FAULTY: u8 = 2;
/// How many documents are written at most where the words don't say.
const MOST_SAMPLES: usize = 100;

/// The status of `check`. Which file can't be read is told.
pub fn check(call: Call<'_, '_>) -> Status {
    let answer = match call.words.get_str("schema") {
        Some(path) => check_schema(call, path),
        None => over_sources(call, |sources, named| check_sources(call, sources, named)),
    };
    answer.or_else(|fault| tell_refusal(call, None, fault, About::of(&[], "")))
}

/// The status after all that is found in the sources.
fn check_sources(call: Call<'_, '_>, sources: &[&[u8]], named: &[Named<'_>]) -> Status {
    let root = call.words.get_str("root");
    let findings = source_findings(call.alloc(), call.profile(), sources, named, root)?;
    write_findings(call, &findings, call.words.get_flag("strict"))
}

/// The status after all faults of a schema.
fn check_schema(call: Call<'_, '_>, path: &str) -> Status {
    let text = read_input(call.rt, Some(path))?;
    let schema = named_text(path, &text);
    let findings = match call.profile() {
        Profile::Default => schema_findings(call.alloc(), schema)?,
        Profile::Wide => wide_schema_findings(call.alloc(), schema)?,
    };
    write_findings(call, &findings, false)
}

/// Writes what was found. The status of it, where warnings count and where they don't.
fn write_findings(call: Call<'_, '_>, findings: &Findings, is_strict: bool) -> Status {
    call.print(findings.lines.as_bytes())?;
    Ok(match findings.checked {
        Checked::Faulty => FAULTY,
        Checked::Warned if is_strict => WARNED,
        Checked::Well | Checked::Warned => 0,
    })
}

/// The status of `explain`, after what a number means.
pub fn explain(call: Call<'_, '_>) -> Status {
    let number = call.words.get_one("NUMBER").unwrap_or(0);
    let Some(text) = explained(call.alloc(), number)? else {
        let _ = eprintln!(call.rt; "error: no refusal has the number {number}; {NUMBERS}");
        return Ok(COMMAND_LINE);
    };
    call.print(text.as_bytes())
}

/// The status of `list`: a refusal is told as the words ask for it.
pub fn list(call: Call<'_, '_>) -> Status {
    over_sources(call, |sources, named| write_listing(call, sources, named))
}

/// Writes the definitions of the package of these sources, in lines or as an object.
fn write_listing(call: Call<'_, '_>, sources: &[&[u8]], named: &[Named<'_>]) -> Status {
    let alloc = call.alloc();
    let package = accepted_package(alloc, call.profile(), sources)?;
    let mut text = Vec::new(alloc);
    match call.told_form() {
        Some(Form::Object(_)) => put_listing_json(alloc, named, &package, &mut text)?,
        Some(Form::Lines) | None => put_listing(alloc, named, &package, &mut text)?,
    }
    call.print(&text)
}

/// The status of `widen`: a refusal is told as the words ask for it.
pub fn write_widened(call: Call<'_, '_>) -> Status {
    over_sources(call, |sources, _| {
        let source = widen_in(call.alloc(), call.profile(), sources)?;
        call.print(source.as_bytes())
    })
}

/// The status of `samples`: 0, or 1 where there is no document, and with `--strict` where something is left. A refusal is told where
/// the words ask for it.
pub fn write_samples(call: Call<'_, '_>) -> Status {
    over_sources(call, |sources, _| write_found(call, sources))
}

/// Writes the documents of the root of these sources, and says what is left. What can't be said changes no status.
fn write_found(call: Call<'_, '_>, sources: &[&[u8]]) -> Status {
    let alloc = call.alloc();
    let most = call.words.get_one("most").unwrap_or(MOST_SAMPLES);
    let found = found_in(call, sources, most)?;
    let left = left_of(alloc, &found, most)?;
    let has_some = write_lines(alloc, &found.texts, &mut call.rt.stdout())?;
    if !left.is_empty() {
        let _ = write_text(&mut call.rt.stderr(), left.as_bytes());
    }
    let is_faulty = call.words.get_flag("strict") && !left.is_empty();
    Ok(if has_some && !is_faulty { 0 } else { WARNED })
}

/// The documents of the root of these sources, as many as that at most.
fn found_in(call: Call<'_, '_>, sources: &[&[u8]], most: usize) -> Result<SampleTexts, Fault> {
    let root = call.word("root");
    let which = if call.words.get_flag("invalid") {
        Sampled::Invalid
    } else {
        Sampled::Valid
    };
    let package = read_root(call.alloc(), call.profile(), sources, root)?;
    samples(call.alloc(), &package, root, which, most).map_err(fault_of)
}

fn fault_of(fault: QuestionFault) -> Fault {
    match fault {
        QuestionFault::OutOfMemory => Fault::OutOfMemory,
        QuestionFault::UnknownRoot => Fault::UnknownRoot,
        QuestionFault::TooManyCases => Fault::TooManyCases,
    }
}

/// What is left, in lines: how many documents there are beside those that are written, and how many rules have none. Where as many
/// are written as were asked for, more may be asked for.
fn left_of(alloc: Global, found: &SampleTexts, most: usize) -> Result<String, AllocError> {
    let mut left = String::new(alloc);
    let is_full = found.texts.len() >= most;
    match (found.more, found.is_complete) {
        (0, true) => {}
        (0, false) if is_full => left.push_str("maybe more; --most N tells more\n")?,
        (0, false) => left.push_str("maybe more; a limit was met\n")?,
        (more, true) => write!(left, "{more} more; --most N tells more\n")?,
        (more, false) => write!(left, "at least {more} more; --most N tells more\n")?,
    }
    if found.untried > 0 {
        write!(left, "rules without a document: {}\n", found.untried)?;
    }
    Ok(left)
}
