// The commands that judge documents.
use cs_fault_words::About;
use cs_judge::{Why, Written, prepare, run_document, run_lines, write_document, write_unread};
use cs_place::{Label, Made, Named};
use cs_reason_words::{Form, Format};
use cs_run_call::{
    Call, Reasons, STANDARD_INPUT, Status, given_sources, named_sources, named_text, or_told,
    read_input, sources_of,
};
use cs_tool::{Fault, Rules};
use cs_widen::vocabulary_of;
use std::alloc::Global;
use std::fs::File;
use std::io::Read;

/// The status of `invalid`.
const INVALID: u8 = 1;
/// The status where a file could not be read.
const UNREAD: u8 = 4;

/// The status of `vet`, `validate` or `agree`. Where reasons are asked for, a refusal is told as they would be.
pub fn judge(call: Call<'_, '_>, command: &str) -> Status {
    let (rules, text) = input_of(call, command)?;
    judge_read(call, &rules, text.as_deref())
}

/// The rules of a command, and the bytes of its one document where it judges no others. Named files are read before standard input,
/// and the document before a source from there.
fn input_of(call: Call<'_, '_>, command: &str) -> Result<(Rules, Option<Vec<u8>>), Fault> {
    if command != "validate" && call.paths("FILE").is_empty() {
        let text = document_of(call)?;
        let rules = rules_of(call, command)?;
        return Ok((rules, text));
    }
    let rules = rules_of(call, command)?;
    let text = document_of(call)?;
    Ok((rules, text))
}

/// The rules of a command.
fn rules_of(call: Call<'_, '_>, command: &str) -> Result<Rules, Fault> {
    if command == "validate" {
        let schema = read_input(call.rt, Some(call.word("schema")))?;
        let vocabulary = vocabulary_of(call.profile());
        return Ok(Rules::Schema { vocabulary, schema });
    }
    let profile = call.profile();
    let root = String::from_str(call.alloc(), call.word("root"))?;
    let sources = given_sources(call)?;
    Ok(match command {
        "agree" => Rules::Both {
            profile,
            sources,
            root,
        },
        _ => Rules::Root {
            profile,
            sources,
            root,
        },
    })
}

/// The bytes of the one document, of a file or else of standard input; `None` where the words name many.
fn document_of(call: Call<'_, '_>) -> Result<Option<Vec<u8>>, Fault> {
    if call.words.get_flag("lines") || call.words.get_strs("docs").is_some() {
        return Ok(None);
    }
    read_input(call.rt, call.words.get_str("doc")).map(Some)
}

/// The status of the text of the one document, or where there is none of the documents that the words name.
fn judge_read(call: Call<'_, '_>, rules: &Rules, text: Option<&[u8]>) -> Status {
    let sources = named_sources(call.alloc(), call.paths("FILE"), sources_of(rules))?;
    let name = call.words.get_str("doc").unwrap_or(STANDARD_INPUT);
    let document = match text {
        Some(text) => Some(named_text(name, text)),
        None => None,
    };
    let schema = match rules {
        Rules::Schema { schema, .. } => Some(named_text(call.word("schema"), schema)),
        Rules::Root { .. } | Rules::Both { .. } => None,
    };
    let about = About {
        schema,
        document,
        ..About::of(&sources, call.word("root"))
    };
    or_told(call, about, judge_meant(call, rules, &sources, document))
}

/// The status by what rules mean, which were read from these sources.
fn judge_meant(
    call: Call<'_, '_>,
    rules: &Rules,
    sources: &[Named<'_>],
    document: Option<Named<'_>>,
) -> Status {
    let meant = call.meant_rules(rules)?;
    // Where no reasons are asked for, nothing is told of the sources, as in `flag`.
    let form = call.told_form().unwrap_or(Form::Object(Format::Flag));
    let written = Written::of(call.alloc(), form, sources)?;
    judge_by(call, meant.as_ref().unwrap_or(rules), &written, document)
}

/// The status of the one document, or where there is none of those that the words name. These are opened before the rules are looked at.
/// Reasons are told from these sources.
fn judge_by(
    call: Call<'_, '_>,
    rules: &Rules,
    sources: &Written<'_>,
    document: Option<Named<'_>>,
) -> Status {
    let why = why_of(call, sources);
    let judging = Judging { call, rules, why };
    if let Some(document) = document {
        return judging.judge_document(document);
    }
    if let Some(paths) = call.words.get_strs("docs") {
        let labels = labels_of(call.alloc(), paths)?;
        return judging.judge_files(&labels);
    }
    let Some(path) = call.words.get_str("doc") else {
        return judging.judge_lines(STANDARD_INPUT, &mut call.rt.stdin());
    };
    let mut file = File::open(call.rt, path).map_err(|_| Fault::ReadFailed)?;
    judging.judge_lines(path, &mut file)
}

/// How the words ask for reasons, which are told from these sources.
pub(crate) fn why_of<'a>(call: Call<'_, '_>, sources: &'a Written<'_>) -> Option<Why<'a>> {
    let Reasons { form, telling } = call.reasons()?;
    Some(Why {
        sources,
        form,
        telling,
    })
}

/// By what documents are judged, and how they are explained where that is asked for.
#[derive(Clone, Copy)]
struct Judging<'m, 'w, 'r, 'y> {
    call: Call<'m, 'w>,
    rules: &'r Rules,
    why: Option<Why<'y>>,
}

impl Judging<'_, '_, '_, '_> {
    /// The status of the one document.
    fn judge_document(self, document: Named<'_>) -> Status {
        let Judging { call, rules, why } = self;
        let (alloc, output) = (call.alloc(), &mut call.rt.stdout());
        let prepared = prepare(alloc, rules)?;
        let mut judge = prepared.judge(alloc)?;
        let truth = run_document(alloc, &mut judge, document, why, output)?;
        Ok(if truth { 0 } else { INVALID })
    }

    /// The status after the lines of an input. Reasons in lines go to standard error, and nothing else does.
    fn judge_lines<R: Read>(self, name: &str, input: &mut R) -> Status {
        let Judging { call, rules, why } = self;
        let (alloc, output, notes) = (call.alloc(), &mut call.rt.stdout(), &mut call.rt.stderr());
        let prepared = prepare(alloc, rules)?;
        let judge = prepared.judge(alloc)?;
        let outcome = run_lines(alloc, judge, name, why, input, output, notes)?;
        Ok(outcome as u8)
    }

    /// The status after the files of these labels.
    fn judge_files(self, labels: &[Label<'_>]) -> Status {
        let Judging { call, rules, why } = self;
        let (alloc, output) = (call.alloc(), &mut call.rt.stdout());
        let prepared = prepare(alloc, rules)?;
        let mut judge = prepared.judge(alloc)?;
        let mut status = 0;
        for label in labels {
            let outcome = match read_input(call.rt, Some(label.name())) {
                Ok(text) => write_document(alloc, &mut judge, &text, label, why, output)?,
                Err(fault) => {
                    if matches!(fault, Fault::ReadFailed) {
                        status = UNREAD;
                    }
                    write_unread(alloc, fault, label, why, output)?
                }
            };
            status = status.max(outcome as u8);
        }
        Ok(status)
    }
}

/// The labels of files. All are made before a document is judged, so that want of memory is told alone.
fn labels_of<'a>(alloc: Global, paths: &[&'a str]) -> Made<Vec<Label<'a>>> {
    let mut labels = Vec::with_capacity(alloc, paths.len())?;
    for path in paths {
        labels.push(Label::of(alloc, path)?)?;
    }
    Ok(labels)
}
