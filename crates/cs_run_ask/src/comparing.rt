// The command that compares two editions of a definition.
use crate::judging::why_of;
use cs_compare::{
    CompareRefusal, Comparison, Side, Told, compare as compare_sources, write_both,
    write_comparison,
};
use cs_fault_words::About;
use cs_judge::{Written, prepare};
use cs_place::Named;
use cs_reason_words::Form;
use cs_run_call::{
    Call, Status, named_sources, named_text, read_sources, sources_of, tell_refusal,
};
use cs_tool::{Rules, slices_of};

/// The status of `breaking`.
const BREAKING: u8 = 1;
/// What comes of comparing editions, unless a side refuses.
type Compared<T> = Result<T, CompareRefusal>;

/// An edition of a definition.
#[derive(Clone, Copy)]
struct Edition<'a> {
    rules: &'a Rules,
    /// The sources with their names.
    named: &'a [Named<'a>],
    root: &'a str,
}

impl<'a> Edition<'a> {
    fn of(rules: &'a Rules, named: &'a [Named<'a>], root: &'a str) -> Edition<'a> {
        Edition { rules, named, root }
    }
}

/// The status of `compare`: 0, or 1 where an answer is `breaking`. A refusal is told as the answer would be.
pub fn compare(call: Call<'_, '_>) -> Status {
    match rules_of_both(call) {
        Ok((old, new)) => compare_rules(call, &old, &new),
        Err(CompareRefusal { side, fault }) => {
            tell_refusal(call, side.map(word_of), fault, About::of(&[], ""))
        }
    }
}

/// The rules of both sides.
fn rules_of_both(call: Call<'_, '_>) -> Compared<(Rules, Rules)> {
    let old = rules_of(call, Side::Old)?;
    let new = rules_of(call, Side::New)?;
    Ok((old, new))
}

/// The rules of a side, read from its files.
fn rules_of(call: Call<'_, '_>, side: Side) -> Compared<Rules> {
    let root = String::from_str(call.alloc(), root_of(call, side))?;
    let of_side = |fault| CompareRefusal::of(side, fault);
    let sources = read_sources(call.rt, call.paths(word_of(side))).map_err(of_side)?;
    let profile = call.profile();
    Ok(Rules::Root {
        profile,
        sources,
        root,
    })
}

/// The word of a side, for its files and before what is told of it.
fn word_of(side: Side) -> &'static str {
    match side {
        Side::Old => "old",
        Side::New => "new",
    }
}

/// The root of a side: the new one may have a name of its own.
fn root_of<'w>(call: Call<'_, 'w>, side: Side) -> &'w str {
    match (side, call.words.get_str("new-root")) {
        (Side::New, Some(root)) => root,
        (Side::Old | Side::New, _) => call.word("root"),
    }
}

/// The status of `compare` by the rules of both sides.
fn compare_rules(call: Call<'_, '_>, old: &Rules, new: &Rules) -> Status {
    let old_sources = named_sources(call.alloc(), call.paths("old"), sources_of(old))?;
    let new_sources = named_sources(call.alloc(), call.paths("new"), sources_of(new))?;
    let before = Edition::of(old, &old_sources, root_of(call, Side::Old));
    let after = Edition::of(new, &new_sources, root_of(call, Side::New));
    compare_editions(call, before, after)
}

/// The status of `compare` by the editions of both sides, whose refusals are told by them.
fn compare_editions<'a>(call: Call<'_, '_>, before: Edition<'a>, after: Edition<'a>) -> Status {
    let CompareRefusal { side, fault } = match write_answers(call, before, after) {
        Ok(is_compatible) => return Ok(if is_compatible { 0 } else { BREAKING }),
        Err(refusal) => refusal,
    };
    let about = match side {
        Some(Side::Old) => About::of(before.named, before.root),
        Some(Side::New) => About::of(after.named, after.root),
        None => About::of(&[], ""),
    };
    tell_refusal(call, side.map(word_of), fault, about)
}

/// Writes whether old documents are new ones, and where both directions are asked for whether new documents are old ones.
fn write_answers(call: Call<'_, '_>, before: Edition<'_>, after: Edition<'_>) -> Compared<bool> {
    let (alloc, output) = (call.alloc(), &mut call.rt.stdout());
    let is_json = matches!(call.told_form(), Some(Form::Object(_)));
    let backward = told_answer(call, before, after)?;
    if !call.words.get_flag("both") {
        return Ok(write_comparison(alloc, &backward, is_json, output)?);
    }
    let forward = told_answer(call, after, before)?;
    Ok(write_both(alloc, &backward, &forward, is_json, output)?)
}

/// Whether each document of an edition is one of the other edition, and where it is asked for why one isn't.
fn told_answer(call: Call<'_, '_>, from: Edition<'_>, to: Edition<'_>) -> Compared<Told> {
    let (alloc, profile) = (call.alloc(), call.profile());
    let admitting = slices_of(alloc, sources_of(from.rules))?;
    let refusing = slices_of(alloc, sources_of(to.rules))?;
    let comparison = compare_sources(alloc, profile, &admitting, from.root, &refusing, to.root)?;
    let reasons = match (&comparison, call.reasons()) {
        (Comparison::Breaking(shown), Some(asked)) => reasons_of(call, shown, to, asked.form)?,
        _ => Vec::new(alloc),
    };
    Ok(Told {
        comparison,
        reasons,
    })
}

/// What an edition tells of the text of a document that it refuses: the lines below the verdict, or the object without its newline.
fn reasons_of(call: Call<'_, '_>, shown: &[u8], to: Edition<'_>, form: Form) -> Compared<Vec<u8>> {
    let alloc = call.alloc();
    let sources = Written::of(alloc, form, to.named)?;
    let prepared = prepare(alloc, to.rules)?;
    let mut judge = prepared.judge(alloc)?;
    let mut told = Vec::new(alloc);
    let why = why_of(call, &sources);
    judge.explain(named_text("document", shown), why, &mut told)?;
    let bare = match form {
        Form::Object(_) => told.trim_ascii_end(),
        Form::Lines => told.strip_prefix(b"invalid\n").unwrap_or(&told),
    };
    Ok(bare.to_vec(alloc)?)
}
