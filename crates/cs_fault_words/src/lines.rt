// Refusals in lines, for people and for problem matchers, and as objects of JSON, for programs; and words with what stands in their places.
use crate::told::{About, Told};
use cs_forms::{Form, form_name};
use cs_meanings::EXPLANATIONS;
use cs_place::{Named, is_hidden, position_of, put_place, put_shown};
use cs_sources::{Made, Near, Source, sources_of};
use cs_text::{Written, put_all, put_count, put_line, put_string};
use cs_tool::{Fault, write_fault_json, write_text};
use itoa::Buffer;
use memchr::{memchr, memrchr};
use std::alloc::{AllocError, Global};
use std::io::Write;
use std::str;

/// How many characters are shown before a mark and behind its beginning.
const MOST_BESIDE: usize = 70;

/// Puts words as they are shown, with these parts in place of each `{}` in them, in their order.
pub fn put_filled(text: &mut String, words: &str, parts: &[&str]) -> Written {
    for (at, piece) in words.split("{}").enumerate() {
        put_shown(text, parts.get(at.wrapping_sub(1)).copied().unwrap_or(""))?;
        put_shown(text, piece)?;
    }
    Ok(())
}

/// Puts words with these two parts and the first one again in place of the `{}`, of which there are three at most.
pub fn put_around<'x>(text: &mut String, words: &str, part: &'x str, other: &'x str) -> Written {
    put_filled(text, words, &[part, other, part])
}

/// Puts tokens in backquotes: before the last one of several these words, and before the others a comma.
pub fn put_tokens(text: &mut String, tokens: &[Near<'_, '_>], last: &str) -> Written {
    for (at, token) in tokens.iter().enumerate() {
        let front = match at {
            0 => "",
            _ if at.saturating_add(1) == tokens.len() => last,
            _ => ", ",
        };
        put_line(text, &[front, "`", token.here().text, "`"])?;
    }
    Ok(())
}

/// Puts how many of so many are left in place of the `{}` in words, if there are more than the most that are shown.
pub fn put_left(text: &mut String, words: &str, count: usize, most: usize) -> Written {
    match count.saturating_sub(most) {
        0 => Ok(()),
        left => put_filled(text, words, &[Buffer::new().format(left)]),
    }
}

/// The line and the column of an offset of a text, in what the text was taken from. The first ones are 1.
fn line_and_column(named: Named<'_>, offset: usize) -> (usize, usize) {
    let place = position_of(named.text, offset);
    let line = place.line.saturating_add(named.line).saturating_sub(1);
    (line, place.column)
}

/// Puts the place of an offset of a text, and words behind it: `NAME:LINE:COLUMN: `. Only memory can run out.
pub fn put_offset(text: &mut String, named: Named<'_>, offset: usize) -> Written {
    let (line, column) = line_and_column(named, offset);
    put_place(text, named.name, line, column)?;
    text.push_str(": ")
}

/// Puts words, and behind them a text as a string of JSON (RFC 8259, section 7). Only memory can run out.
pub fn put_quoted(text: &mut String, words: &str, inside: &str) -> Written {
    text.push_str(words)?;
    cs_place::put_quoted(text, inside)
}

/// What of a text is on the line of an offset: before it and behind it; nothing where that isn't UTF-8.
fn sides(text: &[u8], offset: usize) -> (&str, &str) {
    let (before, behind) = text.split_at(offset.min(text.len()));
    let start = memrchr(b'\n', before).map_or(0, |newline| newline.saturating_add(1));
    let len = memchr(b'\n', behind).unwrap_or(behind.len());
    let before = str::from_utf8(before.get(start..).unwrap_or(b""));
    let behind = str::from_utf8(behind.get(..len).unwrap_or(b""));
    before.ok().zip(behind.ok()).unwrap_or(("", ""))
}

/// Puts the line of an offset, cut where it is long, and below it a mark under the characters up to another offset; nothing where it is empty.
fn put_excerpt(text: &mut String, source: &[u8], start: usize, end: usize) -> Written {
    let (before, behind) = sides(source, start);
    if before.is_empty() && behind.is_empty() {
        return Ok(());
    }
    let left = before.chars().count().saturating_sub(MOST_BESIDE);
    let (cut, blanks) = if left > 0 { ("..", "  ") } else { ("", "") };
    let is_cut = behind.chars().count() > MOST_BESIDE;
    text.push_str(cut)?;
    put_characters(text, before, left, true)?;
    put_characters(text, behind, 0, true)?;
    put_all(text, &[if is_cut { "..\n" } else { "\n" }, blanks])?;
    put_characters(text, before, left, false)?;
    let marked = behind.get(..end.saturating_sub(start)).unwrap_or(behind);
    let count = marked.chars().count().min(MOST_BESIDE).max(1);
    let mark = "^".repeat(*text.allocator(), count)?;
    put_all(text, &[mark.as_str(), "\n"])
}

/// Puts the characters of a line behind so many, or blanks as wide: also for what isn't shown as it is, so that the mark stays below what it marks.
fn put_characters(text: &mut String, line: &str, left: usize, are_shown: bool) -> Written {
    for character in line.chars().skip(left).take(MOST_BESIDE) {
        let blank = if character == '\t' { '\t' } else { ' ' };
        let is_shown = are_shown && !is_hidden(character);
        text.push(if is_shown { character } else { blank })?;
    }
    Ok(())
}

/// What docs/REFUSALS.md says of a number: for each of its rows a line with the number and the meaning, and one with what to do. `None` for a number
/// that no refusal has. Only memory can run out.
pub fn explained(alloc: Global, number: u32) -> Made<Option<String>> {
    let mut text = String::new(alloc);
    for row in EXPLANATIONS.iter().filter(|row| row.number == number) {
        write!(text, "{number}: {}\n{}\n", row.meaning, row.remedy)?;
    }
    Ok(if text.is_empty() { None } else { Some(text) })
}

/// Why a call was refused: a line with the place, as `FILE:LINE:COLUMN: `, and what to do; where a source, a schema or a document
/// has the place, its line and a mark below. The last lines are for files with their bytes. What isn't known is left out. Only memory can run out.
pub fn why_refused(alloc: Global, fault: &Fault, about: About<'_>) -> Made<String> {
    let sources = sources_of(alloc, about.profile, about.sources)?;
    let told = Told::of(alloc, fault, about, &sources)?;
    let mut text = String::new(alloc);
    put_told(&mut text, &told, told.start, "")?;
    if let (Some(named), Some(start)) = (told.named, told.start) {
        put_excerpt(&mut text, named.text, start, told.end)?;
    }
    for (path, size) in about.sizes {
        put_line(&mut text, &[*path])?;
        write!(text, ": {size} bytes\n")?;
    }
    Ok(text)
}

/// Puts a line for a fault of what was given: its place, as `FILE:LINE:COLUMN: `, its number, and what to do. `sources` are those of the call, cut
/// into tokens. Only memory can run out.
pub fn put_finding<'a>(
    text: &mut String,
    fault: &Fault,
    about: About<'a>,
    sources: &[Source<'a>],
) -> Written {
    let told = Told::of(*text.allocator(), fault, about, sources)?;
    let taken = match told.form {
        Some(Form::DefaultMark) => "`--profile wide` takes defaults; without it ",
        Some(Form::Attribute) => "`--profile wide` takes attributes; without it ",
        Some(Form::Close) => "`--profile wide` takes `close`; without it ",
        Some(_) | None => "",
    };
    let words = format!(in *text.allocator(); "error {}: {taken}", fault.number())?;
    put_told(text, &told, fault.offset().or(told.start), &words)
}

/// Puts the line of a refusal: the place as far as it is known, these words, the pointer of the value at fault, and what to do.
fn put_told(text: &mut String, told: &Told<'_>, start: Option<usize>, words: &str) -> Written {
    match (told.named, start) {
        (Some(named), Some(start)) => put_offset(text, named, start)?,
        (Some(named), None) => put_line(text, &[named.name, ": "])?,
        (None, _) => {}
    }
    text.push_str(words)?;
    match &told.pointer {
        Some(pointer) if pointer.is_empty() => text.push_str("(root): ")?,
        Some(pointer) => put_line(text, &[pointer.as_str(), ": "])?,
        None => {}
    }
    put_all(text, &[told.hint.as_str(), "\n"])
}

/// Writes the object that tells the fault, and a newline: the members that [`write_fault_json`] writes, and behind them as far as it is known `file` for a
/// fault of a schema or a document, `path` for one of a file that wasn't read, `line`, `column`, `form`, `pointer`, `hint`, and `files` with the bytes of
/// each. Where memory runs out it is the object without these. `WriteFailed` alone.
pub fn write_refusal_json<W: Write>(
    alloc: Global,
    fault: &Fault,
    names: &[&str],
    about: About<'_>,
    output: &mut W,
) -> Result<(), Fault> {
    let Ok(object) = refusal_object(alloc, fault, names, about) else {
        return write_fault_json(alloc, fault, names, output);
    };
    write_text(output, &object)
}

/// The object of a fault with all that is known, and a newline.
fn refusal_object(alloc: Global, fault: &Fault, names: &[&str], about: About<'_>) -> Made<Vec<u8>> {
    let sources = sources_of(alloc, about.profile, about.sources)?;
    let told = Told::of(alloc, fault, about, &sources)?;
    let mut members = String::new(alloc);
    put_members(&mut members, fault, &told)?;
    put_sizes(&mut members, about.sizes)?;
    let mut object = Vec::new(alloc);
    write_fault_json(alloc, fault, names, &mut object).or(Err(AllocError))?;
    // Without its closing bracket and newline.
    let end = object.len().saturating_sub(2);
    object.truncate(end);
    object.extend_from_slice(members.as_bytes())?;
    Ok(object)
}

/// Puts the file of a fault that doesn't name it itself, and the line and the column of its place; the form, the pointer and what to do.
fn put_members(text: &mut String, fault: &Fault, told: &Told<'_>) -> Written {
    if let Some(named) = told.named {
        let is_unread = matches!(fault, Fault::ReadFailed | Fault::InputTooLong);
        if fault.file().is_none() {
            put_string(text, if is_unread { "path" } else { "file" }, named.name)?;
        }
        if let Some(start) = fault.offset().or(told.start) {
            let (line, column) = line_and_column(named, start);
            put_count(text, "line", line)?;
            put_count(text, "column", column)?;
        }
    }
    if let Some(form) = told.form {
        put_string(text, "form", form_name(form))?;
    }
    if let Some(pointer) = &told.pointer {
        put_string(text, "pointer", pointer)?;
    }
    put_string(text, "hint", &told.hint)
}

/// Puts the files with their bytes, if there are any, and the end of the object.
fn put_sizes(text: &mut String, sizes: &[(&str, u64)]) -> Written {
    let mut front = ",\"files\":[{\"path\":";
    for (path, size) in sizes {
        put_quoted(text, front, path)?;
        put_all(text, &[",\"bytes\":", Buffer::new().format(*size)])?;
        front = "},{\"path\":";
    }
    text.push_str(if sizes.is_empty() { "}\n" } else { "}]}\n" })
}
