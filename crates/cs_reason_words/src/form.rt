// What is told of a verdict in each form: lines for people, and objects of JSON for programs.
ghost use Rattle.std.specs.Prelude.{◌≡◌, ◌++◌, true, false, OnOk, OnErr, string_bytes};
ghost use Rattle.cs_format.specs.Formats.{asks_standard};
ghost use Rattle.cs_reason_words.specs.Valid.{flag_text, valid_text, invalid_object, report_text, HasLines, EndsInLine};

use crate::entry::{Entry, Field, Since, Told};
use crate::walk::put_step;
use crate::wording::put_between;
use cs_flat::Item;
use cs_format::Form;
use cs_place::{Named, Step, put_place, put_quoted, put_shown};
use cs_text::{Written, put_all, put_count, put_line, put_number, put_string};
use std::alloc::Global;

/// Puts what is told of the reasons of a document: lines for people, members for programs, and in the output formats of JSON Schema nothing.
pub fn put_told(text: &mut String, form: Form, document: Named<'_>, told: &Told<'_>) -> Written
    ensures flag { asks_standard form ≡ true
        → OnOk result (string_bytes text.new ≡ string_bytes text.old) }
    ensures lines { OnOk result (HasLines false form (string_bytes text.new)) }
{
    match form {
        Form::Lines => put_lines(text, document, &told.entries, told.more),
        Form::Object(format) if format.is_standard() => Ok(()),
        Form::Object(_) => put_members(text, &told.entries, told.more),
    }
}

/// Adds what is told of a verdict: of a valid document nothing for people, and else the object that says so and no more (JSON Schema Core 2020-12,
/// section 12.4.1); of an invalid one its reasons, for people lines, and for programs the members behind the verdict's. Only memory can run out; nothing
/// is added then.
pub fn report_verdict(
    alloc: Global,
    form: Form,
    valid: bool,
    reasons: &str,
    output: &mut Vec<u8>,
) -> Written
    ensures all { OnOk result (output.new.items
        ≡ output.old.items ++ report_text form valid reasons.now) }
    ensures kept { OnErr result (output.new.items ≡ output.old.items) }
{
    match form {
        Form::Lines if valid => Ok(()),
        Form::Lines => output.extend_from_slice(reasons.as_bytes()),
        Form::Object(_) if valid => output.extend_from_slice("{\"valid\":true}\n".as_bytes()),
        Form::Object(format) if format.has_reasons() => {
            let object = format!(in alloc; "{{\"valid\":false{reasons}}}\n")?;
            output.extend_from_slice(object.as_bytes())
        }
        Form::Object(_) => output.extend_from_slice("{\"valid\":false}\n".as_bytes()),
    }
}

/// How many bytes a text has at most that programs are told.
const MOST_TOLD: usize = 64;

impl Since<'_> {
    /// Puts it behind what is wrong.
    pub(crate) fn put(&self, text: &mut String) -> Written {
        for (place, (label, value)) in self.fields.iter().enumerate() {
            let before = if place == 0 { ", since " } else { " and " };
            put_line(text, &[before, label, " is "])?;
            match value {
                None => text.push_str("absent")?,
                Some(item) => self.kinds.put(text, *item)?,
            }
        }
        Ok(())
    }

    /// Puts the member that says it of a reason with a pointer.
    pub(crate) fn put_member(&self, text: &mut String, pointer: &str) -> Written {
        let map = pointer.get(..self.map).unwrap_or("");
        text.push_str(",\"since\":[")?;
        for (place, field) in self.fields.iter().enumerate() {
            put_between(text, place, ",")?;
            self.put_field(text, map, field)?;
        }
        text.push(']')
    }

    /// Puts the object of a field of a map, with its value if that is a scalar and no long text.
    fn put_field(&self, text: &mut String, map: &str, (label, value): &Field<'_>) -> Written {
        let mut pointer = String::from_str(*text.allocator(), map)?;
        put_step(&mut pointer, &Step::Key(label))?;
        text.push_str("{\"instanceLocation\":")?;
        put_quoted(text, pointer.as_str())?;
        match *value {
            None => text.push_str(",\"absent\":true")?,
            Some(Item::Text(value)) if value.len() <= MOST_TOLD => {
                put_string(text, "value", value)?;
            }
            Some(Item::Text(_) | Item::List(_) | Item::Object(_)) => {}
            Some(scalar @ (Item::Null | Item::Bool(_) | Item::Int(_))) => {
                text.push_str(",\"value\":")?;
                self.kinds.put(text, scalar)?;
            }
        }
        text.push('}')
    }
}

/// Puts the object of an entry.
fn put_object(text: &mut String, entry: &Entry<'_>) -> Written {
    let Entry { finding, way, .. } = entry;
    text.push_str("{\"valid\":false")?;
    put_string(text, "instanceLocation", way.pointer.as_str())?;
    put_count(text, "line", entry.position.line)?;
    put_count(text, "column", entry.position.column)?;
    put_string(text, "reason", finding.reason)?;
    put_string(text, "error", finding.text.as_str())?;
    if finding.definition.is_empty() {
        put_string(text, "schemaPath", way.path.as_str())?;
    } else {
        put_string(text, "definition", finding.definition)?;
        let path = way.path.as_str();
        let path = path.strip_prefix(finding.definition).unwrap_or(path);
        put_string(text, "path", path.strip_prefix('.').unwrap_or(path))?;
    }
    if !way.alternative.is_empty() {
        put_string(text, "alternative", way.alternative.as_str())?;
    }
    if let Some(since) = &finding.since {
        since.put_member(text, way.pointer.as_str())?;
    }
    if let Some(place) = finding.source {
        put_string(text, "file", place.file)?;
        put_count(text, "sourceLine", place.line)?;
        put_count(text, "sourceColumn", place.column)?;
    }
    if let Some(place) = finding.embedded {
        text.push_str(",\"embedded\":{\"file\":")?;
        put_quoted(text, place.file)?;
        put_count(text, "line", place.line)?;
        put_count(text, "column", place.column)?;
        text.push('}')?;
    }
    text.push('}')
}

/// Puts the members with the reasons, and with how many are left out, behind that of the verdict.
fn put_members(text: &mut String, entries: &[Entry<'_>], more: usize) -> Written {
    text.push_str(",\"errors\":[")?;
    for (place, entry) in entries.iter().enumerate() {
        put_between(text, place, ",")?;
        put_object(text, entry)?;
    }
    text.push(']')?;
    put_count(text, "more", more)
}

/// Puts what is wrong, by which fields conditions chose that, and what says no: its place in the source, its path, its embedding, the alternative.
fn put_reason(text: &mut String, entry: &Entry<'_>) -> Written {
    let Entry { finding, way, .. } = entry;
    put_all(text, &[": ", finding.text.as_str()])?;
    if let Some(since) = &finding.since {
        since.put(text)?;
    }
    text.push_str(" [")?;
    if let Some(place) = finding.source {
        put_place(text, place.file, place.line, place.column)?;
        text.push(' ')?;
    }
    put_shown(text, way.path.as_str())?;
    if let Some(place) = finding.embedded {
        text.push_str(", embedded at ")?;
        put_place(text, place.file, place.line, place.column)?;
    }
    let mark = if way.alternative.is_empty() { "" } else { ", " };
    put_all(text, &[mark, way.alternative.as_str()])
}

/// Puts the line of an entry, with what says no in brackets.
fn put_entry(text: &mut String, name: &str, entry: &Entry<'_>) -> Written
    ensures { OnOk result (EndsInLine (string_bytes text.new)) }
{
    for _ in 0..entry.way.depth {
        text.push_str("  ")?;
    }
    put_place(text, name, entry.position.line, entry.position.column)?;
    text.push_str(": ")?;
    let at = entry.way.pointer.as_str();
    put_shown(text, if at.is_empty() { "(root)" } else { at })?;
    put_reason(text, entry)?;
    text.push_str("]\n")?;
    Ok(())
}

/// Puts the line that says how many reasons are left out.
fn put_more(text: &mut String, more: usize) -> Written
    ensures { OnOk result (EndsInLine (string_bytes text.new)) }
{
    put_number(text, more)?;
    text.push_str(" more; --most N tells more\n")?;
    Ok(())
}

/// Puts a line for each entry, and one that says how many reasons are left out, if any are: where there is no entry, one at least.
pub fn put_lines(text: &mut String, document: Named<'_>, told: &[Entry<'_>], more: usize) -> Written
    ensures { OnOk result (EndsInLine (string_bytes text.new)) }
{
    for entry in told {
        put_entry(text, document.name, entry)?;
    }
    if more > 0 || told.is_empty() {
        put_more(text, more.max(1))?;
    }
    Ok(())
}
