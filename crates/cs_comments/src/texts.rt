// The texts of definitions and fields: comments, by the lines of a source.
ghost use Rattle.std.specs.Prelude.{◌≡◌, IfOk, reverse, string_bytes};
ghost use Rattle.std.specs.Option.{option_copied, option_map};
ghost use Rattle.cs_comments.specs.Comments.{above, comment_on, comments_at, some_text, text_at};
ghost use Rattle.cs_comments.specs.Views.{each_text, texts_of};

use cs_grammar::{Profile, Token};
use cs_place::{Named, Positions};
use cs_sources::{Made, Near, Source, end_of, is_mark};
use std::alloc::Global;
use std::collections::BTreeMap;
use std::str;

/// A line of a source, by its comment: what is behind `//` there, without one blank at its front and without the carriage
/// return of its end (CUE, comments).
#[derive(Clone, Copy, Debug)]
pub enum Line<'a> {
    /// A comment and no token.
    Alone(&'a str),
    /// A comment behind a token.
    Behind(&'a str),
    /// No comment.
    Plain,
}

/// The lines of a source, which end at newlines, by its tokens. It reads the source once. Only memory can run out.
pub fn lines_of<'a>(alloc: Global, source: &'a str, tokens: &[Token<'_>]) -> Made<Vec<Line<'a>>> {
    let mut lines = Vec::new(alloc);
    let mut start = 0usize;
    for text in source.split('\n') {
        let end = start.saturating_add(text.len());
        let behind = tokens.partition_point(|token| token.start < end);
        lines.push(line_of(text, start, tokens.get(..behind).unwrap_or(&[])))?;
        start = end.saturating_add(1);
    }
    Ok(lines)
}

/// A line by its text, where it starts, and the tokens up to its end. No token has a newline in it, so what is behind the last one is blanks or a comment.
fn line_of<'a>(text: &'a str, start: usize, tokens: &[Token<'_>]) -> Line<'a> {
    let last = tokens.iter().rev().find(|token| !token.text.is_empty());
    let end = last.map_or(0, |token| end_of(*token));
    match text.get(end.saturating_sub(start)..).and_then(comment_of) {
        Some(comment) if end <= start => Line::Alone(comment),
        Some(comment) => Line::Behind(comment),
        None => Line::Plain,
    }
}

/// The text of the comment in what a line has behind its tokens, without the one blank at its front.
fn comment_of(rest: &str) -> Option<&str> {
    let comment = rest
        .trim_start_matches([' ', '\t', '\r'])
        .strip_prefix("//")?;
    let comment = comment.strip_suffix('\r').unwrap_or(comment);
    Some(comment.strip_prefix([' ', '\t']).unwrap_or(comment))
}

/// The comments of the lines that are alone right above a place, which are the last ones.
fn above<'a>(alloc: Global, lines: &[Line<'a>]) -> Made<Vec<&'a str>>
    ensures { IfOk result (λ v. texts_of v.items ≡ above (reverse lines.now)) }
{
    let mut comments = Vec::new(alloc);
    for place in (0..lines.len()).rev() {
        match lines[place] {
            Line::Alone(comment) => comments.push(comment)?,
            Line::Behind(_) | Line::Plain => break,
        }
    }
    comments.reverse();
    Ok(comments)
}

/// The comment on a line.
fn comment_on<'a>(line: Option<&Line<'a>>) -> Option<&'a str>
    ensures { each_text result ≡ comment_on (option_copied line.entry) }
{
    match line {
        Some(Line::Alone(comment) | Line::Behind(comment)) => Some(*comment),
        Some(Line::Plain) | None => None,
    }
}

/// The comments that are the text of what is declared first on a line.
fn comments_at<'a>(alloc: Global, lines: &[Line<'a>], at: usize) -> Made<Vec<&'a str>>
    ensures { IfOk result (λ v. texts_of v.items ≡ comments_at lines.now at) }
{
    let mut comments = above(alloc, &lines[..at.min(lines.len())])?;
    if comments.is_empty()
        && let Some(comment) = comment_on(lines.get(at))
    {
        comments.push(comment)?;
    }
    Ok(comments)
}

/// A text, where it has a character that is no newline: lines that are all empty say nothing.
fn some_text(text: String) -> Option<String>
    ensures { option_map string_bytes result ≡ some_text (string_bytes text) }
{
    let is_empty = text.as_bytes().iter().all(|byte| *byte == b'\n');
    if is_empty { None } else { Some(text) }
}

/// The text of what is declared first on a line: the comments of the run of lines that are alone right above it, each a line of the text, or else the
/// comment on the line itself. None where that has no character but the newlines between them. Only memory can run out.
pub fn text_at(alloc: Global, lines: &[Line<'_>], line: usize) -> Made<Option<String>>
    ensures { IfOk result (λ t. option_map string_bytes t ≡ text_at lines.now line) }
{
    let comments = comments_at(alloc, lines, line)?;
    Ok(some_text(comments.join(alloc, "\n")?))
}

/// The texts of what sources declare.
#[derive(Drop)]
pub(crate) struct Texts {
    /// Those of all declarations of a definition that a file declares, by its name without `#`.
    pub(crate) definitions: BTreeMap<String, String>,
    /// Those of fields and of other names, by the number of the source and the offset of the label.
    pub(crate) fields: BTreeMap<(usize, usize), String>,
}

/// The place of the first token of a declaration of which the token at a place ends the label: before a colon, or the `let` before a `=`.
fn declared_before(source: &Source<'_>, place: usize) -> Option<usize> {
    let token = source.token(place);
    if is_mark(token, ":") {
        return Some(source.label_before(place).unwrap_or(0));
    }
    let place = place.checked_sub(2)?;
    let is_bound = token.text == "=" && Near { source, place }.begins_let();
    is_bound.then_some(place)
}

/// Adds a text behind others.
pub(crate) fn add_lines(texts: &mut String, text: &str) -> Made<()> {
    if !texts.is_empty() {
        texts.push('\n')?;
    }
    texts.push_str(text)
}

impl Texts {
    /// Adds the texts of a source. In one that spells a file a colon ends the label of a definition, a field or another name and is nothing else. Of
    /// those whose labels begin on one line only the first has a text. It reads the source once.
    fn add(&mut self, alloc: Global, source: &Source<'_>) -> Made<()> {
        let text = str::from_utf8(source.named.text).unwrap_or("");
        let lines = lines_of(alloc, text, &source.tokens)?;
        let mut positions = Positions::new(text.as_bytes());
        let mut before = None;
        for place in 0..source.tokens.len() {
            let Some(first) = declared_before(source, place) else {
                continue;
            };
            let label = source.token(first);
            let line = positions.at(label.start).line - 1;
            if before.replace(line) == Some(line) {
                continue;
            }
            let Some(text) = text_at(alloc, &lines, line)? else {
                continue;
            };
            match label.text.strip_prefix('#') {
                Some(name) if source.around(first) == 0 => {
                    let name = String::from_str(alloc, name)?;
                    let all = self.definitions.entry(name)?;
                    add_lines(all.or_insert(String::new(alloc)), &text)?;
                }
                _ => drop(self.fields.insert((source.file, label.start), text)?),
            }
        }
        Ok(())
    }
}

/// The text of each definition and each field of sources, where it has one.
pub(crate) fn texts_of(alloc: Global, sources: &[&[u8]]) -> Made<Texts> {
    let mut texts = Texts {
        definitions: BTreeMap::new(alloc),
        fields: BTreeMap::new(alloc),
    };
    let (name, line) = ("", 1);
    for (file, text) in sources.iter().enumerate() {
        let named = Named { name, text, line };
        texts.add(alloc, &Source::new(alloc, Profile::Wide, named, file)?)?;
    }
    Ok(texts)
}
