// Rows of calls: a row a line, its cells parted by ` => `, and the word of the call in the first. A cell that is left out is empty.
//
// In a cell a `;` is a newline, `␉` and its like are control characters, and `⟨40×TEXT⟩` is a text so many times; in that `№` is its
// number, from 0 on, and `№+1` the next one.
use crate::call::{Call, call_of};
use crate::{places, texts, tokens, verdicts};
use cs_syntax::Profile;
use cs_tool::{Fault, Vocabulary, write_fault};
use std::alloc::{AllocError, Global};

/// The rows with their answers.
pub fn answered(alloc: Global, rows: &str) -> Result<Vec<u8>, Fault> {
    let mut lines = Vec::new(alloc);
    for row in rows.lines() {
        put_row(alloc, &mut lines, row)?;
    }
    Ok(lines)
}

/// Puts a row with its answer, or a line that names no call as it stands.
fn put_row(alloc: Global, lines: &mut Vec<u8>, row: &str) -> Result<(), Fault> {
    let (word, cells) = cell(row);
    lines.extend_from_slice(row.as_bytes())?;
    match call_of(word) {
        None => Ok(lines.push(b'\n')?),
        Some(call) => {
            lines.extend_from_slice(b" => ")?;
            let answer = answer(alloc, call, cells);
            put_answer(lines, &answer)
        }
    }
}

/// Puts an answer, or the line of the refusal, and a newline.
pub fn put_answer(lines: &mut Vec<u8>, answer: &Result<Vec<u8>, Fault>) -> Result<(), Fault> {
    match answer {
        Ok(text) => {
            lines.extend_from_slice(text)?;
            Ok(lines.push(b'\n')?)
        }
        Err(fault) => write_fault(fault, lines),
    }
}

/// What a call answers for the cells of its row.
fn answer(alloc: Global, call: Call, cells: &str) -> Result<Vec<u8>, Fault> {
    let cells = expanded(alloc, cells)?;
    let cells = cells.as_str();
    match call {
        Call::Tokens => tokens::tokens(alloc, Profile::Default, cells),
        Call::WideTokens => tokens::tokens(alloc, Profile::Wide, cells),
        Call::Bodies => tokens::bodies(alloc, cells),
        Call::Notes => tokens::notes(alloc, Profile::Default, cells),
        Call::WideNotes => tokens::notes(alloc, Profile::Wide, cells),
        Call::Text => texts::rewritten(alloc, cells),
        Call::Same => texts::compared(alloc, cells),
        Call::Way => texts::ways(alloc, cells),
        Call::Items | Call::Keys => texts::listed(alloc, call, cells),
        Call::Places | Call::Place => places::found(alloc, call, cells),
        Call::Schema => texts::schema(alloc, Vocabulary::Default, cells),
        Call::WideSchema => texts::schema(alloc, Vocabulary::Wide, cells),
        Call::Instance | Call::InstanceByRefusals => verdicts::instance(alloc, call, cells),
        Call::Validity | Call::ValidityByRefusals | Call::WideValidity => {
            verdicts::validity(alloc, call, cells)
        }
        Call::ValidateBy => verdicts::validated(alloc, cells),
        Call::Filling => verdicts::filling(alloc, cells),
    }
}

/// The row's first cell, and the cells after it.
pub fn cell(row: &str) -> (&str, &str) {
    row.split_once(" => ").unwrap_or((row, ""))
}

/// A number; 0 for a text that is none.
pub fn number_of(text: &str) -> usize {
    text.parse::<usize>().unwrap_or(0)
}

/// The cells as they are spelled out.
fn expanded(alloc: Global, cells: &str) -> Result<String, AllocError> {
    let mut whole = String::new(alloc);
    for piece in cells.split('⟨') {
        let (repeated, after) = piece.split_once('⟩').unwrap_or(("", piece));
        let (count, text) = repeated.split_once('×').unwrap_or(("", ""));
        push_times(&mut whole, text, number_of(count))?;
        whole.push_str(after)?;
    }
    plain(alloc, &whole)
}

fn push_times(whole: &mut String, text: &str, count: usize) -> Result<(), AllocError> {
    for number in 0..count {
        push_numbered(whole, text, number)?;
    }
    Ok(())
}

/// Adds the text with its number.
fn push_numbered(whole: &mut String, text: &str, number: usize) -> Result<(), AllocError> {
    let mut parts = text.split('№');
    whole.push_str(parts.next().unwrap_or(""))?;
    for part in parts {
        let (number, rest) = match part.strip_prefix("+1") {
            Some(rest) => (number.saturating_add(1), rest),
            None => (number, part),
        };
        write!(whole, "{number}{rest}")?;
    }
    Ok(())
}

/// The text with newlines and control characters in place of their signs.
fn plain(alloc: Global, text: &str) -> Result<String, AllocError> {
    let mut plain = String::with_capacity(alloc, text.len())?;
    for sign in text.chars() {
        plain.push(match sign {
            ';' => '\n',
            '␡' => '\u{7f}',
            // the sign of a character below the blank is the one so many behind U+2400
            '␀'..='␟' => char::from_u32(sign as u32 & 0x1f).unwrap_or(sign),
            _ => sign,
        })?;
    }
    Ok(plain)
}
