// Tables of examples: a row a line, its cells parted by `=>`. A line that begins with two blanks and `…` goes on with the row
// before it.
use crate::{lines, streams};
use std::alloc::{AllocError, Global};
use std::test::Fail;

/// What a row says.
#[derive(Clone, Copy)]
pub(crate) enum Row {
    /// A request, and what it answers and writes.
    Stream,
    /// The same, and nothing fails.
    Whole,
    /// A request over so many blanks, and the number of its refusal.
    Blanks,
    /// Rules, an input, and the answers to its lines.
    Lines,
    /// An input, how it is read, and how often its answers are flushed.
    Flushes,
}

/// Fails with the first row that doesn't hold.
pub(crate) fn check(alloc: Global, table: &str, rows: Row) -> Result<(), Fail> {
    let table = table.replace(alloc, "\n  …", "")?;
    for row in table.lines() {
        if !holds(alloc, row, rows)? {
            return Err(Fail::new(row));
        }
    }
    Ok(())
}

fn holds(alloc: Global, row: &str, rows: Row) -> Result<bool, AllocError> {
    match rows {
        Row::Stream => Ok(streams::is_told(alloc, row)),
        Row::Whole => streams::is_whole(alloc, row),
        Row::Blanks => Ok(streams::are_blanks_refused(alloc, row)),
        Row::Lines => lines::are_told(alloc, row),
        Row::Flushes => lines::is_flushed(alloc, row),
    }
}

/// The row's first cell, without the blanks around it, and the cells after it.
pub(crate) fn cell(row: &str) -> (&str, &str) {
    match row.split_once("=>") {
        Some((first, rest)) => (first.trim(), rest),
        None => (row.trim(), ""),
    }
}

/// The row with a text so many times for each `⟨NUMBER×TEXT⟩`.
pub(crate) fn expanded(alloc: Global, row: &str) -> Result<String, AllocError> {
    let mut whole = String::new(alloc);
    for piece in row.split('⟨') {
        let (repeated, after) = piece.split_once('⟩').unwrap_or(("", piece));
        let (count, text) = repeated.split_once('×').unwrap_or(("", ""));
        let count = count.parse::<usize>().unwrap_or(0);
        push_times(&mut whole, text, count)?;
        whole.push_str(after)?;
    }
    Ok(whole)
}

fn push_times(whole: &mut String, text: &str, count: usize) -> Result<(), AllocError> {
    for _ in 0..count {
        whole.push_str(text)?;
    }
    Ok(())
}
