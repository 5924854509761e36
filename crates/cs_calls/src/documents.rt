// The steps of documents, read from a text, copied, and as the list of their values; and of tables.
use crate::judges::judged;
use crate::step::Step;
use cs_json::{Doc, Scratch, flatten, read_doc, read_flat};
use cs_tool::Fault;
use std::alloc::Global;

/// Takes a text through a step so many times, which reads it: what the last of them counts.
pub fn counted(alloc: Global, text: &[u8], step: Step, times: u32) -> Result<usize, Fault> {
    let mut count = 0;
    for _ in 0..times {
        count = match step {
            Step::List => listed(alloc, text)?,
            Step::Fill => judged(alloc, text)?,
            _ => read_once(alloc, text)?,
        };
    }
    Ok(count)
}

/// How many elements or members the document of a text has, or 1 where it is neither list nor map.
fn read_once(alloc: Global, text: &[u8]) -> Result<usize, Fault> {
    let doc = read_doc(alloc, text)?;
    Ok(width(&doc))
}

/// How many values there are in the list that a text is read into, or 0 where it is out of the ordinary.
fn listed(alloc: Global, text: &[u8]) -> Result<usize, Fault> {
    let mut scratch = Scratch::new(alloc);
    Ok(match read_flat(alloc, text, &mut scratch)? {
        Some(flat) => flat.len(),
        None => 0,
    })
}

/// Takes the document of a text, which is read once, through a step so many times: what the last of them counts.
pub fn counted_of_one(alloc: Global, text: &[u8], step: Step, times: u32) -> Result<usize, Fault> {
    let doc = read_doc(alloc, text)?;
    let mut count = 0;
    for _ in 0..times {
        count = match step {
            Step::Copy => copied(alloc, &doc)?,
            _ => flattened(alloc, &doc)?,
        };
    }
    Ok(count)
}

/// How many elements or members a copy has.
fn copied(alloc: Global, doc: &Doc) -> Result<usize, Fault> {
    let copy = doc.copy(alloc)?;
    Ok(width(&copy))
}

/// How many values the list of a document has.
fn flattened(alloc: Global, doc: &Doc) -> Result<usize, Fault> {
    let flat = flatten(alloc, doc)?;
    Ok(flat.len())
}

/// How many elements or members a document has, or 1 where it is neither list nor map.
pub fn width(doc: &Doc) -> usize {
    match doc {
        Doc::List(items) => items.len(),
        Doc::Object(members) => members.len(),
        Doc::Null | Doc::Bool(_) | Doc::Int(_) | Doc::Text(_) => 1,
    }
}
