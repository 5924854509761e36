// Rows of JSON texts: their documents, the lists of their values, and schemas.
use crate::call::Call;
use crate::rows::{cell, number_of};
use cs_flat::{next_under, number_under};
use cs_json::{Doc, Flat, Item, Scratch, flatten, read_doc, read_flat, write_doc};
use cs_schema::to_doc;
use cs_tool::{Fault, Vocabulary, read_schema_text};
use std::alloc::{AllocError, Global};

/// The text that is written of a copy of a text's document.
pub fn rewritten(alloc: Global, text: &str) -> Result<Vec<u8>, Fault> {
    let doc = read_doc(alloc, text.as_bytes())?;
    let copy = doc.copy(alloc)?;
    Ok(write_doc(alloc, &copy)?)
}

/// Whether two texts are one document.
pub fn compared(alloc: Global, cells: &str) -> Result<Vec<u8>, Fault> {
    let (first, second) = cell(cells);
    let doc = read_doc(alloc, first.as_bytes())?;
    let other = read_doc(alloc, second.as_bytes())?;
    let is_same = doc == other;
    Ok(format!(in alloc; "{is_same}")?.into_bytes())
}

/// The text that is written of a text's schema.
pub fn schema(alloc: Global, vocabulary: Vocabulary, text: &str) -> Result<Vec<u8>, Fault> {
    let schema = read_schema_text(alloc, vocabulary, text.as_bytes())?;
    let doc = to_doc(alloc, &schema)?;
    Ok(write_doc(alloc, &doc)?)
}

/// How a text is read: straight into the list of its values, where that is the list of its document; as a document alone; or otherwise
/// where both ways are at odds.
#[derive(Clone, Copy)]
enum Way {
    Listed,
    Tree,
    AtOdds,
}

/// The way of a text. The fronts of a text that is refused are tried too, and all are also cut within characters.
pub fn ways(alloc: Global, text: &str) -> Result<Vec<u8>, Fault> {
    let bytes = bytes_of(alloc, text)?;
    if is_front_at_odds(alloc, &bytes) {
        return Ok(b"a front is at odds".to_vec(alloc)?);
    }
    match way_of(alloc, &bytes)? {
        Way::Listed => Ok(b"listed".to_vec(alloc)?),
        Way::Tree => Ok(b"tree".to_vec(alloc)?),
        Way::AtOdds => Ok(b"at odds".to_vec(alloc)?),
    }
}

/// Whether both ways are at odds on a front of a text.
fn is_front_at_odds(alloc: Global, text: &[u8]) -> bool {
    for length in 0..text.len() {
        if let Ok(Way::AtOdds) = way_of(alloc, &text[..length]) {
            return true;
        }
    }
    false
}

/// The way of a text; the refusal where it is refused in both.
fn way_of(alloc: Global, text: &[u8]) -> Result<Way, Fault> {
    let mut scratch = Scratch::new(alloc);
    let flat = read_flat(alloc, text, &mut scratch)?;
    match read_doc(alloc, text) {
        Ok(doc) => document_way(alloc, &flat, &doc),
        Err(_) if flat.is_some() => Ok(Way::AtOdds),
        Err(fault) => Err(Fault::from(fault)),
    }
}

/// The way of a document: the last value in the list is the document, and there are as many as it has.
fn document_way(alloc: Global, flat: &Option<Flat<'_>>, doc: &Doc) -> Result<Way, Fault> {
    let Some(flat) = flat else {
        return Ok(Way::Tree);
    };
    let other = flatten(alloc, doc)?;
    if flat.equals(flat.len() - 1, doc) && flat.len() == other.len() {
        Ok(Way::Listed)
    } else {
        Ok(Way::AtOdds)
    }
}

/// The bytes of a text, where `�` is a byte that is no text.
pub fn bytes_of(alloc: Global, text: &str) -> Result<Vec<u8>, AllocError> {
    let mut bytes = Vec::new(alloc);
    for part in text.split_inclusive('�') {
        match part.strip_suffix('�') {
            Some(part) => {
                bytes.extend_from_slice(part.as_bytes())?;
                bytes.push(0xff)?;
            }
            None => bytes.extend_from_slice(part.as_bytes())?,
        }
    }
    Ok(bytes)
}

/// The values in the list of a text's document, or the numbers of its values under keys.
pub fn listed(alloc: Global, call: Call, cells: &str) -> Result<Vec<u8>, Fault> {
    let (text, rest) = cell(cells);
    let doc = read_doc(alloc, text.as_bytes())?;
    let flat = flatten(alloc, &doc)?;
    let shown = match call {
        Call::Items => items(alloc, &flat)?,
        _ => keys(alloc, &flat, rest)?,
    };
    Ok(shown.into_bytes())
}

/// The values in the list, each with the numbers of those inside it.
fn items(alloc: Global, flat: &Flat<'_>) -> Result<String, AllocError> {
    let mut shown = String::new(alloc);
    for number in 0..flat.len() {
        match flat.item(number) {
            Item::Null => shown.push_str("null|")?,
            Item::Bool(truth) => write!(shown, "{truth}|")?,
            Item::Int(integer) => write!(shown, "{integer}|")?,
            Item::Text(text) => write!(shown, "{text:?}|")?,
            Item::List(numbers) => write!(shown, "{numbers:?}|")?,
            Item::Object(entries) => write!(shown, "{entries:?}|")?,
        }
    }
    Ok(shown)
}

/// The numbers under keys: by itself, and from a place in the entries on.
fn keys(alloc: Global, flat: &Flat<'_>, cells: &str) -> Result<String, AllocError> {
    let (place, keys) = cell(cells);
    let mut next = number_of(place);
    let mut shown = String::new(alloc);
    let Item::Object(entries) = flat.item(flat.len() - 1) else {
        return Ok(shown);
    };
    for key in keys.split(' ') {
        let alone = number_under(entries, key);
        let in_turn = next_under(entries, key, &mut next);
        write!(shown, "{alone:?} {in_turn:?}|")?;
    }
    Ok(shown)
}
