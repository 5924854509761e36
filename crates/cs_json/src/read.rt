// From the text of a document to the document.
ghost use Rattle.std.specs.Prelude.{◌≡◌, ◌≤◌, Some, None, IfOk, IfErr, IsErrOf, length};
ghost use Rattle.serde_json.specs.View.{view, items_view, members_view};
ghost use Rattle.cs_json.specs.Texts.{document_of, documents_of, members_of, Reads};
ghost use Rattle.cs_json.specs.Refusal.{IsRefusal};
ghost use Rattle.cs_document.specs.Document.{IsDocument, AreDocuments, AreMembers};
ghost use Rattle.cs_document.specs.View.{doc_view, list_view, object_view};

use crate::numbers::other_number;
use crate::{Doc, DocFault};
use serde_json::{Error, Map, Value};
use std::alloc::{AllocError, AllocFailed, Global};
use std::collections::BTreeMap;

/// Why a value of JSON is no document.
#[derive(Drop)]
enum Unfit {
    OutOfMemory,
    /// A number isn't an integer of 64 signed bits.
    OtherNumber,
}

impl From<AllocError> for Unfit {
    ghost use Rattle.std.specs.Prelude.{◌≡◌};
    ghost use Rattle.cs_json.specs.declared.read.Unfit.TheVariants.{OutOfMemory};

    ghost from_gives = { λ _ e. e ≡ OutOfMemory };

    fn from(_refused: AllocError) -> Unfit {
        Unfit::OutOfMemory
    }
}

impl<T: Drop> From<AllocFailed<T>> for Unfit {
    ghost use Rattle.std.specs.Prelude.{◌≡◌};
    ghost use Rattle.cs_json.specs.declared.read.Unfit.TheVariants.{OutOfMemory};

    ghost from_gives = { λ _ e. e ≡ OutOfMemory };

    fn from(_refused: AllocFailed<T>) -> Unfit {
        Unfit::OutOfMemory
    }
}

/// The document that a text of JSON is (RFC 8259), as `serde_json` reads it: where a key occurs
/// several times the last value counts.
///
/// # Errors
/// `NotJson`, with the offset at which that shows, and whether the text is cut off there; then `NotInteger`, with the offset
/// of the first number that isn't an integer.
pub fn read_doc(alloc: Global, text: &[u8]) -> Result<Doc, DocFault>
    ensures found { IfOk result (λ d. Reads text.now (doc_view d)) }
    ensures document { IfOk result (λ d. IsDocument (doc_view d)) }
    ensures refused { IfErr result (λ e. IsRefusal e text.now) }
{
    match Value::from_slice(alloc, text) {
        Ok(value) => match doc_of(alloc, value) {
            Ok(doc) => Ok(doc),
            Err(Unfit::OutOfMemory) => Err(DocFault::OutOfMemory),
            Err(Unfit::OtherNumber) => {
                let offset = other_number(alloc, text)?;
                Err(DocFault::NotInteger { offset })
            }
        },
        Err(error) if error.is_memory() => Err(DocFault::OutOfMemory),
        Err(error) => {
            let (offset, is_cut) = place_of(text, &error);
            Err(DocFault::NotJson { offset, is_cut })
        }
    }
}

/// The offset at which an error shows in its text, and whether the text is cut off there.
fn place_of(text: &[u8], error: &Error) -> (usize, bool)
    ensures { result.0 ≤ length text.now }
{
    if error.is_eof() {
        return (text.len(), true);
    }
    (offset_of(text, error.line(), error.column()), false)
}

/// The offset of a line and a column in bytes, which count from 1; the end where the text has no such place.
fn offset_of(text: &[u8], line: usize, column: usize) -> usize
    ensures { result ≤ length text.now }
{
    let mut passed = 1usize;
    for (at, byte) in text.iter().enumerate() {
        if passed >= line {
            let offset = at.saturating_add(column).saturating_sub(1);
            return offset.min(text.len());
        }
        if *byte == b'\n' {
            passed = passed.saturating_add(1);
        }
    }
    text.len()
}

/// The document that a value of JSON is. Its texts and keys are moved, since one may be as long as the whole text.
#[cycle(read)]
fn doc_of(alloc: Global, value: Value) -> Result<Doc, Unfit>
    ensures value { IfOk result (λ d. document_of (view value) ≡ Some (doc_view d)) }
    ensures document { IfOk result (λ d. IsDocument (doc_view d)) }
    ensures not_integer { IsErrOf result Unfit.OtherNumber → document_of (view value) ≡ None }
{
    match value {
        Value::Null => Ok(Doc::Null),
        Value::Bool(b) => Ok(Doc::Bool(b)),
        Value::Number(n) => match n.as_i64() {
            Some(z) => Ok(Doc::Int(z)),
            None => Err(Unfit::OtherNumber),
        },
        Value::String(text) => Ok(Doc::Text(text)),
        Value::Array(items) => Ok(Doc::List(docs_of(alloc, items)?)),
        Value::Object(members) => Ok(Doc::Object(members_of(alloc, members)?)),
    }
}

#[cycle(read)]
fn docs_of(alloc: Global, items: Vec<Value>) -> Result<Vec<Doc>, Unfit>
    ensures value { IfOk result
        (λ v. documents_of (items_view items.items) ≡ Some (list_view v.items)) }
    ensures document { IfOk result (λ v. AreDocuments (list_view v.items)) }
    ensures not_integer { IsErrOf result Unfit.OtherNumber
        → documents_of (items_view items.items) ≡ None }
{
    let mut found = Vec::with_capacity(alloc, items.len())?;
    for item in items {
        found.push(doc_of(alloc, item)?)?;
    }
    Ok(found)
}

#[cycle(read)]
fn members_of(alloc: Global, members: Map<String, Value>) -> Result<BTreeMap<String, Doc>, Unfit>
    ensures value { IfOk result
        (λ m. members_of (members_view members.entries) ≡ Some (object_view m.entries)) }
    ensures document { IfOk result (λ m. AreMembers (object_view m.entries)) }
    ensures not_integer { IsErrOf result Unfit.OtherNumber
        → members_of (members_view members.entries) ≡ None }
{
    let mut found = BTreeMap::new(alloc);
    for (key, member) in members {
        let doc = doc_of(alloc, member)?;
        drop(found.insert(key, doc)?);
    }
    Ok(found)
}
