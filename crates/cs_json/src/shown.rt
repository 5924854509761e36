// The texts of documents with nothing hidden in them.
ghost use Rattle.std.specs.Prelude.{◌≡◌, IfOk, IfSome, IsTrue};
ghost use Rattle.cs_document.specs.View.{doc_view};
ghost use Rattle.cs_flat.specs.Listed.{document_in};
ghost use Rattle.cs_json.specs.Shown.{IsShown};
ghost use Rattle.cs_json.specs.Texts.{Reads};
ghost use Rattle.cs_place.specs.Shown.{shown};

use crate::{Doc, DocFault, Document, Flat, Scratch, read_document, write_doc};
use cs_place::put_shown;
use std::alloc::{AllocError, Global};
use std::str;

/// The text of a document as it is shown: compact, with an escape for each character that is hidden, as JSON may have it (RFC 8259,
/// section 7). Each text that is given was read again, as the document: there is none where it isn't, which is so where the document
/// nests deeper than documents are read.
///
/// # Errors
/// `OutOfMemory`.
pub fn shown_text(alloc: Global, doc: &Doc) -> Result<Option<Vec<u8>>, DocFault>
    ensures { IfOk result (λ o. IfSome o (λ t. IsShown (doc_view doc.now) t.items)) }
{
    let text = write_doc(alloc, doc)?;
    let Ok(plain) = str::from_utf8(&text) else {
        return Ok(None);
    };
    let shown = shown_bytes(alloc, plain)?;
    if is_read_as(alloc, &shown, doc)? {
        Ok(Some(shown))
    } else {
        Ok(None)
    }
}

/// A text as it is shown.
fn shown_bytes(alloc: Global, plain: &str) -> Result<Vec<u8>, AllocError>
    ensures { IfOk result (λ t. t.items ≡ shown plain.now) }
{
    let mut shown = String::with_capacity(alloc, plain.len())?;
    put_shown(&mut shown, plain)?;
    Ok(shown.into_bytes())
}

/// Whether a text is read as a document. What is read is kept as the list of its values, so that it takes little beside the document.
///
/// # Errors
/// `OutOfMemory`.
pub fn is_read_as(alloc: Global, text: &[u8], doc: &Doc) -> Result<bool, DocFault>
    ensures { IfOk result (λ b. IsTrue b → Reads text.now (doc_view doc.now)) }
{
    let mut scratch = Scratch::new(alloc);
    match read_document(alloc, text, &mut scratch) {
        Ok(Document::Listed(again)) => Ok(is_same(&again, doc)),
        Ok(Document::Tree(again)) => Ok(again == *doc),
        Err(DocFault::OutOfMemory) => Err(DocFault::OutOfMemory),
        Err(DocFault::NotJson { .. } | DocFault::NotInteger { .. }) => Ok(false),
    }
}

/// Whether the document of a list is this one.
fn is_same(listed: &Flat<'_>, doc: &Doc) -> bool
    ensures { IsTrue result → document_in listed.now ≡ doc_view doc.now }
{
    listed.equals(listed.len() - 1, doc)
}
