// From the text of a document to the document, in the form that a judge reads fastest.
ghost use Rattle.std.specs.Prelude.{◌≡◌, IfOk, IfErr};
ghost use Rattle.cs_json.specs.Texts.{Reads};
ghost use Rattle.cs_json.specs.Refusal.{IsRefusal};
ghost use Rattle.cs_json.specs.ReadAs.{read_as};
ghost use Rattle.cs_document.specs.Document.{IsDocument};

use crate::{Doc, DocFault, Flat, read_doc, read_flat};
use json::Scratch;
use std::alloc::Global;

/// A document that was read from a text.
#[derive(Drop)]
pub enum Document<'a> {
    /// As the list of its values, with texts and keys borrowed from the text.
    Listed(Flat<'a>),
    /// As a tree, where its text is out of the ordinary.
    Tree(Doc),
}

/// The document that a text of JSON is, as [`read_doc`] reads it. `scratch` holds the texts and keys that have escapes.
///
/// # Errors
/// Those of [`read_doc`].
pub fn read_document<'a>(
    alloc: Global,
    text: &'a [u8],
    scratch: &'a mut Scratch,
) -> Result<Document<'a>, DocFault>
    ensures found { IfOk result (λ d. Reads text.now (read_as d)) }
    ensures document { IfOk result (λ d. IsDocument (read_as d)) }
    ensures refused { IfErr result (λ e. IsRefusal e text.now) }
{
    if let Some(flat) = read_flat(alloc, text, scratch)? {
        let _count = flat.len(); // for the proof: its values are those of a document
        return Ok(Document::Listed(flat));
    }
    Ok(Document::Tree(read_doc(alloc, text)?))
}
