// From a document to its text: compact, or on lines.
ghost use Rattle.std.specs.Prelude.{◌≡◌, ◌≤◌, ℕ, List, [], ◌∷◌, ◌++◌, IfOk, OnOk, IsOkUnless};
ghost use Rattle.json.specs.Layout.{pretty};
ghost use Rattle.json.specs.Print.{IsPrintable};
ghost use Rattle.json.specs.Reads.{token_of};
ghost use Rattle.json.specs.Token.{Token as Told, number};
ghost use Rattle.json.specs.Tree.{json_tokens, items_tokens, members_tokens};
ghost use Rattle.serde_json.specs.Find.{of_integer};
ghost use Rattle.serde_json.specs.Read.{max_depth};
ghost use Rattle.serde_json.specs.Written.{number_text, outline, items_outline, members_outline};
ghost use Rattle.cs_document.specs.Document.{depth, IsDocument, AreDocuments, AreMembers};
ghost use Rattle.cs_json.specs.Texts.{data_of, items_of, values_of, Reads, text_of};
ghost use Rattle.cs_document.specs.View.{doc_view, list_view, object_view};

use crate::{Doc, DocFault};
use itoa::Buffer;
use json::{Pretty, Token, Writer};
use std::alloc::{AllocError, Global};
use std::collections::BTreeMap;

/// What takes the tokens of a text, one behind another.
trait TakesTokens {
    ghost taken: { Self → List Told };

    ghost before: { Self → List ℕ };

    fn take(&mut self, token: Token<'_>) -> Result<(), AllocError>
        requires { IsPrintable (token_of token) }
        ensures tokens { OnOk result (taken self.new ≡ taken self.old ++ token_of token.entry ∷ []) }
        ensures before { before self.new ≡ before self.old };
}

impl TakesTokens for Writer {
    ghost taken = { λ w. w.tokens };

    ghost before = { λ w. w.before };

    fn take(&mut self, token: Token<'_>) -> Result<(), AllocError> {
        self.token(token)
    }
}

impl TakesTokens for Pretty {
    ghost taken = { λ tokens. tokens };

    ghost before = { λ _. [] };

    fn take(&mut self, token: Token<'_>) -> Result<(), AllocError> {
        self.token(token)
    }
}

/// The compact text of a document, as `serde_json` writes it: no blanks, keys in byte order. It is read
/// as that document again where the document nests at most 127 deep. Only memory can run out.
pub fn write_doc(alloc: Global, doc: &Doc) -> Result<Vec<u8>, DocFault>
    ensures text { IfOk result (λ b. b.items ≡ text_of (doc_view doc.now)) }
    ensures document { OnOk result (IsDocument (doc_view doc.now)) }
    ensures reads { IfOk result
        (λ b. depth (doc_view doc.now) ≤ max_depth → Reads b.items (doc_view doc.now)) }
    ensures memory { IsOkUnless result DocFault.OutOfMemory }
{
    let mut out = Writer::new(Vec::new(alloc));
    write(doc, &mut out)?;
    Ok(out.into_inner())
}

/// The text of a document as `serde_json` lays it out: each element and member on a line of its own, two blanks
/// further in for each list and map around it, and keys in byte order. There is no newline at the end. It is read as that
/// document again where the document nests at most 127 deep.
///
/// # Errors
/// Memory has run out.
pub fn write_pretty(alloc: Global, doc: &Doc) -> Result<Vec<u8>, AllocError>
    ensures layout { IfOk result
        (λ b. b.items ≡ pretty (json_tokens (outline (data_of (doc_view doc.now))))) }
    ensures document { OnOk result (IsDocument (doc_view doc.now)) }
    ensures reads { IfOk result
        (λ b. depth (doc_view doc.now) ≤ max_depth → Reads b.items (doc_view doc.now)) }
{
    let mut out = Pretty::new(alloc);
    write(doc, &mut out)?;
    Ok(out.into_inner())
}

/// Writes the tokens of a document. Texts and keys are borrowed, so none is in memory twice.
#[cycle(write)]
fn write<W: TakesTokens>(doc: &Doc, out: &mut W) -> Result<(), AllocError>
    ensures tokens { OnOk result (W.taken out.new
        ≡ W.taken out.old ++ json_tokens (outline (data_of (doc_view doc.now)))) }
    ensures before { W.before out.new ≡ W.before out.old }
    ensures document { OnOk result (IsDocument (doc_view doc.now)) }
{
    match doc {
        Doc::Null => out.take(Token::Null),
        Doc::Bool(b) => out.take(Token::Bool(*b)),
        Doc::Int(n) => write_integer(*n, out),
        Doc::Text(text) => out.take(Token::String(text.as_str())),
        Doc::List(items) => {
            out.take(Token::BeginArray)?;
            write_items(items, out)
        }
        Doc::Object(members) => {
            out.take(Token::BeginObject)?;
            write_members(members, out)
        }
    }
}

/// Writes an integer in decimal.
fn write_integer<W: TakesTokens>(n: i64, out: &mut W) -> Result<(), AllocError>
    ensures tokens { OnOk result (W.taken out.new
        ≡ W.taken out.old ++ number (number_text (of_integer n)) ∷ []) }
    ensures before { W.before out.new ≡ W.before out.old }
{
    let mut buffer = Buffer::new();
    out.take(Token::Number(buffer.format(n)))
}

/// Writes the elements of a list, and its end.
#[cycle(write)]
fn write_items<W: TakesTokens>(items: &Vec<Doc>, out: &mut W) -> Result<(), AllocError>
    ensures tokens { OnOk result (W.taken out.new
        ≡ W.taken out.old ++ items_tokens (items_outline (items_of (list_view items.now.items)))) }
    ensures before { W.before out.new ≡ W.before out.old }
    ensures document { OnOk result (AreDocuments (list_view items.now.items)) }
{
    for item in items {
        write(item, out)?;
    }
    out.take(Token::EndArray)
}

/// Writes the members of a map, and its end.
#[cycle(write)]
fn write_members<W: TakesTokens>(
    members: &BTreeMap<String, Doc>,
    out: &mut W,
) -> Result<(), AllocError>
    ensures tokens { OnOk result (W.taken out.new ≡ W.taken out.old
        ++ members_tokens (members_outline (values_of (object_view members.now.entries)))) }
    ensures before { W.before out.new ≡ W.before out.old }
    ensures document { OnOk result (AreMembers (object_view members.now.entries)) }
{
    for (key, member) in members {
        out.take(Token::Key(key.as_str()))?;
        write(member, out)?;
    }
    out.take(Token::EndObject)
}
