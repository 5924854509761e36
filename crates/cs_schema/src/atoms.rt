// Values of keywords that hold no schema.
ghost use Rattle.std.specs.Prelude.{◌≡◌, None, Some, false, IfSome, IfOk, if◌then◌else◌};
ghost use Rattle.std.specs.List.{list_all};
ghost use Rattle.cs_document.specs.Document.{text};
ghost use Rattle.cs_document.specs.View.{doc_view, list_view};
ghost use Rattle.cs_profile.specs.Shapes.{has_form, is_name as text_is_name, is_name_code as code_is_name};
ghost use Rattle.cs_profile.specs.declared.keyword.Form.TheVariants as form;
ghost use Rattle.cs_profile.specs.declared.schema.KeywordValue.TheVariants as value;
ghost use Rattle.cs_profile.specs.SchemaDocument.{kind_name};
ghost use Rattle.cs_schema.specs.Reading.{IsReadAs, has_schemas};

use crate::texts::texts_of;
use cs_document::Doc;
use cs_profile::{Form, JsonKind, KeywordValue};
use std::alloc::{AllocError, Global};

/// A value of a form that holds no schema; `None` where it doesn't have that form.
pub(crate) fn read_atom(
    alloc: Global,
    form: Form,
    value: &Doc,
) -> Result<Option<KeywordValue>, AllocError>
    ensures { IfOk result (λ o. has_schemas form ≡ false → IsReadAs form (doc_view value.now) o) }
{
    match form {
        Form::Dialect => Ok(nothing_if(is_dialect(value))),
        Form::Reference => reference_of(alloc, value),
        Form::Kind => Ok(kind_of(value)),
        Form::Anything => Ok(Some(KeywordValue::Anything(copied(alloc, value)?))),
        Form::Array => array_of(alloc, value),
        Form::Integer => Ok(integer_of(value)),
        Form::Count => Ok(count_of(value)),
        Form::Texts => texts_of(alloc, value),
        Form::Text => Ok(nothing_if(is_text(value))),
        Form::Schema | Form::Schemas | Form::NamedSchemas => Ok(None),
    }
}

/// The value that says nothing of validity, if it has its form.
fn nothing_if(has_form: bool) -> Option<KeywordValue>
    ensures { result ≡ (if has_form then Some value.Nothing else None) }
{
    if has_form {
        Some(KeywordValue::Nothing)
    } else {
        None
    }
}

/// The kind that a value names.
fn kind_of(value: &Doc) -> Option<KeywordValue>
    ensures { IsReadAs form.Kind (doc_view value.now) result }
{
    match value {
        Doc::Text(name) => match kind_named(name) {
            Some(kind) => Some(KeywordValue::Kind(kind)),
            None => None,
        },
        _ => None,
    }
}

fn kind_named(name: &str) -> Option<JsonKind>
    ensures some { IfSome result (λ k. name.now ≡ kind_name k) }
    ensures none { result ≡ None → has_form form.Kind (text name.now) ≡ false }
{
    match name {
        "null" => Some(JsonKind::Null),
        "boolean" => Some(JsonKind::Boolean),
        "object" => Some(JsonKind::Object),
        "array" => Some(JsonKind::Array),
        "number" => Some(JsonKind::Number),
        "string" => Some(JsonKind::String),
        "integer" => Some(JsonKind::Integer),
        _ => None,
    }
}

/// The name of a kind.
pub(crate) fn name_of(kind: JsonKind) -> &'static str
    ensures { result.now ≡ kind_name kind }
{
    match kind {
        JsonKind::Null => "null",
        JsonKind::Boolean => "boolean",
        JsonKind::Object => "object",
        JsonKind::Array => "array",
        JsonKind::Number => "number",
        JsonKind::String => "string",
        JsonKind::Integer => "integer",
    }
}

/// The integer that a value is.
fn integer_of(value: &Doc) -> Option<KeywordValue>
    ensures { IsReadAs form.Integer (doc_view value.now) result }
{
    match value {
        Doc::Int(n) => Some(KeywordValue::Integer(*n)),
        _ => None,
    }
}

/// The integer of at least 0 that a value is.
fn count_of(value: &Doc) -> Option<KeywordValue>
    ensures { IsReadAs form.Count (doc_view value.now) result }
{
    match value {
        Doc::Int(n) if *n >= 0 => Some(KeywordValue::Integer(*n)),
        _ => None,
    }
}

/// The text that a value is.
pub(crate) fn text_of(value: &Doc) -> Option<&str>
    ensures some { IfSome result (λ t. doc_view value.now ≡ text t.now) }
    ensures none { result ≡ None → has_form form.Text (doc_view value.now) ≡ false }
{
    match value {
        Doc::Text(text) => Some(text.as_str()),
        _ => None,
    }
}

/// Whether a value is a text.
pub(crate) fn is_text(value: &Doc) -> bool
    ensures { result ≡ has_form form.Text (doc_view value.now) }
{
    text_of(value).is_some()
}

/// The documents of the array that a value is.
fn array_of(alloc: Global, value: &Doc) -> Result<Option<KeywordValue>, AllocError>
    ensures { IfOk result (IsReadAs form.Array (doc_view value.now)) }
{
    match value {
        Doc::List(items) => Ok(Some(KeywordValue::Array(copies_of(alloc, items)?))),
        _ => Ok(None),
    }
}

/// Whether a value is the text of the dialect.
pub(crate) fn is_dialect(value: &Doc) -> bool
    ensures { result ≡ has_form form.Dialect (doc_view value.now) }
{
    match value {
        Doc::Text(name) => name.as_str() == "https://json-schema.org/draft/2020-12/schema",
        _ => false,
    }
}

/// The name that the value of a `$ref` refers to.
fn reference_of(alloc: Global, value: &Doc) -> Result<Option<KeywordValue>, AllocError>
    ensures { IfOk result (IsReadAs form.Reference (doc_view value.now)) }
{
    match value {
        Doc::Text(text) => match text.strip_prefix("#/$defs/") {
            Some(name) if is_name(name) => {
                Ok(Some(KeywordValue::Reference(String::from_str(alloc, name)?)))
            }
            _ => Ok(None),
        },
        _ => Ok(None),
    }
}

/// Whether a text may be the name in a `$ref`.
fn is_name(name: &str) -> bool
    ensures { result ≡ text_is_name name.now }
{
    !name.is_empty() && are_name_codes(name.as_bytes())
}

fn are_name_codes(codes: &[u8]) -> bool
    ensures { result ≡ list_all code_is_name codes.now }
{
    codes.iter().all(|c| is_name_code(*c))
}

fn is_name_code(c: u8) -> bool
    ensures { result ≡ code_is_name c }
{
    matches!(c, b'A'..=b'Z' | b'a'..=b'z' | b'0'..=b'9' | b'_' | b'$' | b'.' | b'-')
}

/// An equal document.
pub(crate) fn copied(alloc: Global, value: &Doc) -> Result<Doc, AllocError>
    ensures { IfOk result (λ d. doc_view d ≡ doc_view value.now) }
{
    match value.copy(alloc) {
        Ok(doc) => Ok(doc),
        Err(_) => Err(AllocError),
    }
}

/// Equal documents.
pub(crate) fn copies_of(alloc: Global, values: &Vec<Doc>) -> Result<Vec<Doc>, AllocError>
    ensures { IfOk result (λ v. list_view v.items ≡ list_view values.now.items) }
{
    let mut docs = Vec::with_capacity(alloc, values.len())?;
    for value in values {
        docs.push(copied(alloc, value)?)?;
    }
    Ok(docs)
}
