// The reader: one walk over the document, key by key, and another one for the names in its references.
ghost use Rattle.std.specs.Prelude.{◌≡◌, None, Some, IfOk, IfSome, OnOk, IfErr, IsOkUnless, [], false, true, string_bytes};
ghost use Rattle.cs_document.specs.View.{doc_view, list_view, object_view, documents_of, members_of};
ghost use Rattle.cs_profile.specs.declared.keyword.Form.TheVariants as forms;
ghost use Rattle.cs_profile.specs.Keywords.{name_of};
ghost use Rattle.cs_profile.specs.Places.{at_key, at_index};
ghost use Rattle.cs_profile.specs.Shapes.{form_of, form_at, taken_at, stands};
ghost use Rattle.cs_profile.specs.Profile.{visits, member_visits, element_visits, named_visits, IsSchema};
ghost use Rattle.cs_profile.specs.Values.{keyword_visits};
ghost use Rattle.cs_profile.specs.Refusal.{IsRefusal};
ghost use Rattle.cs_profile.specs.Trim.{trim, KeepsValidity, trimmed, trimmed_elements, trimmed_named};
ghost use Rattle.cs_profile.specs.Validity.{OneMeaning};
ghost use Rattle.cs_profile.specs.SchemaDocument.{schema_view, schemas_view, definitions_view, document_of};
ghost use Rattle.cs_schema.specs.Reading.{Reads, AreParts, IsKeyword, IsPut, IsReadAs, fault_in, inside};

use crate::atoms::read_atom;
use crate::names::check_members;
use crate::parts::Parts;
use crate::places::{below_index, below_key, unknown_keyword, wrong_form};
use crate::{SchemaDoc, SchemaFault};
use cs_document::Doc;
use cs_profile::{Form, Keyword, KeywordValue, Schema, Vocabulary};
use std::alloc::{AllocError, Global};
use std::collections::BTreeMap;

/// The schema document that a document is, trimmed: without the keywords that say nothing of validity. It
/// validates what the document does (JSON Schema Core 2020-12, sections 4.3 and 8). The keywords of the vocabulary
/// are taken.
///
/// # Errors
/// The first fault: of a keyword or a value (`Keyword`, `Shape`), then of a reference (`Reference`), then of
/// definitions that reach themselves (`Loop`); of a schema with keywords of the vocabulary only `OutOfMemory`.
pub fn read_schema(
    alloc: Global,
    vocabulary: Vocabulary,
    doc: &Doc,
) -> Result<SchemaDoc, SchemaFault>
    ensures accepted { OnOk result (IsSchema vocabulary (doc_view doc.now)) }
    ensures found { IfOk result (λ s. document_of s ≡ trim (doc_view doc.now)) }
    ensures refused { IfErr result (λ e. IsRefusal vocabulary e (doc_view doc.now)) }
    ensures only { IsSchema vocabulary (doc_view doc.now) → IsOkUnless result SchemaFault.OutOfMemory }
    ensures one_meaning { OnOk result (OneMeaning (doc_view doc.now)) }
    ensures meaning { OnOk result (KeepsValidity (doc_view doc.now)) }
{
    match doc {
        Doc::Bool(b) => SchemaDoc::checked(alloc, Schema::Always(*b), BTreeMap::new(alloc)),
        Doc::Object(members) => {
            let Parts {
                keywords,
                definitions,
            } = read_members(alloc, vocabulary, true, members)?;
            check_members(alloc, true, members, &definitions)?;
            let root = Schema::Object(Box::new(alloc, keywords)?);
            SchemaDoc::checked(alloc, root, definitions)
        },
        _ => Err(wrong_form(alloc, "")),
    }
}

/// The schema that a document below the root is.
#[cycle(read)]
fn read_value(alloc: Global, vocabulary: Vocabulary, doc: &Doc) -> Result<Schema, SchemaFault>
    ensures { Reads result (fault_in vocabulary (visits false [] (doc_view doc.now)))
        (λ s. schema_view s ≡ trimmed false (doc_view doc.now)) }
{
    match doc {
        Doc::Bool(b) => Ok(Schema::Always(*b)),
        Doc::Object(members) => {
            let parts = read_members(alloc, vocabulary, false, members)?;
            Ok(Schema::Object(Box::new(alloc, parts.into_keywords())?))
        },
        _ => Err(wrong_form(alloc, "")),
    }
}

/// The keywords of an object, and its definitions where it is the root.
#[cycle(read)]
fn read_members(
    alloc: Global,
    vocabulary: Vocabulary,
    root: bool,
    members: &BTreeMap<String, Doc>,
) -> Result<Parts, SchemaFault>
    ensures { Reads result (fault_in vocabulary (member_visits root [] (object_view members.now.entries)))
        (AreParts root (object_view members.now.entries)) }
{
    let mut parts = Parts::new(alloc);
    for (key, value) in members {
        let (keyword, value) = read_keyword(alloc, vocabulary, root, key, value)?;
        parts = parts.set(alloc, keyword, value);
    }
    Ok(parts)
}

/// The keyword that a key is, with its value.
#[cycle(read)]
fn read_keyword(
    alloc: Global,
    vocabulary: Vocabulary,
    root: bool,
    key: &str,
    value: &Doc,
) -> Result<(Keyword, KeywordValue), SchemaFault>
    ensures { Reads result (fault_in vocabulary (keyword_visits root [] key.now (doc_view value.now)))
        (λ t. IsKeyword root key.now (doc_view value.now) t.0 t.1) }
{
    let Some(keyword) = taken_at(vocabulary, root, key) else {
        return Err(unknown_keyword(alloc, key));
    };
    match read_form(alloc, vocabulary, keyword.form(), value) {
        Ok(Some(value)) => Ok((keyword, value)),
        Ok(None) => Err(wrong_form(alloc, key)),
        Err(fault) => Err(below_key(alloc, key, fault)),
    }
}

/// The keyword that a key is, in the root or below it, if it is taken.
fn taken_at(vocabulary: Vocabulary, root: bool, key: &str) -> Option<Keyword>
    ensures form { IfSome result (λ w. taken_at vocabulary root key.now ≡ Some (form_of w)) }
    ensures name { IfSome result (λ w. name_of w ≡ key.now) }
    ensures stands { IfSome result (λ w. stands root w ≡ true) }
    ensures none { result ≡ None → taken_at vocabulary root key.now ≡ None }
{
    let keyword = keyword_at(root, key)?;
    if keyword.is_in(vocabulary) {
        Some(keyword)
    } else {
        None
    }
}

/// The keyword that a key is, in the root or below it.
pub(crate) fn keyword_at(root: bool, key: &str) -> Option<Keyword>
    ensures form { IfSome result (λ w. form_at root key.now ≡ Some (form_of w)) }
    ensures name { IfSome result (λ w. name_of w ≡ key.now) }
    ensures stands { IfSome result (λ w. stands root w ≡ true) }
    ensures none { result ≡ None → form_at root key.now ≡ None }
{
    let keyword = Keyword::named(key)?;
    if keyword.stands(root) {
        Some(keyword)
    } else {
        None
    }
}

/// A keyword's value, by its form; `None` where it doesn't have that form.
#[cycle(read)]
fn read_form(
    alloc: Global,
    vocabulary: Vocabulary,
    form: Form,
    value: &Doc,
) -> Result<Option<KeywordValue>, SchemaFault>
    ensures { Reads result (fault_in vocabulary (inside form (doc_view value.now)))
        (IsReadAs form (doc_view value.now)) }
{
    match form {
        Form::Schema => Ok(Some(KeywordValue::Schema(read_value(alloc, vocabulary, value)?))),
        Form::Schemas => read_some(alloc, vocabulary, value),
        Form::NamedSchemas => read_named(alloc, vocabulary, value),
        _ => Ok(read_atom(alloc, form, value)?),
    }
}

/// The schemas of a nonempty array.
#[cycle(read)]
fn read_some(
    alloc: Global,
    vocabulary: Vocabulary,
    value: &Doc,
) -> Result<Option<KeywordValue>, SchemaFault>
    ensures { Reads result (fault_in vocabulary (inside forms.Schemas (doc_view value.now)))
        (IsReadAs forms.Schemas (doc_view value.now)) }
{
    match value {
        Doc::List(items) => if items.is_empty() {
            Ok(None)
        } else {
            let mut schemas = Vec::with_capacity(alloc, items.len())?;
            read_list(alloc, vocabulary, items, &mut schemas)?;
            Ok(Some(KeywordValue::Schemas(schemas)))
        },
        _ => Ok(None),
    }
}

/// The schemas of an object, by their names.
#[cycle(read)]
fn read_named(
    alloc: Global,
    vocabulary: Vocabulary,
    value: &Doc,
) -> Result<Option<KeywordValue>, SchemaFault>
    ensures { Reads result (fault_in vocabulary (inside forms.NamedSchemas (doc_view value.now)))
        (IsReadAs forms.NamedSchemas (doc_view value.now)) }
{
    match value {
        Doc::Object(members) => {
            let mut schemas = BTreeMap::new(alloc);
            read_map(alloc, vocabulary, members, &mut schemas)?;
            Ok(Some(KeywordValue::NamedSchemas(schemas)))
        },
        _ => Ok(None),
    }
}

/// Pushes the schemas of an array, where there are none yet.
#[cycle(read)]
fn read_list(
    alloc: Global,
    vocabulary: Vocabulary,
    items: &Vec<Doc>,
    schemas: &mut Vec<Schema>,
) -> Result<(), SchemaFault>
    requires { schemas.old.items ≡ [] }
    ensures { Reads result (fault_in vocabulary (element_visits [] 0 (list_view items.now.items)))
        (λ u. documents_of (schemas_view schemas.new.items) ≡ trimmed_elements (list_view items.now.items)) }
{
    for (i, item) in items.iter().enumerate() {
        let schema = read_element(alloc, vocabulary, i, item)?;
        schemas.push(schema)?;
    }
    Ok(())
}

/// The schema that the element at an index is.
#[cycle(read)]
fn read_element(
    alloc: Global,
    vocabulary: Vocabulary,
    i: usize,
    item: &Doc,
) -> Result<Schema, SchemaFault>
    ensures { Reads result (fault_in vocabulary (visits false (at_index [] i) (doc_view item.now)))
        (λ s. schema_view s ≡ trimmed false (doc_view item.now)) }
{
    match read_value(alloc, vocabulary, item) {
        Ok(schema) => Ok(schema),
        Err(fault) => Err(below_index(alloc, i, fault)),
    }
}

/// Puts the schemas under the keys of an object, where there are none yet.
#[cycle(read)]
fn read_map(
    alloc: Global,
    vocabulary: Vocabulary,
    members: &BTreeMap<String, Doc>,
    schemas: &mut BTreeMap<String, Schema>,
) -> Result<(), SchemaFault>
    requires { schemas.old.entries ≡ [] }
    ensures { Reads result (fault_in vocabulary (named_visits [] (object_view members.now.entries)))
        (λ u. members_of (definitions_view schemas.new.entries)
        ≡ trimmed_named (object_view members.now.entries)) }
{
    for (key, value) in members {
        let schema = read_entry(alloc, vocabulary, key, value)?;
        put(schemas, key, schema)?;
    }
    Ok(())
}

/// The schema under a name.
#[cycle(read)]
fn read_entry(
    alloc: Global,
    vocabulary: Vocabulary,
    name: &str,
    value: &Doc,
) -> Result<Schema, SchemaFault>
    ensures { Reads result (fault_in vocabulary (visits false (at_key [] name.now) (doc_view value.now)))
        (λ s. schema_view s ≡ trimmed false (doc_view value.now)) }
{
    match read_value(alloc, vocabulary, value) {
        Ok(schema) => Ok(schema),
        Err(fault) => Err(below_key(alloc, name, fault)),
    }
}

/// Puts a schema under a key.
fn put(
    schemas: &mut BTreeMap<String, Schema>,
    key: &String,
    schema: Schema,
) -> Result<(), AllocError>
    ensures { OnOk result (IsPut (string_bytes key.now) schema schemas.old.entries schemas.new.entries) }
{
    let name = key.clone()?;
    drop(schemas.insert(name, schema)?);
    Ok(())
}
