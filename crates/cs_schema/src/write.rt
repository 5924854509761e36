// The writer: the keywords of each object, in the byte order of their names.
ghost use Rattle.std.specs.Prelude.{◌≡◌, IfOk, OnOk, IsOkUnless, Some, None, map, option_map};
ghost use Rattle.cs_document.specs.Document.{text as a_text, integer, list};
ghost use Rattle.cs_document.specs.View.{doc_view, list_view, object_view};
ghost use Rattle.cs_profile.specs.Profile.{IsSchema};
ghost use Rattle.cs_profile.specs.declared.keyword.Vocabulary.TheVariants as vocabulary;
ghost use Rattle.cs_profile.specs.Trim.{trim};
ghost use Rattle.cs_profile.specs.SchemaDocument.{kind_name, schema_view, schemas_view, definitions_view, slots_of, present, unless_no_list, unless_no_map, reference_document, text_document, document_of};
ghost use Rattle.cs_profile.specs.Keywords.{name_of};
ghost use Rattle.cs_schema.specs.Writing.{Writes, put_some, slot_value};

use crate::atoms::{copied, copies_of, name_of};
use crate::{SchemaDoc, SchemaFault};
use cs_document::Doc;
use cs_profile::{JsonKind, Keyword, Keywords, Schema};
use std::alloc::{AllocError, Global};
use std::collections::BTreeMap;

/// The members of a schema object.
type Members = BTreeMap<String, Doc>;

/// The document that a schema document stands for, trimmed. An object as root has `$schema`. Only memory can
/// run out.
pub fn to_doc(alloc: Global, schema: &SchemaDoc) -> Result<Doc, SchemaFault>
    ensures found { IfOk result (λ d. doc_view d ≡ document_of schema.now) }
    ensures profile { IsSchema vocabulary.Wide (document_of schema.now) }
    ensures trimmed { trim (document_of schema.now) ≡ document_of schema.now }
    ensures memory { IsOkUnless result SchemaFault.OutOfMemory }
{
    schema.whole_law(); // for the proof: the document is a schema of the profile, and trimmed
    match schema.root() {
        Schema::Always(b) => Ok(Doc::Bool(*b)),
        Schema::Object(keywords) => {
            let mut members = keywords_doc(alloc, keywords)?;
            let definitions = map_doc(alloc, schema.definitions())?;
            set(alloc, &mut members, "$defs", definitions)?;
            let dialect = text_doc(alloc, "https://json-schema.org/draft/2020-12/schema")?;
            set(alloc, &mut members, "$schema", Some(dialect))?;
            Ok(Doc::Object(members))
        },
    }
}

/// Puts a keyword to the others, if it has a value.
fn set(
    alloc: Global,
    members: &mut Members,
    name: &str,
    value: Option<Doc>,
) -> Result<(), AllocError>
    ensures { OnOk result (object_view members.new.entries
        ≡ put_some name.now (option_map doc_view value) (object_view members.old.entries)) }
{
    let Some(value) = value else {
        return Ok(());
    };
    drop(members.insert(String::from_str(alloc, name)?, value)?);
    Ok(())
}

/// The document that a schema below the root stands for.
#[cycle(write)]
fn schema_doc(alloc: Global, schema: &Schema) -> Result<Doc, AllocError>
    ensures { IfOk result (λ d. doc_view d ≡ schema_view schema.now) }
{
    match schema {
        Schema::Always(b) => Ok(Doc::Bool(*b)),
        Schema::Object(keywords) => Ok(Doc::Object(keywords_doc(alloc, keywords)?)),
    }
}

/// The keywords of an object.
#[cycle(write)]
fn keywords_doc(alloc: Global, keywords: &Keywords) -> Result<Members, AllocError>
    ensures { IfOk result (λ m. object_view m.entries ≡ present (slots_of keywords.now)) }
{
    let mut members = BTreeMap::new(alloc);
    for keyword in Keyword::ALL {
        let value = keyword_doc(alloc, keywords, keyword)?;
        set(alloc, &mut members, keyword.name(), value)?;
    }
    Ok(members)
}

/// The value of a keyword, if it has one.
#[cycle(write)]
fn keyword_doc(
    alloc: Global,
    keywords: &Keywords,
    keyword: Keyword,
) -> Result<Option<Doc>, AllocError>
    ensures { Writes result (slot_value (name_of keyword) (slots_of keywords.now)) }
{
    match keyword {
        Keyword::Ref => reference_doc(alloc, &keywords.reference),
        Keyword::AdditionalProperties => option_doc(alloc, &keywords.additional),
        Keyword::AllOf => list_doc(alloc, &keywords.all_of),
        Keyword::AnyOf => list_doc(alloc, &keywords.any_of),
        Keyword::Const => equal_doc(alloc, &keywords.equal),
        Keyword::Enum => one_of_doc(alloc, &keywords.one_of),
        Keyword::ExclusiveMaximum => Ok(integer_doc(keywords.below)),
        Keyword::ExclusiveMinimum => Ok(integer_doc(keywords.above)),
        Keyword::Items => option_doc(alloc, &keywords.rest),
        Keyword::MaxItems => Ok(integer_doc(keywords.max_items)),
        Keyword::MaxLength => Ok(integer_doc(keywords.max_length)),
        Keyword::MaxProperties => Ok(integer_doc(keywords.max_properties)),
        Keyword::Maximum => Ok(integer_doc(keywords.maximum)),
        Keyword::MinItems => Ok(integer_doc(keywords.min_items)),
        Keyword::MinLength => Ok(integer_doc(keywords.min_length)),
        Keyword::MinProperties => Ok(integer_doc(keywords.min_properties)),
        Keyword::Minimum => Ok(integer_doc(keywords.minimum)),
        Keyword::Not => option_doc(alloc, &keywords.negated),
        Keyword::PrefixItems => list_doc(alloc, &keywords.prefix),
        Keyword::Properties => map_doc(alloc, &keywords.properties),
        Keyword::Required => texts_doc(alloc, &keywords.required),
        Keyword::Type => kind_doc(alloc, keywords.kind),
        // these are none of the keywords that an object keeps
        Keyword::Comment
        | Keyword::Defs
        | Keyword::Description
        | Keyword::Schema
        | Keyword::Title => Ok(None),
    }
}

/// A schema, where there is one.
#[cycle(write)]
fn option_doc(alloc: Global, schema: &Option<Schema>) -> Result<Option<Doc>, AllocError>
    ensures { Writes result (option_map schema_view schema.now) }
{
    match schema {
        Some(schema) => Ok(Some(schema_doc(alloc, schema)?)),
        None => Ok(None),
    }
}

/// A list of schemas, unless it is empty.
#[cycle(write)]
fn list_doc(alloc: Global, schemas: &Vec<Schema>) -> Result<Option<Doc>, AllocError>
    ensures { Writes result (unless_no_list (schemas_view schemas.now.items)) }
{
    if schemas.is_empty() {
        return Ok(None);
    }
    let mut docs = Vec::with_capacity(alloc, schemas.len())?;
    for schema in schemas {
        docs.push(schema_doc(alloc, schema)?)?;
    }
    Ok(Some(Doc::List(docs)))
}

/// A map of schemas, unless it is empty.
#[cycle(write)]
fn map_doc(alloc: Global, schemas: &BTreeMap<String, Schema>) -> Result<Option<Doc>, AllocError>
    ensures { Writes result (unless_no_map (definitions_view schemas.now.entries)) }
{
    if schemas.is_empty() {
        return Ok(None);
    }
    let mut docs = BTreeMap::new(alloc);
    for (name, schema) in schemas {
        let name = name.clone()?;
        let doc = schema_doc(alloc, schema)?;
        drop(docs.insert(name, doc)?);
    }
    Ok(Some(Doc::Object(docs)))
}

fn text_doc(alloc: Global, text: &str) -> Result<Doc, AllocError>
    ensures { IfOk result (λ d. doc_view d ≡ a_text text.now) }
{
    Ok(Doc::Text(String::from_str(alloc, text)?))
}

fn integer_doc(n: Option<i64>) -> Option<Doc>
    ensures { option_map doc_view result ≡ option_map integer n }
{
    n.map(Doc::Int)
}

fn reference_doc(alloc: Global, name: &Option<String>) -> Result<Option<Doc>, AllocError>
    ensures { Writes result (option_map reference_document name.now) }
{
    match name {
        Some(name) => Ok(Some(Doc::Text(format!(in alloc; "#/$defs/{name}")?))),
        None => Ok(None),
    }
}

fn kind_doc(alloc: Global, kind: Option<JsonKind>) -> Result<Option<Doc>, AllocError>
    ensures { Writes result (option_map (λ k. a_text (kind_name k)) kind) }
{
    match kind {
        Some(kind) => Ok(Some(text_doc(alloc, name_of(kind))?)),
        None => Ok(None),
    }
}

fn equal_doc(alloc: Global, value: &Option<Doc>) -> Result<Option<Doc>, AllocError>
    ensures { Writes result (option_map doc_view value.now) }
{
    match value {
        Some(value) => Ok(Some(copied(alloc, value)?)),
        None => Ok(None),
    }
}

fn one_of_doc(alloc: Global, values: &Option<Vec<Doc>>) -> Result<Option<Doc>, AllocError>
    ensures { Writes result (option_map (λ v. list (list_view v.items)) values.now) }
{
    match values {
        Some(values) => Ok(Some(Doc::List(copies_of(alloc, values)?))),
        None => Ok(None),
    }
}

/// A list of texts, unless it is empty.
fn texts_doc(alloc: Global, texts: &Vec<String>) -> Result<Option<Doc>, AllocError>
    ensures { Writes result (unless_no_list (map text_document texts.now.items)) }
{
    if texts.is_empty() {
        return Ok(None);
    }
    let mut docs = Vec::with_capacity(alloc, texts.len())?;
    for text in texts {
        docs.push(Doc::Text(text.clone()?))?;
    }
    Ok(Some(Doc::List(docs)))
}
