// Schemas without their defaults.
ghost use Rattle.std.specs.Prelude.{◌≡◌, ◌≤◌, false, IfOk};
ghost use Rattle.cs_document.specs.Document.{depth};
ghost use Rattle.cs_document.specs.View.{doc_view, list_view, object_view};
ghost use Rattle.cs_profile.specs.Profile.{IsSchema};
ghost use Rattle.cs_profile.specs.Shapes.{form_at};
ghost use Rattle.cs_profile.specs.declared.keyword.Vocabulary.{Vocabulary};
ghost use Rattle.cs_describe.specs.Plain.{is_default, without_defaults as bare_document, schema_without, members_without, list_without, elements_without, map_without, named_without, plain_by, values_without, as_schema};
ghost use Rattle.cs_describe.specs.Meaning.{SameValidity};

use cs_document::Doc;
use cs_profile::{Form, Keyword};
use std::alloc::{AllocError, Global};
use std::collections::BTreeMap;

/// The members of an object.
type Members = BTreeMap<String, Doc>;

/// The document of a schema without the `default` of each schema in it (JSON Schema Validation 2020-12, section 9.2); one that asks
/// nothing becomes `true`. Where what is left is a schema of the profile, it validates the same documents. Only memory can run out.
pub fn without_defaults(alloc: Global, doc: Doc) -> Result<Doc, AllocError>
    ensures found { IfOk result (λ d. doc_view d ≡ bare_document (doc_view doc)) }
    ensures profile { (taken : Vocabulary) → IsSchema taken (doc_view doc)
        → IfOk result (λ d. IsSchema taken (doc_view d)) }
    ensures meaning { IfOk result
        (λ d. (taken : Vocabulary) → IsSchema taken (doc_view d) → SameValidity (doc_view doc) (doc_view d)) }
    ensures nested { IfOk result (λ d. depth (doc_view d) ≤ depth (doc_view doc)) }
{
    let Doc::Object(members) = doc else {
        return Ok(doc);
    };
    Ok(Doc::Object(bare_members(alloc, true, members)?))
}

/// A schema below the root.
#[cycle(bare)]
fn bare_schema(alloc: Global, schema: Doc) -> Result<Doc, AllocError>
    ensures { IfOk result (λ d. doc_view d ≡ schema_without is_default (doc_view schema)) }
{
    let Doc::Object(members) = schema else {
        return Ok(schema);
    };
    let members = bare_members(alloc, false, members)?;
    Ok(schema_of(members))
}

/// What asks nothing as the schema `true`.
fn schema_of(members: Members) -> Doc
    ensures { doc_view result ≡ as_schema (object_view members.entries) }
{
    if members.is_empty() {
        Doc::Bool(true)
    } else {
        Doc::Object(members)
    }
}

/// The keywords of a schema, the root or one below it, without `default`.
#[cycle(bare)]
fn bare_members(alloc: Global, is_root: bool, members: Members) -> Result<Members, AllocError>
    ensures { IfOk result
        (λ m. object_view m.entries ≡ members_without is_default is_root (object_view members.entries)) }
{
    let mut found = BTreeMap::new(alloc);
    for (key, value) in members {
        if !names_default(key.as_str()) {
            let form = form_of(is_root, key.as_str());
            let value = bare_value(alloc, form, value)?;
            drop(found.insert(key, value)?);
        }
    }
    Ok(found)
}

/// Whether a key is that of a default.
fn names_default(key: &str) -> bool
    ensures { result ≡ is_default key.now }
{
    "default" == key
}

/// The form of what is under a key, in the root or below it.
fn form_of(is_root: bool, key: &str) -> Option<Form>
    ensures { result ≡ form_at is_root key.now }
{
    let keyword = Keyword::named(key)?;
    if keyword.stands(is_root) {
        Some(keyword.form())
    } else {
        None
    }
}

/// The value of a keyword by its form. Values that are no schemas stay as they are.
#[cycle(bare)]
fn bare_value(alloc: Global, form: Option<Form>, value: Doc) -> Result<Doc, AllocError>
    ensures { IfOk result (λ d. doc_view d ≡ plain_by form (values_without is_default (doc_view value))) }
{
    let Some(form) = form else {
        return Ok(value);
    };
    match form {
        Form::Schema => bare_schema(alloc, value),
        Form::Schemas => bare_list(alloc, value),
        Form::NamedSchemas => bare_map(alloc, value),
        // these hold no schemas
        Form::Dialect
        | Form::Reference
        | Form::Kind
        | Form::Anything
        | Form::Array
        | Form::Integer
        | Form::Count
        | Form::Texts
        | Form::Text => Ok(value),
    }
}

/// A list of schemas.
#[cycle(bare)]
fn bare_list(alloc: Global, value: Doc) -> Result<Doc, AllocError>
    ensures { IfOk result (λ d. doc_view d ≡ list_without is_default (doc_view value)) }
{
    let Doc::List(schemas) = value else {
        return Ok(value);
    };
    Ok(Doc::List(bare_each(alloc, schemas)?))
}

/// Each schema of a list.
#[cycle(bare)]
fn bare_each(alloc: Global, schemas: Vec<Doc>) -> Result<Vec<Doc>, AllocError>
    ensures { IfOk result
        (λ v. list_view v.items ≡ elements_without is_default (list_view schemas.items)) }
{
    let mut found = Vec::with_capacity(alloc, schemas.len())?;
    for schema in schemas {
        let schema = bare_schema(alloc, schema)?;
        found.push(schema)?;
    }
    Ok(found)
}

/// A map of schemas.
#[cycle(bare)]
fn bare_map(alloc: Global, value: Doc) -> Result<Doc, AllocError>
    ensures { IfOk result (λ d. doc_view d ≡ map_without is_default (doc_view value)) }
{
    let Doc::Object(schemas) = value else {
        return Ok(value);
    };
    Ok(Doc::Object(bare_named(alloc, schemas)?))
}

/// Each schema of a map.
#[cycle(bare)]
fn bare_named(alloc: Global, schemas: Members) -> Result<Members, AllocError>
    ensures { IfOk result
        (λ m. object_view m.entries ≡ named_without is_default (object_view schemas.entries)) }
{
    let mut found = BTreeMap::new(alloc);
    for (name, schema) in schemas {
        let schema = bare_schema(alloc, schema)?;
        drop(found.insert(name, schema)?);
    }
    Ok(found)
}
