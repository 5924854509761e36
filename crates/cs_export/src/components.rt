// The definitions of a schema as components of OpenAPI.
ghost use Rattle.std.specs.Prelude.{◌≡◌, IfOk, false};
ghost use Rattle.cs_document.specs.View.{doc_view, list_view, object_view};
ghost use Rattle.cs_profile.specs.Shapes.{form_at};
ghost use Rattle.cs_export.specs.Components.{components_of, definitions_in, alone, to_component, moved, moved_members, moved_value, moved_reference, moved_list, moved_elements, moved_map, moved_named};

use cs_document::Doc;
use cs_profile::{Form, Keyword};
use std::alloc::{AllocError, Global};
use std::collections::BTreeMap;

/// The members of an object.
type Members = BTreeMap<String, Doc>;

/// The document of OpenAPI components that has the definitions of a schema, with references to where they are there
/// (OpenAPI 3.1, components object). The root itself is left out.
pub(crate) fn components(alloc: Global, schema: Doc) -> Result<Doc, AllocError>
    ensures { IfOk result (λ d. doc_view d ≡ components_of (doc_view schema)) }
{
    let definitions = definitions_of(alloc, schema);
    let schemas = pointed_named(alloc, definitions)?;
    let schemas = member(alloc, "schemas", Doc::Object(schemas))?;
    member(alloc, "components", schemas)
}

/// The definitions of a schema by their names, if it has some.
fn definitions_of(alloc: Global, schema: Doc) -> Members
    ensures { object_view result.entries ≡ definitions_in (doc_view schema) }
{
    let Doc::Object(mut members) = schema else {
        return BTreeMap::new(alloc);
    };
    let Some(definitions) = members.remove("$defs") else {
        return BTreeMap::new(alloc);
    };
    let Doc::Object(definitions) = definitions else {
        return BTreeMap::new(alloc);
    };
    definitions
}

/// A map of one member.
fn member(alloc: Global, key: &str, value: Doc) -> Result<Doc, AllocError>
    ensures { IfOk result (λ d. doc_view d ≡ alone key.now (doc_view value)) }
{
    let mut members = BTreeMap::new(alloc);
    let key = String::from_str(alloc, key)?;
    drop(members.insert(key, value)?);
    Ok(Doc::Object(members))
}

/// A schema with its references, and those of the schemas in it, to components.
#[cycle(pointed)]
fn pointed(alloc: Global, schema: Doc) -> Result<Doc, AllocError>
    ensures { IfOk result (λ d. doc_view d ≡ moved to_component (doc_view schema)) }
{
    let Doc::Object(members) = schema else {
        return Ok(schema);
    };
    Ok(Doc::Object(pointed_members(alloc, members)?))
}

/// The keywords of a schema, likewise.
#[cycle(pointed)]
fn pointed_members(alloc: Global, members: Members) -> Result<Members, AllocError>
    ensures { IfOk result
        (λ m. object_view m.entries ≡ moved_members to_component (object_view members.entries)) }
{
    let mut pointing = BTreeMap::new(alloc);
    for (key, value) in members {
        let value = pointed_value(alloc, form_of(key.as_str()), value)?;
        drop(pointing.insert(key, value)?);
    }
    Ok(pointing)
}

/// The form of what is under a key of a schema below the root.
fn form_of(key: &str) -> Option<Form>
    ensures { result ≡ form_at false key.now }
{
    let keyword = Keyword::named(key)?;
    if keyword.stands(false) {
        Some(keyword.form())
    } else {
        None
    }
}

/// The value of a keyword by its form, likewise. Values that are no schemas stay as they are.
#[cycle(pointed)]
fn pointed_value(alloc: Global, form: Option<Form>, value: Doc) -> Result<Doc, AllocError>
    ensures { IfOk result (λ d. doc_view d ≡ moved_value to_component form (doc_view value)) }
{
    let Some(form) = form else {
        return Ok(value);
    };
    match form {
        Form::Reference => pointed_reference(alloc, value),
        Form::Schema => pointed(alloc, value),
        Form::Schemas => pointed_list(alloc, value),
        Form::NamedSchemas => pointed_map(alloc, value),
        // these hold no schemas
        Form::Dialect
        | Form::Kind
        | Form::Anything
        | Form::Array
        | Form::Integer
        | Form::Count
        | Form::Texts
        | Form::Text => Ok(value),
    }
}

/// The value of a `$ref`: a reference to a definition becomes one to the component that has it.
fn pointed_reference(alloc: Global, value: Doc) -> Result<Doc, AllocError>
    ensures { IfOk result (λ d. doc_view d ≡ moved_reference to_component (doc_view value)) }
{
    let Doc::Text(target) = value else {
        return Ok(value);
    };
    match target.strip_prefix("#/$defs/") {
        Some(name) => Ok(Doc::Text(format!(in alloc; "#/components/schemas/{name}")?)),
        None => Ok(Doc::Text(target)),
    }
}

/// A list of schemas, likewise.
#[cycle(pointed)]
fn pointed_list(alloc: Global, value: Doc) -> Result<Doc, AllocError>
    ensures { IfOk result (λ d. doc_view d ≡ moved_list to_component (doc_view value)) }
{
    let Doc::List(schemas) = value else {
        return Ok(value);
    };
    Ok(Doc::List(pointed_each(alloc, schemas)?))
}

/// Each schema of a list, likewise.
#[cycle(pointed)]
fn pointed_each(alloc: Global, schemas: Vec<Doc>) -> Result<Vec<Doc>, AllocError>
    ensures { IfOk result
        (λ v. list_view v.items ≡ moved_elements to_component (list_view schemas.items)) }
{
    let mut pointing = Vec::with_capacity(alloc, schemas.len())?;
    for schema in schemas {
        let schema = pointed(alloc, schema)?;
        pointing.push(schema)?;
    }
    Ok(pointing)
}

/// A map of schemas, likewise.
#[cycle(pointed)]
fn pointed_map(alloc: Global, value: Doc) -> Result<Doc, AllocError>
    ensures { IfOk result (λ d. doc_view d ≡ moved_map to_component (doc_view value)) }
{
    let Doc::Object(schemas) = value else {
        return Ok(value);
    };
    Ok(Doc::Object(pointed_named(alloc, schemas)?))
}

/// Each schema of a map, likewise.
#[cycle(pointed)]
fn pointed_named(alloc: Global, schemas: Members) -> Result<Members, AllocError>
    ensures { IfOk result
        (λ m. object_view m.entries ≡ moved_named to_component (object_view schemas.entries)) }
{
    let mut pointing = BTreeMap::new(alloc);
    for (name, schema) in schemas {
        let schema = pointed(alloc, schema)?;
        drop(pointing.insert(name, schema)?);
    }
    Ok(pointing)
}
