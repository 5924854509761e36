// The names in references: a walk over a document in the order of the reader's, for the first `$ref` to a name that
// is not defined.
ghost use Rattle.std.specs.Prelude.{◌≡◌, None, OnOk, IfErr, [], false};
ghost use Rattle.cs_document.specs.View.{doc_view, list_view, object_view};
ghost use Rattle.cs_profile.specs.declared.keyword.Form.TheVariants as forms;
ghost use Rattle.cs_profile.specs.Profile.{reference_fault, visits, member_visits, element_visits, named_visits};
ghost use Rattle.cs_profile.specs.Values.{keyword_visits};
ghost use Rattle.cs_schema.specs.Reading.{Refuses, inside, is_defined_in, undefined_in};

use crate::SchemaFault;
use crate::places::{below_index, below_key, undefined_reference};
use crate::read::keyword_at;
use cs_document::Doc;
use cs_profile::{Form, Schema};
use std::alloc::Global;
use std::collections::BTreeMap;

/// The definitions of a root, by their names.
type Definitions = BTreeMap<String, Schema>;

/// Checks the references in the members of a schema object, in the root or below it.
#[cycle(names)]
pub(crate) fn check_members(
    alloc: Global,
    root: bool,
    members: &BTreeMap<String, Doc>,
    definitions: &Definitions,
) -> Result<(), SchemaFault>
    ensures accepted { OnOk result (undefined_in definitions.now.entries
        (member_visits root [] (object_view members.now.entries)) ≡ None) }
    ensures refused { IfErr result (λ e. Refuses e (undefined_in definitions.now.entries
        (member_visits root [] (object_view members.now.entries)))) }
{
    for (key, value) in members {
        check_keyword(alloc, root, key, value, definitions)?;
    }
    Ok(())
}

/// Checks the references in what stands under a key of a schema object.
#[cycle(names)]
fn check_keyword(
    alloc: Global,
    root: bool,
    key: &str,
    value: &Doc,
    definitions: &Definitions,
) -> Result<(), SchemaFault>
    ensures accepted { OnOk result (undefined_in definitions.now.entries
        (keyword_visits root [] key.now (doc_view value.now)) ≡ None) }
    ensures refused { IfErr result (λ e. Refuses e (undefined_in definitions.now.entries
        (keyword_visits root [] key.now (doc_view value.now)))) }
{
    if key == "$ref" {
        return check_reference(alloc, value, definitions);
    }
    let Some(keyword) = keyword_at(root, key) else {
        return Ok(());
    };
    match check_form(alloc, keyword.form(), value, definitions) {
        Ok(()) => Ok(()),
        Err(fault) => Err(below_key(alloc, key, fault)),
    }
}

/// Checks the name in the value of a `$ref` (JSON Schema Core 2020-12, section 8.2.3.1).
fn check_reference(alloc: Global, value: &Doc, definitions: &Definitions) -> Result<(), SchemaFault>
    ensures accepted { OnOk result
        (reference_fault (is_defined_in definitions.now.entries) [] (doc_view value.now) ≡ None) }
    ensures refused { IfErr result (λ e. Refuses e
        (reference_fault (is_defined_in definitions.now.entries) [] (doc_view value.now))) }
{
    match value {
        Doc::Text(text) => match text.strip_prefix("#/$defs/") {
            Some(name) => if definitions.contains_key(name) {
                Ok(())
            } else {
                Err(undefined_reference(alloc, name))
            },
            None => Ok(()),
        },
        _ => Ok(()),
    }
}

/// Checks the references in the schemas that a value of a form holds.
#[cycle(names)]
fn check_form(
    alloc: Global,
    form: Form,
    value: &Doc,
    definitions: &Definitions,
) -> Result<(), SchemaFault>
    ensures accepted { OnOk result (undefined_in definitions.now.entries
        (inside form (doc_view value.now)) ≡ None) }
    ensures refused { IfErr result (λ e. Refuses e (undefined_in definitions.now.entries
        (inside form (doc_view value.now)))) }
{
    match form {
        Form::Schema => check_value(alloc, value, definitions),
        Form::Schemas => check_some(alloc, value, definitions),
        Form::NamedSchemas => check_named(alloc, value, definitions),
        _ => Ok(()),
    }
}

/// Checks the references in a schema below the root.
#[cycle(names)]
fn check_value(alloc: Global, doc: &Doc, definitions: &Definitions) -> Result<(), SchemaFault>
    ensures accepted { OnOk result (undefined_in definitions.now.entries
        (visits false [] (doc_view doc.now)) ≡ None) }
    ensures refused { IfErr result (λ e. Refuses e (undefined_in definitions.now.entries
        (visits false [] (doc_view doc.now)))) }
{
    match doc {
        Doc::Object(members) => check_members(alloc, false, members, definitions),
        _ => Ok(()),
    }
}

/// Checks the references in the schemas of an array, if the value is one.
#[cycle(names)]
fn check_some(alloc: Global, value: &Doc, definitions: &Definitions) -> Result<(), SchemaFault>
    ensures accepted { OnOk result (undefined_in definitions.now.entries
        (inside forms.Schemas (doc_view value.now)) ≡ None) }
    ensures refused { IfErr result (λ e. Refuses e (undefined_in definitions.now.entries
        (inside forms.Schemas (doc_view value.now)))) }
{
    match value {
        Doc::List(items) => check_list(alloc, items, definitions),
        _ => Ok(()),
    }
}

/// Checks the references in the schemas of an object, if the value is one.
#[cycle(names)]
fn check_named(alloc: Global, value: &Doc, definitions: &Definitions) -> Result<(), SchemaFault>
    ensures accepted { OnOk result (undefined_in definitions.now.entries
        (inside forms.NamedSchemas (doc_view value.now)) ≡ None) }
    ensures refused { IfErr result (λ e. Refuses e (undefined_in definitions.now.entries
        (inside forms.NamedSchemas (doc_view value.now)))) }
{
    match value {
        Doc::Object(members) => check_map(alloc, members, definitions),
        _ => Ok(()),
    }
}

/// Checks the references in the schemas of an array.
#[cycle(names)]
fn check_list(alloc: Global, items: &Vec<Doc>, definitions: &Definitions) -> Result<(), SchemaFault>
    ensures accepted { OnOk result (undefined_in definitions.now.entries
        (element_visits [] 0 (list_view items.now.items)) ≡ None) }
    ensures refused { IfErr result (λ e. Refuses e (undefined_in definitions.now.entries
        (element_visits [] 0 (list_view items.now.items)))) }
{
    for (i, item) in items.iter().enumerate() {
        match check_value(alloc, item, definitions) {
            Ok(()) => {},
            Err(fault) => return Err(below_index(alloc, i, fault)),
        }
    }
    Ok(())
}

/// Checks the references in the schemas under the keys of an object.
#[cycle(names)]
fn check_map(
    alloc: Global,
    members: &BTreeMap<String, Doc>,
    definitions: &Definitions,
) -> Result<(), SchemaFault>
    ensures accepted { OnOk result (undefined_in definitions.now.entries
        (named_visits [] (object_view members.now.entries)) ≡ None) }
    ensures refused { IfErr result (λ e. Refuses e (undefined_in definitions.now.entries
        (named_visits [] (object_view members.now.entries)))) }
{
    for (key, value) in members {
        match check_value(alloc, value, definitions) {
            Ok(()) => {},
            Err(fault) => return Err(below_key(alloc, key, fault)),
        }
    }
    Ok(())
}
