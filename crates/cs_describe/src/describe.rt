// Notes, schema by schema, from the root down.
ghost use Rattle.std.specs.Prelude.{◌≡◌, ◌≤◌, ◌+◌, suc, IfOk, OnOk, option_map, option_and_then, codes, string_bytes, if◌then◌else◌};
ghost use Rattle.std.specs.Str.{bytes_eq};
ghost use Rattle.cs_document.specs.Document.{depth, text};
ghost use Rattle.cs_document.specs.View.{doc_view, list_view, object_view};
ghost use Rattle.cs_profile.specs.Profile.{IsSchema};
ghost use Rattle.cs_profile.specs.declared.keyword.Vocabulary.{Vocabulary};
ghost use Rattle.cs_describe.specs.declared.note.Note.TheVariants as which;
ghost use Rattle.cs_describe.specs.Described.{described as described_schema, described_members, described_value, described_list, described_elements, described_map, described_named, described_root, described_document, note_of, unless_deep, most_nested, with_note, truth_with_note};
ghost use Rattle.cs_describe.specs.Plain.{plain, without_defaults};
ghost use Rattle.cs_describe.specs.Meaning.{SameValidity, SameDefinitions};

use crate::Notes;
use crate::depths::is_within;
use crate::note::Note;
use cs_document::Doc;
use cs_profile::Keyword;
use std::alloc::{AllocError, Global};
use std::collections::BTreeMap;

/// The members of an object.
type Members = BTreeMap<String, Doc>;

/// How many lists may nest in a default: with it a schema is as deep as `serde_json` reads at most.
const MOST_NESTED: usize = 8;

/// The document of a schema with a `description` for each schema of which the notes have a text, by the names of the
/// definitions in `$defs` (JSON Schema Validation 2020-12, section 9.1). It stands beside a `$ref` too, the schema `true`
/// becomes an object with it, and `false` stays. Notes that don't fit the document change nothing. Only memory can run
/// out.
pub fn described(
    alloc: Global,
    doc: Doc,
    notes: &BTreeMap<String, Notes>,
) -> Result<Doc, AllocError>
    ensures found { IfOk result
        (λ d. doc_view d ≡ described_document which.Description notes.now.entries (doc_view doc)) }
    ensures same { IfOk result (λ d. plain (doc_view d) ≡ plain (doc_view doc)) }
    ensures profile { IfOk result
        (λ d. (taken : Vocabulary) → IsSchema taken (doc_view doc) → IsSchema taken (doc_view d)) }
    ensures meaning { IfOk result
        (λ d. (taken : Vocabulary) → IsSchema taken (doc_view doc) → SameValidity (doc_view doc) (doc_view d)) }
    ensures definitions { IfOk result
        (λ d. (taken : Vocabulary) → IsSchema taken (doc_view doc) → SameDefinitions (doc_view doc) (doc_view d)) }
    ensures nested { IfOk result (λ d. depth (doc_view d) ≤ suc (depth (doc_view doc))) }
{
    described_by(alloc, Note::Description, doc, notes)
}

/// The document of a schema with a `default` for each schema of which the notes have one, in the same way (JSON Schema Validation
/// 2020-12, section 9.2). One in which more than 8 lists nest is left out.
pub fn with_defaults(
    alloc: Global,
    doc: Doc,
    notes: &BTreeMap<String, Notes>,
) -> Result<Doc, AllocError>
    ensures found { IfOk result
        (λ d. doc_view d ≡ described_document which.Default notes.now.entries (doc_view doc)) }
    ensures others { IfOk result (λ d. without_defaults (doc_view d) ≡ without_defaults (doc_view doc)) }
    ensures same { IfOk result (λ d. plain (doc_view d) ≡ plain (doc_view doc)) }
    ensures profile { IfOk result
        (λ d. (taken : Vocabulary) → IsSchema taken (doc_view doc) → IsSchema taken (without_defaults (doc_view d))) }
    ensures meaning { IfOk result
        (λ d. (taken : Vocabulary) → IsSchema taken (doc_view doc) → SameValidity (doc_view doc) (doc_view d)) }
    ensures definitions { IfOk result
        (λ d. (taken : Vocabulary) → IsSchema taken (doc_view doc) → SameDefinitions (doc_view doc) (doc_view d)) }
    ensures nested { IfOk result
        (λ d. depth (doc_view d) ≤ suc most_nested + depth (doc_view doc)) }
{
    described_by(alloc, Note::Default, doc, notes)
}

/// The document of a schema with one of the two notes.
fn described_by(
    alloc: Global,
    note: Note,
    doc: Doc,
    notes: &BTreeMap<String, Notes>,
) -> Result<Doc, AllocError>
    ensures { IfOk result
        (λ d. doc_view d ≡ described_document note notes.now.entries (doc_view doc)) }
{
    let Doc::Object(members) = doc else {
        return Ok(doc);
    };
    Ok(Doc::Object(describe_root(alloc, note, members, notes)?))
}

/// The members of the root, with notes for the definitions.
fn describe_root(
    alloc: Global,
    note: Note,
    members: Members,
    notes: &BTreeMap<String, Notes>,
) -> Result<Members, AllocError>
    ensures { IfOk result
        (λ m. object_view m.entries ≡ described_root note notes.now.entries (object_view members.entries)) }
{
    let mut found = BTreeMap::new(alloc);
    for (key, value) in members {
        let value = describe_part(alloc, note, key.as_str(), value, notes)?;
        drop(found.insert(key, value)?);
    }
    Ok(found)
}

/// What is under a key of the root: only in `$defs` there are schemas with notes.
fn describe_part(
    alloc: Global,
    note: Note,
    key: &str,
    value: Doc,
    notes: &BTreeMap<String, Notes>,
) -> Result<Doc, AllocError>
    ensures { IfOk result (λ d. doc_view d
        ≡ if bytes_eq key.now (codes "$defs") then described_map note notes.now.entries (doc_view value) else doc_view value) }
{
    if key == "$defs" {
        describe_map(alloc, note, value, notes)
    } else {
        Ok(value)
    }
}

/// A schema below the root, with its notes.
#[cycle(describe)]
fn describe_schema(
    alloc: Global,
    note: Note,
    doc: Doc,
    notes: Option<&Notes>,
) -> Result<Doc, AllocError>
    ensures { IfOk result
        (λ d. doc_view d ≡ described_schema note (option_map (λ n. n.now) notes.entry) (doc_view doc)) }
{
    let Some(notes) = notes else {
        return Ok(doc);
    };
    match doc {
        Doc::Object(members) => {
            let mut members = describe_members(alloc, note, members, notes)?;
            set_note(alloc, note, &mut members, noted(alloc, note, notes)?)?;
            Ok(Doc::Object(members))
        },
        Doc::Bool(true) => truth_described(alloc, note, noted(alloc, note, notes)?),
        Doc::Bool(false) => Ok(Doc::Bool(false)),
        Doc::Null => Ok(Doc::Null),
        Doc::Int(n) => Ok(Doc::Int(n)),
        Doc::Text(text) => Ok(Doc::Text(text)),
        Doc::List(items) => Ok(Doc::List(items)),
    }
}

/// The keywords of a schema object, with notes in the schemas that they hold.
#[cycle(describe)]
fn describe_members(
    alloc: Global,
    note: Note,
    members: Members,
    notes: &Notes,
) -> Result<Members, AllocError>
    ensures { IfOk result
        (λ m. object_view m.entries ≡ described_members note notes.now (object_view members.entries)) }
{
    let mut found = BTreeMap::new(alloc);
    for (key, value) in members {
        let value = describe_value(alloc, note, Keyword::named(key.as_str()), value, notes)?;
        drop(found.insert(key, value)?);
    }
    Ok(found)
}

/// The value of a keyword, with notes in the schemas that it holds.
#[cycle(describe)]
fn describe_value(
    alloc: Global,
    note: Note,
    keyword: Option<Keyword>,
    value: Doc,
    notes: &Notes,
) -> Result<Doc, AllocError>
    ensures { IfOk result (λ d. doc_view d ≡ described_value note keyword notes.now (doc_view value)) }
{
    let Some(keyword) = keyword else {
        return Ok(value);
    };
    match keyword {
        Keyword::Properties => describe_map(alloc, note, value, &notes.properties),
        Keyword::AllOf => describe_list(alloc, note, value, &notes.all_of),
        Keyword::AnyOf => describe_list(alloc, note, value, &notes.any_of),
        Keyword::PrefixItems => describe_list(alloc, note, value, &notes.prefix),
        Keyword::Items => describe_schema(alloc, note, value, notes.rest.as_deref()),
        Keyword::AdditionalProperties => {
            describe_schema(alloc, note, value, notes.additional.as_deref())
        },
        // these hold no schemas of which there are notes
        Keyword::Comment
        | Keyword::Defs
        | Keyword::Ref
        | Keyword::Schema
        | Keyword::Const
        | Keyword::Description
        | Keyword::Enum
        | Keyword::ExclusiveMaximum
        | Keyword::ExclusiveMinimum
        | Keyword::MaxItems
        | Keyword::MaxLength
        | Keyword::MaxProperties
        | Keyword::Maximum
        | Keyword::MinItems
        | Keyword::MinLength
        | Keyword::MinProperties
        | Keyword::Minimum
        | Keyword::Not
        | Keyword::Required
        | Keyword::Title
        | Keyword::Type => Ok(value),
    }
}

/// The schemas of a list, with notes by their places.
#[cycle(describe)]
fn describe_list(
    alloc: Global,
    note: Note,
    value: Doc,
    notes: &Vec<Notes>,
) -> Result<Doc, AllocError>
    ensures { IfOk result
        (λ d. doc_view d ≡ described_list note notes.now.items (doc_view value)) }
{
    let Doc::List(items) = value else {
        return Ok(value);
    };
    Ok(Doc::List(describe_items(alloc, note, items, notes)?))
}

/// The schemas, each with the notes at its place.
#[cycle(describe)]
fn describe_items(
    alloc: Global,
    note: Note,
    items: Vec<Doc>,
    notes: &Vec<Notes>,
) -> Result<Vec<Doc>, AllocError>
    ensures { IfOk result
        (λ v. list_view v.items ≡ described_elements note notes.now.items (list_view items.items)) }
{
    let mut found = Vec::with_capacity(alloc, items.len())?;
    let mut each = notes.iter();
    for item in items {
        let item = describe_schema(alloc, note, item, each.next())?;
        found.push(item)?;
    }
    Ok(found)
}

/// The schemas of a map, with notes by their labels.
#[cycle(describe)]
fn describe_map(
    alloc: Global,
    note: Note,
    value: Doc,
    notes: &BTreeMap<String, Notes>,
) -> Result<Doc, AllocError>
    ensures { IfOk result
        (λ d. doc_view d ≡ described_map note notes.now.entries (doc_view value)) }
{
    let Doc::Object(members) = value else {
        return Ok(value);
    };
    Ok(Doc::Object(describe_named(alloc, note, members, notes)?))
}

/// The schemas by their labels, each with the notes under its label.
#[cycle(describe)]
fn describe_named(
    alloc: Global,
    note: Note,
    members: Members,
    notes: &BTreeMap<String, Notes>,
) -> Result<Members, AllocError>
    ensures { IfOk result
        (λ m. object_view m.entries ≡ described_named note notes.now.entries (object_view members.entries)) }
{
    let mut found = BTreeMap::new(alloc);
    for (key, schema) in members {
        let schema = describe_schema(alloc, note, schema, notes.get(key.as_str()))?;
        drop(found.insert(key, schema)?);
    }
    Ok(found)
}

/// The value of a note of a schema, if it has one.
fn noted(alloc: Global, note: Note, notes: &Notes) -> Result<Option<Doc>, AllocError>
    ensures { IfOk result (λ v. option_map doc_view v ≡ note_of note notes.now) }
{
    match note {
        Note::Description => description_of(&notes.text),
        Note::Default => default_of(alloc, &notes.default),
    }
}

/// The value of a description.
fn description_of(description: &Option<String>) -> Result<Option<Doc>, AllocError>
    ensures { IfOk result
        (λ v. option_map doc_view v ≡ option_map (λ t. text (string_bytes t)) description.now) }
{
    match description {
        Some(words) => Ok(Some(Doc::Text(words.clone()?))),
        None => Ok(None),
    }
}

/// The value of a default, if it doesn't nest too deep.
fn default_of(alloc: Global, default: &Option<Doc>) -> Result<Option<Doc>, AllocError>
    ensures { IfOk result
        (λ v. option_map doc_view v ≡ option_and_then (λ w. unless_deep (doc_view w)) default.now) }
{
    match default {
        Some(value) if is_within(value, MOST_NESTED) => match value.copy(alloc) {
            Ok(copy) => Ok(Some(copy)),
            Err(_) => Err(AllocError),
        },
        Some(_) | None => Ok(None),
    }
}

/// Puts a note to the members of a schema object.
fn set_note(
    alloc: Global,
    note: Note,
    members: &mut Members,
    value: Option<Doc>,
) -> Result<(), AllocError>
    ensures { OnOk result (object_view members.new.entries
        ≡ with_note note (option_map doc_view value) (object_view members.old.entries)) }
{
    let Some(value) = value else {
        return Ok(());
    };
    let name = String::from_str(alloc, note.name())?;
    drop(members.insert(name, value)?);
    Ok(())
}

/// The schema `true` with a note.
fn truth_described(alloc: Global, note: Note, value: Option<Doc>) -> Result<Doc, AllocError>
    ensures { IfOk result (λ d. doc_view d ≡ truth_with_note note (option_map doc_view value)) }
{
    if value.is_none() {
        return Ok(Doc::Bool(true));
    }
    let mut members = BTreeMap::new(alloc);
    set_note(alloc, note, &mut members, value)?;
    Ok(Doc::Object(members))
}
