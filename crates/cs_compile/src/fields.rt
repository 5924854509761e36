// The schemas of structs.
ghost use Rattle.std.specs.Prelude.{◌≡◌, ℕ, List, [], ◌∷◌, ◌++◌, true, false, IfOk, OnOk, codes, map, string_bytes};
ghost use Rattle.std.specs.Borrow.{Bor};
ghost use Rattle.cs_document.specs.Document.{Document};
ghost use Rattle.cs_document.specs.View.{members_of};
ghost use Rattle.cs_package.specs.Expression.{DeclarationMark, Declaration, is_every};
ghost use Rattle.cs_package.specs.View.{mark_of};
ghost use Rattle.cs_profile.specs.SchemaDocument.{schema_view, schemas_view, slots_of, definitions_view, present, text_document, unless_no_list, unless_no_map, value_at};
ghost use Rattle.cs_profile.specs.Trim.{with_member};
ghost use Rattle.cs_profile.specs.declared.keyword.Form.TheVariants as form;
ghost use Rattle.cs_compile.specs.Grouped.{declared, declared_part, declarations_at, for_every_key, is_asked, has_label, AreValues, IsGrouped, joined};
ghost use Rattle.cs_compile.specs.Made.{Makes, closing_beside};
ghost use Rattle.cs_compile.specs.Translation.{labelled, must_be_there, of_type, required_of, struct_schema};

use crate::keywords::{object, typed, untyped};
use crate::operands::one_or_all;
use cs_package::{FieldMark, Part};
use cs_profile::{JsonKind, Keyword, KeywordValue, Keywords, Schema};
use std::alloc::{AllocError, Global};
use std::collections::{BTreeMap, BTreeSet};

/// The schemas of declared values, label by label.
type Groups = BTreeMap<String, Vec<Schema>>;

/// The schemas of a struct's declared values.
#[derive(Drop)]
pub(crate) struct Values {
    /// Those of each label.
    labelled: Groups,
    /// For each `[string]: T` the schema of maps with a T under every key.
    every: Vec<Schema>,
}

impl Values {
    ghost use Rattle.std.specs.Prelude.{[]};
    ghost use Rattle.cs_compile.specs.Grouped.{AreValues};

    /// No value.
    pub(crate) fn new(alloc: Global) -> Values
        ensures { AreValues [] result }
    {
        Values {
            labelled: BTreeMap::new(alloc),
            every: Vec::new(alloc),
        }
    }
}

/// Puts the schema of a declared value behind those of its label, or of every key.
pub(crate) fn add_value(
    alloc: Global,
    values: &mut Values,
    part: &Part,
    value: Schema,
) -> Result<(), AllocError>
    ensures { OnOk result ((ds : List (Declaration Document)) → AreValues ds values.old
        → AreValues (ds ++ declared_part part.now value ∷ []) values.new) }
{
    match part.mark {
        FieldMark::Every { .. } => {
            let schema = under_every_key(alloc, value)?;
            Ok(values.every.push(schema)?)
        },
        FieldMark::Regular | FieldMark::Optional | FieldMark::Required => {
            add_labelled(alloc, &mut values.labelled, part.label.as_str(), value)
        },
    }
}

/// Puts the schema of a declared value behind those of its label.
fn add_labelled(
    alloc: Global,
    groups: &mut Groups,
    label: &str,
    value: Schema,
) -> Result<(), AllocError>
    ensures { OnOk result ((ds : List (Declaration Document)) → (m : DeclarationMark)
        → IsGrouped ds groups.old
        → IsGrouped (ds ++ declared label.now m (schema_view value) ∷ []) groups.new) }
{
    let label = String::from_str(alloc, label)?;
    groups.entry(label)?.or_insert(Vec::new(alloc)).push(value)?;
    Ok(())
}

/// The schema of maps with a value of a schema under every key. It is in an object of its own, since
/// `additionalProperties` leaves out the keys of the `properties` beside it.
fn under_every_key(alloc: Global, value: Schema) -> Result<Schema, AllocError>
    ensures { Makes result (for_every_key (schema_view value)) }
{
    let value = KeywordValue::Schema(value);
    object(
        alloc,
        untyped(alloc).set(alloc, Keyword::AdditionalProperties, value),
    )
}

/// The value of `properties`: one schema for each label.
fn properties(alloc: Global, groups: Groups) -> Result<BTreeMap<String, Schema>, AllocError>
    ensures { IfOk result (λ m. members_of (definitions_view m.entries) ≡ joined groups) }
{
    let mut properties = BTreeMap::new(alloc);
    for (label, values) in groups {
        let schema = one_or_all(alloc, values)?;
        drop(properties.insert(label, schema)?);
    }
    Ok(properties)
}

/// The value of `required`: the labels that some declaration asks for, in the order in which labels are first declared.
fn required(alloc: Global, parts: &[Part]) -> Result<Vec<String>, AllocError>
    ensures { (ns : List (List ℕ)) → IfOk result (λ v. map string_bytes v.items
        ≡ required_of (labelled (declarations_at ns parts.now))) }
{
    let mut asked = asked_labels(alloc, parts)?;
    let mut labels = Vec::new(alloc);
    for part in parts {
        if is_every(part.mark) {
            continue;
        }
        if asked.remove(part.label.as_str()) {
            labels.push(part.label.clone()?)?;
        }
    }
    Ok(labels)
}

/// The labels that some declaration asks for.
fn asked_labels(alloc: Global, parts: &[Part]) -> Result<BTreeSet<&str>, AllocError>
    ensures { (ns : List (List ℕ)) → IfOk result (λ s. (l : Bor (List ℕ))
        → has_label s l ≡ is_asked (declarations_at ns parts.now) l.now) }
{
    let mut asked = BTreeSet::new(alloc);
    for part in parts {
        if must_be_there(part.mark) {
            asked.insert(part.label.as_str())?;
        }
    }
    Ok(asked)
}

/// Whether a declaration asks for its label.
fn must_be_there(mark: FieldMark) -> bool
    ensures { result ≡ must_be_there (mark_of mark) }
{
    match mark {
        FieldMark::Regular | FieldMark::Required => true,
        FieldMark::Optional | FieldMark::Every { .. } => false,
    }
}

/// Whether a declaration is of every key, and not of a label.
fn is_every(mark: FieldMark) -> bool
    ensures { result ≡ is_every (mark_of mark) }
{
    match mark {
        FieldMark::Every { .. } => true,
        FieldMark::Regular | FieldMark::Optional | FieldMark::Required => false,
    }
}

/// The schema of a struct, by the schemas of its declared values.
pub(crate) fn struct_schema(
    alloc: Global,
    values: Values,
    parts: &[Part],
    opened: bool,
) -> Result<Schema, AllocError>
    ensures { (ns : List (List ℕ)) → AreValues (declarations_at ns parts.now) values
        → Makes result (struct_schema (declarations_at ns parts.now) opened) }
{
    let labels = required(alloc, parts)?;
    let properties = properties(alloc, values.labelled)?;
    let keywords = struct_keywords(alloc, properties, values.every, labels, opened);
    object(alloc, keywords)
}

/// The keywords of a struct's schema, by the values of `properties`, `allOf` and `required`.
fn struct_keywords(
    alloc: Global,
    properties: BTreeMap<String, Schema>,
    every: Vec<Schema>,
    required: Vec<String>,
    opened: bool,
) -> Keywords
    ensures { present (slots_of result) ≡
        with_member (closing_beside opened (schemas_view every.items)) (codes "additionalProperties") (
        with_member (unless_no_list (schemas_view every.items)) (codes "allOf") (
        with_member (unless_no_map (definitions_view properties.entries)) (codes "properties") (
        with_member (unless_no_list (map text_document required.items)) (codes "required")
        (of_type (codes "object"))))) }
{
    let others = closing(&every, opened);
    typed(alloc, JsonKind::Object)
        .set(alloc, Keyword::Required, KeywordValue::Texts(required))
        .set(
            alloc,
            Keyword::Properties,
            KeywordValue::NamedSchemas(properties),
        )
        .set(alloc, Keyword::AllOf, KeywordValue::Schemas(every))
        .set(alloc, Keyword::AdditionalProperties, others)
}

/// The value of `additionalProperties`: `false`, or nothing where every key is allowed, in an opened struct and in one
/// with a `[string]`.
fn closing(every: &Vec<Schema>, opened: bool) -> KeywordValue
    ensures { value_at form.Schema result ≡ closing_beside opened (schemas_view every.now.items) }
{
    if opened || !every.is_empty() {
        KeywordValue::Nothing
    } else {
        KeywordValue::Schema(Schema::Always(false))
    }
}
