// Numbers for a schema and for what it asks of the same document. What it asks of documents inside waits, since that may
// lead back to a definition that has no number yet.
ghost use Rattle.std.specs.Prelude.{◌≡◌, map, option_map, option_to_list, option_and_then, string_bytes, IfOk};
ghost use Rattle.cs_document.specs.View.{doc_view};
ghost use Rattle.cs_profile.specs.SchemaDocument.{schema_view, schemas_view};
ghost use Rattle.cs_validate.specs.Placing.{State, object_of, optional_view, number_in, Places, PlacesAll};

mod definitions;
mod inner;
mod numbers;
pub(crate) mod rooted;
mod waiting;

use crate::numbering::numbers::Numbers;
use crate::numbering::waiting::wait_inside;
use crate::rules::{Conjunction, Rule};
use cs_document::Doc;
use cs_flat::{DocSet, Names};
use cs_profile::{Keywords, Schema};
use cs_rules::Numberer;
use std::alloc::{AllocError, Global};

/// The numbers of the schemas that the keywords of an object ask of the same document.
#[derive(Drop)]
struct Operands {
    all_of: Vec<usize>,
    any_of: Vec<usize>,
    negated: Option<usize>,
}

/// Numbers a schema after what it asks of the same document.
#[cycle(numbering)]
pub(crate) fn place<'a>(
    alloc: Global,
    schema: &'a Schema,
    numbers: &Numbers<'_>,
    numberer: &mut Numberer<'a, Schema, Rule<'a>>,
) -> Result<usize, AllocError>
    ensures { IfOk result (Places numbers.now numberer.old numberer.new (schema_view schema.now)) }
{
    match schema {
        Schema::Always(b) => numberer.put(Rule::Truth(*b)),
        Schema::Object(keywords) => place_object(alloc, keywords, numbers, numberer),
    }
}

#[cycle(numbering)]
fn place_object<'a>(
    alloc: Global,
    keywords: &'a Keywords,
    numbers: &Numbers<'_>,
    numberer: &mut Numberer<'a, Schema, Rule<'a>>,
) -> Result<usize, AllocError>
    ensures { IfOk result (Places numbers.now numberer.old numberer.new (object_of keywords.now)) }
{
    let all_of = place_all(alloc, &keywords.all_of, numbers, numberer)?;
    let any_of = place_all(alloc, &keywords.any_of, numbers, numberer)?;
    let negated = place_option(alloc, &keywords.negated, numbers, numberer)?;
    let operands = Operands {
        all_of,
        any_of,
        negated,
    };
    put_object(alloc, keywords, operands, numbers, numberer)
}

#[cycle(numbering)]
fn place_all<'a>(
    alloc: Global,
    schemas: &'a [Schema],
    numbers: &Numbers<'_>,
    numberer: &mut Numberer<'a, Schema, Rule<'a>>,
) -> Result<Vec<usize>, AllocError>
    ensures { IfOk result (λ v.
        PlacesAll numbers.now numberer.old numberer.new (schemas_view schemas.now) v.items) }
{
    let mut parts = Vec::with_capacity(alloc, schemas.len())?;
    for schema in schemas {
        let part = place(alloc, schema, numbers, numberer)?;
        parts.push(part)?;
    }
    Ok(parts)
}

/// Numbers a schema, where there is one.
#[cycle(numbering)]
fn place_option<'a>(
    alloc: Global,
    schema: &'a Option<Schema>,
    numbers: &Numbers<'_>,
    numberer: &mut Numberer<'a, Schema, Rule<'a>>,
) -> Result<Option<usize>, AllocError>
    ensures { IfOk result (λ o.
        PlacesAll numbers.now numberer.old numberer.new (optional_view schema.now)
        (option_to_list o)) }
{
    match schema {
        Some(schema) => Ok(Some(place(alloc, schema, numbers, numberer)?)),
        None => Ok(None),
    }
}

/// Numbers the keywords of an object, once what they ask of the same document is numbered.
fn put_object<'a>(
    alloc: Global,
    keywords: &'a Keywords,
    operands: Operands,
    numbers: &Numbers<'_>,
    numberer: &mut Numberer<'a, Schema, Rule<'a>>,
) -> Result<usize, AllocError>
    ensures { (n0 n1 n2 : State)
        → PlacesAll numbers.now n0 n1 (schemas_view keywords.now.all_of.items) operands.all_of.items
        → PlacesAll numbers.now n1 n2 (schemas_view keywords.now.any_of.items) operands.any_of.items
        → PlacesAll numbers.now n2 numberer.old (optional_view keywords.now.negated)
        (option_to_list operands.negated)
        → IfOk result (Places numbers.now n0 numberer.new (object_of keywords.now)) }
{
    let _count = keywords.properties.len(); // for the proof: the names are in order
    let first = wait_inside(keywords, &mut numberer.pending)?;
    let (required, one_of) = look_ups(alloc, keywords)?;
    numberer.put(Rule::Object(Conjunction {
        keywords,
        required,
        one_of,
        reference: number_of(&keywords.reference, numbers),
        all_of: operands.all_of,
        any_of: operands.any_of,
        negated: operands.negated,
        first,
    }))
}

/// The names of `required` and the values of `enum`, for look-ups.
fn look_ups<'a>(
    alloc: Global,
    keywords: &'a Keywords,
) -> Result<(Names<'a>, Option<DocSet<'a>>), AllocError>
    ensures names { IfOk result
        (λ t. t.0 ≡ map string_bytes keywords.now.required.items) }
    ensures values { IfOk result
        (λ t. t.1 ≡ option_map (λ v. map doc_view v.items) keywords.now.one_of) }
{
    let required = Names::new(alloc, &keywords.required)?;
    let one_of = set_of(alloc, &keywords.one_of)?;
    Ok((required, one_of))
}

/// The number of the definition that `$ref` names, if it has one.
fn number_of(reference: &Option<String>, numbers: &Numbers<'_>) -> Option<usize>
    ensures { result ≡ option_and_then (λ s. number_in numbers.now (string_bytes s)) reference.now }
{
    let name = reference.as_ref()?;
    numbers.get(name.as_str())
}

/// The values of `enum`, for look-ups.
fn set_of<'a>(alloc: Global, values: &'a Option<Vec<Doc>>) -> Result<Option<DocSet<'a>>, AllocError>
    ensures { IfOk result (λ o. o ≡ option_map (λ v. map doc_view v.items) values.now) }
{
    match values {
        Some(values) => match DocSet::new(alloc, values) {
            Ok(set) => Ok(Some(set)),
            // only memory can run out
            Err(_) => Err(AllocError),
        },
        None => Ok(None),
    }
}
