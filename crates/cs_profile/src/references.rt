// The graph of definitions: for each, the numbers of those that its schema refers to directly.

ghost use Rattle.std.specs.Prelude.{◌≡◌, ◌<◌, ◌++◌, [], List, All, OnOk, IfOk, map, length, string_bytes, string_cmp};
ghost use Rattle.std.specs.BTreeMap.{IsOrdered, keys};
ghost use Rattle.cs_document.specs.Document.{object};
ghost use Rattle.cs_graph.specs.Graph.{graph_of};
ghost use Rattle.cs_profile.specs.Loops.{direct_names};
ghost use Rattle.cs_profile.specs.SchemaDocument.{slots_of, present};
ghost use Rattle.cs_profile.specs.Numbered.{by_text, names_in, numbered, numbers_of, direct_numbers, reference_names, names_of_each, rows_of, name_of_number};

use crate::{Keywords, Schema};
use std::alloc::{AllocError, Global};
use std::collections::BTreeMap;

/// The definitions, by name.
type Definitions = BTreeMap<String, Schema>;

/// The number of each definition, by its name.
pub(crate) type Numbers = BTreeMap<String, usize>;

/// Pushes the number of the definition that a `$ref` names, if there is one.
fn push_named(
    reference: &Option<String>,
    numbers: &Numbers,
    found: &mut Vec<usize>,
) -> Result<(), AllocError>
    ensures { OnOk result (found.new.items
        ≡ found.old.items ++ numbers_of (by_text numbers.now.entries) (reference_names reference.now)) }
{
    let Some(name) = reference else {
        return Ok(());
    };
    if let Some(number) = numbers.get(name.as_str()) {
        found.push(*number)?;
    }
    Ok(())
}

/// Pushes the numbers of the definitions that a schema refers to directly: through `$ref`, `allOf`, `anyOf` and `not`.
/// One that it refers to again is pushed again.
#[cycle(references)]
fn push_direct(schema: &Schema, numbers: &Numbers, found: &mut Vec<usize>) -> Result<(), AllocError>
    ensures { OnOk result (found.new.items
        ≡ found.old.items ++ direct_numbers (by_text numbers.now.entries) schema.now) }
{
    match schema {
        Schema::Always(_) => Ok(()),
        Schema::Object(keywords) => push_keywords(keywords, numbers, found),
    }
}

#[cycle(references)]
fn push_keywords(
    keywords: &Keywords,
    numbers: &Numbers,
    found: &mut Vec<usize>,
) -> Result<(), AllocError>
    ensures { OnOk result (found.new.items
        ≡ found.old.items ++ numbers_of (by_text numbers.now.entries)
        (direct_names (object (present (slots_of keywords.now))))) }
{
    push_named(&keywords.reference, numbers, found)?;
    push_each(&keywords.all_of, numbers, found)?;
    push_each(&keywords.any_of, numbers, found)?;
    if let Some(negated) = &keywords.negated {
        push_direct(negated, numbers, found)?;
    }
    Ok(())
}

#[cycle(references)]
fn push_each(
    schemas: &[Schema],
    numbers: &Numbers,
    found: &mut Vec<usize>,
) -> Result<(), AllocError>
    ensures { OnOk result (found.new.items
        ≡ found.old.items ++ numbers_of (by_text numbers.now.entries) (names_of_each schemas.now)) }
{
    for schema in schemas {
        push_direct(schema, numbers, found)?;
    }
    Ok(())
}

/// The numbers that a definition refers to directly.
fn references_of(
    alloc: Global,
    schema: &Schema,
    numbers: &Numbers,
) -> Result<Vec<usize>, AllocError>
    ensures { IfOk result (λ v. v.items ≡ direct_numbers (by_text numbers.now.entries) schema.now) }
{
    let mut found = Vec::new(alloc);
    push_direct(schema, numbers, &mut found)?;
    Ok(found)
}

/// The number of each definition, which is its place in byte order.
pub(crate) fn numbers_of_definitions(
    alloc: Global,
    definitions: &Definitions,
) -> Result<Numbers, AllocError>
    ensures all { IfOk result (λ m. by_text m.entries
        ≡ numbered 0 (names_in definitions.now.entries)) }
    ensures ordered { IsOrdered string_cmp definitions.now }
{
    let mut numbers = BTreeMap::new(alloc);
    for name in definitions.keys() {
        let number = numbers.len();
        drop(numbers.insert(name.clone()?, number)?);
    }
    Ok(numbers)
}

/// For each definition, the numbers of those that it refers to directly.
pub(crate) fn graph_of_definitions(
    alloc: Global,
    definitions: &Definitions,
    numbers: &Numbers,
) -> Result<Vec<Vec<usize>>, AllocError>
    ensures { IfOk result (λ v. graph_of v.items
        ≡ rows_of (by_text numbers.now.entries) definitions.now.entries) }
{
    let mut graph = Vec::with_capacity(alloc, definitions.len())?;
    for schema in definitions.values() {
        graph.push(references_of(alloc, schema, numbers)?)?;
    }
    Ok(graph)
}

/// The names of the definitions, in byte order.
fn names_in_order<'a>(
    alloc: Global,
    definitions: &'a Definitions,
) -> Result<Vec<&'a String>, AllocError>
    ensures { IfOk result (λ v. map (λ n. n.now) v.items ≡ keys definitions.now) }
{
    let mut ordered = Vec::with_capacity(alloc, definitions.len())?;
    for name in definitions.keys() {
        ordered.push(name)?;
    }
    Ok(ordered)
}

/// The names of definitions by their numbers.
pub(crate) fn names_of_numbers(
    alloc: Global,
    definitions: &Definitions,
    numbers: &[usize],
) -> Result<Vec<String>, AllocError>
    requires { All (λ i. i < length definitions.now.entries) numbers.now }
    ensures { IfOk result (λ v. map string_bytes v.items
        ≡ map (name_of_number definitions.now.entries) numbers.now) }
{
    let all = names_in_order(alloc, definitions)?;
    let mut names = Vec::with_capacity(alloc, numbers.len())?;
    for number in numbers {
        names.push(all[*number].clone()?)?;
    }
    Ok(names)
}
