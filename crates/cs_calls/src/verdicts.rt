// Rows of tables of verdicts, by definitions of packages, by schemas, and by a judge that counts.
use crate::call::Call;
use crate::judges::{Thirds, asked, by_refusals, by_thirds, last_verdict};
use crate::rows::{cell, number_of};
use cs_guard::Guarded;
use cs_instance::{instance_judge, instance_table};
use cs_json::{Doc, Flat, flatten, read_doc};
use cs_schema::SchemaDoc;
use cs_table::fill;
use cs_tool::{Fault, Profile, Vocabulary, accepted_package, read_schema_text, validate_by};
use cs_validate::{is_valid, valid_judge, valid_table};
use std::alloc::Global;

/// How a document is judged by a definition of a package.
pub fn instance(alloc: Global, call: Call, cells: &str) -> Result<Vec<u8>, Fault> {
    let (source, rest) = cell(cells);
    let (root, text) = cell(rest);
    let package = accepted_package(alloc, Profile::Default, &[source.as_bytes()])?;
    let doc = read_doc(alloc, text.as_bytes())?;
    instance_of(alloc, call, &package, root, &doc)
}

fn instance_of(
    alloc: Global,
    call: Call,
    package: &Guarded,
    root: &str,
    doc: &Doc,
) -> Result<Vec<u8>, Fault> {
    let flat = flatten(alloc, doc)?;
    match call {
        Call::InstanceByRefusals => instance_by_refusals(alloc, package, root, &flat),
        _ => instance_by_table(alloc, package, root, &flat),
    }
}

fn instance_by_refusals(
    alloc: Global,
    package: &Guarded,
    root: &str,
    flat: &Flat<'_>,
) -> Result<Vec<u8>, Fault> {
    let (judge, rule) = instance_judge(alloc, package, root, flat)?;
    let verdict = by_refusals(alloc, &judge, rule)?;
    Ok(format!(in alloc; "{verdict}")?.into_bytes())
}

fn instance_by_table(
    alloc: Global,
    package: &Guarded,
    root: &str,
    flat: &Flat<'_>,
) -> Result<Vec<u8>, Fault> {
    let (table, rule) = instance_table(alloc, package, root, flat)?;
    let (judged, verdict) = (table.judged(), last_verdict(&table, rule));
    Ok(format!(in alloc; "{judged} {verdict}")?.into_bytes())
}

/// How a document is judged by a schema.
pub fn validity(alloc: Global, call: Call, cells: &str) -> Result<Vec<u8>, Fault> {
    let (schema, text) = cell(cells);
    let vocabulary = match call {
        Call::WideValidity => Vocabulary::Wide,
        _ => Vocabulary::Default,
    };
    let schema = read_schema_text(alloc, vocabulary, schema.as_bytes())?;
    let doc = read_doc(alloc, text.as_bytes())?;
    validity_of(alloc, call, &schema, &doc)
}

/// Whether a document is valid against a schema with the wide vocabulary.
pub fn validated(alloc: Global, cells: &str) -> Result<Vec<u8>, Fault> {
    let (schema, text) = cell(cells);
    let verdict = validate_by(alloc, Vocabulary::Wide, schema.as_bytes(), text.as_bytes())?;
    Ok(format!(in alloc; "{verdict}")?.into_bytes())
}

fn validity_of(alloc: Global, call: Call, schema: &SchemaDoc, doc: &Doc) -> Result<Vec<u8>, Fault> {
    let flat = flatten(alloc, doc)?;
    match call {
        Call::ValidityByRefusals => validity_by_refusals(alloc, schema, &flat),
        _ => validity_by_all(alloc, schema, doc, &flat),
    }
}

fn validity_by_refusals(
    alloc: Global,
    schema: &SchemaDoc,
    flat: &Flat<'_>,
) -> Result<Vec<u8>, Fault> {
    let (judge, rule) = valid_judge(alloc, schema, flat)?;
    let verdict = by_refusals(alloc, &judge, rule)?;
    Ok(format!(in alloc; "{verdict}")?.into_bytes())
}

/// By the table, by the judge, which is asked for each judgement of it, and by the call that gives the verdict alone.
fn validity_by_all(
    alloc: Global,
    schema: &SchemaDoc,
    doc: &Doc,
    flat: &Flat<'_>,
) -> Result<Vec<u8>, Fault> {
    let asked = times_asked(alloc, schema, flat)?;
    let (table, rule) = valid_table(alloc, schema, flat)?;
    let (judged, last) = (table.judged(), last_verdict(&table, rule));
    let verdict = is_valid(alloc, schema, doc)?;
    Ok(format!(in alloc; "{judged} {asked} {last} {verdict}")?.into_bytes())
}

fn times_asked(alloc: Global, schema: &SchemaDoc, flat: &Flat<'_>) -> Result<u64, Fault> {
    let (judge, _rule) = valid_judge(alloc, schema, flat)?;
    asked(alloc, &judge)
}

/// How often a judge is asked where so many items, rules and classes make a table.
pub fn filling(alloc: Global, cells: &str) -> Result<Vec<u8>, Fault> {
    let (items, rest) = cell(cells);
    let (rules, classes) = cell(rest);
    let judge = Thirds {
        classes: number_of(classes),
        counts: true,
        ..by_thirds(number_of(items), number_of(rules))
    };
    let table = fill(alloc, &judge)?;
    let (judged, asked) = (table.judged(), judge.asked.get());
    Ok(format!(in alloc; "{judged} {asked}")?.into_bytes())
}
