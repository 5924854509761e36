// The faults of a schema's text: the first one as it is, and then those that mending one after another meets.
ghost use Rattle.std.specs.Prelude.{◌≡◌, ◌<◌, ◌≤◌, ◌↔◌, [], ◌∷◌, true, false, length, IfOk, IsOkUnless, OnOk};
ghost use Rattle.std.specs.List.{list_any};
ghost use Rattle.cs_document.specs.View.{doc_view};
ghost use Rattle.cs_profile.specs.Profile.{IsSchema};
ghost use Rattle.cs_tool.specs.CallRefusals.{IsSchemaText};
ghost use Rattle.cs_check.specs.SchemaFaults.{BeginsWithSchemaFault, AreDistinctFaults, is_of_schema, is_same, place_of, names_of, BeginsWithFaultOf};

use crate::MOST_FAULTS;
use cs_document::{Doc, DocFault};
use cs_json::read_doc;
use cs_profile::Vocabulary;
use cs_schema::{SchemaFault, read_schema};
use cs_sources::Made;
use cs_tool::Fault;
use std::alloc::{AllocError, Global};
use std::slice;

/// Where the places and names that are told have more bytes, no further fault is told: each place may be as long as the text.
const MOST_TOLD: usize = 1_048_576;
/// How deep documents are at most.
const MOST_DEPTH: usize = 127;

/// The faults of a schema's text by the keywords of a vocabulary, 50 at most and none of them twice. The first one is what `validate_by` refuses the
/// text for, and each further one is what it refuses it for once those before it are mended: a keyword or a reference that is at fault is taken out, what isn't a schema becomes
/// `true`, and of a loop the references of its first definition to the next one are taken out. A text that isn't a document has that fault alone.
///
/// Where the value of `$defs` has the wrong form, no reference is told to lead nowhere. Once the places and names that are told
/// have more than 1,048,576 bytes, no further fault is told.
///
/// # Errors
/// `OutOfMemory`.
pub fn check_schema(alloc: Global, vocabulary: Vocabulary, text: &[u8]) -> Result<Vec<Fault>, Fault>
    ensures first { IfOk result (λ faults. BeginsWithSchemaFault vocabulary text.now faults.items) }
    ensures none { IfOk result (λ faults. (faults.items ≡ []) ↔ IsSchemaText vocabulary text.now) }
    ensures most { IfOk result (λ faults. length faults.items ≤ 50) }
    ensures distinct { IfOk result (λ faults. AreDistinctFaults faults.items) }
    ensures memory { IsOkUnless result Fault.OutOfMemory }
{
    let in_schema = true;
    match read_doc(alloc, text) {
        Ok(doc) => Ok(faults_of(alloc, vocabulary, doc)?),
        Err(DocFault::OutOfMemory) => Err(Fault::OutOfMemory),
        Err(DocFault::NotJson { offset, is_cut }) => {
            Ok(alone(alloc, Fault::SchemaNotJson { offset, is_cut })?)
        }
        Err(DocFault::NotInteger { offset }) => {
            Ok(alone(alloc, Fault::NotInteger { offset, in_schema })?)
        }
    }
}

fn alone(alloc: Global, fault: Fault) -> Made<Vec<Fault>>
    requires { is_of_schema fault ≡ true }
    ensures one { IfOk result (λ faults. faults.items ≡ fault ∷ []) }
    ensures distinct { IfOk result (λ faults. AreDistinctFaults faults.items) }
{
    let mut faults = Vec::new(alloc);
    faults.push(fault)?;
    Ok(faults)
}

/// The faults of a document, each once those before it are mended, until one is told already; none where it is a schema by these keywords.
fn faults_of(alloc: Global, vocabulary: Vocabulary, mut doc: Doc) -> Made<Vec<Fault>>
    ensures first { IfOk result (λ faults. BeginsWithFaultOf vocabulary (doc_view doc) faults.items) }
    ensures none { IfOk result (λ faults. (faults.items ≡ []) ↔ IsSchema vocabulary (doc_view doc)) }
    ensures most { IfOk result (λ faults. length faults.items ≤ 50) }
    ensures distinct { IfOk result (λ faults. AreDistinctFaults faults.items) }
{
    let mut faults = Vec::new(alloc);
    while let Err(flaw) = read_schema(alloc, vocabulary, &doc) {
        mend(alloc, &mut doc, &flaw)?;
        let fault = Fault::from(flaw);
        if is_last(&faults, &fault) {
            break;
        }
        faults.push(fault)?;
    }
    Ok(faults)
}

/// The place that a fault of a schema tells, and the names.
fn texts_of(fault: &Fault) -> (&str, &[String])
    ensures place { result.0.now ≡ place_of fault.now }
    ensures names { result.1.now ≡ names_of fault.now }
{
    match fault {
        Fault::Keyword { place, name }
        | Fault::Shape { place, name }
        | Fault::Reference { place, name } => (place.as_str(), slice::from_ref(name)),
        Fault::Loop { names } => ("", names.as_slice()),
        _ => ("", &[]),
    }
}

/// How many bytes the places and names of faults have.
fn bytes_told(faults: &[Fault]) -> usize {
    let mut bytes = 0usize;
    for (place, names) in faults.iter().map(texts_of) {
        let lengths = names.iter().map(|name| name.len());
        bytes = lengths.fold(bytes.saturating_add(place.len()), usize::saturating_add);
    }
    bytes
}

/// Whether two faults have one number, and the same place and names.
fn are_same(told: &Fault, fault: &Fault) -> bool
    ensures { result ≡ is_same told.now fault.now }
{
    let (place, names) = texts_of(told);
    let (other_place, other_names) = texts_of(fault);
    told.number() == fault.number() && place == other_place && names == other_names
}

fn is_told(faults: &Vec<Fault>, fault: &Fault) -> bool
    ensures { result ≡ list_any (λ told. is_same told fault.now) faults.now.items }
{
    faults.iter().any(|told| are_same(told, fault))
}

/// Whether behind the faults that are told no fault is: there are enough, or the next one is told already, or is none of the schema.
fn is_last(faults: &Vec<Fault>, fault: &Fault) -> bool
    ensures some { result ≡ true → ¬ (faults.now.items ≡ []) }
    ensures few { result ≡ false → length faults.now.items < 50 }
    ensures new { result ≡ false → list_any (λ told. is_same told fault.now) faults.now.items ≡ false }
{
    let is_enough = faults.len() >= MOST_FAULTS || bytes_told(faults) > MOST_TOLD;
    let is_told = is_told(faults, fault);
    // That no definition is found is no fault of the schema where its definitions went with a mend.
    let takes_definitions = |told: &Fault| {
        matches!(told, Fault::Shape { place, name } if place.is_empty() && name.as_str() == "$defs")
    };
    let is_mended = matches!(fault, Fault::Reference { .. })
        && faults.iter().any(takes_definitions);
    !faults.is_empty() && (is_enough || is_told || is_mended)
}

/// Mends a flaw of a document, which isn't that memory ran out.
fn mend(alloc: Global, doc: &mut Doc, flaw: &SchemaFault) -> Made<()>
    ensures { OnOk result (¬ (flaw.now ≡ SchemaFault.OutOfMemory)) }
{
    match flaw {
        SchemaFault::OutOfMemory => Err(AllocError),
        SchemaFault::Shape { place, name } if name.is_empty() => mend_at(alloc, doc, place, None),
        SchemaFault::Keyword { place, name } | SchemaFault::Shape { place, name } => {
            mend_at(alloc, doc, place, Some(name.as_str()))
        }
        SchemaFault::Reference { place, .. } => mend_at(alloc, doc, place, Some("$ref")),
        SchemaFault::Loop { names } => cut_loop(alloc, doc, names),
    }
}

/// Mends what is at a place, a JSON pointer (RFC 6901, sections 3 and 4): its member of a name is taken out, or, without a name, it becomes
/// `true`, which is a schema.
fn mend_at(alloc: Global, doc: &mut Doc, place: &str, name: Option<&str>) -> Made<()> {
    let mut value = doc;
    for step in place.split('/').skip(1) {
        // `~1` is undone before `~0`, so that `~01` is `~1`.
        let step = step.replace(alloc, "~1", "/")?;
        let step = step.replace(alloc, "~0", "~")?;
        let Some(below) = value_below(value, step.as_str()) else {
            return Ok(());
        };
        value = below;
    }
    match (name, value) {
        (None, value) => *value = Doc::Bool(true),
        (Some(name), Doc::Object(members)) => drop(members.remove(name)),
        (Some(_), _) => {}
    }
    Ok(())
}

/// The value one step below, which is a key or the number of an element.
fn value_below<'a>(doc: &'a mut Doc, step: &str) -> Option<&'a mut Doc> {
    match doc {
        Doc::Object(members) => members.get_mut(step),
        Doc::List(items) => items.get_mut(step.parse::<usize>().ok()?),
        Doc::Null | Doc::Bool(_) | Doc::Int(_) | Doc::Text(_) => None,
    }
}

/// Takes out the direct references of the first definition of a loop to the next one.
fn cut_loop(alloc: Global, doc: &mut Doc, names: &[String]) -> Made<()> {
    if let Some(first) = names.first()
        && let Some(definitions) = value_below(doc, "$defs")
        && let Some(definition) = value_below(definitions, first.as_str())
    {
        let next = names.get(1).unwrap_or(first);
        let reference = Doc::Text(format!(in alloc; "#/$defs/{next}")?);
        cut(definition, &reference, MOST_DEPTH);
    }
    Ok(())
}

/// Takes a reference out of a schema, or of schemas, where it asks for the value that they are asked for.
fn cut(schema: &mut Doc, reference: &Doc, depth: usize) {
    if depth == 0 {
        return;
    }
    match schema {
        Doc::Object(members) => {
            members.retain(|key, value| key.as_str() != "$ref" || *value != *reference);
            for key in ["allOf", "anyOf", "not"] {
                if let Some(value) = members.get_mut(key) {
                    cut(value, reference, depth - 1);
                }
            }
        }
        Doc::List(items) => {
            for item in items.iter_mut() {
                cut(item, reference, depth - 1);
            }
        }
        Doc::Null | Doc::Bool(_) | Doc::Int(_) | Doc::Text(_) => {}
    }
}
