// The places of faults, as JSON pointers (RFC 6901, sections 3 and 4). A fault has the empty place where it is found,
// and each level on the way back puts its own step in front. So a document without a fault makes no place, and one
// with a fault copies its place once a level. Where memory runs out for a place or a name, that is the fault.
ghost use Rattle.std.specs.Prelude.{◌≡◌, [], Some, IfOk, OnOk, string_bytes};
ghost use Rattle.cs_profile.specs.Places.{at_key, at_index};
ghost use Rattle.cs_profile.specs.Profile.{unknown, misshapen, undefined};
ghost use Rattle.cs_schema.specs.Reading.{Refuses, IsBelow};

use crate::SchemaFault;
use std::alloc::{AllocError, Global};

/// The fault of a keyword that isn't taken.
pub(crate) fn unknown_keyword(alloc: Global, name: &str) -> SchemaFault
    ensures { Refuses result (Some (unknown [] name.now)) }
{
    match String::from_str(alloc, name) {
        Ok(name) => SchemaFault::Keyword {
            place: String::new(alloc),
            name,
        },
        Err(_) => SchemaFault::OutOfMemory,
    }
}

/// The fault of a value that doesn't have its keyword's form.
pub(crate) fn wrong_form(alloc: Global, name: &str) -> SchemaFault
    ensures { Refuses result (Some (misshapen [] name.now)) }
{
    match String::from_str(alloc, name) {
        Ok(name) => SchemaFault::Shape {
            place: String::new(alloc),
            name,
        },
        Err(_) => SchemaFault::OutOfMemory,
    }
}

/// The fault of a reference to a name that isn't defined.
pub(crate) fn undefined_reference(alloc: Global, name: &str) -> SchemaFault
    ensures { Refuses result (Some (undefined [] name.now)) }
{
    match String::from_str(alloc, name) {
        Ok(name) => SchemaFault::Reference {
            place: String::new(alloc),
            name,
        },
        Err(_) => SchemaFault::OutOfMemory,
    }
}

/// The fault of what stands under a key.
pub(crate) fn below_key(alloc: Global, key: &str, fault: SchemaFault) -> SchemaFault
    ensures { IsBelow (at_key [] key.now) fault result }
{
    match at_key(alloc, key) {
        Ok(step) => below(&step, fault),
        Err(_) => SchemaFault::OutOfMemory,
    }
}

/// The fault of the element at an index.
pub(crate) fn below_index(alloc: Global, i: usize, fault: SchemaFault) -> SchemaFault
    ensures { IsBelow (at_index [] i) fault result }
{
    match at_index(alloc, i) {
        Ok(step) => below(&step, fault),
        Err(_) => SchemaFault::OutOfMemory,
    }
}

/// The fault of what stands behind a step.
fn below(step: &str, mut fault: SchemaFault) -> SchemaFault
    ensures { IsBelow step.now fault result }
{
    match put_in_front(step, &mut fault) {
        Ok(()) => fault,
        Err(_) => SchemaFault::OutOfMemory,
    }
}

/// Puts a step in front of a fault's place, if it has one.
fn put_in_front(step: &str, fault: &mut SchemaFault) -> Result<(), AllocError>
    ensures { OnOk result (IsBelow step.now fault.old fault.new) }
{
    match fault {
        SchemaFault::Keyword { place, .. } => place.insert_str(0, step),
        SchemaFault::Shape { place, .. } => place.insert_str(0, step),
        SchemaFault::Reference { place, .. } => place.insert_str(0, step),
        SchemaFault::OutOfMemory | SchemaFault::Loop { .. } => Ok(()),
    }
}

/// The step to the element at an index.
#[tactic(auto, unfolding(cs_profile::specs::Places::at_index))]
fn at_index(alloc: Global, i: usize) -> Result<String, AllocError>
    ensures { IfOk result (λ s. string_bytes s ≡ at_index [] i) }
{
    format!(in alloc; "/{i}")
}

/// The step to the value under a key; `~` and `/` are escaped.
#[tactic(auto, unfolding(cs_profile::specs::Places::at_key))]
fn at_key(alloc: Global, key: &str) -> Result<String, AllocError>
    ensures { IfOk result (λ s. string_bytes s ≡ at_key [] key.now) }
{
    let mut text = String::from_str(alloc, "/")?;
    for c in key.chars() {
        match c {
            '~' => text.push_str("~0")?,
            '/' => text.push_str("~1")?,
            _ => text.push(c)?,
        }
    }
    Ok(text)
}
