// The schemas of several operands.
ghost use Rattle.cs_document.specs.Document.{object};
ghost use Rattle.cs_document.specs.View.{documents_of};
ghost use Rattle.cs_profile.specs.SchemaDocument.{schemas_view};
ghost use Rattle.cs_compile.specs.Made.{Makes};
ghost use Rattle.cs_compile.specs.Translation.{all_of, any_of, one_or_all};

use crate::keywords::{object, untyped};
use cs_profile::{Keyword, KeywordValue, Schema};
use std::alloc::{AllocError, Global};

/// The schema of what all of some schemas admit: `allOf`.
pub(crate) fn all_of(alloc: Global, schemas: Vec<Schema>) -> Result<Schema, AllocError>
    ensures { Makes result (object (all_of (documents_of (schemas_view schemas.items)))) }
{
    let schemas = KeywordValue::Schemas(schemas);
    object(alloc, untyped(alloc).set(alloc, Keyword::AllOf, schemas))
}

/// The schema of what one of some schemas admits: `anyOf`. Without any it admits nothing.
pub(crate) fn any_of(alloc: Global, schemas: Vec<Schema>) -> Result<Schema, AllocError>
    ensures { Makes result (any_of (documents_of (schemas_view schemas.items))) }
{
    if schemas.is_empty() {
        return Ok(Schema::Always(false));
    }
    let schemas = KeywordValue::Schemas(schemas);
    object(alloc, untyped(alloc).set(alloc, Keyword::AnyOf, schemas))
}

/// One schema as it is, several as `allOf` in their order.
pub(crate) fn one_or_all(alloc: Global, mut schemas: Vec<Schema>) -> Result<Schema, AllocError>
    ensures { Makes result (one_or_all (schemas_view schemas.items)) }
{
    if schemas.len() != 1 {
        return all_of(alloc, schemas);
    }
    match schemas.pop() {
        Some(schema) => Ok(schema),
        None => unreachable!(),
    }
}
