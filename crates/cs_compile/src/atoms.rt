// The schemas of the forms without parts.
ghost use Rattle.std.specs.Prelude.{◌≡◌, Some, codes};
ghost use Rattle.cs_document.specs.Document.{object, member, integer, text};
ghost use Rattle.cs_document.specs.View.{doc_view};
ghost use Rattle.cs_package.specs.View.{kind_of, relation_of};
ghost use Rattle.cs_profile.specs.SchemaDocument.{slots_of, present, set_slot, kind_name};
ghost use Rattle.cs_profile.specs.Root.{reference_to};
ghost use Rattle.cs_compile.specs.Made.{Makes};
ghost use Rattle.cs_compile.specs.Translation.{constant, but, of_type, type_name, range_keywords, limit_name};

use crate::keywords::{limit_keyword, object, typed, untyped};
use cs_document::Doc;
use cs_package::{Kind, Relation};
use cs_profile::{JsonKind, Keyword, KeywordValue, Keywords, Schema};
use std::alloc::{AllocError, Global};

/// The schema of one value: `const`.
pub(crate) fn constant(alloc: Global, value: Doc) -> Result<Schema, AllocError>
    ensures { Makes result (constant (doc_view value)) }
{
    let value = KeywordValue::Anything(value);
    object(alloc, untyped(alloc).set(alloc, Keyword::Const, value))
}

/// The schema of what the keywords ask for but one value: `not` beside them.
pub(crate) fn but(alloc: Global, value: Doc, keywords: Keywords) -> Result<Schema, AllocError>
    ensures { Makes result
        (object (present (set_slot (codes "not") (Some (constant (doc_view value)))
        (slots_of keywords)))) }
{
    let value = KeywordValue::Schema(constant(alloc, value)?);
    object(alloc, keywords.set(alloc, Keyword::Not, value))
}

/// The schema of the texts but one.
pub(crate) fn not_text(alloc: Global, value: &str) -> Result<Schema, AllocError>
    ensures { Makes result (object (but (text value.now) (of_type (codes "string")))) }
{
    let value = Doc::Text(String::from_str(alloc, value)?);
    but(alloc, value, typed(alloc, JsonKind::String))
}

/// The schema that refers to a definition.
pub(crate) fn reference(alloc: Global, name: &str) -> Result<Schema, AllocError>
    ensures { Makes result (reference_to name.now) }
{
    let name = KeywordValue::Reference(String::from_str(alloc, name)?);
    object(alloc, untyped(alloc).set(alloc, Keyword::Ref, name))
}

/// The kind that `type` names for a predeclared one.
pub(crate) fn json_kind(kind: Kind) -> JsonKind
    ensures { kind_name result ≡ type_name (kind_of kind) }
{
    match kind {
        Kind::Int => JsonKind::Integer,
        Kind::Number => JsonKind::Number,
        Kind::Text => JsonKind::String,
        Kind::Bool => JsonKind::Boolean,
    }
}

/// The schema of the integers from `least` on, up to `greatest` where there is one.
pub(crate) fn range(alloc: Global, least: i64, greatest: Option<i64>) -> Result<Schema, AllocError>
    ensures { Makes result (object (range_keywords least greatest)) }
{
    let keywords = typed(alloc, JsonKind::Integer).set(
        alloc,
        Keyword::Minimum,
        KeywordValue::Integer(least),
    );
    match greatest {
        Some(greatest) => object(
            alloc,
            keywords.set(alloc, Keyword::Maximum, KeywordValue::Integer(greatest)),
        ),
        None => object(alloc, keywords),
    }
}

/// The schema of the numbers on one side of a limit.
pub(crate) fn bound(alloc: Global, relation: Relation, limit: i64) -> Result<Schema, AllocError>
    ensures { Makes result (object
        (member (limit_name (relation_of relation)) (integer limit) (of_type (codes "number")))) }
{
    let limit = KeywordValue::Integer(limit);
    object(
        alloc,
        typed(alloc, JsonKind::Number).set(alloc, limit_keyword(relation), limit),
    )
}
