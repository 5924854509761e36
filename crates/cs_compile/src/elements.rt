// The schemas of lists.
ghost use Rattle.std.specs.Prelude.{◌≡◌, ℕ, suc, pos, List, [], ◌∷◌, Some, None, length};
ghost use Rattle.cs_document.specs.Document.{Document, integer};
ghost use Rattle.cs_document.specs.View.{documents_of};
ghost use Rattle.cs_profile.specs.SchemaDocument.{schemas_view, value_at};
ghost use Rattle.cs_profile.specs.declared.keyword.Form.TheVariants as form;
ghost use Rattle.cs_compile.specs.Made.{Makes};
ghost use Rattle.cs_compile.specs.Slots.{least_count};
ghost use Rattle.cs_compile.specs.Translation.{list_schema};

use crate::keywords::{object, typed};
use cs_profile::{JsonKind, Keyword, KeywordValue, Schema};
use std::alloc::{AllocError, Global};

/// The schema of a list, by those of its fixed elements and the value of `items`.
pub(crate) fn list_schema(
    alloc: Global,
    front: Vec<Schema>,
    items: KeywordValue,
) -> Result<Schema, AllocError>
    ensures { Makes result
        (list_schema (documents_of (schemas_view front.items)) (value_at form.Schema items)) }
{
    let count = least_count(&front);
    let keywords = typed(alloc, JsonKind::Array)
        .set(alloc, Keyword::MinItems, count)
        .set(alloc, Keyword::PrefixItems, KeywordValue::Schemas(front))
        .set(alloc, Keyword::Items, items);
    object(alloc, keywords)
}

/// The value of `minItems`: how many elements are fixed, or nothing where there are none.
fn least_count(front: &Vec<Schema>) -> KeywordValue
    ensures { value_at form.Count result ≡ least_count (schemas_view front.now.items) }
{
    if front.is_empty() {
        KeywordValue::Nothing
    } else {
        KeywordValue::Integer(front.len() as i64)
    }
}
