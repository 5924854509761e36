// What keywords without schemas ask of a value.
ghost use Rattle.std.specs.Prelude.{◌≡◌, ◌<◌, length};
ghost use Rattle.cs_flat.specs.Listed.{values as documents_in};
ghost use Rattle.cs_flat.specs.Nodes.{node_at};
ghost use Rattle.cs_flat.specs.View.{item_view};
ghost use Rattle.cs_profile.specs.Validity as validity;
ghost use Rattle.cs_validate.specs.Steps.{kind_of};
ghost use Rattle.cs_validate.specs.Asked as asked;
ghost use Rattle.cs_validate.specs.Asked.{asks_type, asks_const, asks_enum, asks_any, asks_integer};

use crate::rules::Conjunction;
use cs_document::Doc;
use cs_flat::{DocSet, Flat, Item};
use cs_profile::{JsonKind, Keywords};

/// Whether a value has a kind; an integer is a number too (Validation, section 6.1.1).
fn is_of_kind(kind: JsonKind, value: &Item<'_>) -> bool
    ensures { result ≡ validity.is_of_kind (kind_of kind) (item_view value.now) }
{
    match kind {
        JsonKind::Null => matches!(value, Item::Null),
        JsonKind::Boolean => matches!(value, Item::Bool(_)),
        JsonKind::Object => matches!(value, Item::Object(_)),
        JsonKind::Array => matches!(value, Item::List(_)),
        JsonKind::Number | JsonKind::Integer => matches!(value, Item::Int(_)),
        JsonKind::String => matches!(value, Item::Text(_)),
    }
}

/// Whether a value has the kind that `type` names, if it is there.
pub fn has_kind(kind: Option<JsonKind>, value: &Item<'_>) -> bool
    ensures { result ≡ asks_type kind (item_view value.now) }
{
    match kind {
        Some(kind) => is_of_kind(kind, value),
        None => true,
    }
}

/// Whether a value equals that of `const`, if it is there (Validation, section 6.1.3).
pub fn is_equal(value: &Option<Doc>, flat: &Flat<'_>, item: usize) -> bool
    requires { item < length flat.now }
    ensures { result ≡ asks_const value.now (node_at (documents_in flat.now) item) }
{
    match value {
        Some(value) => flat.equals(item, value),
        None => true,
    }
}

/// Whether a value is one of those of `enum`, if it is there (Validation, section 6.1.2).
pub fn is_listed(values: &Option<DocSet<'_>>, flat: &Flat<'_>, item: usize) -> bool
    requires { item < length flat.now }
    ensures { result ≡ asks_enum values.now (node_at (documents_in flat.now) item) }
{
    match values {
        Some(values) => values.contains(flat, item),
        None => true,
    }
}

/// What keywords ask of a value of any kind (Validation, section 6.1).
pub(crate) fn any_holds(
    conjunction: &Conjunction<'_>,
    value: &Item<'_>,
    flat: &Flat<'_>,
    item: usize,
) -> bool
    requires { item < length flat.now }
    ensures { result ≡ asks_any conjunction.now (node_at (documents_in flat.now) item)
        (item_view value.now) }
{
    has_kind(conjunction.keywords.kind, value)
        && is_equal(&conjunction.keywords.equal, flat, item)
        && is_listed(&conjunction.one_of, flat, item)
}

fn is_not_above(keywords: &Keywords, n: i64) -> bool
    ensures { result ≡ asked.is_not_above keywords.now n }
{
    keywords.below.is_none_or(|limit| n < limit) && keywords.maximum.is_none_or(|limit| n <= limit)
}

fn is_not_below(keywords: &Keywords, n: i64) -> bool
    ensures { result ≡ asked.is_not_below keywords.now n }
{
    keywords.above.is_none_or(|limit| limit < n) && keywords.minimum.is_none_or(|limit| limit <= n)
}

/// What keywords ask of an integer (Validation, section 6.2).
pub(crate) fn integer_holds(keywords: &Keywords, n: i64) -> bool
    ensures { result ≡ asks_integer keywords.now n }
{
    is_not_above(keywords, n) && is_not_below(keywords, n)
}

/// Whether a length isn't above a limit, if that is there: `maxLength`, `maxItems` or `maxProperties` (Validation, sections
/// 6.3.1, 6.4.1 and 6.5.1).
pub fn is_at_most_long(most: Option<i64>, length: usize) -> bool
    ensures { result ≡ asked.is_at_most_long most length }
{
    match most {
        Some(most) => most < 0 || length <= most as usize,
        None => true,
    }
}

/// Whether a length isn't below a limit, if that is there: `minLength`, `minItems` or `minProperties` (Validation, sections
/// 6.3.2, 6.4.2 and 6.5.2).
pub fn is_at_least_long(least: Option<i64>, length: usize) -> bool
    ensures { result ≡ asked.is_at_least_long least length }
{
    match least {
        Some(least) => least < 0 || least as usize <= length,
        None => true,
    }
}
