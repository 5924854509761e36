// What expressions that look at no part ask of a value.
ghost use Rattle.std.specs.Prelude.{◌≡◌, []};
ghost use Rattle.cs_flat.specs.View.{item_view};
ghost use Rattle.cs_package.specs.View.{expression_of, kind_of, relation_of};
ghost use Rattle.cs_instance.specs.Constraint as constraint;
ghost use Rattle.cs_instance.specs.Constraint.{outline};
ghost use Rattle.cs_instance.specs.Steps.{test_of};

use cs_flat::Item;
use cs_package::{Kind, Relation, Shape};

/// Whether a value is an instance of an expression that looks at no part. No value is taken for one of the others.
pub fn holds_simply(shape: &Shape, value: &Item<'_>) -> bool
    ensures { result ≡ test_of (expression_of [] shape.now) (outline (item_view value.now)) }
{
    match shape {
        Shape::Top => true,
        Shape::Bottom => false,
        Shape::Null => matches!(value, Item::Null),
        Shape::Bool(b) => matches!(value, Item::Bool(c) if b == c),
        Shape::Int(n) => matches!(value, Item::Int(m) if n == m),
        Shape::Text(s) => matches!(value, Item::Text(t) if s.as_str() == *t),
        Shape::Kind(kind) => is_of_kind(*kind, value),
        Shape::Range { least, greatest } => {
            matches!(value, Item::Int(n) if is_within(*least, *greatest, *n))
        }
        Shape::Bound { relation, limit } => {
            matches!(value, Item::Int(n) if is_related(*relation, *limit, *n))
        }
        Shape::NotInt(n) => matches!(value, Item::Int(m) if n != m),
        Shape::NotText(s) => matches!(value, Item::Text(t) if s.as_str() != *t),
        Shape::NotNull => !matches!(value, Item::Null),
        Shape::Definition(_)
        | Shape::And(_)
        | Shape::Or(_)
        | Shape::Struct { .. }
        | Shape::List { .. } => false,
    }
}

fn is_of_kind(kind: Kind, value: &Item<'_>) -> bool
    ensures { result ≡ constraint.is_of_kind (kind_of kind) (outline (item_view value.now)) }
{
    match kind {
        Kind::Int | Kind::Number => matches!(value, Item::Int(_)),
        Kind::Text => matches!(value, Item::Text(_)),
        Kind::Bool => matches!(value, Item::Bool(_)),
    }
}

fn is_within(least: i64, greatest: Option<i64>, n: i64) -> bool
    ensures { result ≡ constraint.is_within least greatest n }
{
    match greatest {
        Some(limit) => least <= n && n <= limit,
        None => least <= n,
    }
}

fn is_related(relation: Relation, limit: i64, n: i64) -> bool
    ensures { result ≡ constraint.is_related (relation_of relation) limit n }
{
    match relation {
        Relation::Less => n < limit,
        Relation::AtMost => n <= limit,
        Relation::More => n > limit,
        Relation::AtLeast => n >= limit,
    }
}
