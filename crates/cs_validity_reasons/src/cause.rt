// Why a value isn't valid by a schema.
use cs_profile::Keyword;
use cs_reasons::Cause;

/// Why a value isn't valid by a schema: of what the schema's keywords ask, what isn't so. Schemas and values that it leads to
/// are named by their numbers, and keys by a `K`.
#[derive(Clone, Copy, Drop)]
pub enum KeyedCause<K> {
    /// `$ref`: the definition that it names (JSON Schema Core 2020-12, section 8.2.3.1).
    Reference {
        item: usize,
        rule: usize,
    },
    /// `allOf`: the schema at a place (Core, section 10.2.1.1).
    Part {
        item: usize,
        rule: usize,
        place: usize,
    },
    /// `anyOf`: the schema at a place (Core, section 10.2.1.2).
    Alternative {
        item: usize,
        rule: usize,
        place: usize,
    },
    /// `properties`: the value under a declared name (Core, section 10.3.2.1).
    Property {
        key: K,
        item: usize,
        rule: usize,
    },
    /// `additionalProperties`: the value under another key (Core, section 10.3.2.3).
    Additional {
        key: K,
        item: usize,
        rule: usize,
    },
    /// `prefixItems`: the element at a place (Core, section 10.3.1.1).
    Prefix {
        place: usize,
        item: usize,
        rule: usize,
    },
    /// `items`: the element at a place behind those (Core, section 10.3.1.2).
    Items {
        place: usize,
        item: usize,
        rule: usize,
    },
    /// The schema is `false` (Core, section 4.3.2).
    Never,
    /// `required`: the key is missing (Validation 2020-12, section 6.5.3).
    Missing {
        key: K,
    },
    /// What a keyword without parts asks of the value, or `not`.
    Keyword(Keyword),
    /// `anyOf`: none of the alternatives holds.
    NoAlternative,
}

/// A cause with its keys.
pub type ValidCause<'a> = KeyedCause<&'a str>;

/// A cause with keys by their places: those of members among the members of the map, and those of required names among these
/// names.
pub(crate) type PlacedCause = KeyedCause<usize>;

impl<K: Copy + Drop> Cause for KeyedCause<K> {
    ghost use Rattle.cs_validity_reasons.specs.Led.{leads_to, is_alternative};

    ghost leads_to = { leads_to };

    ghost is_alternative = { is_alternative };

    fn leads_to(&self) -> Option<(usize, usize)> {
        match self {
            KeyedCause::Reference { item, rule }
            | KeyedCause::Part { item, rule, .. }
            | KeyedCause::Alternative { item, rule, .. }
            | KeyedCause::Property { item, rule, .. }
            | KeyedCause::Additional { item, rule, .. }
            | KeyedCause::Prefix { item, rule, .. }
            | KeyedCause::Items { item, rule, .. } => Some((*item, *rule)),
            KeyedCause::Never
            | KeyedCause::Missing { .. }
            | KeyedCause::Keyword(_)
            | KeyedCause::NoAlternative => None,
        }
    }

    fn is_alternative(&self) -> bool {
        matches!(self, KeyedCause::Alternative { .. })
    }
}
