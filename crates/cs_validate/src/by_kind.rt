// Verdicts of a schema that a value's kind alone decides.
ghost use Rattle.std.specs.Prelude.{◌≡◌, ℕ, ℤ, Bool, true, List, [], Some, map, option_map};
ghost use Rattle.cs_document.specs.Document.{Entry};
ghost use Rattle.cs_document.specs.Opened.{Opened};
ghost use Rattle.cs_document.specs.View.{doc_view};
ghost use Rattle.cs_rules.specs.Kinds.{verdict_of, AreDecided, Decides, Foretells};
ghost use Rattle.cs_profile.specs.Validity.{is_of_kind};
ghost use Rattle.cs_validate.specs.declared.rules.Rule.TheVariants as rule;
ghost use Rattle.cs_validate.specs.Steps.{step, kind_of};
ghost use Rattle.cs_validate.specs.Asked.{asks_type, asks_here, asks_integer, asks_text, asks_list, asks_map, asks_kind, asks_alternative};
ghost use Rattle.cs_validate.specs.Kinds.{if_asked, equals_by_kind, among_by_kind, any_by_kind, reference_by_kind, negation_by_kind};

use crate::rules::{Conjunction, Rule};
use cs_document::Doc;
use cs_flat::{DocSet, Names};
use cs_profile::{JsonKind, Keywords};
use cs_rules::ByKind;

// ---- values of any kind

/// The values of one kind, and no others.
fn by_named(kind: JsonKind) -> ByKind
    ensures { (x : Opened ℕ) → verdict_of result x ≡ Some (is_of_kind (kind_of kind) x) }
{
    let others = ByKind::of(Some(false));
    match kind {
        JsonKind::Null => ByKind {
            null: Some(true),
            ..others
        },
        JsonKind::Boolean => ByKind {
            boolean: Some(true),
            ..others
        },
        JsonKind::Number | JsonKind::Integer => ByKind {
            integer: Some(true),
            ..others
        },
        JsonKind::String => ByKind {
            text: Some(true),
            ..others
        },
        JsonKind::Array => ByKind {
            list: Some(true),
            ..others
        },
        JsonKind::Object => ByKind {
            object: Some(true),
            ..others
        },
    }
}

/// What `type` decides, if it is there.
fn by_type(kind: Option<JsonKind>) -> ByKind
    ensures { (x : Opened ℕ) → verdict_of result x ≡ Some (asks_type kind x) }
{
    match kind {
        Some(kind) => by_named(kind),
        None => ByKind::of(Some(true)),
    }
}

/// No value of another kind equals this one, and null is alone of its kind.
fn by_value(value: &Doc) -> ByKind
    ensures { (x : Opened ℕ) → verdict_of result x ≡ equals_by_kind (doc_view value.now) x }
{
    let others = ByKind::of(Some(false));
    match value {
        Doc::Null => ByKind {
            null: Some(true),
            ..others
        },
        Doc::Bool(_) => ByKind {
            boolean: None,
            ..others
        },
        Doc::Int(_) => ByKind {
            integer: None,
            ..others
        },
        Doc::Text(_) => ByKind {
            text: None,
            ..others
        },
        Doc::List(_) => ByKind {
            list: None,
            ..others
        },
        Doc::Object(_) => ByKind {
            object: None,
            ..others
        },
    }
}

/// What `const` decides, if it is there.
fn by_const(value: &Option<Doc>) -> ByKind
    ensures { (x : Opened ℕ)
        → verdict_of result x ≡ if_asked (λ v. equals_by_kind (doc_view v) x) value.now }
{
    match value {
        Some(value) => by_value(value),
        None => ByKind::of(Some(true)),
    }
}

/// Either of what the values decide: no value is one of none.
fn by_values(values: &[Doc]) -> ByKind
    ensures { (x : Opened ℕ) → verdict_of result x ≡ among_by_kind (map doc_view values.now) x }
{
    let mut verdicts = ByKind::of(Some(false));
    for value in values {
        verdicts = verdicts.or(by_value(value));
    }
    verdicts
}

/// What `enum` decides, if it is there.
fn by_enum(values: &Option<DocSet<'_>>) -> ByKind
    ensures { (x : Opened ℕ)
        → verdict_of result x ≡ if_asked (λ vs. among_by_kind vs x) values.now }
{
    match values {
        Some(values) => by_values(values.values()),
        None => ByKind::of(Some(true)),
    }
}

/// What is decided of a value of any kind (Validation, section 6.1).
fn by_any(conjunction: &Conjunction<'_>) -> ByKind
    ensures { (x : Opened ℕ) → verdict_of result x ≡ any_by_kind conjunction.now x }
{
    let keywords = conjunction.keywords;
    by_type(keywords.kind)
        .and(by_const(&keywords.equal))
        .and(by_enum(&conjunction.one_of))
}

// ---- schemas that are asked of the value itself

/// What the definition that `$ref` names decides, if it is there. One that isn't defined admits nothing.
fn by_reference(conjunction: &Conjunction<'_>, earlier: &[ByKind]) -> ByKind
    ensures { (x : Opened ℕ)
        → verdict_of result x ≡ reference_by_kind earlier.now conjunction.now x }
{
    match (&conjunction.keywords.reference, conjunction.reference) {
        (None, _) => ByKind::of(Some(true)),
        (Some(_), None) => ByKind::of(Some(false)),
        (Some(_), Some(part)) => ByKind::at(part, earlier),
    }
}

/// What `anyOf` decides, if it is there.
fn by_alternatives(any_of: &[usize], earlier: &[ByKind]) -> ByKind
    ensures { (x : Opened ℕ) (here : ℕ → Bool) → AreDecided earlier.now x here
        → Decides (verdict_of result x) (asks_alternative here any_of.now) }
{
    if any_of.is_empty() {
        return ByKind::of(Some(true));
    }
    ByKind::any(any_of, earlier)
}

/// What `not` decides, if it is there.
fn by_negation(negated: Option<usize>, earlier: &[ByKind]) -> ByKind
    ensures { (x : Opened ℕ) → verdict_of result x ≡ negation_by_kind earlier.now negated x }
{
    match negated {
        Some(part) => ByKind::at(part, earlier).negated(),
        None => ByKind::of(Some(true)),
    }
}

/// What the schemas decide that are asked of the value itself (Core, sections 8.2.3.1 and 10.2.1).
fn by_here(conjunction: &Conjunction<'_>, earlier: &[ByKind]) -> ByKind
    ensures { (x : Opened ℕ) (here : ℕ → Bool) → AreDecided earlier.now x here
        → Decides (verdict_of result x) (asks_here here conjunction.now) }
{
    by_reference(conjunction, earlier)
        .and(ByKind::all(&conjunction.all_of, earlier))
        .and(by_alternatives(&conjunction.any_of, earlier))
        .and(by_negation(conjunction.negated, earlier))
}

// ---- values of one kind

fn asks_nothing_of_integers(keywords: &Keywords) -> bool
    ensures { result ≡ true → (z : ℤ) → asks_integer keywords.now z ≡ true }
{
    keywords.minimum.is_none()
        && keywords.maximum.is_none()
        && keywords.above.is_none()
        && keywords.below.is_none()
}

/// Whether no text has to be counted.
pub(crate) fn asks_nothing_of_texts(keywords: &Keywords) -> bool
    ensures { result ≡ true → (s : List ℕ) → asks_text keywords.now s ≡ true }
{
    keywords.max_length.is_none() && keywords.min_length.is_none()
}

fn asks_nothing_of_lists(conjunction: &Conjunction<'_>) -> bool
    ensures { result ≡ true → (inside : ℕ → ℕ → Bool) (ys : List ℕ)
        → asks_list inside conjunction.now ys ≡ true }
{
    let keywords = conjunction.keywords;
    keywords.max_items.is_none()
        && keywords.min_items.is_none()
        && keywords.prefix.is_empty()
        && keywords.rest.is_none()
}

/// Whether no key is required: the map without members has them all.
fn requires_nothing(required: &Names<'_>) -> bool
    ensures { result ≡ true → required.now ≡ [] }
{
    required.are_keys(&[])
}

fn asks_nothing_of_maps(conjunction: &Conjunction<'_>) -> bool
    ensures { result ≡ true → (inside : ℕ → ℕ → Bool) (ms : List (Entry ℕ))
        → asks_map inside conjunction.now ms ≡ true }
{
    let keywords = conjunction.keywords;
    keywords.max_properties.is_none()
        && keywords.min_properties.is_none()
        && requires_nothing(&conjunction.required)
        && keywords.properties.is_empty()
        && keywords.additional.is_none()
}

/// The kinds of which nothing is asked by keywords for values of one kind.
fn by_absence(conjunction: &Conjunction<'_>) -> ByKind
    ensures { (x : Opened ℕ) (inside : ℕ → ℕ → Bool)
        → Decides (verdict_of result x) (asks_kind inside conjunction.now x) }
{
    ByKind {
        integer: asks_nothing_of_integers(conjunction.keywords).then_some(true),
        text: asks_nothing_of_texts(conjunction.keywords).then_some(true),
        list: asks_nothing_of_lists(conjunction).then_some(true),
        object: asks_nothing_of_maps(conjunction).then_some(true),
        ..ByKind::of(Some(true))
    }
}

// ---- all keywords

fn by_keywords(conjunction: &Conjunction<'_>, earlier: &[ByKind]) -> ByKind
    ensures { Foretells (step (rule.Object conjunction.now)) earlier.now result }
{
    by_any(conjunction)
        .and(by_here(conjunction, earlier))
        .and(by_absence(conjunction))
}

/// The verdicts of a schema that a value's kind alone decides, where those of earlier ones are known.
pub(crate) fn by_kind(rule: &Rule<'_>, earlier: &[ByKind]) -> ByKind
    ensures { Foretells (step rule.now) earlier.now result }
{
    match rule {
        Rule::Truth(verdict) => ByKind::of(Some(*verdict)),
        Rule::Object(conjunction) => by_keywords(conjunction, earlier),
    }
}
