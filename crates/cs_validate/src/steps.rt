// What a rule gives for a value, where the verdicts on the rule's parts are known.
ghost use Rattle.std.specs.Prelude.{◌≡◌, ℕ, ◌<◌, ◌+◌, ◌^◌, ◌&&◌, not, true, List, length, map, drop, option_to_list, IfSome, IsTrue, string_bytes};
ghost use Rattle.std.specs.List.{list_all, list_any};
ghost use Rattle.std.specs.Str.{bytes_eq};
ghost use Rattle.cs_document.specs.Inside.{InsideBelow, AscendsInside, KeysAscend};
ghost use Rattle.cs_flat.specs.Listed.{values};
ghost use Rattle.cs_flat.specs.Nodes.{node_at};
ghost use Rattle.cs_flat.specs.View.{item_view, entry_of};
ghost use Rattle.cs_rules.specs.Lengths.{TellsLength};
ghost use Rattle.cs_rules.specs.Knowns.{verdict_here, verdict_inside, value_count, rule_count, place_count};
ghost use Rattle.cs_profile.specs.Numbered.{names_in};
ghost use Rattle.cs_profile.specs.Validity.{if_there};
ghost use Rattle.cs_validate.specs.declared.rules.Rule.TheVariants as rule;
ghost use Rattle.cs_validate.specs.Numbering.{PartsBelow};
ghost use Rattle.cs_validate.specs.Steps.{step, asked_of, places_from, one_if};
ghost use Rattle.cs_validate.specs.Asked.{asks_any, asks_reference, asks_here, asks_front, asks_named, asks_other, asks_others, asks_text, asks_list, asks_map, asks_kind, places_named, TellsOf, AreBelow, EntriesBelow, ReferenceBelow, AreBelowHere, AreBelowInside};

use crate::by_kind::asks_nothing_of_texts;
use crate::rules::{Conjunction, Rule};
use crate::values::{any_holds, integer_holds, is_at_least_long, is_at_most_long};
use cs_flat::{Flat, Item, next_under};
use cs_profile::{Keywords, Schema};
use cs_rules::Known;
use std::collections::BTreeMap;
use std::collections::btree_map::Keys;

// ---- schemas that are asked of the value itself

/// Whether the definition that `$ref` names, if it is there, is defined and validates a value (Core, section 8.2.3.1).
fn reference_holds(conjunction: &Conjunction<'_>, known: &Known<'_>) -> bool
    requires parts { ReferenceBelow (rule_count known.now) conjunction.now }
    ensures { result ≡ asks_reference (verdict_here known.now) conjunction.now }
{
    match (&conjunction.keywords.reference, conjunction.reference) {
        (None, _) => true,
        (Some(_), None) => false,
        (Some(_), Some(part)) => known.here(part),
    }
}

/// Whether the schema of `not`, if it is there, doesn't validate a value (Core, section 10.2.1.4).
fn negation_holds(negated: Option<usize>, known: &Known<'_>) -> bool
    requires parts { AreBelow (rule_count known.now) (option_to_list negated) }
    ensures { result ≡ if_there (λ r. not (verdict_here known.now r)) negated }
{
    match negated {
        Some(part) => !known.here(part),
        None => true,
    }
}

// ---- schemas that are asked of values inside

/// Whether each element with a schema at its place, from a place on, is valid by it (Core, section 10.3.1.1).
fn front_holds(prefix: &[Schema], first: usize, children: &[usize], known: &Known<'_>) -> bool
    requires children { AreBelow (value_count known.now) children.now }
    requires parts { AreBelow (place_count known.now) (places_from first prefix.now) }
    ensures { result ≡ asks_front (verdict_inside known.now) (places_from first prefix.now)
        children.now }
{
    let mut rest = children;
    let mut place = first;
    for _schema in prefix {
        let Some((child, others)) = rest.split_first() else {
            return true;
        };
        if !known.inside(*child, place) {
            return false;
        }
        rest = others;
        place += 1;
    }
    true
}

/// Whether each element behind so many is valid by the schema at a place (Core, section 10.3.1.2).
fn rest_holds(front: usize, part: usize, children: &[usize], known: &Known<'_>) -> bool
    requires children { AreBelow (value_count known.now) children.now }
    requires part { part < place_count known.now }
    ensures { result ≡ list_all (λ y. verdict_inside known.now y part) (drop front children.now) }
{
    if children.len() <= front {
        return true;
    }
    known.each(&children[front..], part)
}

/// Whether the value under a declared name, if there is one, is valid by the schema at a place.
fn property_holds(value: Option<usize>, place: usize, known: &Known<'_>) -> bool
    requires value { IfSome value (λ y. y < value_count known.now) }
    requires place { place < place_count known.now }
    ensures { result ≡ if_there (λ y. verdict_inside known.now y place) value }
{
    match value {
        Some(child) => known.inside(child, place),
        None => true,
    }
}

/// Whether the value under each declared name, if it is there, is valid by the name's schema: those are from a place on (Core, section 10.3.2.1).
fn properties_hold(
    properties: &BTreeMap<String, Schema>,
    first: usize,
    members: &[(&str, usize)],
    known: &Known<'_>,
) -> bool
    requires ascends { KeysAscend (map entry_of members.now) }
    requires members { EntriesBelow (value_count known.now) (map entry_of members.now) }
    requires parts { EntriesBelow (place_count known.now)
        (places_named first properties.now.entries) }
    ensures { result ≡ asks_named (verdict_inside known.now) (map entry_of members.now)
        (places_named first properties.now.entries) }
{
    let mut place = first;
    let mut next = 0;
    for name in properties.keys() {
        let value = next_under(members, name, &mut next);
        if !property_holds(value, place, known) {
            return false;
        }
        place += 1;
    }
    true
}

/// Whether a key is the first of the names that isn't below it in byte order. The names up to that one are taken.
fn take_name(names: &mut Keys<'_, String, Schema>, key: &str) -> bool
    ensures found { IsTrue result
        → list_any (bytes_eq key.now) (map string_bytes names.old) ≡ true }
    ensures left { (k : List ℕ) → list_any (bytes_eq k) (map string_bytes names.new) ≡ true
        → list_any (bytes_eq k) (map string_bytes names.old) ≡ true }
{
    while let Some(name) = names.next() {
        if name.as_str() >= key {
            return key == name.as_str();
        }
    }
    false
}

/// Whether a member's key is a declared name, or its value is valid by the schema at a place.
pub fn other_holds(
    properties: &BTreeMap<String, Schema>,
    member: &(&str, usize),
    part: usize,
    known: &Known<'_>,
) -> bool
    requires child { (entry_of member.now).1 < value_count known.now }
    requires part { part < place_count known.now }
    ensures { result ≡ asks_other (verdict_inside known.now) (names_in properties.now.entries)
        part (entry_of member.now) }
{
    let (key, child) = member;
    properties.contains_key(*key) || known.inside(*child, part)
}

/// Whether each value whose key is no declared name is valid by the schema at a place (Core, section
/// 10.3.2.3). Both keys and names are in byte order, so a declared key is mostly the next name.
fn others_hold(
    properties: &BTreeMap<String, Schema>,
    part: usize,
    members: &[(&str, usize)],
    known: &Known<'_>,
) -> bool
    requires members { EntriesBelow (value_count known.now) (map entry_of members.now) }
    requires part { part < place_count known.now }
    ensures { result ≡ asks_others (verdict_inside known.now) (names_in properties.now.entries)
        part (map entry_of members.now) }
{
    let mut names = properties.keys();
    for member in members {
        if !take_name(&mut names, member.0) && !other_holds(properties, member, part, known) {
            return false;
        }
    }
    true
}

// ---- all keywords

/// The place behind that of a schema, if it is there.
pub fn behind(place: usize, schema: &Option<Schema>) -> usize
    requires { IfSome schema.now (λ s. place + 1 < 2 ^ 64) }
    ensures { result ≡ place + one_if schema.now }
{
    match schema {
        Some(_) => place + 1,
        None => place,
    }
}

/// What keywords ask of a text (Validation, section 6.3). Its characters are counted only where one of them asks how many.
fn text_holds(keywords: &Keywords, text: &str, known: &Known<'_>) -> bool
    requires length { TellsLength known.now.lengths.now known.now.item text.now }
    ensures { result ≡ asks_text keywords.now text.now }
{
    if asks_nothing_of_texts(keywords) {
        return true;
    }
    let length = known.text_length(text);
    is_at_most_long(keywords.max_length, length) && is_at_least_long(keywords.min_length, length)
}

/// What keywords ask of a list (Validation, section 6.4; Core, section 10.3.1).
fn list_holds(conjunction: &Conjunction<'_>, children: &[usize], known: &Known<'_>) -> bool
    requires parts { AreBelowInside (place_count known.now) conjunction.now }
    requires children { AreBelow (value_count known.now) children.now }
    ensures { result ≡ asks_list (verdict_inside known.now) conjunction.now children.now }
{
    let keywords = conjunction.keywords;
    let items = behind(conjunction.first, &keywords.additional);
    let prefix = behind(items, &keywords.rest);
    is_at_most_long(keywords.max_items, children.len())
        && is_at_least_long(keywords.min_items, children.len())
        && front_holds(&keywords.prefix, prefix, children, known)
        && (keywords.rest.is_none() || rest_holds(keywords.prefix.len(), items, children, known))
}

/// What keywords ask of a map (Validation, section 6.5; Core, section 10.3.2).
fn map_holds(conjunction: &Conjunction<'_>, members: &[(&str, usize)], known: &Known<'_>) -> bool
    requires parts { AreBelowInside (place_count known.now) conjunction.now }
    requires ascends { KeysAscend (map entry_of members.now) }
    requires members { EntriesBelow (value_count known.now) (map entry_of members.now) }
    ensures { result ≡ asks_map (verdict_inside known.now) conjunction.now
        (map entry_of members.now) }
{
    let keywords = conjunction.keywords;
    let items = behind(conjunction.first, &keywords.additional);
    let prefix = behind(items, &keywords.rest);
    let properties = prefix + keywords.prefix.len();
    is_at_most_long(keywords.max_properties, members.len())
        && is_at_least_long(keywords.min_properties, members.len())
        && conjunction.required.are_keys(members)
        && properties_hold(&keywords.properties, properties, members, known)
        && (keywords.additional.is_none()
            || others_hold(&keywords.properties, conjunction.first, members, known))
}

/// What keywords ask of a value of its kind alone.
fn kind_holds(conjunction: &Conjunction<'_>, value: &Item<'_>, known: &Known<'_>) -> bool
    requires parts { AreBelowInside (place_count known.now) conjunction.now }
    requires ascends { AscendsInside (item_view value.now) }
    requires children { InsideBelow (value_count known.now) (item_view value.now) }
    requires length { TellsOf known.now (item_view value.now) }
    ensures { result ≡ asks_kind (verdict_inside known.now) conjunction.now (item_view value.now) }
{
    match value {
        Item::Int(n) => integer_holds(conjunction.keywords, *n),
        Item::Text(text) => text_holds(conjunction.keywords, text, known),
        Item::List(children) => list_holds(conjunction, children, known),
        Item::Object(members) => map_holds(conjunction, members, known),
        Item::Null | Item::Bool(_) => true,
    }
}

/// Whether the schemas that are asked of the value itself hold (Core, sections 8.2.3.1 and 10.2.1).
fn here_holds(conjunction: &Conjunction<'_>, known: &Known<'_>) -> bool
    requires parts { AreBelowHere (rule_count known.now) conjunction.now }
    ensures { result ≡ asks_here (verdict_here known.now) conjunction.now }
{
    reference_holds(conjunction, known)
        && known.all(&conjunction.all_of)
        && (conjunction.any_of.is_empty() || known.any(&conjunction.any_of))
        && negation_holds(conjunction.negated, known)
}

/// What the keywords of an object ask.
fn object_holds(
    conjunction: &Conjunction<'_>,
    value: &Item<'_>,
    flat: &Flat<'_>,
    known: &Known<'_>,
) -> bool
    requires item { known.now.item < length flat.now }
    requires here { AreBelowHere (rule_count known.now) conjunction.now }
    requires inside { AreBelowInside (place_count known.now) conjunction.now }
    requires ascends { AscendsInside (item_view value.now) }
    requires children { InsideBelow (value_count known.now) (item_view value.now) }
    requires length { TellsOf known.now (item_view value.now) }
    ensures { result ≡ (asks_any conjunction.now (node_at (values flat.now) known.now.item) (item_view value.now)
        && (asks_here (verdict_here known.now) conjunction.now
        && asks_kind (verdict_inside known.now) conjunction.now (item_view value.now))) }
{
    any_holds(conjunction, value, flat, known.item)
        && here_holds(conjunction, known)
        && kind_holds(conjunction, value, known)
}

/// Whether a value is valid by a schema, by the verdicts on the schema's parts (Core, section 4.3.2).
pub(crate) fn holds(rule: &Rule<'_>, value: &Item<'_>, flat: &Flat<'_>, known: &Known<'_>) -> bool
    requires item { known.now.item < length flat.now }
    requires parts { PartsBelow (rule_count known.now) (place_count known.now) (asked_of rule.now) }
    requires ascends { AscendsInside (item_view value.now) }
    requires children { InsideBelow (value_count known.now) (item_view value.now) }
    requires length { TellsOf known.now (item_view value.now) }
    ensures { result ≡ step rule.now (verdict_here known.now) (verdict_inside known.now)
        (node_at (values flat.now) known.now.item) (item_view value.now) }
{
    match rule {
        Rule::Truth(verdict) => *verdict,
        Rule::Object(conjunction) => object_holds(conjunction, value, flat, known),
    }
}
