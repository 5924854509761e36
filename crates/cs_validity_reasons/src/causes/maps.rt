// Causes by what keywords ask of a map.
ghost use Rattle.std.specs.Prelude.{◌≡◌, ◌<◌, ◌++◌, map, slice_index, string_bytes, IfSome, OnOk};
ghost use Rattle.cs_document.specs.Inside.{map_entry};
ghost use Rattle.cs_table.specs.Judged.{verdicts};
ghost use Rattle.cs_profile.specs.Numbered.{names_in};
ghost use Rattle.cs_validity_reasons.specs.CauseLists.{each_from, missing_told, value_told, named_told, other_told, map_told};
ghost use Rattle.cs_document.specs.Inside.{KeysAscend};
ghost use Rattle.cs_flat.specs.View.{entry_of};
ghost use Rattle.cs_rules.specs.Knowns.{value_count, place_count};
ghost use Rattle.cs_validate.specs.Asked.{EntriesBelow, AreBelowInside, places_named};

use crate::cause::PlacedCause;
use crate::causes::values::{length_causes, tell_unless};
use cs_flat::next_under;
use cs_profile::{Keyword, Schema};
use cs_rules::Known;
use cs_validate::{Conjunction, behind, other_holds};
use std::alloc::AllocError;
use std::collections::BTreeMap;

/// The causes by `required`: the keys that are missing (Validation, section 6.5.3).
fn missing_causes(
    required: &[String],
    members: &[(&str, usize)],
    found: &mut Vec<PlacedCause>,
) -> Result<(), AllocError>
    requires ascends { KeysAscend (map entry_of members.now) }
    ensures { OnOk result (found.new.items ≡ found.old.items ++ each_from (missing_told (map entry_of members.now)) 0 (map string_bytes required.now)) }
{
    let mut next = 0;
    for (place, name) in required.iter().enumerate() {
        let value = next_under(members, name, &mut next);
        tell_unless(value.is_some(), PlacedCause::Missing { key: place }, found)?;
    }
    Ok(())
}

/// The cause by the schema at a place of the value under its name, if it is there and isn't valid.
fn property_cause(
    value: Option<usize>,
    place: usize,
    part: usize,
    known: &Known<'_>,
    found: &mut Vec<PlacedCause>,
) -> Result<(), AllocError>
    requires value { IfSome value (λ y. y < value_count known.now) }
    requires part { part < place_count known.now }
    ensures { OnOk result (found.new.items ≡ found.old.items ++ value_told (verdicts known.now.done.now) place (slice_index known.now.children.now part) value) }
{
    match value {
        Some(item) => {
            let rule = known.children[part];
            let cause = PlacedCause::Property {
                key: place,
                item,
                rule,
            };
            tell_unless(known.inside(item, part), cause, found)
        }
        None => Ok(()),
    }
}

/// The causes by `properties`: the values that aren't valid by the schemas of their names, which are from a place on (Core,
/// section 10.3.2.1).
fn property_causes(
    properties: &BTreeMap<String, Schema>,
    first: usize,
    members: &[(&str, usize)],
    known: &Known<'_>,
    found: &mut Vec<PlacedCause>,
) -> Result<(), AllocError>
    requires ascends { KeysAscend (map entry_of members.now) }
    requires members { EntriesBelow (value_count known.now) (map entry_of members.now) }
    requires parts { EntriesBelow (place_count known.now)
        (places_named first properties.now.entries) }
    ensures { OnOk result (found.new.items ≡ found.old.items ++ each_from (named_told (verdicts known.now.done.now) (map entry_of members.now)) 0 (map (map_entry (slice_index known.now.children.now)) (places_named first properties.now.entries))) }
{
    let mut part = first;
    let mut next = 0;
    for name in properties.keys() {
        let value = next_under(members, name, &mut next);
        property_cause(value, part - first, part, known, found)?;
        part += 1;
    }
    Ok(())
}

/// The causes by `additionalProperties`: the values under other keys that aren't valid by the schema at a place (Core, section
/// 10.3.2.3).
fn additional_causes(
    properties: &BTreeMap<String, Schema>,
    part: usize,
    members: &[(&str, usize)],
    known: &Known<'_>,
    found: &mut Vec<PlacedCause>,
) -> Result<(), AllocError>
    requires members { EntriesBelow (value_count known.now) (map entry_of members.now) }
    requires part { part < place_count known.now }
    ensures { OnOk result (found.new.items ≡ found.old.items ++ each_from (other_told (verdicts known.now.done.now) (names_in properties.now.entries) (slice_index known.now.children.now part)) 0 (map entry_of members.now)) }
{
    let rule = known.children[part];
    for (place, member) in members.iter().enumerate() {
        let item = member.1;
        let cause = PlacedCause::Additional {
            key: place,
            item,
            rule,
        };
        tell_unless(other_holds(properties, member, part, known), cause, found)?;
    }
    Ok(())
}

/// The causes by what keywords ask of a map (Validation, section 6.5; Core, section 10.3.2).
pub(crate) fn map_causes(
    conjunction: &Conjunction<'_>,
    members: &[(&str, usize)],
    known: &Known<'_>,
    found: &mut Vec<PlacedCause>,
) -> Result<(), AllocError>
    requires parts { AreBelowInside (place_count known.now) conjunction.now }
    requires ascends { KeysAscend (map entry_of members.now) }
    requires members { EntriesBelow (value_count known.now) (map entry_of members.now) }
    ensures { OnOk result (found.new.items ≡ found.old.items ++ map_told (verdicts known.now.done.now) known.now.children.now conjunction.now (map entry_of members.now)) }
{
    let keywords = conjunction.keywords;
    let items = behind(conjunction.first, &keywords.additional);
    let prefix = behind(items, &keywords.rest);
    let first = prefix + keywords.prefix.len();
    let most = (keywords.max_properties, Keyword::MaxProperties);
    let least = (keywords.min_properties, Keyword::MinProperties);
    length_causes(most, least, members.len(), found)?;
    missing_causes(&keywords.required, members, found)?;
    property_causes(&keywords.properties, first, members, known, found)?;
    if keywords.additional.is_some() {
        additional_causes(
            &keywords.properties,
            conjunction.first,
            members,
            known,
            found,
        )?;
    }
    Ok(())
}
