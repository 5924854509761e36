// Causes by what keywords ask of a list.
ghost use Rattle.std.specs.Prelude.{◌≡◌, ◌<◌, ◌++◌, map, zip, drop, slice_index, OnOk};
ghost use Rattle.cs_table.specs.Judged.{verdicts};
ghost use Rattle.cs_validity_reasons.specs.CauseLists.{each_from, front_told, rest_told, list_told};
ghost use Rattle.cs_rules.specs.Knowns.{value_count, place_count};
ghost use Rattle.cs_validate.specs.Asked.{AreBelow, AreBelowInside};
ghost use Rattle.cs_validate.specs.Steps.{places_from};

use crate::cause::PlacedCause;
use crate::causes::values::{length_causes, tell_unless};
use cs_profile::{Keyword, Schema};
use cs_rules::Known;
use cs_validate::{Conjunction, behind};
use std::alloc::AllocError;

/// The causes by `prefixItems`: the elements that aren't valid by the schemas at their places, which are from one on (Core,
/// section 10.3.1.1).
fn front_causes(
    prefix: &[Schema],
    first: usize,
    children: &[usize],
    known: &Known<'_>,
    found: &mut Vec<PlacedCause>,
) -> Result<(), AllocError>
    requires children { AreBelow (value_count known.now) children.now }
    requires parts { AreBelow (place_count known.now) (places_from first prefix.now) }
    ensures { OnOk result (found.new.items ≡ found.old.items ++ each_from (front_told (verdicts known.now.done.now)) 0 (zip (map (slice_index known.now.children.now) (places_from first prefix.now)) children.now)) }
{
    let mut rest = children;
    let mut part = first;
    for (place, _schema) in prefix.iter().enumerate() {
        let Some((child, others)) = rest.split_first() else {
            return Ok(());
        };
        let item = *child;
        let rule = known.children[part];
        let cause = PlacedCause::Prefix { place, item, rule };
        tell_unless(known.inside(item, part), cause, found)?;
        rest = others;
        part += 1;
    }
    Ok(())
}

/// The causes by `items`: the elements behind so many that aren't valid by the schema at a place (Core, section 10.3.1.2).
fn rest_causes(
    front: usize,
    part: usize,
    children: &[usize],
    known: &Known<'_>,
    found: &mut Vec<PlacedCause>,
) -> Result<(), AllocError>
    requires children { AreBelow (value_count known.now) children.now }
    requires part { part < place_count known.now }
    ensures { OnOk result (found.new.items ≡ found.old.items ++ each_from (rest_told (verdicts known.now.done.now) (slice_index known.now.children.now part)) front (drop front children.now)) }
{
    let rule = known.children[part];
    for place in front..children.len() {
        let item = children[place];
        let cause = PlacedCause::Items { place, item, rule };
        tell_unless(known.inside(item, part), cause, found)?;
    }
    Ok(())
}

/// The causes by what keywords ask of a list (Validation, section 6.4; Core, section 10.3.1).
pub(crate) fn list_causes(
    conjunction: &Conjunction<'_>,
    children: &[usize],
    known: &Known<'_>,
    found: &mut Vec<PlacedCause>,
) -> Result<(), AllocError>
    requires parts { AreBelowInside (place_count known.now) conjunction.now }
    requires children { AreBelow (value_count known.now) children.now }
    ensures { OnOk result (found.new.items ≡ found.old.items ++ list_told (verdicts known.now.done.now) known.now.children.now conjunction.now children.now) }
{
    let keywords = conjunction.keywords;
    let items = behind(conjunction.first, &keywords.additional);
    let prefix = behind(items, &keywords.rest);
    let most = (keywords.max_items, Keyword::MaxItems);
    let least = (keywords.min_items, Keyword::MinItems);
    length_causes(most, least, children.len(), found)?;
    front_causes(&keywords.prefix, prefix, children, known, found)?;
    if keywords.rest.is_some() {
        rest_causes(keywords.prefix.len(), items, children, known, found)?;
    }
    Ok(())
}
