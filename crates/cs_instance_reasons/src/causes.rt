// Why a rule refuses a value, where the verdicts on the rule's parts are known.
ghost use Rattle.std.specs.Prelude.{◌≡◌, ◌++◌, [], ◌∷◌, OnOk};
ghost use Rattle.cs_document.specs.Inside.{AscendsInside, InsideBelow};
ghost use Rattle.cs_flat.specs.View.{item_view};
ghost use Rattle.cs_table.specs.Judged.{verdicts};
ghost use Rattle.cs_rules.specs.Knowns.{verdict_here, value_count, rule_count, place_count};
ghost use Rattle.cs_instance_reasons.specs.CauseLists.{causes_of};
ghost use Rattle.cs_instance.specs.Numbering.{PartsBelow};
ghost use Rattle.cs_instance.specs.Steps.{asked_of, numbered};

mod elements;
mod members;
mod parts;

use crate::InstanceCause;
use crate::causes::elements::tell_elements;
use crate::causes::members::tell_fields;
use crate::causes::parts::{tell_alternatives, tell_parts};
use cs_flat::Item;
use cs_instance::Rule;
use cs_rules::Known;
use std::alloc::AllocError;

/// Tells why the rule of a number refuses a value: of what it asks, each part that isn't so.
pub(crate) fn tell_causes(
    rule: &Rule<'_>,
    value: &Item<'_>,
    known: &Known<'_>,
    number: usize,
    found: &mut Vec<InstanceCause>,
) -> Result<(), AllocError>
    requires parts { PartsBelow (rule_count known.now) (place_count known.now) (asked_of rule.now) }
    requires ascends { AscendsInside (item_view value.now) }
    requires children { InsideBelow (value_count known.now) (item_view value.now) }
    ensures { OnOk result (found.new.items ≡ found.old.items ++ causes_of (verdict_here known.now)
        (verdicts known.now.done.now) known.now.item number (numbered known.now.children.now rule.now)
        (item_view value.now)) }
{
    match rule {
        Rule::Simple(_) => tell_unmet(found),
        Rule::All(parts) => tell_parts(parts, known, number, found),
        Rule::Any(alternatives) => tell_alternatives(alternatives, known, number, found),
        Rule::Struct { fields, opened } => match value {
            Item::Object(members) => tell_fields(fields, *opened, members, known, number, found),
            Item::Null | Item::Bool(_) | Item::Int(_) | Item::Text(_) | Item::List(_) => {
                tell_unmet(found)
            }
        },
        Rule::List { front, end } => match value {
            Item::List(children) => tell_elements(front, end, children, known, number, found),
            Item::Null | Item::Bool(_) | Item::Int(_) | Item::Text(_) | Item::Object(_) => {
                tell_unmet(found)
            }
        },
    }
}

/// The value itself isn't what is asked.
fn tell_unmet(found: &mut Vec<InstanceCause>) -> Result<(), AllocError>
    ensures { OnOk result (found.new.items ≡ found.old.items ++ InstanceCause.Unmet ∷ []) }
{
    found.push(InstanceCause::Unmet)?;
    Ok(())
}
