// Why a value isn't valid by a schema, where the verdicts on the schema's parts are known.
ghost use Rattle.std.specs.Prelude.{◌≡◌, ◌<◌, ◌++◌, length, OnOk};
ghost use Rattle.cs_flat.specs.Listed.{values};
ghost use Rattle.cs_flat.specs.Nodes.{node_at};
ghost use Rattle.cs_table.specs.Judged.{verdicts};
ghost use Rattle.cs_validity_reasons.specs.CauseLists.{kind_told, object_told};
ghost use Rattle.cs_document.specs.Inside.{AscendsInside, InsideBelow};
ghost use Rattle.cs_flat.specs.View.{item_view};
ghost use Rattle.cs_rules.specs.Knowns.{value_count, rule_count, place_count};
ghost use Rattle.cs_validate.specs.Asked.{TellsOf, AreBelowHere, AreBelowInside};

mod here;
mod lists;
mod maps;
pub(crate) mod values;

use crate::cause::PlacedCause;
use crate::causes::here::here_causes;
use crate::causes::lists::list_causes;
use crate::causes::maps::map_causes;
use crate::causes::values::{any_causes, integer_causes, text_causes};
use cs_flat::{Flat, Item};
use cs_rules::Known;
use cs_validate::Conjunction;
use std::alloc::AllocError;

/// The causes by keywords that ask something of values of the value's kind alone.
fn kind_causes(
    conjunction: &Conjunction<'_>,
    value: &Item<'_>,
    known: &Known<'_>,
    found: &mut Vec<PlacedCause>,
) -> Result<(), AllocError>
    requires parts { AreBelowInside (place_count known.now) conjunction.now }
    requires ascends { AscendsInside (item_view value.now) }
    requires children { InsideBelow (value_count known.now) (item_view value.now) }
    requires length { TellsOf known.now (item_view value.now) }
    ensures { OnOk result (found.new.items ≡ found.old.items ++ kind_told (verdicts known.now.done.now) known.now.children.now conjunction.now (item_view value.now)) }
{
    match value {
        Item::Int(n) => integer_causes(conjunction.keywords, *n, found),
        Item::Text(text) => text_causes(conjunction.keywords, text, known, found),
        Item::List(children) => list_causes(conjunction, children, known, found),
        Item::Object(members) => map_causes(conjunction, members, known, found),
        Item::Null | Item::Bool(_) => Ok(()),
    }
}

/// Adds why a value isn't valid by the keywords of an object: for each, what isn't so of what it asks.
pub(crate) fn object_causes(
    conjunction: &Conjunction<'_>,
    value: &Item<'_>,
    flat: &Flat<'_>,
    known: &Known<'_>,
    found: &mut Vec<PlacedCause>,
) -> Result<(), AllocError>
    requires item { known.now.item < length flat.now }
    requires here { AreBelowHere (rule_count known.now) conjunction.now }
    requires inside { AreBelowInside (place_count known.now) conjunction.now }
    requires ascends { AscendsInside (item_view value.now) }
    requires children { InsideBelow (value_count known.now) (item_view value.now) }
    requires length { TellsOf known.now (item_view value.now) }
    ensures { OnOk result (found.new.items ≡ found.old.items ++ object_told (verdicts known.now.done.now) known.now.children.now known.now.item (node_at (values flat.now) known.now.item) (item_view value.now) conjunction.now) }
{
    any_causes(conjunction, value, flat, known.item, found)?;
    here_causes(conjunction, known, found)?;
    kind_causes(conjunction, value, known, found)
}
