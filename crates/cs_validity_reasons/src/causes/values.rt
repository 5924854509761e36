// Causes by keywords without schemas.
ghost use Rattle.std.specs.Prelude.{◌≡◌, ◌<◌, ◌++◌, length, int_le, int_lt, OnOk};
ghost use Rattle.cs_flat.specs.Listed.{values};
ghost use Rattle.cs_flat.specs.Nodes.{node_at};
ghost use Rattle.cs_flat.specs.View.{item_view};
ghost use Rattle.cs_profile.specs.Validity.{if_there};
ghost use Rattle.cs_rules.specs.Lengths.{TellsLength};
ghost use Rattle.cs_validity_reasons.specs.CauseLists.{unless, any_told, upper_told, lower_told, integer_told, length_told, text_told};

use crate::cause::PlacedCause;
use cs_flat::{Flat, Item};
use cs_profile::{Keyword, Keywords};
use cs_rules::Known;
use cs_validate::{Conjunction, has_kind, is_at_least_long, is_at_most_long, is_equal, is_listed};
use std::alloc::AllocError;

/// Adds a cause, unless what it is about holds.
pub(crate) fn tell_unless(
    holds: bool,
    cause: PlacedCause,
    found: &mut Vec<PlacedCause>,
) -> Result<(), AllocError>
    ensures { OnOk result (found.new.items
        ≡ found.old.items ++ unless holds cause) }
{
    if !holds {
        found.push(cause)?;
    }
    Ok(())
}

/// The causes by what keywords ask of a value of any kind (Validation, section 6.1).
pub(crate) fn any_causes(
    conjunction: &Conjunction<'_>,
    value: &Item<'_>,
    flat: &Flat<'_>,
    item: usize,
    found: &mut Vec<PlacedCause>,
) -> Result<(), AllocError>
    requires { item < length flat.now }
    ensures { OnOk result (found.new.items ≡ found.old.items
        ++ any_told conjunction.now (node_at (values flat.now) item) (item_view value.now)) }
{
    let keywords = conjunction.keywords;
    tell_unless(
        has_kind(keywords.kind, value),
        PlacedCause::Keyword(Keyword::Type),
        found,
    )?;
    tell_unless(
        is_equal(&keywords.equal, flat, item),
        PlacedCause::Keyword(Keyword::Const),
        found,
    )?;
    tell_unless(
        is_listed(&conjunction.one_of, flat, item),
        PlacedCause::Keyword(Keyword::Enum),
        found,
    )
}

/// The causes by the limits that an integer has not to exceed.
fn upper_causes(keywords: &Keywords, n: i64, found: &mut Vec<PlacedCause>) -> Result<(), AllocError>
    ensures { OnOk result (found.new.items ≡ found.old.items ++ upper_told keywords.now n) }
{
    let not_above = keywords.maximum.is_none_or(|limit| n <= limit);
    let below = keywords.below.is_none_or(|limit| n < limit);
    tell_unless(not_above, PlacedCause::Keyword(Keyword::Maximum), found)?;
    tell_unless(
        below,
        PlacedCause::Keyword(Keyword::ExclusiveMaximum),
        found,
    )
}

fn reaches_minimum(keywords: &Keywords, n: i64) -> bool
    ensures { result ≡ if_there (λ l. int_le l n) keywords.now.minimum }
{
    keywords.minimum.is_none_or(|limit| limit <= n)
}

fn is_above(keywords: &Keywords, n: i64) -> bool
    ensures { result ≡ if_there (λ l. int_lt l n) keywords.now.above }
{
    keywords.above.is_none_or(|limit| limit < n)
}

/// The causes by the limits that an integer has to reach.
fn lower_causes(keywords: &Keywords, n: i64, found: &mut Vec<PlacedCause>) -> Result<(), AllocError>
    ensures { OnOk result (found.new.items ≡ found.old.items ++ lower_told keywords.now n) }
{
    let minimum = PlacedCause::Keyword(Keyword::Minimum);
    let above = PlacedCause::Keyword(Keyword::ExclusiveMinimum);
    tell_unless(reaches_minimum(keywords, n), minimum, found)?;
    tell_unless(is_above(keywords, n), above, found)
}

/// The causes by what keywords ask of an integer (Validation, section 6.2).
pub(crate) fn integer_causes(
    keywords: &Keywords,
    n: i64,
    found: &mut Vec<PlacedCause>,
) -> Result<(), AllocError>
    ensures { OnOk result (found.new.items ≡ found.old.items ++ integer_told keywords.now n) }
{
    upper_causes(keywords, n, found)?;
    lower_causes(keywords, n, found)
}

/// The causes by the limits of a length, each with its keyword: how long something may be at most, and at least (Validation,
/// sections 6.3.1, 6.3.2, 6.4.1, 6.4.2, 6.5.1 and 6.5.2).
pub(crate) fn length_causes(
    most: (Option<i64>, Keyword),
    least: (Option<i64>, Keyword),
    length: usize,
    found: &mut Vec<PlacedCause>,
) -> Result<(), AllocError>
    ensures { OnOk result (found.new.items
        ≡ found.old.items ++ length_told most least length) }
{
    let is_short = is_at_most_long(most.0, length);
    let is_long = is_at_least_long(least.0, length);
    tell_unless(is_short, PlacedCause::Keyword(most.1), found)?;
    tell_unless(is_long, PlacedCause::Keyword(least.1), found)
}

/// The causes by what keywords ask of a text (Validation, section 6.3). Its characters are counted only where one of them asks
/// how many.
pub(crate) fn text_causes(
    keywords: &Keywords,
    text: &str,
    known: &Known<'_>,
    found: &mut Vec<PlacedCause>,
) -> Result<(), AllocError>
    requires { TellsLength known.now.lengths.now known.now.item text.now }
    ensures { OnOk result (found.new.items
        ≡ found.old.items ++ text_told keywords.now text.now) }
{
    if keywords.max_length.is_none() && keywords.min_length.is_none() {
        return Ok(());
    }
    let most = (keywords.max_length, Keyword::MaxLength);
    let least = (keywords.min_length, Keyword::MinLength);
    length_causes(most, least, known.text_length(text), found)
}
