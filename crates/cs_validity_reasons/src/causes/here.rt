// Causes by schemas that are asked of the value itself.
ghost use Rattle.std.specs.Prelude.{◌≡◌, ◌++◌, option_to_list, OnOk};
ghost use Rattle.cs_table.specs.Judged.{verdicts};
ghost use Rattle.cs_validity_reasons.specs.CauseLists.{each_from, reference_told, part_told, alternatives_told, negation_told, here_told};
ghost use Rattle.cs_rules.specs.Knowns.{rule_count};
ghost use Rattle.cs_validate.specs.Asked.{AreBelow, AreBelowHere, ReferenceBelow};

use crate::cause::PlacedCause;
use crate::causes::values::tell_unless;
use cs_profile::Keyword;
use cs_rules::Known;
use cs_validate::Conjunction;
use std::alloc::AllocError;

/// The cause by `$ref`, if it is there: the definition that it names, or that there is none (Core, section 8.2.3.1).
fn reference_cause(
    conjunction: &Conjunction<'_>,
    known: &Known<'_>,
    found: &mut Vec<PlacedCause>,
) -> Result<(), AllocError>
    requires parts { ReferenceBelow (rule_count known.now) conjunction.now }
    ensures { OnOk result (found.new.items ≡ found.old.items ++ reference_told (verdicts known.now.done.now) known.now.item conjunction.now.keywords.now.reference conjunction.now.reference) }
{
    let item = known.item;
    match (&conjunction.keywords.reference, conjunction.reference) {
        (None, _) => {}
        (Some(_), None) => found.push(PlacedCause::Keyword(Keyword::Ref))?,
        (Some(_), Some(rule)) => {
            tell_unless(
                known.here(rule),
                PlacedCause::Reference { item, rule },
                found,
            )?;
        }
    }
    Ok(())
}

/// The causes by `allOf`: the schemas that don't hold (Core, section 10.2.1.1).
fn part_causes(
    all_of: &[usize],
    known: &Known<'_>,
    found: &mut Vec<PlacedCause>,
) -> Result<(), AllocError>
    requires { AreBelow (rule_count known.now) all_of.now }
    ensures { OnOk result (found.new.items ≡ found.old.items ++ each_from (part_told (verdicts known.now.done.now) known.now.item) 0 all_of.now) }
{
    let item = known.item;
    for (place, part) in all_of.iter().enumerate() {
        let rule = *part;
        let cause = PlacedCause::Part { item, rule, place };
        tell_unless(known.here(rule), cause, found)?;
    }
    Ok(())
}

/// The causes by `anyOf`, of which none holds: each of its schemas (Core, section 10.2.1.2).
fn alternative_causes(
    any_of: &[usize],
    known: &Known<'_>,
    found: &mut Vec<PlacedCause>,
) -> Result<(), AllocError>
    requires { AreBelow (rule_count known.now) any_of.now }
    ensures { OnOk result (found.new.items ≡ found.old.items ++ alternatives_told (verdicts known.now.done.now) known.now.item any_of.now) }
{
    if known.any(any_of) {
        return Ok(());
    }
    let item = known.item;
    for (place, part) in any_of.iter().enumerate() {
        let rule = *part;
        found.push(PlacedCause::Alternative { item, rule, place })?;
    }
    Ok(())
}

/// The cause by `not`, if it is there: its schema holds (Core, section 10.2.1.4).
fn negation_cause(
    negated: Option<usize>,
    known: &Known<'_>,
    found: &mut Vec<PlacedCause>,
) -> Result<(), AllocError>
    requires { AreBelow (rule_count known.now) (option_to_list negated) }
    ensures { OnOk result (found.new.items ≡ found.old.items ++ negation_told (verdicts known.now.done.now) known.now.item negated) }
{
    match negated {
        Some(part) => tell_unless(!known.here(part), PlacedCause::Keyword(Keyword::Not), found),
        None => Ok(()),
    }
}

/// The causes by schemas that are asked of the value itself (Core, sections 8.2.3.1 and 10.2.1).
pub(crate) fn here_causes(
    conjunction: &Conjunction<'_>,
    known: &Known<'_>,
    found: &mut Vec<PlacedCause>,
) -> Result<(), AllocError>
    requires { AreBelowHere (rule_count known.now) conjunction.now }
    ensures { OnOk result (found.new.items ≡ found.old.items ++ here_told (verdicts known.now.done.now) known.now.item conjunction.now) }
{
    reference_cause(conjunction, known, found)?;
    part_causes(&conjunction.all_of, known, found)?;
    alternative_causes(&conjunction.any_of, known, found)?;
    negation_cause(conjunction.negated, known, found)
}
