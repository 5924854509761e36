// Parts that are asked of the value itself.
ghost use Rattle.std.specs.Prelude.{◌≡◌, ◌++◌, ◌<◌, OnOk};
ghost use Rattle.std.specs.List.{AllByRecursion};
ghost use Rattle.cs_table.specs.Judged.{verdicts};
ghost use Rattle.cs_rules.specs.Knowns.{verdict_here, rule_count};
ghost use Rattle.cs_instance_reasons.specs.CauseLists.{part_causes, alternative_causes};

use crate::InstanceCause;
use cs_rules::Known;
use std::alloc::AllocError;

/// Tells of each rule that is asked together with others and refuses the value.
pub(super) fn tell_parts(
    parts: &[usize],
    known: &Known<'_>,
    number: usize,
    found: &mut Vec<InstanceCause>,
) -> Result<(), AllocError>
    requires { AllByRecursion (λ q. q < rule_count known.now) parts.now }
    ensures { OnOk result (found.new.items ≡ found.old.items
        ++ part_causes (verdict_here known.now)
        (verdicts known.now.done.now) known.now.item number parts.now) }
{
    for (place, part) in parts.iter().enumerate() {
        let (item, rule) = (known.item, *part);
        let holds = known.here(rule);
        if !holds {
            found.push(InstanceCause::Part { item, rule, place })?;
        }
    }
    Ok(())
}

/// Tells of each alternative, all of which refuse the value, or that there is none.
pub(super) fn tell_alternatives(
    alternatives: &[usize],
    known: &Known<'_>,
    number: usize,
    found: &mut Vec<InstanceCause>,
) -> Result<(), AllocError>
    requires { AllByRecursion (λ q. q < rule_count known.now) alternatives.now }
    ensures { OnOk result (found.new.items ≡ found.old.items
        ++ alternative_causes (verdict_here known.now)
        (verdicts known.now.done.now) known.now.item number
        alternatives.now) }
{
    if alternatives.is_empty() {
        found.push(InstanceCause::NoAlternative)?;
        return Ok(());
    }
    for (place, alternative) in alternatives.iter().enumerate() {
        let (item, rule) = (known.item, *alternative);
        let admits = known.here(rule);
        if !admits {
            found.push(InstanceCause::Alternative { item, rule, place })?;
        }
    }
    Ok(())
}
