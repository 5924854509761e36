// What a list literal asks of the elements of a list.
ghost use Rattle.std.specs.Prelude.{◌≡◌, ◌++◌, ◌<◌, map, slice_index, OnOk};
ghost use Rattle.std.specs.List.{AllByRecursion};
ghost use Rattle.cs_document.specs.Opened.{a_list};
ghost use Rattle.cs_table.specs.Judged.{verdicts};
ghost use Rattle.cs_rules.specs.Knowns.{verdict_here, value_count, place_count};
ghost use Rattle.cs_instance_reasons.specs.CauseLists as lists;
ghost use Rattle.cs_instance_reasons.specs.CauseLists.{element_causes, list_causes};
ghost use Rattle.cs_instance.specs.Numbering.{RestBelow, map_rest};
ghost use Rattle.cs_instance.specs.Steps.{ending_of};

use crate::InstanceCause;
use cs_instance::Ending;
use cs_rules::Known;
use std::alloc::AllocError;

/// Tells of each element that is refused at its place, and whether there are too few or too many.
pub(super) fn tell_elements(
    front: &[usize],
    end: &Ending,
    children: &[usize],
    known: &Known<'_>,
    number: usize,
    found: &mut Vec<InstanceCause>,
) -> Result<(), AllocError>
    requires children { AllByRecursion (λ y. y < value_count known.now) children.now }
    requires front { AllByRecursion (λ p. p < place_count known.now) front.now }
    requires end { RestBelow (place_count known.now) (ending_of end.now) }
    ensures { OnOk result (found.new.items ≡ found.old.items ++ list_causes (verdict_here known.now)
        (verdicts known.now.done.now) known.now.item number
        (map (slice_index known.now.children.now) front.now)
        (map_rest (slice_index known.now.children.now) (ending_of end.now))
        (a_list children.now)) }
{
    tell_refused(front, end, children, known, number, found)?;
    if children.len() < front.len() {
        found.push(InstanceCause::Few)?;
    }
    if matches!(end, Ending::Closed) && front.len() < children.len() {
        found.push(InstanceCause::Many)?;
    }
    Ok(())
}

/// What is asked of the element at a place, as a place itself.
fn asked_at(front: &[usize], end: &Ending, place: usize) -> Option<usize>
    ensures { result ≡ lists.asked_at front.now (ending_of end.now) place }
{
    match front.get(place) {
        Some(part) => Some(*part),
        None => match end {
            Ending::Closed | Ending::Any => None,
            Ending::Each(part) => Some(*part),
        },
    }
}

fn tell_refused(
    front: &[usize],
    end: &Ending,
    children: &[usize],
    known: &Known<'_>,
    number: usize,
    found: &mut Vec<InstanceCause>,
) -> Result<(), AllocError>
    requires children { AllByRecursion (λ y. y < value_count known.now) children.now }
    requires front { AllByRecursion (λ p. p < place_count known.now) front.now }
    requires end { RestBelow (place_count known.now) (ending_of end.now) }
    ensures { OnOk result (found.new.items ≡ found.old.items ++ element_causes (verdict_here known.now)
        (verdicts known.now.done.now) known.now.item number
        (map (slice_index known.now.children.now) front.now)
        (map_rest (slice_index known.now.children.now) (ending_of end.now)) children.now) }
{
    for (place, child) in children.iter().enumerate() {
        let item = *child;
        match asked_at(front, end, place) {
            None => {}
            Some(part) => {
                if !known.inside(item, part) {
                    found.push(InstanceCause::Element {
                        place,
                        item,
                        rule: known.children[part],
                    })?;
                }
            }
        }
    }
    Ok(())
}
