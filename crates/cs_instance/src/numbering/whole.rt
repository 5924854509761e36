// The numbering of all that a package declares.
ghost use Rattle.std.specs.Prelude.{◌≡◌, ◌<◌, ℕ, List, All, Contains, IfOk, OnOk, length, map};
ghost use Rattle.cs_graph.specs.Chains.{On};
ghost use Rattle.cs_guard.specs.Numbered.{name_of};
ghost use Rattle.cs_guard.specs.Reachable.{referred_of};
ghost use Rattle.cs_package.specs.Environment.{declared_names};
ghost use Rattle.cs_instance.specs.Rooted.{IsNumberedWhole};

use crate::numbering::definitions::{Placement, by_rank, place_definitions};
use crate::numbering::inner::place_waiting;
use crate::rules::Rule;
use cs_guard::{Guarded, referred};
use cs_package::Package;
use cs_rules::Numbering;
use std::alloc::{AllocError, Global};

/// The numbers of all definitions. What each of them refers to is declared.
fn every(alloc: Global, package: &Package) -> Result<Vec<usize>, AllocError>
    ensures within { IfOk result (λ v. All (λ i. i < length «package».now) v.items) }
    ensures names { IfOk result
        (λ v. map (name_of «package».now) v.items ≡ declared_names «package».now) }
    ensures closed { OnOk result ((i : ℕ) (m : List ℕ) → i < length «package».now
        → Contains (referred_of «package».now (name_of «package».now i)) m
        → On m (declared_names «package».now)) }
{
    let count = package.count();
    let mut numbers = Vec::with_capacity(alloc, count)?;
    for i in 0..count {
        let _referred = referred(alloc, package, i)?; // for the proof: each is declared
        numbers.push(i)?;
    }
    Ok(numbers)
}

/// The rules of all definitions, each after those that it asks of the same document, and the number of each definition's.
pub(crate) fn numbering_of_all<'a>(
    alloc: Global,
    package: &'a Guarded,
) -> Result<(Numbering<Rule<'a>>, Vec<usize>), AllocError>
    ensures { IfOk result (λ t. IsNumberedWhole «package».now
        t.0.rules.items t.0.children.items t.1.items) }
{
    let order = every(alloc, package.package())?;
    let ranked = by_rank(alloc, package, &order)?;
    let Placement {
        numbers,
        mut numberer,
    } = place_definitions(alloc, package, &ranked)?;
    let children = place_waiting(alloc, &numbers, &mut numberer)?;
    let rules = numberer.rules;
    Ok((Numbering { rules, children }, numbers))
}
