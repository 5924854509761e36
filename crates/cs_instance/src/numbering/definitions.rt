// Numbers for definitions, each after those that its bodies refer to directly.
ghost use Rattle.std.specs.Prelude.{◌≡◌, ◌<◌, ◌++◌, ℕ, List, [], ◌∷◌, map, length, All, IfOk, OnOk};
ghost use Rattle.std.specs.List.{AllByRecursion};
ghost use Rattle.std.specs.List.Sorted.{IsPermutation, IsNonDecreasingBy};
ghost use Rattle.cs_guard.specs.Numbered.{name_of};
ghost use Rattle.cs_instance.specs.Ranked.{IsRank, AreRanked, RefersBack, ArePlacedBy, names_in};

use crate::numbering::expressions::place_all;
use crate::rules::Rule;
use cs_guard::Guarded;
use cs_package::Shape;
use cs_rules::Numberer;
use std::alloc::{AllocError, Global};

/// The numbers of the definitions that have some, and the rules so far with what waits for a number.
#[derive(Drop)]
pub(crate) struct Placement<'a> {
    pub(crate) numbers: Vec<usize>,
    pub(crate) numberer: Numberer<'a, Shape, Rule<'a>>,
}

fn with_ranks(
    alloc: Global,
    package: &Guarded,
    order: &[usize],
) -> Result<Vec<(usize, usize)>, AllocError>
    requires { All (λ i. i < length «package».now) order.now }
    ensures numbers { IfOk result (λ v. map (λ d. d.1) v.items ≡ order.now) }
    ensures ranks { IfOk result (λ v. AllByRecursion (λ d. IsRank «package».now d.1 d.0) v.items) }
{
    let mut ranked = Vec::with_capacity(alloc, order.len())?;
    for number in order {
        let i = *number;
        ranked.push((package.rank(i), i))?;
    }
    Ok(ranked)
}

/// Definitions, each with its rank before its number, by rank. A direct reference is strong, so it goes to a lower rank.
pub(crate) fn by_rank(
    alloc: Global,
    package: &Guarded,
    order: &[usize],
) -> Result<Vec<(usize, usize)>, AllocError>
    requires { All (λ i. i < length «package».now) order.now }
    ensures same { IfOk result (λ v. IsPermutation order.now (map (λ d. d.1) v.items)) }
    ensures ranks { IfOk result (λ v. All (λ d. IsRank «package».now d.1 d.0) v.items) }
    ensures sorted { IfOk result (λ v. IsNonDecreasingBy (λ d. d.0) v.items) }
{
    let mut ranked = with_ranks(alloc, package, order)?;
    ranked.sort_unstable_by_key(|definition| definition.0);
    Ok(ranked)
}

/// Numbers a definition after what its bodies ask of the same document.
fn place_definition<'a>(
    alloc: Global,
    package: &'a Guarded,
    i: usize,
    placement: &mut Placement<'a>,
) -> Result<(), AllocError>
    requires inside { i < length «package».now }
    requires numbers { length placement.old.numbers.items ≡ length «package».now }
    ensures { OnOk result ((ns : List (List ℕ)) → ArePlacedBy «package».now ns placement.old
        → RefersBack «package».now ns (name_of «package».now i)
        → ArePlacedBy «package».now (ns ++ name_of «package».now i ∷ []) placement.new) }
{
    let package = package.package();
    let _count = package.count(); // for the proof: names are distinct
    let _name = package.bare_name(i); // for the proof: it isn't empty
    let bodies = package.bodies(i);
    let parts = place_all(alloc, bodies, &placement.numbers, &mut placement.numberer)?;
    let number = placement.numberer.put(Rule::All(parts))?;
    placement.numbers[i] = number;
    Ok(())
}

/// Numbers definitions in this order.
pub(crate) fn place_definitions<'a>(
    alloc: Global,
    package: &'a Guarded,
    ranked: &[(usize, usize)],
) -> Result<Placement<'a>, AllocError>
    requires { AreRanked «package».now ranked.now }
    ensures { IfOk result (ArePlacedBy «package».now (names_in «package».now ranked.now)) }
{
    let mut placement = Placement {
        numbers: vec![in alloc; 0; package.package().count()]?,
        numberer: Numberer {
            rules: Vec::new(alloc),
            pending: Vec::new(alloc),
        },
    };
    for definition in ranked {
        let (_rank, i) = *definition;
        place_definition(alloc, package, i, &mut placement)?;
    }
    Ok(placement)
}
