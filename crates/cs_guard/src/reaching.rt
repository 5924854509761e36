// What is reachable from a definition.

ghost use Rattle.std.specs.Prelude.{◌≡◌, ◌<◌, All, IfOk, OnOk, Some, [], ◌∷◌, length, map, slice_get};
ghost use Rattle.cs_graph.specs.Chains.{Distinct};
ghost use Rattle.cs_guard.specs.Found.{Marked, Added};
ghost use Rattle.cs_guard.specs.Numbered.{name_of};
ghost use Rattle.cs_guard.specs.Reachable.{AreReachable, referred_of};

use crate::references::{Followed, references_of};
use cs_package::Package;
use std::alloc::{AllocError, Global};

/// Puts a number behind those that were found, unless it is one of them.
fn add(seen: &mut [bool], order: &mut Vec<usize>, number: usize) -> Result<(), AllocError>
    requires inside { number < length seen.old }
    requires marked { Marked seen.old order.old.items }
    ensures { OnOk result (Added (number ∷ []) seen.old order.old.items seen.new order.new.items) }
{
    if seen[number] {
        return Ok(());
    }
    seen[number] = true;
    order.push(number)?;
    Ok(())
}

/// The same of each of these numbers.
fn add_all(seen: &mut [bool], order: &mut Vec<usize>, numbers: &[usize]) -> Result<(), AllocError>
    requires inside { All (λ i. i < length seen.old) numbers.now }
    requires marked { Marked seen.old order.old.items }
    ensures { OnOk result (Added numbers.now seen.old order.old.items seen.new order.new.items) }
{
    for number in numbers {
        add(seen, order, *number)?;
    }
    Ok(())
}

/// The numbers of the definitions that the bodies of one refer to, at any depth and in order: one that is referred to again
/// comes again.
///
/// # Errors
/// `AllocError`, where memory runs out.
pub fn referred(alloc: Global, package: &Package, number: usize) -> Result<Vec<usize>, AllocError>
    requires { number < length «package».now }
    ensures names { IfOk result (λ v. map (name_of «package».now) v.items
        ≡ referred_of «package».now (name_of «package».now number)) }
    ensures within { IfOk result (λ v. All (λ i. i < length «package».now) v.items) }
{
    let numbers = references_of(alloc, Followed::Every, package.bodies(number))?;
    Ok(numbers)
}

/// The numbers of the definitions that are reachable from one by any reference, each once, that one first
/// (CUE, expressions). Its time is linear in the package.
///
/// # Errors
/// `AllocError`, where memory runs out.
pub fn reachable(alloc: Global, package: &Package, root: usize) -> Result<Vec<usize>, AllocError>
    requires { root < length «package».now }
    ensures found { IfOk result (λ v. AreReachable «package».now
        (name_of «package».now root) (map (name_of «package».now) v.items)) }
    ensures within { IfOk result (λ v. All (λ i. i < length «package».now) v.items) }
    ensures distinct { IfOk result (λ v. Distinct v.items) }
    ensures first { IfOk result (λ v. slice_get v.items 0 ≡ Some root) }
{
    let mut seen = vec![in alloc; false; package.count()]?;
    let mut order = Vec::new(alloc);
    add(&mut seen, &mut order, root)?;
    let mut next = 0;
    while next < order.len() {
        let references = references_of(alloc, Followed::Every, package.bodies(order[next]))?;
        add_all(&mut seen, &mut order, &references)?;
        next += 1;
    }
    Ok(order)
}
