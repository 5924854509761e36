// Chains of references that are too long, by the heights.
ghost use Rattle.std.specs.Prelude.{◌≡◌, ◌≢◌, ℕ, suc, ◌<◌, ◌≤◌, All, IfOk, OnOk, MatchOption, length, slice_index};
ghost use Rattle.std.specs.List.{IsDistinct};
ghost use Rattle.std.specs.Str.{bytes_eq};
ghost use Rattle.cs_package.specs.Environment.{declared_names};
ghost use Rattle.cs_graph.specs.Chains.{NoCycle};
ghost use Rattle.cs_graph.specs.Graph.{graph_of, Refers, Within, AreHeights};
ghost use Rattle.cs_guard.specs.Cycles.{IsRefusal};
ghost use Rattle.cs_guard.specs.Descent.{IsDescent};
ghost use Rattle.cs_guard.specs.Guarded.{IsGuarded};
ghost use Rattle.cs_guard.specs.Limits.{most_references};
ghost use Rattle.cs_guard.specs.Numbered.{IsGraphOf};

use crate::GuardFault;
use crate::guarded::names_of;
use cs_package::Package;
use std::alloc::{AllocError, Global};

/// The most references that a chain may have.
const MOST_REFERENCES: usize = 64;

/// The first number from which a chain has more references than it may have, by the lengths of the longest ones.
pub(crate) fn first_too_long(heights: &Vec<usize>) -> Option<usize>
    ensures { MatchOption result (All (λ h. h ≤ most_references) heights.now.items)
        (λ n. (n < length heights.now.items)
        × (most_references < slice_index heights.now.items n)) }
{
    for place in 0..heights.len() {
        if heights[place] > MOST_REFERENCES {
            return Some(place);
        }
    }
    None
}

/// The fault of a package with a chain that is too long: the longest one from a number.
pub(crate) fn long_chain(
    alloc: Global,
    package: &Package,
    graph: &Vec<Vec<usize>>,
    heights: &Vec<usize>,
    first: usize,
) -> Result<GuardFault, AllocError>
    requires graph { IsGraphOf «package».now (graph_of graph.now.items) }
    requires distinct { IsDistinct bytes_eq (declared_names «package».now) }
    requires heights { AreHeights (graph_of graph.now.items) heights.now.items }
    requires acyclic { NoCycle (Refers (graph_of graph.now.items)) }
    requires first { first < length heights.now.items }
    requires long { most_references < slice_index heights.now.items first }
    ensures refused { IfOk result (λ e. IsRefusal e «package».now) }
    ensures unguarded { OnOk result (¬ IsGuarded «package».now) }
{
    let chain = chain_from(alloc, graph, heights, first)?;
    let names = names_of(alloc, package, &chain)?;
    Ok(GuardFault::ChainTooLong { names })
}

/// The longest chain of references from a number: each refers to the next, which is one lower, and from the last one there
/// is none.
fn chain_from(
    alloc: Global,
    graph: &Vec<Vec<usize>>,
    heights: &Vec<usize>,
    first: usize,
) -> Result<Vec<usize>, AllocError>
    requires within { Within (graph_of graph.now.items) }
    requires heights { AreHeights (graph_of graph.now.items) heights.now.items }
    requires first { first < length heights.now.items }
    ensures { IfOk result
        (λ v. IsDescent (graph_of graph.now.items) heights.now.items first v.items) }
{
    let mut numbers = Vec::new(alloc);
    numbers.push(first)?;
    let mut last = first;
    while let Some(next) = next_below(graph, heights, last) {
        numbers.push(next)?;
        last = next;
    }
    Ok(numbers)
}

/// The first number that one refers to and that is one lower, if there is one.
fn next_below(graph: &Vec<Vec<usize>>, heights: &Vec<usize>, number: usize) -> Option<usize>
    requires within { Within (graph_of graph.now.items) }
    requires long { length heights.now.items ≡ length graph.now.items }
    requires inside { number < length heights.now.items }
    ensures { MatchOption result
        ((m : ℕ) → Refers (graph_of graph.now.items) number m
        → suc (slice_index heights.now.items m) ≢ slice_index heights.now.items number)
        (λ m. Refers (graph_of graph.now.items) number m
        × (suc (slice_index heights.now.items m) ≡ slice_index heights.now.items number)) }
{
    let below = heights[number].checked_sub(1)?;
    let references = graph[number].as_slice();
    for place in 0..references.len() {
        let next = references[place];
        if heights[next] == below {
            return Some(next);
        }
    }
    None
}
