// A guarded package.
ghost use Rattle.std.specs.Prelude.{◌≡◌, ◌<◌, ℕ, List, map, length, string_bytes, All, Contains, IfOk, IfErr, OnOk, IfSome, IsOkUnless};
ghost use Rattle.std.specs.List.{IsDistinct};
ghost use Rattle.std.specs.Str.{bytes_eq};
ghost use Rattle.cs_package.specs.Environment.{declared_names, name_at, written};
ghost use Rattle.cs_graph.specs.Chains.{NoCycle};
ghost use Rattle.cs_graph.specs.Graph.{graph_of, Refers, AreHeights};
ghost use Rattle.cs_guard.specs.Numbered.{IsGraphOf, name_of};
ghost use Rattle.cs_guard.specs.Cycles.{IsCycle, IsRefusal};
ghost use Rattle.cs_guard.specs.Ranks.{AreRanks};
ghost use Rattle.cs_guard.specs.References.{strong_of};
ghost use Rattle.cs_guard.specs.Guarded.{IsGuarded, IsHeight};

use crate::GuardFault;
use crate::chain::{first_too_long, long_chain};
use crate::references::graph_of_package;
use cs_graph::{GraphFault, heights};
use cs_package::Package;
use std::alloc::{AllocError, Global};
use std::marker::Model;

/// A package without a cycle of strong references and without a chain of more than 64 of them.
pub struct Guarded {
    package: Package,
    ranks: Vec<usize>,
}

impl Drop for Guarded {
    fn drop(self) {
        let Guarded {
            package: _,
            ranks: _,
        } = self;
    }
}

impl Model for Guarded {
    ghost use Rattle.cs_package.specs.Environment.{Environment};
    ghost use Rattle.cs_package.specs.Code.{coded_environment};
    ghost use Rattle.cs_guard.specs.Ranks.{AreRanks};

    ghost Value = { Environment };

    ghost coded = { coded_environment };

    ghost view = { λ g. g.package };

    ghost invariant = { λ g. AreRanks g.package g.ranks.items };
}

impl Guarded {
    /// The package.
    pub fn package(&self) -> &Package
        ensures kept { result.now ≡ self.now }
        ensures guarded { IsGuarded self.now }
    {
        &self.package
    }

    /// The rank of a definition: the length of the longest chain of strong references from it. So it is above
    /// the rank of each definition that it refers to strongly.
    pub fn rank(&self, i: usize) -> usize
        requires { i < length self.now }
        ensures height { IfSome (name_at self.now i) (λ n. IsHeight self.now n result) }
        ensures falls { IfSome (name_at self.now i) (λ n. (m : List ℕ) (h : ℕ)
            → Contains (strong_of self.now n) m → IsHeight self.now m h → h < result) }
    {
        self.ranks[i]
    }
}

/// The package, where its recursion is guarded: no cycle of strong references, and no chain of more than 64 of them
/// (CUE, structural cycles).
///
/// # Errors
/// `Cycle`, with the names of a cycle as CUE writes them: each refers strongly to the next and the last to the first,
/// no name comes twice, and the one that is declared first comes first. `ChainTooLong`, only where there is no cycle, with
/// the names of a chain, each of which refers strongly to the next: the longest one from the first definition from which one
/// is too long.
pub fn guard(alloc: Global, package: Package) -> Result<Guarded, GuardFault>
    ensures found { IfOk result (λ g. g ≡ «package») }
    ensures guarded { OnOk result (IsGuarded «package») }
    ensures refused { IfErr result (λ e. IsRefusal e «package») }
    ensures only { IsGuarded «package» → IsOkUnless result GuardFault.OutOfMemory }
{
    let ranks = ranks_of(alloc, &package)?;
    Ok(Guarded { package, ranks })
}

/// The ranks of the definitions of a package, where its recursion is guarded.
fn ranks_of(alloc: Global, package: &Package) -> Result<Vec<usize>, GuardFault>
    ensures ranks { IfOk result (λ v. AreRanks «package».now v.items) }
    ensures refused { IfErr result (λ e. IsRefusal e «package».now) }
    ensures only { IsGuarded «package».now → IsOkUnless result GuardFault.OutOfMemory }
{
    let graph = graph_of_package(alloc, package)?;
    match heights(alloc, &graph) {
        Ok(ranks) => short_ranks(alloc, package, &graph, ranks),
        Err(GraphFault::OutOfMemory) => Err(GuardFault::OutOfMemory),
        Err(GraphFault::Cycle { numbers }) => Err(cycle_fault(alloc, package, &numbers)),
    }
}

/// The heights of a graph without a cycle, where none of its chains is too long.
fn short_ranks(
    alloc: Global,
    package: &Package,
    graph: &Vec<Vec<usize>>,
    ranks: Vec<usize>,
) -> Result<Vec<usize>, GuardFault>
    requires graph { IsGraphOf «package».now (graph_of graph.now.items) }
    requires distinct { IsDistinct bytes_eq (declared_names «package».now) }
    requires heights { AreHeights (graph_of graph.now.items) ranks.items }
    requires acyclic { NoCycle (Refers (graph_of graph.now.items)) }
    ensures ranks { IfOk result (λ v. AreRanks «package».now v.items) }
    ensures refused { IfErr result (λ e. IsRefusal e «package».now) }
    ensures only { IsGuarded «package».now → IsOkUnless result GuardFault.OutOfMemory }
{
    match first_too_long(&ranks) {
        None => Ok(ranks),
        Some(first) => Err(long_chain(alloc, package, graph, &ranks, first)?),
    }
}

/// The fault of a package with a cycle of definitions; that memory ran out, where it did for their names.
fn cycle_fault(alloc: Global, package: &Package, numbers: &[usize]) -> GuardFault
    requires inside { All (λ i. i < length «package».now) numbers.now }
    requires cycle { IsCycle «package».now (map (name_of «package».now) numbers.now) }
    ensures { IsRefusal result «package».now }
{
    match names_of(alloc, package, numbers) {
        Ok(names) => GuardFault::Cycle { names },
        Err(AllocError) => GuardFault::OutOfMemory,
    }
}

/// The names of definitions, as CUE writes them.
pub(crate) fn names_of(
    alloc: Global,
    package: &Package,
    numbers: &[usize],
) -> Result<Vec<String>, AllocError>
    requires { All (λ i. i < length «package».now) numbers.now }
    ensures { IfOk result (λ v. map string_bytes v.items
        ≡ map (λ i. written (name_of «package».now i)) numbers.now) }
{
    let mut names = Vec::with_capacity(alloc, numbers.len())?;
    for number in numbers {
        names.push(String::from_str(alloc, package.name(*number))?)?;
    }
    Ok(names)
}
