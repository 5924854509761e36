// The numbering of what a root reaches.
ghost use Rattle.std.specs.Prelude.{◌<◌, length, IfOk};
ghost use Rattle.cs_guard.specs.Numbered.{name_of};
ghost use Rattle.cs_instance.specs.Rooted.{IsRooted};

use crate::numbering::definitions::{Placement, by_rank, place_definitions};
use crate::numbering::inner::place_waiting;
use crate::rules::Rule;
use cs_guard::{Guarded, reachable};
use cs_rules::Numbering;
use std::alloc::{AllocError, Global};

/// The rules of all that a definition reaches, each after those that it asks of the same document, and its own number.
pub(crate) fn numbering_of<'a>(
    alloc: Global,
    package: &'a Guarded,
    root: usize,
) -> Result<(Numbering<Rule<'a>>, usize), AllocError>
    requires { root < length «package».now }
    ensures { IfOk result (λ t. IsRooted «package».now (name_of «package».now root)
        t.0.rules.items t.0.children.items t.1) }
{
    let order = reachable(alloc, package.package(), root)?;
    let ranked = by_rank(alloc, package, &order)?;
    let Placement {
        numbers,
        mut numberer,
    } = place_definitions(alloc, package, &ranked)?;
    let children = place_waiting(alloc, &numbers, &mut numberer)?;
    let rules = numberer.rules;
    let number = numbers[root];
    Ok((Numbering { rules, children }, number))
}
