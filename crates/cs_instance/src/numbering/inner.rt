// Numbers for what waits, once the definitions have theirs.
ghost use Rattle.std.specs.Prelude.{◌≡◌, ℕ, List, length, IfOk};
ghost use Rattle.cs_package.specs.Environment.{Environment};
ghost use Rattle.cs_instance.specs.Instance as meaning;
ghost use Rattle.cs_instance.specs.Placing.{waiting, AreNumberedBy, AreKnownIn, PlacesWaiting};

use crate::numbering::expressions::place;
use crate::rules::Rule;
use cs_package::Shape;
use cs_rules::Numberer;
use std::alloc::{AllocError, Global};

/// Numbers what waits, and what that leaves to wait, until nothing does. Answers the numbers in the order of waiting.
pub(crate) fn place_waiting<'a>(
    alloc: Global,
    numbers: &[usize],
    numberer: &mut Numberer<'a, Shape, Rule<'a>>,
) -> Result<Vec<usize>, AllocError>
    ensures all { IfOk result (λ v. length v.items ≡ length numberer.new.pending.items) }
    ensures placed { IfOk result (λ v. (E : Environment) (names : List (List ℕ))
        (placed : List meaning.Rule) → AreNumberedBy E names placed numberer.old
        → AreKnownIn names numbers.now placed (waiting names numberer.old)
        → PlacesWaiting E names numbers.now placed numberer.old numberer.new v.items) }
{
    let mut inner = Vec::new(alloc);
    while inner.len() < numberer.pending.len() {
        let shape = numberer.pending[inner.len()];
        let number = place(alloc, shape, numbers, numberer)?;
        inner.push(number)?;
    }
    Ok(inner)
}
