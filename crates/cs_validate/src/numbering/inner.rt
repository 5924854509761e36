// Numbers for what waits, once the definitions have theirs.
ghost use Rattle.std.specs.Prelude.{◌≡◌, ℕ, List, length, IfOk};
ghost use Rattle.cs_document.specs.Document.{Document};
ghost use Rattle.cs_validate.specs.Placing.{waiting, AreNumberedBy, IsKnown};
ghost use Rattle.cs_validate.specs.Ranked.{PlacesWaiting};

use crate::numbering::numbers::Numbers;
use crate::numbering::place;
use crate::rules::Rule;
use cs_profile::Schema;
use cs_rules::Numberer;
use std::alloc::{AllocError, Global};

/// Numbers what waits, and what that leaves to wait, until nothing does. Answers the numbers in the order of waiting.
pub(crate) fn place_waiting<'a>(
    alloc: Global,
    numbers: &Numbers<'_>,
    numberer: &mut Numberer<'a, Schema, Rule<'a>>,
) -> Result<Vec<usize>, AllocError>
    ensures all { IfOk result (λ v. length v.items ≡ length numberer.new.pending.items) }
    ensures placed { IfOk result (λ v. (R : Document) (placed : List Document)
        → AreNumberedBy R placed numberer.old
        → ((n : List ℕ) → IsKnown R numbers.now placed n)
        → PlacesWaiting R placed (waiting numberer.old.pending.items) numberer.new v.items) }
{
    let mut inner = Vec::new(alloc);
    while inner.len() < numberer.pending.len() {
        let schema = numberer.pending[inner.len()];
        let number = place(alloc, schema, numbers, numberer)?;
        inner.push(number)?;
    }
    Ok(inner)
}
