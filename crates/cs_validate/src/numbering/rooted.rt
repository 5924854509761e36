// The numbering of a schema document.
ghost use Rattle.std.specs.Prelude.{IfOk};
ghost use Rattle.cs_profile.specs.SchemaDocument.{document_of};
ghost use Rattle.cs_validate.specs.Rooted.{IsRooted};

use crate::numbering::definitions::{Placement, by_rank, place_definitions};
use crate::numbering::inner::place_waiting;
use crate::numbering::place;
use crate::rules::Rule;
use cs_profile::SchemaDoc;
use cs_rules::Numbering;
use std::alloc::{AllocError, Global};

/// The rules of a schema document, each after those that it asks of the same document, and the root's number.
pub(crate) fn numbering_of<'a>(
    alloc: Global,
    schema: &'a SchemaDoc,
) -> Result<(Numbering<Rule<'a>>, usize), AllocError>
    ensures { IfOk result (λ t.
        IsRooted (document_of schema.now) t.0.rules.items t.0.children.items t.1) }
{
    schema.whole_law(); // for the proof: a truth value has no definitions
    let ranked = by_rank(alloc, schema)?;
    let Placement {
        numbers,
        mut numberer,
    } = place_definitions(alloc, schema, &ranked)?;
    place(alloc, schema.root(), &numbers, &mut numberer)?;
    let root = numberer.rules.len() - 1; // the root's own rule comes last
    let children = place_waiting(alloc, &numbers, &mut numberer)?;
    let rules = numberer.rules;
    Ok((Numbering { rules, children }, root))
}
