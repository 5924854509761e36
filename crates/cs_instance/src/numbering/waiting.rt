// Expressions that wait for their numbers: those that are asked of documents inside. Each has a place of its own.
ghost use Rattle.std.specs.Prelude.{IfOk};
ghost use Rattle.cs_instance.specs.Placing.{FieldsWait, ElementsWait, EndWaits};

use crate::rules::{Ending, Field, Rule};
use cs_package::{Part, Shape, ShapeEnd};
use cs_rules::Numberer;
use std::alloc::{AllocError, Global};

/// The values of declarations wait.
pub(crate) fn wait_fields<'a>(
    alloc: Global,
    parts: &'a [Part],
    numberer: &mut Numberer<'a, Shape, Rule<'a>>,
) -> Result<Vec<Field<'a>>, AllocError>
    ensures { IfOk result (λ v. FieldsWait parts.now numberer.old numberer.new v.items) }
{
    let mut fields = Vec::with_capacity(alloc, parts.len())?;
    for part in parts {
        let value = numberer.wait(&part.value)?;
        fields.push(Field {
            label: part.label.as_str(),
            mark: part.mark,
            value,
        })?;
    }
    Ok(fields)
}

/// The fixed elements of a list wait.
pub(crate) fn wait_all<'a>(
    alloc: Global,
    shapes: &'a [Shape],
    numberer: &mut Numberer<'a, Shape, Rule<'a>>,
) -> Result<Vec<usize>, AllocError>
    ensures { IfOk result (λ v. ElementsWait shapes.now numberer.old numberer.new v.items) }
{
    let mut places = Vec::with_capacity(alloc, shapes.len())?;
    for shape in shapes {
        let place = numberer.wait(shape)?;
        places.push(place)?;
    }
    Ok(places)
}

/// What is behind the fixed elements waits.
pub(crate) fn wait_end<'a>(
    end: &'a ShapeEnd,
    numberer: &mut Numberer<'a, Shape, Rule<'a>>,
) -> Result<Ending, AllocError>
    ensures { IfOk result (λ v. EndWaits end.now numberer.old numberer.new v) }
{
    match end {
        ShapeEnd::Closed => Ok(Ending::Closed),
        ShapeEnd::Any => Ok(Ending::Any),
        ShapeEnd::Each(shape) => {
            let place = numberer.wait(shape)?;
            Ok(Ending::Each(place))
        }
    }
}
