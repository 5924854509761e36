// Numbers for an expression and for what it asks of the same document. What it asks of documents inside waits, since that
// may lead back to a definition that has no number yet.
ghost use Rattle.std.specs.Prelude.{[], map, get_or, IfOk};
ghost use Rattle.cs_package.specs.Expression as cue;
ghost use Rattle.cs_package.specs.View.{declarations_of, part_of, rest_of as end_of};
ghost use Rattle.cs_instance.specs.Placing.{Places, PlacesAll, named, named_all};

use crate::fields::Fields;
use crate::numbering::waiting::{wait_all, wait_end, wait_fields};
use crate::rules::Rule;
use cs_package::{Inside, Part, Shape, ShapeEnd};
use cs_rules::Numberer;
use std::alloc::{AllocError, Global};

/// Numbers an expression after what it asks of the same document. `numbers` has those of the definitions.
#[cycle(numbering)]
pub(crate) fn place<'a>(
    alloc: Global,
    shape: &'a Shape,
    numbers: &[usize],
    numberer: &mut Numberer<'a, Shape, Rule<'a>>,
) -> Result<usize, AllocError>
    ensures { IfOk result (Places numbers.now numberer.old numberer.new (named shape.now)) }
{
    match shape.inside() {
        Inside::Simple(_) => numberer.put(Rule::Simple(shape)),
        Inside::Definition(i) => put_reference(alloc, i, numbers, numberer),
        Inside::And(operands) => {
            let parts = place_all(alloc, operands, numbers, numberer)?;
            numberer.put(Rule::All(parts))
        }
        Inside::Or(operands) => {
            let parts = place_all(alloc, operands, numbers, numberer)?;
            numberer.put(Rule::Any(parts))
        }
        Inside::Struct { parts, opened } => put_struct(alloc, parts, opened, numberer),
        Inside::List { front, end } => put_list(alloc, front, end, numberer),
    }
}

#[cycle(numbering)]
pub(crate) fn place_all<'a>(
    alloc: Global,
    shapes: &'a [Shape],
    numbers: &[usize],
    numberer: &mut Numberer<'a, Shape, Rule<'a>>,
) -> Result<Vec<usize>, AllocError>
    ensures { IfOk result (λ v. PlacesAll numbers.now numberer.old numberer.new
        (named_all shapes.now) v.items) }
{
    let mut parts = Vec::with_capacity(alloc, shapes.len())?;
    for shape in shapes {
        let part = place(alloc, shape, numbers, numberer)?;
        parts.push(part)?;
    }
    Ok(parts)
}

/// A reference asks what its definition asks. A definition without a number has no instance.
fn put_reference<'a>(
    alloc: Global,
    i: usize,
    numbers: &[usize],
    numberer: &mut Numberer<'a, Shape, Rule<'a>>,
) -> Result<usize, AllocError>
    ensures { IfOk result (Places numbers.now numberer.old numberer.new
        (λ names. cue.reference (get_or names i []))) }
{
    match numbers.get(i) {
        None => numberer.put(Rule::Any(Vec::new(alloc))),
        Some(number) => {
            let mut parts = Vec::with_capacity(alloc, 1)?;
            parts.push(*number)?;
            numberer.put(Rule::All(parts))
        }
    }
}

fn put_struct<'a>(
    alloc: Global,
    parts: &'a [Part],
    opened: bool,
    numberer: &mut Numberer<'a, Shape, Rule<'a>>,
) -> Result<usize, AllocError>
    ensures { IfOk result (Places [] numberer.old numberer.new
        (λ names. cue.struct (declarations_of (map (part_of names) parts.now)) opened)) }
{
    let fields = Fields::new(alloc, wait_fields(alloc, parts, numberer)?)?;
    numberer.put(Rule::Struct { fields, opened })
}

fn put_list<'a>(
    alloc: Global,
    front: &'a [Shape],
    end: &'a ShapeEnd,
    numberer: &mut Numberer<'a, Shape, Rule<'a>>,
) -> Result<usize, AllocError>
    ensures { IfOk result (Places [] numberer.old numberer.new
        (λ names. cue.list (named_all front.now names) (end_of names end.now))) }
{
    let places = wait_all(alloc, front, numberer)?;
    let end = wait_end(end, numberer)?;
    numberer.put(Rule::List { front: places, end })
}
