// The graph of a package: for each definition, the numbers of those that its bodies refer to strongly. The walk over
// their shapes also takes every reference, for what is reachable.

ghost use Rattle.std.specs.Prelude.{◌≡◌, OnOk, IfOk, []};
ghost use Rattle.std.specs.List.{list_all, IsDistinct};
ghost use Rattle.std.specs.Option.{option_map_or};
ghost use Rattle.std.specs.Str.{bytes_eq};
ghost use Rattle.cs_package.specs.Environment.{declared_names};
ghost use Rattle.cs_package.specs.View.{expression_of, part_of, rest_of, operands_at, fields_at, is_known, is_known_part, is_known_end};
ghost use Rattle.cs_guard.specs.Taken.{behind_disjunction, inside_part, of_field, taken, taken_all, taken_fields, taken_rest};
ghost use Rattle.cs_graph.specs.Graph.{graph_of};
ghost use Rattle.cs_guard.specs.Numbered.{IsGraphOf};
ghost use Rattle.cs_guard.specs.Pushed.{Pushed};

use cs_package::{FieldMark, Package, Part, Shape, ShapeEnd};
use std::alloc::{AllocError, Global};

/// Which references a walk takes from here on.
#[derive(Clone, Copy)]
pub(crate) enum Followed {
    /// Those of both ways below: nothing was passed but `&`.
    Strong,
    /// Those through `&` and `|` alone: a `|` was passed.
    Direct,
    /// Those through `&`, regular and required fields and fixed list elements: one of these parts was passed.
    Inside,
    /// Those at any depth.
    Every,
}

impl Followed {
    /// How the walk goes on in the operands of `|`, where it does.
    fn behind_disjunction(self) -> Option<Followed>
        ensures { result ≡ behind_disjunction self }
    {
        match self {
            Followed::Strong | Followed::Direct => Some(Followed::Direct),
            Followed::Inside => None,
            Followed::Every => Some(Followed::Every),
        }
    }

    /// How the walk goes on in fields and elements, where it does.
    fn inside_part(self) -> Option<Followed>
        ensures { result ≡ inside_part self }
    {
        match self {
            Followed::Strong | Followed::Inside => Some(Followed::Inside),
            Followed::Direct => None,
            Followed::Every => Some(Followed::Every),
        }
    }
}

/// Pushes the numbers that a shape refers to. A number that is referred to again is pushed again.
#[cycle(references)]
fn push_shape(followed: Followed, shape: &Shape, numbers: &mut Vec<usize>) -> Result<(), AllocError>
    ensures { OnOk result (Pushed numbers.old.items numbers.new.items
        (λ ns. taken followed (expression_of ns shape.now)) (λ count. is_known count shape.now)) }
{
    match shape {
        Shape::Definition(number) => Ok(numbers.push(*number)?),
        Shape::And(operands) => push_all(followed, operands, numbers),
        Shape::Or(operands) => push_where(followed.behind_disjunction(), operands, numbers),
        Shape::Struct { parts, .. } => push_parts_where(followed.inside_part(), parts, numbers),
        Shape::List { front, end } => {
            push_where(followed.inside_part(), front, numbers)?;
            push_end(followed, end, numbers)
        }
        // The others have no parts.
        _ => Ok(()),
    }
}

#[cycle(references)]
fn push_all(
    followed: Followed,
    shapes: &[Shape],
    numbers: &mut Vec<usize>,
) -> Result<(), AllocError>
    ensures { OnOk result (Pushed numbers.old.items numbers.new.items
        (λ ns. taken_all followed (operands_at ns shapes.now))
        (λ count. list_all (is_known count) shapes.now)) }
{
    for shape in shapes {
        push_shape(followed, shape, numbers)?;
    }
    Ok(())
}

/// Pushes those of each shape, where a walk goes on in them.
#[cycle(references)]
fn push_where(
    followed: Option<Followed>,
    shapes: &[Shape],
    numbers: &mut Vec<usize>,
) -> Result<(), AllocError>
    ensures { OnOk result (Pushed numbers.old.items numbers.new.items
        (λ ns. option_map_or (λ f. taken_all f (operands_at ns shapes.now)) followed [])
        (λ count. list_all (is_known count) shapes.now)) }
{
    match followed {
        Some(way) => push_all(way, shapes, numbers),
        None => Ok(()),
    }
}

#[cycle(references)]
fn push_parts(
    followed: Followed,
    parts: &[Part],
    numbers: &mut Vec<usize>,
) -> Result<(), AllocError>
    ensures { OnOk result (Pushed numbers.old.items numbers.new.items
        (λ ns. taken_fields followed (fields_at ns parts.now))
        (λ count. list_all (is_known_part count) parts.now)) }
{
    for part in parts {
        push_part(followed, part, numbers)?;
    }
    Ok(())
}

/// Pushes those of each part, where a walk goes on in them.
#[cycle(references)]
fn push_parts_where(
    followed: Option<Followed>,
    parts: &[Part],
    numbers: &mut Vec<usize>,
) -> Result<(), AllocError>
    ensures { OnOk result (Pushed numbers.old.items numbers.new.items
        (λ ns. option_map_or (λ f. taken_fields f (fields_at ns parts.now)) followed [])
        (λ count. list_all (is_known_part count) parts.now)) }
{
    match followed {
        Some(way) => push_parts(way, parts, numbers),
        None => Ok(()),
    }
}

/// An optional field asks nothing of its own, and neither does `[string]`, so their references aren't strong.
#[cycle(references)]
fn push_part(followed: Followed, part: &Part, numbers: &mut Vec<usize>) -> Result<(), AllocError>
    ensures { OnOk result (Pushed numbers.old.items numbers.new.items
        (λ ns. of_field (part_of ns part.now).mark followed
        (taken followed (part_of ns part.now).value))
        (λ count. is_known_part count part.now)) }
{
    match (part.mark, followed) {
        (
            FieldMark::Optional | FieldMark::Every { .. },
            Followed::Strong | Followed::Direct | Followed::Inside,
        ) => Ok(()),
        (FieldMark::Optional | FieldMark::Every { .. }, Followed::Every)
        | (FieldMark::Regular | FieldMark::Required, _) => {
            push_shape(followed, &part.value, numbers)
        }
    }
}

/// The elements behind a list's front may be none, so their references aren't strong.
#[cycle(references)]
fn push_end(followed: Followed, end: &ShapeEnd, numbers: &mut Vec<usize>) -> Result<(), AllocError>
    ensures { OnOk result (Pushed numbers.old.items numbers.new.items
        (λ ns. taken_rest followed (rest_of ns end.now)) (λ count. is_known_end count end.now)) }
{
    match (followed, end) {
        (Followed::Every, ShapeEnd::Each(shape)) => push_shape(followed, shape, numbers),
        (Followed::Every, ShapeEnd::Closed | ShapeEnd::Any)
        | (Followed::Strong | Followed::Direct | Followed::Inside, _) => Ok(()),
    }
}

/// The numbers that a definition's bodies refer to.
pub(crate) fn references_of(
    alloc: Global,
    followed: Followed,
    bodies: &[Shape],
) -> Result<Vec<usize>, AllocError>
    ensures { IfOk result (λ v. Pushed [] v.items
        (λ ns. taken_all followed (operands_at ns bodies.now))
        (λ count. list_all (is_known count) bodies.now)) }
{
    let mut numbers = Vec::new(alloc);
    push_all(followed, bodies, &mut numbers)?;
    Ok(numbers)
}

/// For each definition of a package, the numbers of those that its bodies refer to strongly.
pub(crate) fn graph_of_package(
    alloc: Global,
    package: &Package,
) -> Result<Vec<Vec<usize>>, AllocError>
    ensures graph { IfOk result (λ v. IsGraphOf «package».now (graph_of v.items)) }
    ensures distinct { IsDistinct bytes_eq (declared_names «package».now) }
{
    let count = package.count();
    let mut graph = Vec::with_capacity(alloc, count)?;
    for number in 0..count {
        let row = references_of(alloc, Followed::Strong, package.bodies(number))?;
        graph.push(row)?;
    }
    Ok(graph)
}
