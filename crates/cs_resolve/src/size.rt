// The size of a package.

ghost use Rattle.std.specs.Prelude.{◌≤◌, ◌↔◌, IsTrue, map};
ghost use Rattle.cs_grammar.specs.Limits.{most_nodes};
ghost use Rattle.cs_grammar.specs.Size.{nodes, nodes_all, nodes_fields, nodes_end, nodes_of_definitions, nodes_of_files};
ghost use Rattle.cs_grammar.specs.View.{expr_view, exprs_view, fields_view, end_view, definition_view, file_view};
ghost use Rattle.cs_resolve.specs.Checks.{Leaves};

use cs_grammar::{Definition, Expr, Field, File, ListEnd};

/// How many definitions a package may have.
pub(crate) const MOST_DEFINITIONS: usize = 1_000;

/// How many nodes the bodies of a package may have.
const MOST_NODES: usize = 50_000;

/// What is left of `room` nodes after those of an expression, or `None` where it has more.
#[cycle(room)]
fn room_after(room: usize, expr: &Expr) -> Option<usize>
    ensures { Leaves result room (nodes (expr_view expr.now)) }
{
    match expr {
        Expr::And(operands) | Expr::Or(operands) => room_after_all(room.checked_sub(1)?, operands),
        Expr::Paren(inner) => room_after(room, inner),
        Expr::Struct { fields, .. } => room_after_fields(room.checked_sub(1)?, fields),
        Expr::List { front, end } => {
            let left = room_after_all(room.checked_sub(1)?, front)?;
            room_after_end(left, end)
        }
        // The others have no parts.
        _ => room.checked_sub(1),
    }
}

#[cycle(room)]
fn room_after_all(room: usize, operands: &Vec<Expr>) -> Option<usize>
    ensures { Leaves result room (nodes_all (exprs_view operands.now.items)) }
{
    let mut left = room;
    for operand in operands {
        left = room_after(left, operand)?;
    }
    Some(left)
}

#[cycle(room)]
fn room_after_fields(room: usize, fields: &Vec<Field>) -> Option<usize>
    ensures { Leaves result room (nodes_fields (fields_view fields.now.items)) }
{
    let mut left = room;
    for field in fields {
        left = room_after(left, &field.value)?;
    }
    Some(left)
}

#[cycle(room)]
fn room_after_end(room: usize, end: &ListEnd) -> Option<usize>
    ensures { Leaves result room (nodes_end (end_view end.now)) }
{
    match end {
        ListEnd::Closed | ListEnd::Any => Some(room),
        ListEnd::Each(inner) => room_after(room, inner),
    }
}

fn room_after_definitions(room: usize, definitions: &Vec<Definition>) -> Option<usize>
    ensures { Leaves result room
        (nodes_of_definitions (map definition_view definitions.now.items)) }
{
    let mut left = room;
    for definition in definitions {
        left = room_after(left, &definition.body)?;
    }
    Some(left)
}

fn room_after_files(room: usize, files: &Vec<File>) -> Option<usize>
    ensures { Leaves result room (nodes_of_files (map file_view files.now.items)) }
{
    let mut left = room;
    for file in files {
        left = room_after_definitions(left, &file.definitions)?;
    }
    Some(left)
}

/// Whether files have so few nodes as a package may have.
pub(crate) fn has_few_nodes(files: &Vec<File>) -> bool
    ensures { IsTrue result ↔ (nodes_of_files (map file_view files.now.items) ≤ most_nodes) }
{
    room_after_files(MOST_NODES, files).is_some()
}
