// Literals of the wide profile.

ghost use Rattle.std.specs.Prelude.{◌≡◌, [], ◌∷◌, Some, IfOk};
ghost use Rattle.cs_grammar.specs.View.{expr_view, field_view, fields_view, declaration_view, declarations_view, declarations_of};
ghost use Rattle.cs_grammar.specs.Spells.{fields_alone, literal};
ghost use Rattle.cs_grammar.specs.Tree.{Fields};
ghost use Rattle.std.specs.Option.{is_some};

use cs_grammar::{Declaration, Expr, Field, Wide};
use std::alloc::{AllocError, Global};

/// Whether a declaration is a field: a literal of it alone has no embedding and no condition.
fn is_field(declaration: &Declaration) -> bool
    ensures { result
        ≡ is_some (fields_alone (declarations_of (declaration_view declaration.now ∷ []))) }
{
    match declaration {
        Declaration::Field(_) => true,
        Declaration::Embedded { .. } | Declaration::Conditional { .. } => false,
    }
}

/// Whether each declaration is a field.
fn are_fields(declarations: &[Declaration]) -> bool
    ensures { result ≡ is_some (fields_alone (declarations_view declarations.now)) }
{
    for declaration in declarations {
        if !is_field(declaration) {
            return false;
        }
    }
    true
}

/// The fields among the declarations.
fn fields_among(alloc: Global, declarations: Vec<Declaration>) -> Result<Vec<Field>, AllocError>
    ensures { IfOk result (λ v. (fs : Fields)
        → fields_alone (declarations_view declarations.items) ≡ Some fs
        → fields_view v.items ≡ fs) }
{
    let mut fields = Vec::new(alloc);
    for declaration in declarations {
        if let Some(field) = declaration.into_field() {
            fields.push(field)?;
        }
    }
    Ok(fields)
}

/// A literal with these declarations, which is one of the default profile where each is a field.
pub(crate) fn literal(
    alloc: Global,
    at: usize,
    declarations: Vec<Declaration>,
    opened: bool,
) -> Result<Expr, AllocError>
    ensures { IfOk result (λ e. expr_view e
        ≡ literal at (declarations_view declarations.items) opened) }
{
    if are_fields(&declarations) {
        let fields = fields_among(alloc, declarations)?;
        return Ok(Expr::Struct { at, fields, opened });
    }
    Ok(Expr::Wide(Wide::Merged {
        at,
        declarations,
        opened,
    }))
}
