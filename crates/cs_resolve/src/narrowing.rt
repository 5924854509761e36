// What a definition narrows, and by which fields.

ghost use Rattle.std.specs.Prelude.{◌≡◌, List, ℕ};
ghost use Rattle.std.specs.Option.{option_map};
ghost use Rattle.cs_grammar.specs.View.{expr_view, exprs_view, fields_view};
ghost use Rattle.cs_resolve.specs.Refinement as Refinement;
ghost use Rattle.cs_resolve.specs.Narrowed.{narrowing_view, HoldsTexts};

use crate::plain::has_literal_or_reference;
use cs_grammar::{Expr, Field, FieldMark, referred};
use std::collections::BTreeSet;

/// The labels of a struct literal.
pub(crate) type FieldLabels<'a> = BTreeSet<&'a str>;

/// The name of the definition that is narrowed, with its `#`, and the fields of the literal that narrows it.
#[derive(Clone, Copy)]
pub(crate) struct Narrowing<'a> {
    /// The name of the definition.
    pub(crate) base: &'a str,
    /// The fields of the literal.
    pub(crate) fields: &'a Vec<Field>,
}

/// Whether one of the fields is `[string]: T`.
fn has_every_key(fields: &Vec<Field>) -> bool
    ensures { result ≡ Refinement.has_every_key (fields_view fields.now.items) }
{
    for field in fields {
        if let FieldMark::Every { .. } = field.mark {
            return true;
        }
    }
    false
}

/// The fields of a struct literal without `...` and without `[string]`, parentheses taken away; `None` of any other expression (CUE,
/// "Definitions and hidden fields": which structs are closed).
pub(crate) fn closed_literal(expr: &Expr) -> Option<&Vec<Field>>
    ensures { option_map (λ v. fields_view v.now.items) result
        ≡ Refinement.closed_literal (expr_view expr.now) }
{
    match expr {
        Expr::Struct { fields, opened, .. } => {
            if *opened || has_every_key(fields) {
                None
            } else {
                Some(fields)
            }
        }
        Expr::Paren(inner) => closed_literal(inner),
        // The others are no literals.
        _ => None,
    }
}

/// What is narrowed by a reference and a closed literal.
fn narrowing_of<'a>(reference: &'a Expr, literal: &'a Expr) -> Option<Narrowing<'a>>
    ensures { option_map narrowing_view result
        ≡ Refinement.narrowing_of (Refinement.referred (expr_view reference.now))
        (Refinement.closed_literal (expr_view literal.now)) }
{
    let base = referred(reference)?;
    let fields = closed_literal(literal)?;
    Some(Narrowing { base, fields })
}

/// What is narrowed by two operands that `&` joins, in either order: a definition by a closed literal, parentheses taken away. `None` of any
/// other operands. Whether the definition is closed and has these labels is not looked at.
pub(crate) fn operands_narrowing(operands: &Vec<Expr>) -> Option<Narrowing<'_>>
    ensures { option_map narrowing_view result
        ≡ Refinement.narrowing (exprs_view operands.now.items) }
{
    if operands.len() != 2 {
        return None;
    }
    match narrowing_of(&operands[0], &operands[1]) {
        Some(narrowing) => Some(narrowing),
        None => narrowing_of(&operands[1], &operands[0]),
    }
}

/// Whether each label is one of these, and each value is plain.
pub(crate) fn narrows(fields: &Vec<Field>, labels: &FieldLabels<'_>) -> bool
    ensures { (ls : List (List ℕ)) → HoldsTexts labels.now ls
        → result ≡ Refinement.narrows (fields_view fields.now.items) ls }
{
    for field in fields {
        if !labels.contains(field.label.as_str()) || has_literal_or_reference(&field.value) {
            return false;
        }
    }
    true
}

/// What is narrowed by a body, parentheses taken away.
pub(crate) fn body_narrowing(expr: &Expr) -> Option<Narrowing<'_>>
    ensures { option_map narrowing_view result ≡ Refinement.narrowing_in (expr_view expr.now) }
{
    match expr {
        Expr::And(operands) => operands_narrowing(operands),
        Expr::Paren(inner) => body_narrowing(inner),
        // The others join no operands.
        _ => None,
    }
}
