// Which expressions are plain: those that hold no struct literal and no reference.

ghost use Rattle.std.specs.Prelude.{◌≡◌};
ghost use Rattle.cs_grammar.specs.View.{expr_view, exprs_view, end_view};
ghost use Rattle.cs_resolve.specs.Plain as Plain;

use cs_grammar::{Expr, ListEnd};

/// Whether an expression holds a struct literal or a reference, so that it isn't plain.
#[cycle(has_literal_or_reference)]
pub(crate) fn has_literal_or_reference(expr: &Expr) -> bool
    ensures { result ≡ Plain.has_literal_or_reference (expr_view expr.now) }
{
    match expr {
        Expr::Reference { .. } | Expr::Struct { .. } => true,
        Expr::And(operands) | Expr::Or(operands) => has_literal_or_reference_some(operands),
        Expr::Paren(inner) => has_literal_or_reference(inner),
        Expr::List { front, end } => has_literal_or_reference_some(front)
            || has_literal_or_reference_end(end),
        // The others have no parts.
        _ => false,
    }
}

#[cycle(has_literal_or_reference)]
fn has_literal_or_reference_some(operands: &Vec<Expr>) -> bool
    ensures { result ≡ Plain.has_literal_or_reference_some (exprs_view operands.now.items) }
{
    for operand in operands {
        if has_literal_or_reference(operand) {
            return true;
        }
    }
    false
}

#[cycle(has_literal_or_reference)]
fn has_literal_or_reference_end(end: &ListEnd) -> bool
    ensures { result ≡ Plain.has_literal_or_reference_end (end_view end.now) }
{
    match end {
        ListEnd::Closed | ListEnd::Any => false,
        ListEnd::Each(inner) => has_literal_or_reference(inner),
    }
}
