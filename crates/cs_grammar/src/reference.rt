// The definition that an expression refers to.
ghost use Rattle.std.specs.Prelude.{◌≡◌};
ghost use Rattle.std.specs.Option.{option_map};
ghost use Rattle.cs_grammar.specs.Referred.{referred};
ghost use Rattle.cs_grammar.specs.View.{expr_view};

use crate::ast::Expr;

/// The name of the definition that an expression refers to, without its `#`, parentheses taken away; `None` of any other expression (CUE,
/// references).
pub fn referred(expr: &Expr) -> Option<&str>
    ensures { option_map (λ n. n.now) result ≡ referred (expr_view expr.now) }
{
    match expr {
        Expr::Reference { text, .. } => Some(text.as_str()),
        Expr::Paren(inner) => referred(inner),
        // The others are no references.
        _ => None,
    }
}
