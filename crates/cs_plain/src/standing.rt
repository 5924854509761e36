// Where an expression stands, for the values that may be put there.
ghost use Rattle.std.specs.Prelude.{◌≡◌};
ghost use Rattle.cs_grammar.specs.View.{expr_view};
ghost use Rattle.cs_plain.specs.Placed as Spec;

use crate::plain::has_mark;
use cs_grammar::Expr;

/// Where an expression stands.
#[derive(Clone, Copy)]
pub enum Standing {
    /// By itself: no value needs parentheses there, and one of its alternatives may be marked.
    Alone,
    /// Where no value needs parentheses, and no mark may be.
    Enclosed,
    /// As an operand.
    Operand,
    /// Where nothing is put in its place.
    Kept,
}

impl Standing {
    pub(crate) fn as_operand(self) -> Standing
        ensures { result ≡ Spec.as_operand self }
    {
        match self {
            Standing::Alone | Standing::Enclosed | Standing::Operand => Standing::Operand,
            Standing::Kept => Standing::Kept,
        }
    }

    pub(crate) fn in_parens(self) -> Standing
        ensures { result ≡ Spec.in_parens self }
    {
        match self {
            Standing::Alone => Standing::Alone,
            Standing::Enclosed | Standing::Operand => Standing::Enclosed,
            Standing::Kept => Standing::Kept,
        }
    }

    pub(crate) fn as_enclosed(self) -> Standing
        ensures { result ≡ Spec.as_enclosed self }
    {
        match self {
            Standing::Alone | Standing::Enclosed | Standing::Operand => Standing::Enclosed,
            Standing::Kept => Standing::Kept,
        }
    }

    /// The value of a field, or an element of a list.
    pub(crate) fn as_alone(self) -> Standing
        ensures { result ≡ Spec.as_alone self }
    {
        match self {
            Standing::Alone | Standing::Enclosed | Standing::Operand => Standing::Alone,
            Standing::Kept => Standing::Kept,
        }
    }

    /// In a literal, which may hide a kind.
    pub(crate) fn in_literal(self, hides: bool) -> Standing
        ensures { result ≡ Spec.in_literal hides self }
    {
        if hides {
            Standing::Kept
        } else {
            self.as_alone()
        }
    }

    /// Embedded, where a reference stays.
    pub(crate) fn as_embedded(self, is_reference: bool) -> Standing
        ensures { result ≡ Spec.as_embedded is_reference self }
    {
        if is_reference {
            Standing::Kept
        } else {
            self.as_enclosed()
        }
    }

    /// Whether a value may stand there.
    pub(crate) fn fits(self, value: &Expr) -> bool
        ensures { result ≡ Spec.fits self (expr_view value.now) }
    {
        match self {
            Standing::Alone => true,
            Standing::Enclosed | Standing::Operand => !has_mark(value),
            Standing::Kept => false,
        }
    }
}
