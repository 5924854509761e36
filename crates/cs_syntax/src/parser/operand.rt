// Operands without brackets.

ghost use Rattle.std.specs.Prelude.{◌≡◌};
ghost use Rattle.std.specs.Option.{option_map};
ghost use Rattle.cs_grammar.specs.View as View;
ghost use Rattle.cs_grammar.specs.View.{expr_view};
ghost use Rattle.cs_grammar.specs.Spells.{literal_of};
ghost use Rattle.cs_syntax.specs.Left.{left, Reads};
ghost use Rattle.cs_syntax.specs.Reading.{relation_of, bound_at, unequal_at, integer_at, unbracketed_at};

use crate::parser::kind::kind_of;
use crate::parser::name::{bare_name, is_reserved};
use crate::parser::place::{Parser, fault_of};
use cs_grammar::{Expr, Kind, Relation, SyntaxFault};
use cs_lexer::unescape;

/// The literal that a name is.
fn literal_of(text: &str) -> Option<Expr>
    ensures { option_map expr_view result ≡ literal_of text.now }
{
    match text {
        "null" => Some(Expr::Null),
        "true" => Some(Expr::Bool(true)),
        "false" => Some(Expr::Bool(false)),
        _ => None,
    }
}

/// The relation of a mark.
pub(crate) fn relation_of(kind: Kind) -> Option<Relation>
    ensures { option_map View.relation_of result ≡ relation_of kind }
{
    match kind {
        Kind::Less => Some(Relation::Less),
        Kind::AtMost => Some(Relation::AtMost),
        Kind::More => Some(Relation::More),
        Kind::AtLeast => Some(Relation::AtLeast),
        _ => None,
    }
}

impl Parser<'_, '_> {
    /// The limit after a relation.
    #[tactic(auto, unfolding(crate::specs::Reading::bound_at))]
    fn bound(&mut self, relation: Relation) -> Result<Expr, SyntaxFault>
        ensures { Reads expr_view result self.new
            (bound_at (View.relation_of relation) (left self.old)) }
    {
        let limit = self.number()?;
        Ok(Expr::Bound { relation, limit })
    }

    /// What follows `!=`.
    #[tactic(auto, unfolding(crate::specs::Reading::unequal_at))]
    fn unequal(&mut self) -> Result<Expr, SyntaxFault>
        ensures { Reads expr_view result self.new (unequal_at (left self.old)) }
    {
        let Some(token) = self.peek() else {
            return Err(self.fault());
        };
        match kind_of(&token) {
            Kind::Text => {
                self.pass();
                Ok(Expr::NotText(unescape(self.alloc, token.text)?))
            }
            Kind::Name => {
                if token.text != "null" {
                    return Err(fault_of(&token));
                }
                self.pass();
                Ok(Expr::NotNull)
            }
            _ => Ok(Expr::NotInt(self.number()?)),
        }
    }

    /// An integer.
    #[tactic(auto, unfolding(crate::specs::Reading::integer_at))]
    fn integer(&mut self) -> Result<Expr, SyntaxFault>
        ensures { Reads expr_view result self.new (integer_at (left self.old)) }
    {
        Ok(Expr::Int(self.number()?))
    }

    /// An operand without brackets.
    #[tactic(auto, unfolding(crate::specs::Reading::unbracketed_at))]
    pub(crate) fn unbracketed(&mut self) -> Result<Expr, SyntaxFault>
        ensures { Reads expr_view result self.new (unbracketed_at (left self.old)) }
    {
        let Some(token) = self.peek() else {
            return Err(self.fault());
        };
        match kind_of(&token) {
            Kind::Integer | Kind::Minus => self.integer(),
            Kind::Top => {
                self.pass();
                Ok(Expr::Top)
            }
            Kind::Bottom => {
                self.pass();
                Ok(Expr::Bottom)
            }
            Kind::Definition => {
                self.pass();
                let text = String::from_str(self.alloc, bare_name(token.text))?;
                let at = token.start;
                Ok(Expr::Reference { text, at })
            }
            Kind::Local => {
                self.pass();
                let text = String::from_str(self.alloc, token.text)?;
                let at = token.start;
                Ok(Expr::Name { text, at })
            }
            Kind::Text => {
                self.pass();
                Ok(Expr::Text(unescape(self.alloc, token.text)?))
            }
            Kind::Name if is_reserved(token.text) => Err(fault_of(&token)),
            Kind::Name => match literal_of(token.text) {
                Some(literal) => {
                    self.pass();
                    Ok(literal)
                }
                None => {
                    self.pass();
                    let text = String::from_str(self.alloc, token.text)?;
                    let at = token.start;
                    Ok(Expr::Name { text, at })
                }
            },
            Kind::Unequal => {
                self.pass();
                self.unequal()
            }
            other => match relation_of(other) {
                Some(relation) => {
                    self.pass();
                    self.bound(relation)
                }
                None => Err(fault_of(&token)),
            },
        }
    }
}
