// Fields, up to their values.

ghost use Rattle.std.specs.Prelude.{◌≡◌};
ghost use Rattle.cs_syntax.specs.Left.{left, label_view, head_view, Reads, Skips};
ghost use Rattle.cs_syntax.specs.Reading.{begins_field, goes_on_label, goes_on_bracket, another_field, another_element, opening, rest_behind, may_end, label_at, mark_at, every_key_at, head_at, opening_at, begins_shut};

use crate::parser::kind::kind_of;
use crate::parser::name::is_reserved;
use crate::parser::place::{Parser, fault_of};
use cs_grammar::{FieldMark, Kind, SyntaxFault};
use cs_lexer::unescape;

impl Parser<'_, '_> {
    /// Whether what is after a `[` makes it a label: `string`, `]` and a colon.
    fn goes_on_bracket(&self) -> bool
        ensures { result ≡ goes_on_bracket (left self.now) }
    {
        self.is_at_string()
            && self.is_behind(Kind::CloseList)
            && self.behind().is_behind(Kind::Colon)
    }

    /// Whether the next token begins a label: one with a mark or a colon after it, a name that
    /// isn't an operand, or the bracket of `[string]` with a colon after it.
    pub(crate) fn begins_field(&self) -> bool
        ensures { result ≡ begins_field (left self.now) }
    {
        let Some(token) = self.peek() else {
            return false;
        };
        let goes_on = self.is_behind(Kind::Colon)
            || self.is_behind(Kind::Question)
            || self.is_behind(Kind::Bang);
        match kind_of(&token) {
            Kind::Name => is_reserved(token.text) || goes_on,
            Kind::Text => goes_on,
            Kind::OpenList => self.behind().goes_on_bracket(),
            _ => false,
        }
    }

    /// Whether `close` and its parenthesis begin here.
    pub(crate) fn begins_shut(&self) -> bool
        ensures { result ≡ begins_shut (left self.now) }
    {
        self.is_at_close() && self.is_behind(Kind::OpenCall)
    }

    /// Passes over a comma that has another field after it.
    pub(crate) fn skip_to_field(&mut self) -> bool
        ensures { Skips result self.old self.new (another_field (left self.old)) }
    {
        let comma = self.is_at(Kind::Comma) || self.is_at(Kind::Inserted);
        let ends = self.is_behind(Kind::CloseStruct) || self.is_behind(Kind::Dots);
        self.skip_if(comma && !ends)
    }

    /// Passes over a comma that has another element after it.
    pub(crate) fn skip_to_element(&mut self) -> bool
        ensures { Skips result self.old self.new (another_element (left self.old)) }
    {
        let comma = self.is_at(Kind::Comma);
        let ends = self.is_behind(Kind::CloseList) || self.is_behind(Kind::Dots);
        self.skip_if(comma && !ends)
    }

    /// Passes over a comma that has the `...` of a struct after it.
    fn skip_to_opening(&mut self) -> bool
        ensures { Skips result self.old self.new (opening (left self.old)) }
    {
        let comma = self.is_at(Kind::Comma) || self.is_at(Kind::Inserted);
        let dots = self.is_behind(Kind::Dots);
        self.skip_if(comma && dots)
    }

    /// Passes over a comma that has the `...` of a list after it.
    pub(crate) fn skip_to_rest(&mut self) -> bool
        ensures { Skips result self.old self.new (rest_behind (left self.old)) }
    {
        let comma = self.is_at(Kind::Comma);
        let dots = self.is_behind(Kind::Dots);
        self.skip_if(comma && dots)
    }

    /// Whether the bracket of a list may close here.
    pub(crate) fn may_end(&self) -> bool
        ensures { result ≡ may_end (left self.now) }
    {
        let comma = self.is_at(Kind::Comma) || self.is_at(Kind::Inserted);
        self.is_at(Kind::CloseList) || comma
    }

    /// The name or the text of a label, and whether it is quoted.
    #[tactic(auto, unfolding(crate::specs::Reading::label_at))]
    fn label(&mut self) -> Result<(String, bool), SyntaxFault>
        ensures { Reads label_view result self.new (label_at (left self.old)) }
    {
        let Some(token) = self.take() else {
            return Err(self.fault());
        };
        match kind_of(&token) {
            Kind::Name => Ok((String::from_str(self.alloc, token.text)?, false)),
            Kind::Text => Ok((unescape(self.alloc, token.text)?, true)),
            _ => Err(fault_of(&token)),
        }
    }

    /// The mark of a field.
    fn mark(&mut self) -> FieldMark
        ensures { mark_at (left self.old) ≡ (result, left self.new) }
    {
        if self.skip(Kind::Question) {
            return FieldMark::Optional;
        }
        if self.skip(Kind::Bang) {
            return FieldMark::Required;
        }
        FieldMark::Regular
    }

    /// What follows the bracket of a label: `string` and `]`. The label has no text.
    #[tactic(auto, unfolding(crate::specs::Reading::every_key_at))]
    fn every_key(&mut self) -> Result<(String, bool, FieldMark), SyntaxFault>
        ensures { Reads head_view result self.new (every_key_at (left self.old)) }
    {
        let at = self.start();
        self.expect_string()?;
        self.expect(Kind::CloseList)?;
        Ok((String::new(self.alloc), true, FieldMark::Every { at }))
    }

    /// The text of a label, whether it is quoted, and its mark.
    #[tactic(auto, unfolding(crate::specs::Reading::head_at))]
    pub(crate) fn head(&mut self) -> Result<(String, bool, FieldMark), SyntaxFault>
        ensures { Reads head_view result self.new (head_at (left self.old)) }
    {
        if self.skip(Kind::OpenList) {
            return self.every_key();
        }
        let (label, quoted) = self.label()?;
        let mark = self.mark();
        Ok((label, quoted, mark))
    }

    /// What follows the last field of a struct: whether it is opened.
    pub(crate) fn opening(&mut self) -> Result<bool, SyntaxFault>
        ensures { Reads (λ b. b) result self.new (opening_at (left self.old)) }
    {
        if !self.skip_to_opening() {
            self.close(Kind::CloseStruct)?;
            return Ok(false);
        }
        self.expect(Kind::Dots)?;
        self.close(Kind::CloseStruct)?;
        Ok(true)
    }
}
