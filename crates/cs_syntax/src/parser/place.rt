// A place in the tokens.

ghost use Rattle.std.specs.Prelude.{◌≡◌, drop, true};
ghost use Rattle.cs_grammar.specs.View.{lexeme_view, lexemes_view};
ghost use Rattle.cs_grammar.specs.TokenWords.{word};
ghost use Rattle.cs_lexer.specs.Quoted.{are_quoted};
ghost use Rattle.cs_grammar.specs.Spells.{start_at};
ghost use Rattle.cs_syntax.specs.Place.{is_left_out_name, fault_of};
ghost use Rattle.cs_syntax.specs.Reading.{fault_at, after, expected, begins_with, behind_if, after_comma, comma_at, close_at, paren_end, begins_string, string_at, begins_close};

use crate::parser::kind::{kind_of, names_close, names_string};
use cs_grammar::{Kind, SyntaxFault, Token};
use std::alloc::Global;

/// A place in the tokens.
#[derive(Drop)]
pub(crate) struct Parser<'t, 'a> {
    pub(crate) alloc: Global,
    pub(crate) tokens: &'t [Token<'a>],
    pub(crate) next: usize,
    // Each text begins with a quote.
    ghost quoted: { are_quoted (lexemes_view tokens.now) ≡ true },
}

/// Whether a name is a word of a form that the profile leaves out.
fn is_left_out_name(text: &str) -> bool
    ensures { result ≡ is_left_out_name text.now }
{
    matches!(text, "import" | "let" | "for" | "if")
}

/// The fault at a token that is out of place.
pub(crate) fn fault_of(token: &Token<'_>) -> SyntaxFault
    ensures { result ≡ fault_of (word (lexeme_view token.now)) }
{
    let left_out = match kind_of(token) {
        Kind::LeftOut | Kind::Hidden | Kind::Star | Kind::Equal => true,
        Kind::Local | Kind::Dot | Kind::Assign => true,
        Kind::Name => is_left_out_name(token.text),
        _ => false,
    };
    let offset = token.start;
    if left_out {
        SyntaxFault::LeftOut { offset }
    } else {
        SyntaxFault::Syntax { offset }
    }
}

impl<'t, 'a> Parser<'t, 'a> {
    ghost use Rattle.cs_syntax.specs.Left.{left, IsNext, Takes, Skips, ReadsPast};

    /// The next token, which stays.
    pub(crate) fn peek(&self) -> Option<Token<'a>>
        ensures { IsNext result self.now }
    {
        if self.next < self.tokens.len() {
            Some(self.tokens[self.next])
        } else {
            None
        }
    }

    /// The next token.
    pub(crate) fn take(&mut self) -> Option<Token<'a>>
        ensures { Takes result self.old self.new }
    {
        let token = self.peek()?;
        self.next += 1;
        Some(token)
    }

    /// The fault at the next token.
    pub(crate) fn fault(&self) -> SyntaxFault
        ensures { result ≡ fault_at (left self.now) }
    {
        match self.peek() {
            None => SyntaxFault::Syntax { offset: 0 },
            Some(token) => fault_of(&token),
        }
    }

    /// Passes over a token of that kind, where it is next.
    pub(crate) fn skip(&mut self, wanted: Kind) -> bool
        ensures { Skips result self.old self.new (after wanted (left self.old)) }
    {
        match self.peek() {
            Some(token) if kind_of(&token) == wanted => {
                self.next += 1;
                true
            }
            _ => false,
        }
    }

    /// Passes over a token of that kind, which has to be next.
    pub(crate) fn expect(&mut self, wanted: Kind) -> Result<(), SyntaxFault>
        ensures { ReadsPast result self.new (expected wanted (left self.old)) }
    {
        if self.skip(wanted) {
            Ok(())
        } else {
            Err(self.fault())
        }
    }

    /// The offset of the next token.
    #[tactic(auto, using(crate::proofs::WordKinds::start_word_of))]
    pub(crate) fn start(&self) -> usize
        ensures { result ≡ start_at (left self.now) }
    {
        match self.peek() {
            None => 0,
            Some(token) => token.start,
        }
    }

    /// Whether the next token is of that kind.
    pub(crate) fn is_at(&self, wanted: Kind) -> bool
        ensures { result ≡ begins_with wanted (left self.now) }
    {
        match self.peek() {
            None => false,
            Some(token) => kind_of(&token) == wanted,
        }
    }

    /// Whether the token after the next one is of that kind.
    pub(crate) fn is_behind(&self, wanted: Kind) -> bool
        ensures { result ≡ begins_with wanted (drop 1 (left self.now)) }
    {
        if self.peek().is_none() {
            return false;
        }
        let behind = self.next + 1;
        behind < self.tokens.len() && kind_of(&self.tokens[behind]) == wanted
    }

    /// The place after the next token.
    pub(crate) fn behind(&self) -> Parser<'t, 'a>
        ensures { left result ≡ drop 1 (left self.now) }
    {
        let passed = usize::from(self.peek().is_some());
        Parser {
            alloc: self.alloc,
            tokens: self.tokens,
            next: self.next + passed,
        }
    }

    /// Passes over the next token, if there is one.
    pub(crate) fn pass(&mut self)
        ensures { left self.new ≡ drop 1 (left self.old) }
    {
        self.next += usize::from(self.peek().is_some());
    }

    /// Whether the next token is the name `string`.
    pub(crate) fn is_at_string(&self) -> bool
        ensures { result ≡ begins_string (left self.now) }
    {
        match self.peek() {
            None => false,
            Some(token) => names_string(&token),
        }
    }

    /// Whether the next token is the name `close`.
    pub(crate) fn is_at_close(&self) -> bool
        ensures { result ≡ begins_close (left self.now) }
    {
        match self.peek() {
            None => false,
            Some(token) => names_close(&token),
        }
    }

    /// Passes over the name `string`, which has to be next.
    pub(crate) fn expect_string(&mut self) -> Result<(), SyntaxFault>
        ensures { ReadsPast result self.new (string_at (left self.old)) }
    {
        let stands = self.is_at_string();
        if self.skip_if(stands) {
            Ok(())
        } else {
            Err(self.fault())
        }
    }

    /// Passes over the next token, where it is wanted.
    pub(crate) fn skip_if(&mut self, wanted: bool) -> bool
        ensures { Skips result self.old self.new (behind_if wanted (left self.old)) }
    {
        match self.peek() {
            Some(_) if wanted => {
                self.next += 1;
                true
            }
            _ => false,
        }
    }

    /// Passes over a comma of either kind, where one is next.
    pub(crate) fn skip_comma(&mut self) -> bool
        ensures { Skips result self.old self.new (after_comma (left self.old)) }
    {
        let comma = self.is_at(Kind::Comma) || self.is_at(Kind::Inserted);
        self.skip_if(comma)
    }

    /// Passes over a comma of either kind, which has to be next.
    pub(crate) fn expect_comma(&mut self) -> Result<(), SyntaxFault>
        ensures { ReadsPast result self.new (comma_at (left self.old)) }
    {
        if self.skip_comma() {
            Ok(())
        } else {
            Err(self.fault())
        }
    }

    /// Passes over a closing bracket, which may have a comma before it.
    pub(crate) fn close(&mut self, wanted: Kind) -> Result<(), SyntaxFault>
        ensures { ReadsPast result self.new (close_at wanted (left self.old)) }
    {
        self.skip_comma();
        self.expect(wanted)
    }

    /// Passes over the bracket that closes a parenthesis.
    pub(crate) fn close_paren(&mut self) -> Result<(), SyntaxFault>
        ensures { ReadsPast result self.new (paren_end (left self.old)) }
    {
        self.skip(Kind::Inserted);
        self.expect(Kind::CloseParen)
    }
}
