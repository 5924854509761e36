// How deep tokens nest, before any of them is parsed: this bounds the parser's recursion.

ghost use Rattle.std.specs.Prelude.{◌≡◌, ◌≤◌, nat_lt, IfOk, OnOk};
ghost use Rattle.cs_syntax.specs.Nesting.{nesting, most_nested};
ghost use Rattle.cs_syntax.specs.Counting.{before_next, levels_next, level_opened, level_closed, short_colon};
ghost use Rattle.cs_grammar.specs.View.{lexemes_view};
ghost use Rattle.cs_grammar.specs.TokenWords.{words};
ghost use Rattle.cs_syntax.specs.Left.{levels_of};

use crate::parser::kind::{kind_of, names_string};
use cs_grammar::{Kind, Token};
use std::alloc::{AllocError, Global};

/// How deep tokens may nest, and how high a body may be.
pub(crate) const MOST_NESTED: usize = 28;

/// What comes before a token.
#[derive(Clone, Copy)]
pub(crate) enum PrecedingToken {
    /// None of these.
    Other,
    Colon,
    /// A name or a text after a colon: a label that may have a mark.
    Label,
    /// The mark of such a label.
    Mark,
    /// The `[` of a label `[string]` after a colon.
    LabelBracket,
    /// The name `string` after such a bracket.
    LabelName,
    /// The `]` after such a name: the end of a label that has no mark.
    LabelEnd,
}

/// The nesting at a token.
#[derive(Drop)]
pub(crate) struct NestingState {
    /// The brackets that are open, and their short colons.
    nested: usize,
    /// The same inside the innermost bracket.
    level: usize,
    /// The same inside the other brackets, the innermost last.
    outer: Vec<usize>,
}

fn before_next(before: PrecedingToken, kind: Kind, is_string: bool) -> PrecedingToken
    ensures { result ≡ before_next before kind is_string }
{
    match (before, kind) {
        (_, Kind::Colon) => PrecedingToken::Colon,
        (PrecedingToken::Colon, Kind::Name | Kind::Text) => PrecedingToken::Label,
        (PrecedingToken::Colon, Kind::OpenList) => PrecedingToken::LabelBracket,
        (PrecedingToken::LabelBracket, Kind::Name) if is_string => PrecedingToken::LabelName,
        (PrecedingToken::LabelName, Kind::CloseList) => PrecedingToken::LabelEnd,
        (PrecedingToken::Label, Kind::Question | Kind::Bang) => PrecedingToken::Mark,
        _ => PrecedingToken::Other,
    }
}

fn short_colon(before: PrecedingToken) -> usize
    ensures { result ≡ short_colon before }
{
    match before {
        PrecedingToken::Label | PrecedingToken::Mark | PrecedingToken::LabelEnd => 1,
        PrecedingToken::Other
        | PrecedingToken::Colon
        | PrecedingToken::LabelBracket
        | PrecedingToken::LabelName => 0,
    }
}

impl NestingState {
    fn open(&mut self) -> Result<(), AllocError>
        requires { self.old.nested ≤ most_nested }
        ensures { OnOk result (levels_of self.new ≡ level_opened (levels_of self.old)) }
    {
        self.outer.push(self.level)?;
        self.nested += 1;
        self.level = self.nested;
        Ok(())
    }

    fn close(&mut self)
        ensures { levels_of self.new
            ≡ level_closed (levels_of self.old) (levels_of self.old).outer }
    {
        if let Some(level) = self.outer.pop() {
            self.nested = self.level.saturating_sub(1);
            self.level = level;
        }
    }

    /// Goes on after a token.
    fn pass(&mut self, before: PrecedingToken, kind: Kind) -> Result<(), AllocError>
        requires { self.old.nested ≤ most_nested }
        ensures { OnOk result (levels_of self.new ≡ levels_next before kind (levels_of self.old)) }
    {
        match kind {
            Kind::OpenStruct | Kind::OpenWide | Kind::OpenList | Kind::OpenParen | Kind::OpenCall =>
                self.open()?,
            Kind::CloseStruct | Kind::CloseList | Kind::CloseParen => self.close(),
            Kind::Comma | Kind::Inserted => self.nested = self.level,
            Kind::Colon => self.nested += short_colon(before),
            _ => {}
        }
        Ok(())
    }
}

/// Whether tokens nest too deep.
pub(crate) fn is_too_nested(alloc: Global, tokens: &[Token<'_>]) -> Result<bool, AllocError>
    ensures { IfOk result (λ deep. deep
        ≡ nat_lt most_nested (nesting (words (lexemes_view tokens.now)))) }
{
    let mut before = PrecedingToken::Other;
    let mut levels = NestingState {
        nested: 0,
        level: 0,
        outer: Vec::new(alloc),
    };
    for token in tokens {
        if levels.nested > MOST_NESTED {
            return Ok(true);
        }
        let kind = kind_of(token);
        levels.pass(before, kind)?;
        before = before_next(before, kind, names_string(token));
    }
    Ok(levels.nested > MOST_NESTED)
}
