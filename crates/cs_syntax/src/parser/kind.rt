// The tokens as the grammar sees them.

ghost use Rattle.std.specs.Prelude.{◌≡◌};
ghost use Rattle.cs_grammar.specs.View.{lexeme_view};
ghost use Rattle.cs_grammar.specs.TokenWords.{mark_kind, wide_kind, kind_of, word};
ghost use Rattle.cs_syntax.specs.Reading.{names_string, names_close, names_if, names_let};

use crate::parser::name::{is_close, is_if, is_let, is_string};
use cs_grammar::{Kind, Sort, Token};

/// What a mark is for the grammar.
fn mark_kind(text: &str) -> Kind
    ensures { result ≡ mark_kind text.now }
{
    match text {
        "{" => Kind::OpenStruct,
        "}" => Kind::CloseStruct,
        "[" => Kind::OpenList,
        "]" => Kind::CloseList,
        "(" => Kind::OpenParen,
        ")" => Kind::CloseParen,
        "," => Kind::Comma,
        ":" => Kind::Colon,
        "?" => Kind::Question,
        "!" => Kind::Bang,
        "&" => Kind::Amp,
        "|" => Kind::Bar,
        "..." => Kind::Dots,
        "<" => Kind::Less,
        "<=" => Kind::AtMost,
        ">" => Kind::More,
        ">=" => Kind::AtLeast,
        "!=" => Kind::Unequal,
        "-" => Kind::Minus,
        "*" => Kind::Star,
        "==" => Kind::Equal,
        "." => Kind::Dot,
        "=" => Kind::Assign,
        _ => Kind::LeftOut,
    }
}

/// What a token is where the wide profile reads it in its own way; the end has no text.
fn wide_kind(text: &str) -> Kind
    ensures { result ≡ wide_kind text.now }
{
    let Some(first) = text.as_bytes().first() else {
        return Kind::WideEnd;
    };
    match *first {
        b'{' => Kind::OpenWide,
        b'(' => Kind::OpenCall,
        b'_' => Kind::Local,
        _ => Kind::LeftOut,
    }
}

/// What a token is for the grammar.
pub(crate) fn kind_of(token: &Token<'_>) -> Kind
    ensures { result ≡ kind_of token.now.sort token.now.text.now }
{
    match token.sort {
        Sort::Name => Kind::Name,
        Sort::Definition => Kind::Definition,
        Sort::Hidden => Kind::Hidden,
        Sort::Top => Kind::Top,
        Sort::Bottom => Kind::Bottom,
        Sort::Integer => Kind::Integer,
        Sort::Text => Kind::Text,
        Sort::Mark => mark_kind(token.text),
        Sort::Wide => wide_kind(token.text),
        Sort::LeftOut => Kind::LeftOut,
        Sort::Inserted => Kind::Inserted,
        Sort::End => Kind::End,
    }
}

/// Whether a token is the name `string`.
pub(crate) fn names_string(token: &Token<'_>) -> bool
    ensures { result ≡ names_string (word (lexeme_view token.now)) }
{
    kind_of(token) == Kind::Name && is_string(token.text)
}

/// Whether a token is the name `close`.
pub(crate) fn names_close(token: &Token<'_>) -> bool
    ensures { result ≡ names_close (word (lexeme_view token.now)) }
{
    kind_of(token) == Kind::Name && is_close(token.text)
}

/// Whether a token is the name `if`.
pub(crate) fn names_if(token: &Token<'_>) -> bool
    ensures { result ≡ names_if (word (lexeme_view token.now)) }
{
    kind_of(token) == Kind::Name && is_if(token.text)
}

/// Whether a token is the name `let`.
pub(crate) fn names_let(token: &Token<'_>) -> bool
    ensures { result ≡ names_let (word (lexeme_view token.now)) }
{
    kind_of(token) == Kind::Name && is_let(token.text)
}
