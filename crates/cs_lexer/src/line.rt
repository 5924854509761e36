// What the lexer keeps of the tokens before a place.

ghost use Rattle.std.specs.Prelude.{◌≡◌};
ghost use Rattle.cs_grammar.specs.Cut.{line_after, line_after_mark, line_ended};

use cs_grammar::{LineState, Sort};

/// What a token means for what follows it.
pub(crate) fn line_after(sort: Sort, text: &[u8]) -> LineState
    ensures { result ≡ line_after sort text.now }
{
    match sort {
        Sort::Name
        | Sort::Definition
        | Sort::Hidden
        | Sort::Top
        | Sort::Bottom
        | Sort::Integer
        | Sort::Text => LineState::WantsComma,
        Sort::Mark => line_after_mark(text),
        Sort::Wide | Sort::LeftOut | Sort::Inserted | Sort::End => LineState::Plain,
    }
}

fn line_after_mark(text: &[u8]) -> LineState
    ensures { result ≡ line_after_mark text.now }
{
    match text {
        [b')'] | [b']'] | [b'}'] | [b'?'] | [b'.', b'.', b'.'] => LineState::WantsComma,
        [b'-'] => LineState::Minus,
        _ => LineState::Plain,
    }
}

/// What is left of it at the end of a line.
pub(crate) fn line_ended(line: LineState) -> LineState
    ensures { result ≡ line_ended line }
{
    match line {
        LineState::Minus => LineState::Minus,
        LineState::Plain | LineState::WantsComma => LineState::Plain,
    }
}
