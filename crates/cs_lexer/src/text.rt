// Text literals.

ghost use Rattle.std.specs.Prelude.{◌≡◌, List, ℕ, ◌∷◌, Some};
ghost use Rattle.cs_grammar.specs.Spelling.{is_character, escape_value, sort_of};
ghost use Rattle.cs_grammar.specs.Values.{unescaped};
ghost use Rattle.cs_grammar.specs.TextParts.{TextParts};
ghost use Rattle.cs_grammar.specs.Cut.{begins_quotes};
ghost use Rattle.cs_lexer.specs.Automaton.{number_step, text_step, text_len};

use crate::bytes::{digit_value, is_hex_digit};
use cs_grammar::Sort;

/// What comes before a place in a text.
#[derive(Clone, Copy)]
pub(crate) enum TextState {
    // Whole characters.
    Inside,
    // A backslash.
    Escaped,
    // `\u` or `\U` and some digits: how many are still to come, and their number so far.
    Digits { left: u8, number: u32 },
}

/// What a byte does in a text.
#[derive(Clone, Copy)]
pub(crate) enum TextStep {
    // The text goes on.
    More(TextState),
    // It ends.
    Ends,
    // It isn't a text.
    Fails,
}

/// Whether the bytes begin with three quotes.
pub(crate) fn begins_quotes(bytes: &[u8]) -> bool
    ensures { result ≡ begins_quotes bytes.now }
{
    match bytes {
        [x, y, z, ..] => *x == b'"' && *y == b'"' && *z == b'"',
        _ => false,
    }
}

/// The character that a letter after a backslash stands for.
pub(crate) fn escape_value(x: u8) -> Option<u8>
    ensures { result ≡ escape_value x }
{
    match x {
        b'a' => Some(7),
        b'b' => Some(8),
        b'f' => Some(12),
        b'n' => Some(b'\n'),
        b'r' => Some(b'\r'),
        b't' => Some(b'\t'),
        b'v' => Some(11),
        b'/' => Some(b'/'),
        b'\\' => Some(b'\\'),
        b'"' => Some(b'"'),
        _ => None,
    }
}

/// Whether a number is that of a character, and not of a surrogate.
fn is_character(number: u64) -> bool
    ensures { result ≡ is_character number }
{
    number < 0xD800 || (number >= 0xE000 && number <= 0x10FFFF)
}

/// What a digit does within an escape by number.
fn number_step(left: u8, number: u64) -> TextStep
    ensures { result ≡ number_step left number }
{
    if left > 1 {
        if number > 0x10FFFF {
            return TextStep::Fails;
        }
        let left = left - 1;
        let number = number as u32;
        return TextStep::More(TextState::Digits { left, number });
    }
    if is_character(number) {
        TextStep::More(TextState::Inside)
    } else {
        TextStep::Fails
    }
}

/// What a byte does after a backslash.
fn escape_step(x: u8) -> TextStep
    ensures { result ≡ text_step TextState.Escaped x }
{
    match x {
        b'u' => TextStep::More(TextState::Digits { left: 4, number: 0 }),
        b'U' => TextStep::More(TextState::Digits { left: 8, number: 0 }),
        _ => {
            if escape_value(x).is_some() {
                TextStep::More(TextState::Inside)
            } else {
                TextStep::Fails
            }
        }
    }
}

/// What a byte does in a text.
pub(crate) fn text_step(state: TextState, x: u8) -> TextStep
    ensures { result ≡ text_step state x }
{
    match state {
        TextState::Inside => match x {
            b'"' => TextStep::Ends,
            b'\\' => TextStep::More(TextState::Escaped),
            b'\n' => TextStep::Fails,
            _ => TextStep::More(TextState::Inside),
        },
        TextState::Escaped => escape_step(x),
        TextState::Digits { left, number } => {
            if is_hex_digit(x) {
                number_step(left, number as u64 * 16 + digit_value(x) as u64)
            } else {
                TextStep::Fails
            }
        }
    }
}

/// The length of a text after its first quote, with its last one.
pub(crate) fn text_len(bytes: &[u8]) -> Option<usize>
    ensures { result ≡ text_len TextState.Inside bytes.now }
{
    let mut state = TextState::Inside;
    'text: for (i, x) in bytes.iter().enumerate() {
        match text_step(state, *x) {
            TextStep::Ends => return Some(i + 1),
            TextStep::Fails => return None,
            TextStep::More(next) => state = next,
        }
    }
    None
}

/// After its first quote a text is its parts, as they are written: characters, escapes and
/// the last quote. What it stands for is their characters.
pub fn text_parts()
    ensures parts { (xs : List ℕ)
        → sort_of (34 ∷ xs) ≡ Some Sort.Text → TextParts xs (unescaped (34 ∷ xs)) }
    ensures text { (xs cs : List ℕ)
        → TextParts xs cs → (sort_of (34 ∷ xs) ≡ Some Sort.Text) × (unescaped (34 ∷ xs) ≡ cs) }
{}
