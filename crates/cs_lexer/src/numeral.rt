// Integers, in decimal and in hexadecimal digits.

ghost use Rattle.std.specs.Prelude.{◌≡◌, ◌<◌, ◌^◌, SomeIff};
ghost use Rattle.std.specs.List.{list_all};
ghost use Rattle.cs_grammar.specs.Spelling.{begins_piece, is_hex_digit, is_hex_rest, is_integer, is_separated};
ghost use Rattle.cs_grammar.specs.Values.{digits_after, integer_value, is_hexadecimal};

use crate::bytes::{digit_value, is_digit, is_hex_digit};

/// Whether the bytes begin with a digit, or an underscore before a digit.
fn begins_piece(bytes: &[u8]) -> bool
    ensures { result ≡ begins_piece bytes.now }
{
    match bytes {
        [b'_', next, ..] => is_digit(*next),
        [first, ..] => is_digit(*first),
        [] => false,
    }
}

/// Whether a text is digits, and underscores that each come before a digit.
fn is_separated(text: &[u8]) -> bool
    ensures { result ≡ is_separated text.now }
{
    for i in 0..text.len() {
        if !begins_piece(&text[i..]) {
            return false;
        }
    }
    true
}

fn all_hex_digits(text: &[u8]) -> bool
    ensures { result ≡ list_all is_hex_digit text.now }
{
    text.iter().all(|x| is_hex_digit(*x))
}

/// Whether a text is `x` and one or more hexadecimal digits.
fn is_hex_rest(text: &[u8]) -> bool
    ensures { result ≡ is_hex_rest text.now }
{
    match text {
        [b'x', _, ..] => all_hex_digits(&text[1..]),
        _ => false,
    }
}

/// Whether a text is an integer: `0`, decimal digits with single underscores between them that do
/// not begin with 0, or `0x` and hexadecimal digits.
#[tactic(auto, unfolding(cs_grammar::specs::Spelling::is_integer))]
pub(crate) fn is_integer(text: &[u8]) -> bool
    ensures { result ≡ is_integer text.now }
{
    match text {
        [] => false,
        [b'0'] => true,
        [b'0', ..] => is_hex_rest(&text[1..]),
        [x, ..] => is_digit(*x) && is_separated(&text[1..]),
    }
}

/// The number that digits stand for in a base, if it has at most 64 bits.
fn digits_value(base: u64, digits: &[u8]) -> Option<u64>
    requires { 0 < base }
    ensures { SomeIff result (digits_after base 0 digits.now < 2 ^ 64)
        (digits_after base 0 digits.now) }
{
    let mut value: u64 = 0;
    for x in digits {
        if *x != b'_' {
            value = value
                .checked_mul(base)?
                .checked_add(digit_value(*x) as u64)?;
        }
    }
    Some(value)
}

fn is_hexadecimal(text: &[u8]) -> bool
    ensures { result ≡ is_hexadecimal text.now }
{
    matches!(text, [_, b'x', ..])
}

/// The value of an integer by the text of its token, if it has at most 64 bits (CUE, numeric literals).
#[tactic(auto, unfolding(cs_grammar::specs::Values::integer_value))]
pub fn integer_value(text: &[u8]) -> Option<u64>
    ensures { SomeIff result (integer_value text.now < 2 ^ 64) (integer_value text.now) }
{
    if is_hexadecimal(text) {
        digits_value(16, &text[2..])
    } else {
        digits_value(10, text)
    }
}
