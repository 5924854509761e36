// Classes of bytes.

ghost use Rattle.std.specs.Prelude.{◌≡◌};
ghost use Rattle.cs_grammar.specs.Spelling.{is_letter, is_digit, is_hex_digit, digit_value, is_name_byte, begins_definition, is_run_byte};
ghost use Rattle.cs_grammar.specs.Cut.{is_space};

pub(crate) fn is_letter(x: u8) -> bool
    ensures { result ≡ is_letter x }
{
    matches!(x, b'A'..=b'Z' | b'a'..=b'z' | b'$')
}

pub(crate) fn is_digit(x: u8) -> bool
    ensures { result ≡ is_digit x }
{
    matches!(x, b'0'..=b'9')
}

pub(crate) fn is_hex_digit(x: u8) -> bool
    ensures { result ≡ is_hex_digit x }
{
    matches!(x, b'0'..=b'9' | b'A'..=b'F' | b'a'..=b'f')
}

/// The value of a decimal or hexadecimal digit.
pub(crate) fn digit_value(x: u8) -> u8
    ensures { result ≡ digit_value x }
{
    match x {
        b'0'..=b'9' => x - b'0',
        b'A'..=b'F' => x - b'A' + 10,
        b'a'..=b'f' => x - b'a' + 10,
        _ => 0,
    }
}

/// A byte after the first of a name.
pub(crate) fn is_name_byte(x: u8) -> bool
    ensures { result ≡ is_name_byte x }
{
    is_letter(x) || is_digit(x) || x == b'_'
}

/// A byte with which the name of a definition may begin, after its `#`.
pub(crate) fn begins_definition(x: u8) -> bool
    ensures { result ≡ begins_definition x }
{
    is_letter(x) || x == b'_'
}

/// A byte of a run that begins with a digit.
pub(crate) fn is_run_byte(x: u8) -> bool
    ensures { result ≡ is_run_byte x }
{
    matches!(x, b'A'..=b'Z' | b'a'..=b'z' | b'0'..=b'9' | b'_' | b'.')
}

/// A blank within a line.
pub(crate) fn is_space(x: u8) -> bool
    ensures { result ≡ is_space x }
{
    matches!(x, b' ' | b'\t' | b'\r')
}
