// What is at the front of a text.

ghost use Rattle.std.specs.Prelude.{◌≡◌, ◌<◌, length, slice_index, true};
ghost use Rattle.std.specs.List.{prefix_len};
ghost use Rattle.cs_grammar.specs.Spelling.{is_digit, is_name_byte};
ghost use Rattle.cs_grammar.specs.Cut.{run, begins_comment, line_len, is_too_large};
ghost use Rattle.cs_lexer.specs.Pieces.{IsPiece, begins_name, begins_definition_name, begins_bottom_rest};

use crate::bytes::{begins_definition, is_digit, is_letter, is_name_byte, is_run_byte, is_space};
use crate::mark::longest_mark;
use crate::numeral::{integer_value, is_integer};
use crate::text::{begins_quotes, text_len};
use cs_grammar::{LineState, Sort};

/// What is at the front of a text.
#[derive(Clone, Copy)]
pub(crate) enum Piece {
    /// A blank within the line.
    Space,
    /// The end of a line.
    NewLine,
    /// A comment of that length.
    Comment(usize),
    /// A token of that sort and length.
    Token(Sort, usize),
    /// Nothing of these.
    NoToken,
    /// An integer out of range.
    TooLarge,
}

/// The length of the name at the front of the bytes.
pub(crate) fn name_len(bytes: &[u8]) -> usize
    ensures { result ≡ prefix_len is_name_byte bytes.now }
{
    bytes.iter().take_while(|x| is_name_byte(**x)).count()
}

/// The length of the run of a number.
fn run_len(bytes: &[u8]) -> usize
    ensures { result ≡ run bytes.now }
{
    bytes.iter().take_while(|x| is_run_byte(**x)).count()
}

/// Whether the bytes begin with a comment.
pub(crate) fn begins_comment(bytes: &[u8]) -> bool
    ensures { result ≡ begins_comment bytes.now }
{
    match bytes {
        [x, y, ..] => *x == b'/' && *y == b'/',
        _ => false,
    }
}

/// The length of what is left of the line.
fn line_len(bytes: &[u8]) -> usize
    ensures { result ≡ line_len bytes.now }
{
    bytes.iter().take_while(|x| **x != b'\n').count()
}

/// Whether an integer is out of range: the least one needs its minus.
fn is_too_large(line: LineState, text: &[u8]) -> bool
    ensures { result ≡ is_too_large line text.now }
{
    match integer_value(text) {
        Some(value) => match line {
            LineState::Minus => value > 1 << 63,
            LineState::Plain | LineState::WantsComma => value >= 1 << 63,
        },
        None => true,
    }
}

fn number_piece(line: LineState, bytes: &[u8]) -> Piece
    requires some { 0 < length bytes.now }
    requires digit { is_digit (slice_index bytes.now 0) ≡ true }
    ensures { IsPiece line bytes.now result }
{
    let len = run_len(bytes);
    if !is_integer(&bytes[..len]) {
        return Piece::NoToken;
    }
    if is_too_large(line, &bytes[..len]) {
        return Piece::TooLarge;
    }
    Piece::Token(Sort::Integer, len)
}

/// Whether the bytes begin with a byte of a name.
fn begins_name(bytes: &[u8]) -> bool
    ensures { result ≡ begins_name bytes.now }
{
    match bytes {
        [first, ..] => is_name_byte(*first),
        [] => false,
    }
}

/// Whether the bytes begin with the name of a definition.
fn begins_definition_name(bytes: &[u8]) -> bool
    ensures { result ≡ begins_definition_name bytes.now }
{
    match bytes {
        [b'#', next, ..] => begins_definition(*next),
        _ => false,
    }
}

/// Whether the bytes begin with what makes `_` to `_|_`.
fn begins_bottom_rest(bytes: &[u8]) -> bool
    ensures { result ≡ begins_bottom_rest bytes.now }
{
    matches!(bytes, [b'|', b'_', ..])
}

fn definition_piece(line: LineState, bytes: &[u8]) -> Piece
    requires some { 0 < length bytes.now }
    requires hash { slice_index bytes.now 0 ≡ 35 }
    ensures { IsPiece line bytes.now result }
{
    if !begins_definition_name(bytes) {
        return Piece::NoToken;
    }
    Piece::Token(Sort::Definition, name_len(&bytes[1..]) + 1)
}

/// A token that begins with `_`: a hidden name, `_|_` or `_`.
fn underscore_piece(line: LineState, bytes: &[u8]) -> Piece
    requires some { 0 < length bytes.now }
    requires underscore { slice_index bytes.now 0 ≡ 95 }
    ensures { IsPiece line bytes.now result }
{
    let rest = &bytes[1..];
    if begins_name(rest) {
        return Piece::Token(Sort::Hidden, name_len(rest) + 1);
    }
    if begins_definition_name(rest) {
        return Piece::Token(Sort::Hidden, name_len(&rest[1..]) + 2);
    }
    if begins_bottom_rest(rest) {
        return Piece::Token(Sort::Bottom, 3);
    }
    Piece::Token(Sort::Top, 1)
}

fn text_piece(line: LineState, bytes: &[u8]) -> Piece
    requires some { 0 < length bytes.now }
    requires quote { slice_index bytes.now 0 ≡ 34 }
    ensures { IsPiece line bytes.now result }
{
    if begins_quotes(bytes) {
        return Piece::NoToken;
    }
    match text_len(&bytes[1..]) {
        Some(len) => Piece::Token(Sort::Text, len + 1),
        None => Piece::NoToken,
    }
}

/// What is at the front of the bytes, after tokens that leave the line so.
pub(crate) fn read_piece(line: LineState, bytes: &[u8]) -> Piece
    requires { 0 < length bytes.now }
    ensures { IsPiece line bytes.now result }
{
    let first = bytes[0];
    if is_space(first) {
        return Piece::Space;
    }
    if first == b'\n' {
        return Piece::NewLine;
    }
    if is_letter(first) {
        return Piece::Token(Sort::Name, name_len(bytes));
    }
    if is_digit(first) {
        return number_piece(line, bytes);
    }
    if first == b'#' {
        return definition_piece(line, bytes);
    }
    if first == b'_' {
        return underscore_piece(line, bytes);
    }
    if first == b'"' {
        return text_piece(line, bytes);
    }
    if begins_comment(bytes) {
        return Piece::Comment(line_len(bytes));
    }
    match longest_mark(bytes) {
        Some((sort, len)) => Piece::Token(sort, len),
        None => Piece::NoToken,
    }
}
