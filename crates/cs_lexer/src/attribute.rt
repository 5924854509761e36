// Attributes.

ghost use Rattle.std.specs.Prelude.{◌≡◌, [], IfOk, ℕ};
ghost use Rattle.cs_grammar.specs.Attribute.{begins_bytes, begins_other_text, begins_raw};
ghost use Rattle.cs_grammar.specs.Attribute.{attribute_in, attribute_len, attribute_step, begins_attribute, bracket_step, commented_step, escaped_step, first_step, head_len, is_closing, open_len, opening_step, parenthesis_len, quoted_step};
ghost use Rattle.cs_grammar.specs.declared.attribute.Opened.TheVariants as opened;

use crate::bytes::begins_definition;
use crate::piece::{begins_comment, name_len};
use crate::text::{begins_quotes, escape_value};
use cs_grammar::{AttributeStep, Opened, Profile};
use std::alloc::{AllocError, Global};

/// Whether the bytes begin with a text that the profiles leave out.
fn begins_other_text(bytes: &[u8]) -> bool
    ensures { result ≡ begins_other_text bytes.now }
{
    begins_bytes(bytes) || begins_raw(bytes) || begins_quotes(bytes)
}

/// Whether they begin with `'`.
fn begins_bytes(bytes: &[u8]) -> bool
    ensures { result ≡ begins_bytes bytes.now }
{
    match bytes {
        [x, ..] => *x == b'\'',
        [] => false,
    }
}

/// Whether they begin with `#"`.
fn begins_raw(bytes: &[u8]) -> bool
    ensures { result ≡ begins_raw bytes.now }
{
    match bytes {
        [x, y, ..] => *x == b'#' && *y == b'"',
        _ => false,
    }
}

/// What a byte outside texts and comments opens.
fn opening_step(x: u8) -> AttributeStep
    ensures { result ≡ opening_step x }
{
    match x {
        b'(' => AttributeStep::Opens(Opened::Paren),
        b'[' => AttributeStep::Opens(Opened::List),
        b'{' => AttributeStep::Opens(Opened::Struct),
        b'"' => AttributeStep::Opens(Opened::Text),
        _ => AttributeStep::Stays,
    }
}

fn is_closing(x: u8) -> bool
    ensures { result ≡ is_closing x }
{
    matches!(x, b')' | b']' | b'}')
}

/// What the first byte does behind a bracket that `closing` closes.
fn bracket_step(closing: u8, bytes: &[u8]) -> AttributeStep
    ensures { result ≡ bracket_step closing bytes.now }
{
    match bytes {
        [] => AttributeStep::Fails,
        [x, ..] => {
            if *x == closing {
                return AttributeStep::Closes;
            }
            if is_closing(*x) || begins_other_text(bytes) {
                return AttributeStep::Fails;
            }
            if begins_comment(bytes) {
                return AttributeStep::Opens(Opened::Comment);
            }
            opening_step(*x)
        }
    }
}

/// What a byte does in a text.
fn quoted_step(x: u8) -> AttributeStep
    ensures { result ≡ quoted_step x }
{
    match x {
        b'"' => AttributeStep::Closes,
        b'\\' => AttributeStep::Opens(Opened::Escape),
        b'\n' => AttributeStep::Fails,
        _ => AttributeStep::Stays,
    }
}

/// What a byte does behind a backslash.
fn escaped_step(x: u8) -> AttributeStep
    ensures { result ≡ escaped_step x }
{
    if escape_value(x).is_some() || x == b'u' || x == b'U' {
        return AttributeStep::Closes;
    }
    AttributeStep::Fails
}

/// What a byte does in a comment.
fn commented_step(x: u8) -> AttributeStep
    ensures { result ≡ commented_step x }
{
    match x {
        b'\n' => AttributeStep::Closes,
        _ => AttributeStep::Stays,
    }
}

/// What the first byte does behind what was opened last.
fn attribute_step(innermost: Opened, bytes: &[u8]) -> AttributeStep
    ensures { result ≡ attribute_step innermost bytes.now }
{
    match (innermost, bytes) {
        (Opened::Paren, _) => bracket_step(b')', bytes),
        (Opened::List, _) => bracket_step(b']', bytes),
        (Opened::Struct, _) => bracket_step(b'}', bytes),
        (_, []) => AttributeStep::Fails,
        (Opened::Text, [x, ..]) => quoted_step(*x),
        (Opened::Escape, [x, ..]) => escaped_step(*x),
        (Opened::Comment, [x, ..]) => commented_step(*x),
    }
}

/// How many bytes there are up to the parenthesis that closes an open one, and with it.
fn open_len(alloc: Global, bytes: &[u8]) -> Result<Option<usize>, AllocError>
    ensures { IfOk result (λ n. n ≡ open_len opened.Paren [] bytes.now) }
{
    let mut innermost = Opened::Paren;
    // What is open around it, the innermost last.
    let mut outer = Vec::new(alloc);
    'attribute: for i in 0..bytes.len() {
        match attribute_step(innermost, &bytes[i..]) {
            AttributeStep::Opens(next) => {
                outer.push(innermost)?;
                innermost = next;
            }
            AttributeStep::Closes => match outer.pop() {
                Some(next) => innermost = next,
                None => return Ok(Some(i + 1)),
            },
            AttributeStep::Stays => {}
            AttributeStep::Fails => return Ok(None),
        }
    }
    Ok(None)
}

/// The length of what is in parentheses at the front of the bytes, with these.
fn parenthesis_len(alloc: Global, bytes: &[u8]) -> Result<Option<usize>, AllocError>
    ensures { IfOk result (λ n. n ≡ parenthesis_len bytes.now) }
{
    match bytes {
        [b'(', ..] => match open_len(alloc, &bytes[1..])? {
            Some(len) => Ok(Some(len + 1)),
            None => Ok(None),
        },
        _ => Ok(None),
    }
}

/// Whether the bytes begin with `@` and a byte with which an identifier begins.
fn begins_attribute(bytes: &[u8]) -> bool
    ensures { result ≡ begins_attribute bytes.now }
{
    match bytes {
        [x, y, ..] => *x == b'@' && begins_definition(*y),
        _ => false,
    }
}

/// The length of the attribute at the front of the bytes, if one is there (CUE, attributes).
fn attribute_len(alloc: Global, bytes: &[u8]) -> Result<Option<usize>, AllocError>
    ensures { IfOk result (λ n. n ≡ attribute_len bytes.now) }
{
    if !begins_attribute(bytes) {
        return Ok(None);
    }
    let head = name_len(&bytes[1..]) + 1;
    match parenthesis_len(alloc, &bytes[head..])? {
        Some(len) => Ok(Some(head + len)),
        None => Ok(None),
    }
}

/// The same in a profile.
pub(crate) fn attribute_in(
    alloc: Global,
    profile: Profile,
    bytes: &[u8],
) -> Result<Option<usize>, AllocError>
    ensures { IfOk result (λ n. n ≡ attribute_in profile bytes.now) }
{
    match profile {
        Profile::Default => Ok(None),
        Profile::Wide => attribute_len(alloc, bytes),
    }
}
