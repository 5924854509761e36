// Where a text has a number that isn't an integer.
ghost use Rattle.std.specs.Prelude.{◌≤◌, IfOk, length};

use crate::listing::integer;
use json::{Reader, Scratch, Token};
use std::alloc::{AllocError, Global};

/// The offset of the first number of a text of JSON that isn't an integer of 64 signed bits; its end where there is none.
pub(crate) fn other_number(alloc: Global, text: &[u8]) -> Result<usize, AllocError>
    ensures { IfOk result (λ offset. offset ≤ length text.now) }
{
    let Ok(source) = simdutf8::compat::from_utf8(text) else {
        return Ok(text.len());
    };
    let mut scratch = Scratch::new(alloc);
    let mut reader = Reader::new(source, &mut scratch)?;
    let mut offset = reader.offset(); // the reader has passed what is between a token and the next one
    while let Some(token) = reader.next() {
        if is_other_number(&token) {
            return Ok(offset.min(text.len()));
        }
        offset = reader.offset();
    }
    Ok(text.len())
}

/// Whether a token is a number that isn't an integer of 64 signed bits.
fn is_other_number(token: &Token<'_>) -> bool {
    match token {
        Token::Number(text) => integer(text).is_none(),
        Token::String(_)
        | Token::Bool(_)
        | Token::Null
        | Token::BeginObject
        | Token::BeginArray
        | Token::EndObject
        | Token::EndArray
        | Token::Key(_)
        | Token::Bad => false,
    }
}
