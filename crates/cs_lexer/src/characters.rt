// The characters of texts.

ghost use Rattle.std.specs.Prelude.{◌≡◌, ◌<◌, ◌++◌, true, IfOk, OnOk, codes, encode_utf8, string_bytes};
ghost use Rattle.cs_grammar.specs.Spelling.{is_character};
ghost use Rattle.cs_grammar.specs.Values.{unescaped};
ghost use Rattle.cs_lexer.specs.Automaton.{character_at, text_step, value_from};
ghost use Rattle.cs_lexer.specs.Quoted.{begins_quote};
ghost use Rattle.cs_lexer.specs.Lexed.{IsOf};

use crate::bytes::digit_value;
use crate::text::{TextState, TextStep, escape_value, text_step};
use cs_grammar::SyntaxFault;
use std::alloc::{AllocError, Global};

/// The characters that a text stands for, by the text of its token (CUE, string and byte sequence literals).
/// If it begins with a quote but isn't a text, the answer is empty.
///
/// # Errors
/// `OutOfMemory` alone.
pub fn unescape(alloc: Global, text: &str) -> Result<String, SyntaxFault>
    requires { begins_quote text.now ≡ true }
    ensures { IsOf result (unescaped text.now) }
{
    match text[1..].strip_suffix('"') {
        Some(inside) => Ok(characters(alloc, inside)?),
        None => Ok(String::new(alloc)),
    }
}

/// The characters of a text between its quotes, or none where it isn't one.
fn characters(alloc: Global, inside: &str) -> Result<String, AllocError>
    ensures { IfOk result (λ s. string_bytes s
        ≡ value_from TextState.Inside (inside.now ++ codes "\"")) }
{
    let mut found = String::new(alloc);
    let mut state = TextState::Inside;
    'text: for character in inside.chars() {
        if !character.is_ascii() {
            // Past ASCII a character stands for itself, and within an escape the text fails.
            match state {
                TextState::Inside => found.push(character)?,
                _ => return Ok(String::new(alloc)),
            }
            continue;
        }
        let x = character as u8;
        match text_step(state, x) {
            TextStep::Ends | TextStep::Fails => return Ok(String::new(alloc)),
            TextStep::More(next) => {
                put_character(&mut found, state, x)?;
                state = next;
            }
        }
    }
    match state {
        TextState::Inside => Ok(found),
        _ => Ok(String::new(alloc)),
    }
}

/// Puts the character that an ASCII byte of a text ends, if it ends one.
fn put_character(found: &mut String, state: TextState, x: u8) -> Result<(), AllocError>
    requires { x < 128 }
    ensures { OnOk result ((next : TextState) → text_step state x ≡ TextStep.More next
        → string_bytes found.new ≡ string_bytes found.old ++ character_at state x) }
{
    match state {
        TextState::Inside => match x {
            b'\\' => Ok(()),
            _ => Ok(found.push(x as char)?),
        },
        TextState::Escaped => match x {
            b'u' | b'U' => Ok(()),
            _ => Ok(found.push(escape_value(x).unwrap_or(0) as char)?),
        },
        TextState::Digits { left, number } => {
            if left > 1 {
                return Ok(());
            }
            put_number(found, number as u64 * 16 + digit_value(x) as u64)
        }
    }
}

/// Puts the character of a number, if it is one of a character.
fn put_number(found: &mut String, number: u64) -> Result<(), AllocError>
    ensures { OnOk result (is_character number ≡ true
        → string_bytes found.new ≡ string_bytes found.old ++ encode_utf8 number) }
{
    if number > 0x10FFFF {
        return Ok(());
    }
    if let Some(character) = char::from_u32(number as u32) {
        found.push(character)?;
    }
    Ok(())
}
