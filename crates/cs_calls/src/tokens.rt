// Rows of sources: their tokens, bodies and notes.
use crate::rows::cell;
use crate::sources::{cut, parsed};
use crate::texts::bytes_of;
use cs_comments::notes_of;
use cs_syntax::{File, Profile, Token};
use cs_tool::Fault;
use std::alloc::{AllocError, Global};

/// The tokens of a source in a profile: sort, text and start of each.
pub fn tokens(alloc: Global, profile: Profile, source: &str) -> Result<Vec<u8>, Fault> {
    let tokens = cut(alloc, profile, source)?;
    Ok(shown(alloc, &tokens)?.into_bytes())
}

fn shown(alloc: Global, tokens: &[Token<'_>]) -> Result<String, AllocError> {
    let mut shown = String::new(alloc);
    for token in tokens {
        write!(shown, "{:?} {:?} {}|", token.sort, token.text, token.start)?;
    }
    Ok(shown)
}

/// The bodies of a source's definitions.
pub fn bodies(alloc: Global, source: &str) -> Result<Vec<u8>, Fault> {
    let file = parsed(alloc, source)?;
    Ok(shown_bodies(alloc, &file)?.into_bytes())
}

fn shown_bodies(alloc: Global, file: &File) -> Result<String, AllocError> {
    let mut shown = String::new(alloc);
    for definition in &file.definitions {
        if !shown.is_empty() {
            shown.push_str(" ")?;
        }
        write!(shown, "{:?}", definition.body)?;
    }
    Ok(shown)
}

/// How many definitions of two sources have notes.
pub fn notes(alloc: Global, profile: Profile, cells: &str) -> Result<Vec<u8>, Fault> {
    let (first, second) = cell(cells);
    let second = bytes_of(alloc, second)?;
    let notes = notes_of(alloc, profile, &[first.as_bytes(), &second])?;
    let count = notes.len();
    Ok(format!(in alloc; "{count}")?.into_bytes())
}
