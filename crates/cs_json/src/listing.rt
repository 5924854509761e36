// From the text of a document to the list of its items, in one pass over the tokens.
ghost use Rattle.std.specs.Prelude.{◌≡◌, ◌<◌, ◌≤◌, ◌==◌, ℕ, List, [], ◌∷◌, true, IsTrue, slice_index, vec_len, IfOk, IfSome, OnOk, Some, length, map, option_and_then, take, drop};
ghost use Rattle.std.specs.List.Sorted.{IsPermutation};
ghost use Rattle.json.specs.Token.{Token as TheToken};
ghost use Rattle.json.specs.Reads.{token_of};
ghost use Rattle.json.specs.Json.{value, items, members, parse_map};
ghost use Rattle.serde_json.specs.Data.{no_members, array, object};
ghost use Rattle.serde_json.specs.Find.{as_i64};
ghost use Rattle.serde_json.specs.Read.{number_of, number_from, of_json, of_items, of_members, converted};
ghost use Rattle.cs_document.specs.Inside.{KeysAscend};
ghost use Rattle.cs_json.specs.Texts.{Reads};
ghost use Rattle.cs_json.specs.Listings.{document_read, AddsRead};
ghost use Rattle.cs_flat.specs.Listed.{document_in};
ghost use Rattle.cs_flat.specs.View.{entry_of};

use crate::Flat;
use cs_flat::Builder;
use fast_float::Numeral;
use json::{Invalid, Reader, Scratch, Token};
use std::alloc::{AllocError, AllocFailed, Global};

/// How deep lists and maps may nest, as in `serde_json`.
const MAX_DEPTH: usize = 127;

/// Why the reading of a text stopped.
#[derive(Drop)]
enum Stop {
    /// Something about the text is out of the ordinary.
    Unusual,
    OutOfMemory,
}

impl From<AllocError> for Stop {
    fn from(_: AllocError) -> Stop {
        Stop::OutOfMemory
    }
}

impl<T: Drop> From<AllocFailed<T>> for Stop {
    fn from(_refused: AllocFailed<T>) -> Stop {
        Stop::OutOfMemory
    }
}

impl From<Invalid> for Stop {
    fn from(_: Invalid) -> Stop {
        Stop::Unusual
    }
}

/// A text that is being read into items.
#[derive(Drop)]
struct Listing<'a> {
    reader: Reader<'a>,
    items: Builder<'a>,
    /// The numbers of the elements so far, of all lists that are open.
    elements: Vec<usize>,
    /// The members so far, of all maps that are open.
    entries: Vec<(&'a str, usize)>,
}

/// The document that a text of JSON is, as the list of its items, where nothing about the text is out of the ordinary.
/// It is left to [`crate::read_doc`] where it is no JSON, nests above 127 levels, has a number that isn't a signed integer
/// of 64 bits, or has a key twice in a map: none then.
pub fn read_flat<'a>(
    alloc: Global,
    text: &'a [u8],
    scratch: &'a mut Scratch,
) -> Result<Option<Flat<'a>>, AllocError>
    ensures found { IfOk result (λ o. IfSome o (λ f. Reads text.now (document_in f))) }
{
    let Ok(text) = simdutf8::compat::from_utf8(text) else {
        return Ok(None);
    };
    let listing = Listing {
        reader: Reader::new(text, scratch)?,
        items: Builder::new(alloc),
        elements: Vec::new(alloc),
        entries: Vec::new(alloc),
    };
    match listing.read_all() {
        Ok(flat) => Ok(Some(flat)),
        Err(Stop::Unusual) => Ok(None),
        Err(Stop::OutOfMemory) => Err(AllocError),
    }
}

impl<'a> Listing<'a> {
    /// Reads the value that the text is, where nothing is behind it.
    fn read_all(mut self) -> Result<Flat<'a>, Stop>
        requires { self.items ≡ [] }
        ensures { IfOk result (λ f. document_read self.entry.reader ≡ Some (document_in f)) }
    {
        self.read(MAX_DEPTH)?;
        if self.reader.next().is_some() {
            return Err(Stop::Unusual);
        }
        Ok(self.items.finish())
    }

    /// Reads a value, and answers its number. It nests at most `depth` levels.
    #[cycle(read)]
    #[inline]
    fn read(&mut self, depth: usize) -> Result<usize, Stop>
        ensures read { IfOk result (λ n. AddsRead (converted of_json (value depth self.old.reader))
            self.new.reader self.old.items self.new.items n) }
        ensures shorter { OnOk result (length self.new.reader < length self.old.reader) }
        ensures elements { OnOk result (self.new.elements.items ≡ self.old.elements.items) }
        ensures entries { OnOk result (self.new.entries.items ≡ self.old.entries.items) }
    {
        let token = self.reader.next().ok_or(Stop::Unusual)?;
        match token {
            Token::String(_)
            | Token::Number(_)
            | Token::Bool(_)
            | Token::Null
            | Token::EndObject
            | Token::EndArray
            | Token::Key(_)
            | Token::Bad => add_scalar(&mut self.items, token),
            Token::BeginArray => {
                if depth == 0 {
                    return Err(Stop::Unusual);
                }
                self.read_list(depth - 1)
            }
            Token::BeginObject => {
                if depth == 0 {
                    return Err(Stop::Unusual);
                }
                self.read_map(depth - 1)
            }
        }
    }

    /// Reads the elements of a list, and its end.
    #[cycle(read)]
    #[inline(never)]
    fn read_list(&mut self, depth: usize) -> Result<usize, Stop>
        ensures read { IfOk result (λ n. AddsRead
            (parse_map array (converted of_items (items (value depth) (length self.old.reader) self.old.reader)))
            self.new.reader self.old.items self.new.items n) }
        ensures shorter { OnOk result (length self.new.reader < length self.old.reader) }
        ensures elements { OnOk result (self.new.elements.items ≡ self.old.elements.items) }
        ensures entries { OnOk result (self.new.entries.items ≡ self.old.entries.items) }
    {
        let start = self.elements.len();
        'elements: while !self.reader.take_end_array() {
            let number = self.read(depth)?;
            self.elements.push(number)?;
        }
        let number = self.items.list(&self.elements[start..])?;
        self.elements.truncate(start);
        Ok(number)
    }

    /// Reads the members of a map, and its end.
    #[cycle(read)]
    #[inline(never)]
    fn read_map(&mut self, depth: usize) -> Result<usize, Stop>
        ensures read { IfOk result (λ n. AddsRead
            (parse_map object (converted (λ ms. of_members ms no_members)
            (members (value depth) (length self.old.reader) self.old.reader)))
            self.new.reader self.old.items self.new.items n) }
        ensures shorter { OnOk result (length self.new.reader < length self.old.reader) }
        ensures elements { OnOk result (self.new.elements.items ≡ self.old.elements.items) }
        ensures entries { OnOk result (self.new.entries.items ≡ self.old.entries.items) }
    {
        let start = self.entries.len();
        'members: while let Some(key) = self.reader.next_key()? {
            let number = self.read(depth)?;
            self.entries.push((key, number))?;
        }
        if !sort_from(&mut self.entries, start) {
            return Err(Stop::Unusual);
        }
        let number = self.items.object(&self.entries[start..])?;
        self.entries.truncate(start);
        Ok(number)
    }
}

/// Adds the value that a token alone is, and answers its number.
#[inline]
fn add_scalar<'a>(items: &mut Builder<'a>, token: Token<'a>) -> Result<usize, Stop>
    ensures { (depth : ℕ) (rest : List TheToken) → IfOk result (λ n. AddsRead
        (converted of_json (value depth (token_of token.entry ∷ rest))) rest items.old items.new n) }
{
    match token {
        Token::String(text) => Ok(items.text(text)?),
        Token::Number(text) => match integer(text) {
            Some(value) => Ok(items.integer(value)?),
            None => Err(Stop::Unusual),
        },
        Token::Bool(value) => Ok(items.boolean(value)?),
        Token::Null => Ok(items.null()?),
        Token::BeginObject
        | Token::BeginArray
        | Token::EndObject
        | Token::EndArray
        | Token::Key(_)
        | Token::Bad => Err(Stop::Unusual),
    }
}

/// The integer that a number of JSON is, where it has neither a point nor an exponent, fits 64 bits, and isn't `-0`.
pub(crate) fn integer(text: &str) -> Option<i64>
    ensures { IfSome result (λ z. option_and_then as_i64 (number_of text.now) ≡ Some z) }
{
    let bytes = text.as_bytes();
    if has_minus(bytes) {
        negative(&Numeral::scan(&bytes[1..]))
    } else {
        Numeral::scan(bytes).to_i64(false)
    }
}

/// Whether a number of JSON is below zero, or is `-0`.
fn has_minus(number: &[u8]) -> bool
    ensures value { result ≡ (slice_index number.now 0 == 45) }
    ensures len { IsTrue result → 0 < length number.now }
{
    !number.is_empty() && number[0] == b'-'
}

/// The integer below zero that a numeral behind a minus is.
fn negative(digits: &Numeral) -> Option<i64>
    ensures { IfSome result (λ z. option_and_then as_i64 (number_from true digits.now) ≡ Some z) }
{
    let number = digits.to_i64(true)?;
    if number < 0 { Some(number) } else { None }
}

/// Sorts the entries from a place on by their keys, in byte order, and answers whether each key is there once.
fn sort_from(entries: &mut Vec<(&str, usize)>, start: usize) -> bool
    requires { start ≤ vec_len entries.old }
    ensures front { take start entries.new.items ≡ take start entries.old.items }
    ensures moved { IsPermutation (drop start entries.old.items) (drop start entries.new.items) }
    ensures ascends { IsTrue result → KeysAscend (map entry_of (drop start entries.new.items)) }
{
    if ascend(&entries[start..]) {
        return true;
    }
    entries[start..].sort_unstable_by_key(|entry| entry.0);
    ascend(&entries[start..])
}

/// Whether each key is above the one before it, in byte order.
fn ascend(entries: &[(&str, usize)]) -> bool
    ensures { IsTrue result → KeysAscend (map entry_of entries.now) }
{
    entries.is_sorted_by(|a, b| a.0 < b.0)
}
