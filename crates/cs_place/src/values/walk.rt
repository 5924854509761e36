// A walk over the values of a JSON text, by its tokens.
use super::{Place, Step, ValuePath, number_place};
use crate::{Made, Written};
use itoa::Buffer;
use json::{Reader, Scratch, Token};
use std::alloc::Global;
use std::collections::BTreeMap;
use std::str;

/// A byte order mark, which readers of JSON may ignore (RFC 8259, section 8.1).
const MARK: &[u8] = b"\xEF\xBB\xBF";

/// The number of the document.
const DOCUMENT: usize = 0;

/// Where a value was found, and the first byte of the map or list that it was found in.
#[derive(Clone, Copy)]
pub(super) struct Found {
    pub(super) place: Place,
    pub(super) inside: usize,
}

/// A map or a list that a walk is in.
#[derive(Clone, Copy)]
struct Level<'a> {
    /// Its number; none where nothing is looked for in it.
    number: Option<usize>,
    /// Its first byte.
    start: usize,
    /// The step to the value that the walk is in or comes to next; in a map none before a key is read.
    step: Option<Step<'a>>,
    /// The first byte of the key that was read last.
    key: Option<usize>,
}

/// What a walk looks for, and how far it has come.
#[derive(Drop)]
struct Walk<'a> {
    /// From the number of a value and a step into it to the number of the value there.
    steps: BTreeMap<(usize, Step<'a>), usize>,
    /// By number, where each value was found last.
    found: Vec<Option<Found>>,
    /// The maps and lists that it is in, from the outermost one on.
    open: Vec<Level<'a>>,
}

/// By number, where each value was found last in a text. The numbers of the document and of these paths are added.
pub(super) fn found_in<'a>(
    alloc: Global,
    text: &'a [u8],
    paths: &[ValuePath<'a>],
    numbers: &mut Vec<usize>,
) -> Made<Vec<Option<Found>>> {
    let mut scratch = Scratch::new(alloc);
    let mut walk = Walk::new(alloc);
    walk.look_for(paths, numbers)?;
    walk.go(text, &mut scratch, usize::MAX)?;
    Ok(walk.found)
}

/// The pointer of the value that begins at an offset of a JSON text (RFC 6901). Only memory can run out.
pub fn pointer_at(alloc: Global, text: &[u8], offset: usize) -> Made<String> {
    let mut scratch = Scratch::new(alloc);
    let mut walk = Walk::new(alloc);
    walk.go(text, &mut scratch, offset)?;
    let mut pointer = String::new(alloc);
    put_steps(&mut pointer, &walk.open)?;
    Ok(pointer)
}

/// Puts the pointer of the steps into maps and lists.
fn put_steps(pointer: &mut String, open: &[Level<'_>]) -> Written {
    for level in open {
        pointer.push('/')?;
        match level.step {
            Some(Step::Key(key)) => put_key(pointer, key)?,
            Some(Step::Element(place)) => pointer.push_str(Buffer::new().format(place))?,
            None => {}
        }
    }
    Ok(())
}

/// Puts a key with the escapes of pointers (RFC 6901, section 3).
fn put_key(pointer: &mut String, key: &str) -> Written {
    let alloc = *pointer.allocator();
    let key = key.replace(alloc, "~", "~0")?;
    let key = key.replace(alloc, "/", "~1")?;
    pointer.push_str(key.as_str())
}

impl<'a> Walk<'a> {
    fn new(alloc: Global) -> Walk<'a> {
        Walk {
            steps: BTreeMap::new(alloc),
            found: Vec::new(alloc),
            open: Vec::new(alloc),
        }
    }

    /// Looks for values, and adds their numbers behind that of the document: two paths that are the same have the same one.
    fn look_for(&mut self, paths: &[ValuePath<'a>], numbers: &mut Vec<usize>) -> Written {
        numbers.push(DOCUMENT)?;
        self.found.push(None)?;
        for path in paths {
            let mut number = numbers.len();
            if let Some(from) = numbers.get(number_place(path.parent)).copied() {
                match self.steps.get(&(from, path.step)).copied() {
                    Some(known) => number = known,
                    None => drop(self.steps.insert((from, path.step), number)?),
                }
            }
            numbers.push(number)?;
            self.found.push(None)?;
        }
        Ok(())
    }

    /// Goes to the token that begins at an offset of a text, or to the end of its first value.
    fn go(&mut self, text: &'a [u8], scratch: &'a mut Scratch, end: usize) -> Written {
        let json = text.strip_prefix(MARK).unwrap_or(text);
        let front = text.len().saturating_sub(json.len());
        let Ok(json) = str::from_utf8(json) else {
            return Ok(());
        };
        let mut reader = Reader::new(json, scratch)?;
        let mut at = reader.offset().saturating_add(front); // the reader has passed what is between a token and the next one
        while let Some(token) = reader.next() {
            if at >= end {
                break;
            }
            self.pass(token, at)?;
            if self.open.is_empty() {
                break;
            }
            at = reader.offset().saturating_add(front);
        }
        Ok(())
    }

    /// Goes behind a token that begins at an offset.
    fn pass(&mut self, token: Token<'a>, offset: usize) -> Written {
        match token {
            Token::BeginObject => return self.enter(offset, None),
            Token::BeginArray => return self.enter(offset, Some(Step::Element(0))),
            Token::EndObject | Token::EndArray => {
                let _ = self.open.pop();
                self.leave();
            }
            Token::Key(key) => {
                if let Some(level) = self.open.last_mut() {
                    level.step = Some(Step::Key(key));
                    level.key = Some(offset);
                }
            }
            Token::String(_) | Token::Number(_) | Token::Bool(_) | Token::Null => {
                let _ = self.note(offset);
                self.leave();
            }
            Token::Bad => {}
        }
        Ok(())
    }

    /// Goes into the map or list that begins at an offset.
    fn enter(&mut self, start: usize, step: Option<Step<'a>>) -> Written {
        let number = self.note(start);
        self.open.push(Level {
            number,
            start,
            step,
            key: None,
        })?;
        Ok(())
    }

    /// Goes on from the end of a value: in a list to the next element.
    fn leave(&mut self) {
        if let Some(level) = self.open.last_mut() {
            level.step = match level.step {
                Some(Step::Element(place)) => Some(Step::Element(place.saturating_add(1))),
                Some(Step::Key(_)) | None => None,
            };
        }
    }

    /// Notes where a value begins that is looked for, and gives its number.
    fn note(&mut self, value: usize) -> Option<usize> {
        let (number, inside, key) = match self.open.last().copied() {
            None => (DOCUMENT, value, None),
            Some(level) => {
                let step = (level.number?, level.step?);
                (*self.steps.get(&step)?, level.start, level.key)
            }
        };
        if let Some(last) = self.found.get_mut(number) {
            *last = Some(Found {
                place: Place { key, value },
                inside,
            });
        }
        Some(number)
    }
}
