// Where the values of a document are in its text.
ghost use Rattle.std.specs.Prelude.{◌≡◌, ◌+◌, length, vec_len, IfOk};

mod walk;

use crate::Made;
use std::alloc::Global;
pub use walk::pointer_at;
use walk::{Found, found_in};

/// A step into a value.
#[derive(Clone, Copy, Debug, PartialEq, Eq, PartialOrd, Ord)]
pub enum Step<'a> {
    /// To what is under a key.
    Key(&'a str),
    /// To the element at a place.
    Element(usize),
}

/// A value that is looked for: a step from another one.
#[derive(Clone, Copy)]
pub struct ValuePath<'a> {
    /// The place of the value that it is in among those that are looked for, which is before its own; none for a value
    /// directly inside the document.
    pub parent: Option<usize>,
    pub step: Step<'a>,
}

/// Where a value is.
#[derive(Clone, Copy)]
pub struct Place {
    /// The offset of its key, where it is under one.
    pub key: Option<usize>,
    /// The offset of its first byte.
    pub value: usize,
}

/// The places of these values in the text of a document, by one walk over it: the last one where a key comes twice, and
/// none where the text has no such value. First the place of the document itself, then those of the values, in their order.
/// Of a text that isn't JSON it finds what is before that shows, and nothing where it isn't UTF-8. Only memory can run out.
pub fn places(alloc: Global, text: &[u8], paths: &[ValuePath<'_>]) -> Made<Vec<Option<Place>>>
    ensures { IfOk result (λ v. vec_len v ≡ length paths.now + 1) }
{
    let mut numbers = Vec::new(alloc);
    let found = found_in(alloc, text, paths, &mut numbers)?;
    places_of(alloc, paths, &numbers, &found)
}

/// The place of a value's number, behind that of the document.
fn number_place(path: Option<usize>) -> usize {
    path.map_or(0, |place| place.saturating_add(1))
}

/// The places of the document and of each path. What was found inside of a value that then came again isn't counted.
fn places_of(
    alloc: Global,
    paths: &[ValuePath<'_>],
    numbers: &[usize],
    found: &[Option<Found>],
) -> Made<Vec<Option<Place>>>
    ensures { IfOk result (λ v. vec_len v ≡ length paths.now + 1) }
{
    let mut places: Vec<Option<Place>> = Vec::with_capacity(alloc, numbers.len())?;
    places.push(found.first().copied().flatten().map(|found| found.place))?;
    for path in paths {
        let around = places.get(number_place(path.parent)).copied().flatten();
        let number = numbers.get(places.len()).copied();
        let last = number.and_then(|number| found.get(number).copied().flatten());
        places.push(counted(last, around))?;
    }
    Ok(places)
}

/// The place of a value, if it was found in what is now known to be the value around it.
fn counted(found: Option<Found>, around: Option<Place>) -> Option<Place> {
    let found = found?;
    (around?.value == found.inside).then_some(found.place)
}
