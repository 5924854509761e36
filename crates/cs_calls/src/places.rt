// Rows of the places where the values of a document are in its text.
//
// Paths are parted by blanks. A path ends in a key in quotes or in the number of an element. It leads from the document, or where there
// is a `/` before that from the path whose number stands there, or else from the path before it. A place is the offset of the value,
// and before it that of its key, or `-` where there is none.
use crate::call::Call;
use crate::rows::{cell, number_of};
use cs_place::{Place, Step, ValuePath, places};
use cs_tool::Fault;
use std::alloc::{AllocError, Global};

/// The places of the document and of all paths into it, or the last of these alone.
pub fn found(alloc: Global, call: Call, cells: &str) -> Result<Vec<u8>, Fault> {
    let (text, paths) = cell(cells);
    let paths = paths_of(alloc, paths)?;
    let found = places(alloc, text.as_bytes(), &paths)?;
    let shown = match call {
        Call::Place => shown(alloc, &found[paths.len()..])?,
        _ => shown(alloc, &found)?,
    };
    Ok(shown.into_bytes())
}

fn paths_of<'a>(alloc: Global, cell: &'a str) -> Result<Vec<ValuePath<'a>>, AllocError> {
    let mut paths = Vec::new(alloc);
    for path in cell.split_terminator(' ') {
        let before = paths.len().checked_sub(1);
        paths.push(path_of(path, before))?;
    }
    Ok(paths)
}

fn path_of(path: &str, before: Option<usize>) -> ValuePath<'_> {
    let (parent, step) = match path.split_once('/') {
        Some((parent, step)) if !path.starts_with('"') => {
            (parent.parse::<usize>().ok().or(before), step)
        }
        _ => (None, path),
    };
    let step = match step.strip_prefix('"') {
        Some(key) => Step::Key(key.strip_suffix('"').unwrap_or(key)),
        None => Step::Element(number_of(step)),
    };
    ValuePath { parent, step }
}

fn shown(alloc: Global, places: &[Option<Place>]) -> Result<String, AllocError> {
    let mut shown = String::new(alloc);
    for place in places {
        if !shown.is_empty() {
            shown.push_str(", ")?;
        }
        match *place {
            None => shown.push_str("-")?,
            Some(Place { key: None, value }) => write!(shown, "{value}")?,
            Some(
                Place {
                    key: Some(key),
                    value,
                },
            ) => write!(shown, "{key} {value}")?,
        }
    }
    Ok(shown)
}
