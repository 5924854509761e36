// Places in texts: the line and the column of an offset, the offsets of a document's values, and the pointer of one at an offset; and texts with their names, and how they
// are shown to people.
#![tactic(auto)]

mod position;
mod shown;
mod values;

pub use position::{Position, Positions, position_of};
pub use shown::{Label, is_hidden, put_in_string, put_place, put_quoted, put_shown};
use std::alloc::AllocError;
pub use values::{Place, Step, ValuePath, places, pointer_at};

/// What is made in memory, which can run out.
pub type Made<T> = Result<T, AllocError>;

/// What writing into a text gives: that memory ran out is all that can go wrong.
pub type Written = Made<()>;

/// A text, the name that people know it by, and the number of its first line.
#[derive(Clone, Copy)]
pub struct Named<'a> {
    /// The path of its file, or `-` for standard input.
    pub name: &'a str,
    pub text: &'a [u8],
    /// 1, or for a document that is a line of a file the number of that line.
    pub line: usize,
}
