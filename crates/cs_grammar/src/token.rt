// Tokens and their sorts.

/// The sorts of tokens (CUE, lexical elements).
#[derive(Clone, Copy, Debug, PartialEq, Eq)]
pub enum Sort {
    /// A name, as `int`.
    Name,
    /// The name of a definition with its `#`.
    Definition,
    /// A hidden name, which begins with `_`.
    Hidden,
    /// `_`.
    Top,
    /// `_|_`.
    Bottom,
    /// An integer.
    Integer,
    /// A text in quotes.
    Text,
    /// A mark of the grammar.
    Mark,
    /// A token that the wide profile reads in its own way: a mark, a name that begins with `_`, or the end.
    Wide,
    /// A mark of CUE that this profile leaves out.
    LeftOut,
    /// A comma that the end of a line inserts.
    Inserted,
    /// The end of the source.
    End,
}

/// A token: its sort, the slice of the source that it is, and the byte at which it starts.
/// An inserted comma and the end have empty texts.
#[derive(Clone, Copy)]
pub struct Token<'a> {
    pub sort: Sort,
    pub text: &'a str,
    pub start: usize,
}
