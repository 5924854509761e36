// The refusals and their numbers.
use cs_meanings::meaning;
use std::alloc::{AllocError, AllocFailed};
use std::error::Error;
use std::fmt;

/// A refusal of the tool. `file` is the index of a source in the list of sources, `offset` counts its bytes
/// from 0, `place` is the JSON pointer of a schema object in a schema's text.
#[derive(Drop)]
pub enum Fault {
    /// 1: the sources have more than 1,048,576 bytes together.
    SourcesTooLong,
    /// 2: the source is the first that isn't UTF-8.
    NotUtf8 {
        file: usize,
    },
    /// 3: no token of the profile begins at the offset.
    NoToken {
        file: usize,
        offset: usize,
    },
    /// 4: the tokens of the source don't spell a file of the grammar. They nest at most 28 deep, and the offset is that of
    /// one of them; that it is the first one out of place is tested.
    Syntax {
        file: usize,
        offset: usize,
    },
    /// 5: the same, where that token begins a form of CUE that the profile leaves out.
    LeftOut {
        file: usize,
        offset: usize,
    },
    /// 6: the integer at the offset doesn't fit in 64 signed bits.
    IntegerRange {
        file: usize,
        offset: usize,
    },
    /// 7: the tokens of the source nest deeper than 28, or a body in it is higher than that.
    TooHigh {
        file: usize,
    },
    /// 8: the source is the first whose package name differs from the first one named.
    PackageName {
        file: usize,
    },
    /// 9: the name at the offset isn't declared, and is the first at fault.
    UnknownName {
        file: usize,
        offset: usize,
    },
    /// 10: the name at the offset names a field, and is the first at fault.
    FieldReference {
        file: usize,
        offset: usize,
    },
    /// 11: the struct literal at the offset has to end with `...`, and is the first that doesn't.
    NotOpened {
        file: usize,
        offset: usize,
    },
    /// 12: a cycle of definitions, by their names with `#`: each refers strongly to the next, and the last to the
    /// first. The one that is declared first comes first, and no name comes twice.
    Cycle {
        names: Vec<String>,
    },
    /// 13: the package doesn't declare the root.
    UnknownRoot,
    /// 14: more than 1,000 names of definitions, or more than 50,000 nodes of expressions, in all sources together, which
    /// have so many names.
    TooLarge {
        definitions: usize,
    },
    /// 15: memory ran out, at any time.
    OutOfMemory,
    /// 16: a chain of more than 64 strong references, where there is no cycle, by the names of its definitions with `#`: each
    /// refers strongly to the next.
    ChainTooLong {
        names: Vec<String>,
    },
    /// 17: whether every document of one definition is one of another was not found within the limits: 100,000 questions,
    /// 5,000,000 steps of search, and in a document 100,000 values and 127 levels.
    TooManyCases,
    /// 20: the schema's text isn't JSON that `serde_json` reads, as shows at the byte of that offset; whether it is cut off
    /// there.
    SchemaNotJson {
        offset: usize,
        is_cut: bool,
    },
    /// 21: the profile doesn't have the keyword of that name.
    Keyword {
        place: String,
        name: String,
    },
    /// 22: the value of the keyword of that name doesn't have its shape; with the empty name, the value at the place
    /// isn't a schema.
    Shape {
        place: String,
        name: String,
    },
    /// 23: a `$ref` to a definition of that name, which the schema doesn't have.
    Reference {
        place: String,
        name: String,
    },
    /// 24: definitions of a schema that reach themselves: each refers directly to the next, and the last to the first.
    Loop {
        names: Vec<String>,
    },
    /// 25: the same of the document's text.
    NotJson {
        offset: usize,
        is_cut: bool,
    },
    /// 26: a number in a document's or a schema's text isn't an integer, or doesn't fit in 64 signed bits. The first one is at
    /// the byte of that offset.
    NotInteger {
        offset: usize,
        in_schema: bool,
    },
    /// 27: more than 67,108,864 pairs of a value of the document and a rule of the root or, by a schema, a schema in it: there
    /// are so many values, and so many rules.
    TooManyPairs {
        items: usize,
        rules: usize,
        by_schema: bool,
    },
    /// 28: an input other than sources of more than 67,108,864 bytes.
    InputTooLong,
    /// 30: a read of the input failed, where the input is read.
    ReadFailed,
    /// 31: a write or a flush failed, or a write took no byte.
    WriteFailed,
}

impl fmt::Display for Fault {
    fn fmt<W: fmt::Write>(&self, f: &mut fmt::Formatter<W>) -> fmt::Result {
        f.write_str(meaning(self.number()))
    }
}

// Nothing shows a fault by it, and what it carries would take as long to prove as ten other functions.
impl fmt::Debug for Fault {
    fn fmt<W: fmt::Write>(&self, f: &mut fmt::Formatter<W>) -> fmt::Result {
        fmt::Display::fmt(self, f)
    }
}

impl Error for Fault {}

impl From<AllocError> for Fault {
    ghost use Rattle.std.specs.Prelude.{◌≡◌};
    ghost use Rattle.cs_tool.specs.declared.fault.Fault.TheVariants.{OutOfMemory};

    ghost from_gives = { λ _ e. e ≡ OutOfMemory };

    fn from(_refused: AllocError) -> Fault {
        Fault::OutOfMemory
    }
}

impl<T: Drop> From<AllocFailed<T>> for Fault {
    ghost use Rattle.std.specs.Prelude.{◌≡◌};
    ghost use Rattle.cs_tool.specs.declared.fault.Fault.TheVariants.{OutOfMemory};

    ghost from_gives = { λ _ e. e ≡ OutOfMemory };

    fn from(_refused: AllocFailed<T>) -> Fault {
        Fault::OutOfMemory
    }
}

impl Fault {
    ghost use Rattle.std.specs.Prelude.{◌≡◌};
    ghost use Rattle.cs_tool.specs.Refusals.{number_of, offset_of, file_of, status_of};

    /// The number of the refusal.
    pub fn number(&self) -> u32
        ensures { result ≡ number_of self.now }
    {
        match self {
            Fault::SourcesTooLong => 1,
            Fault::NotUtf8 { .. } => 2,
            Fault::NoToken { .. } => 3,
            Fault::Syntax { .. } => 4,
            Fault::LeftOut { .. } => 5,
            Fault::IntegerRange { .. } => 6,
            Fault::TooHigh { .. } => 7,
            Fault::PackageName { .. } => 8,
            Fault::UnknownName { .. } => 9,
            Fault::FieldReference { .. } => 10,
            Fault::NotOpened { .. } => 11,
            Fault::Cycle { .. } => 12,
            Fault::UnknownRoot => 13,
            Fault::TooLarge { .. } => 14,
            Fault::OutOfMemory => 15,
            Fault::ChainTooLong { .. } => 16,
            Fault::TooManyCases => 17,
            Fault::SchemaNotJson { .. } => 20,
            Fault::Keyword { .. } => 21,
            Fault::Shape { .. } => 22,
            Fault::Reference { .. } => 23,
            Fault::Loop { .. } => 24,
            Fault::NotJson { .. } => 25,
            Fault::NotInteger { .. } => 26,
            Fault::TooManyPairs { .. } => 27,
            Fault::InputTooLong => 28,
            Fault::ReadFailed => 30,
            Fault::WriteFailed => 31,
        }
    }

    /// The offset of the refused text in its file, for 3, 4, 5, 6, 9, 10 and 11.
    pub fn offset(&self) -> Option<usize>
        ensures { result ≡ offset_of self.now }
    {
        match self {
            Fault::NoToken { offset, .. }
            | Fault::Syntax { offset, .. }
            | Fault::LeftOut { offset, .. }
            | Fault::IntegerRange { offset, .. }
            | Fault::UnknownName { offset, .. }
            | Fault::FieldReference { offset, .. }
            | Fault::NotOpened { offset, .. } => Some(*offset),
            _ => None,
        }
    }

    /// The index of the refused file in the list of sources, for 2 to 11.
    pub fn file(&self) -> Option<usize>
        ensures { result ≡ file_of self.now }
    {
        match self {
            Fault::NotUtf8 { file }
            | Fault::NoToken { file, .. }
            | Fault::Syntax { file, .. }
            | Fault::LeftOut { file, .. }
            | Fault::IntegerRange { file, .. }
            | Fault::TooHigh { file }
            | Fault::PackageName { file }
            | Fault::UnknownName { file, .. }
            | Fault::FieldReference { file, .. }
            | Fault::NotOpened { file, .. } => Some(*file),
            _ => None,
        }
    }

    /// The exit status that reports the refusal: 5 where memory ran out, 4 for a failed read or write,
    /// and 2 for every other one.
    pub fn status(&self) -> u8
        ensures { result ≡ status_of (number_of self.now) }
    {
        match self {
            Fault::OutOfMemory => 5,
            Fault::ReadFailed | Fault::WriteFailed => 4,
            _ => 2,
        }
    }
}
