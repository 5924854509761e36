// What is open within an attribute. It is here and not in `cs_lexer`, which alone computes with it, since the definition of an
// attribute speaks of it.

/// What is open at a place of an attribute, until its end comes.
#[derive(Clone, Copy)]
pub enum Opened {
    /// `(`.
    Paren,
    /// `[`.
    List,
    /// `{`.
    Struct,
    /// A text.
    Text,
    /// A backslash in a text.
    Escape,
    /// A comment, to the end of its line.
    Comment,
}

/// What a byte of an attribute does.
#[derive(Clone, Copy)]
pub enum AttributeStep {
    /// It opens something.
    Opens(Opened),
    /// It closes what was opened last.
    Closes,
    /// It does neither.
    Stays,
    /// No attribute has it there.
    Fails,
}
