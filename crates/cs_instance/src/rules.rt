// What rules ask, by the numbers of their parts.
use crate::fields::Fields;
use cs_package::{FieldMark, Shape};

/// What a definition or an expression asks of a document. A rule asked of the same document is named by its number, and
/// one asked of a document inside by its place in a list of such rules.
#[derive(Drop)]
pub enum Rule<'a> {
    /// That of an expression that looks at no part.
    Simple(&'a Shape),
    All(Vec<usize>),
    Any(Vec<usize>),
    Struct { fields: Fields<'a>, opened: bool },
    List { front: Vec<usize>, end: Ending },
}

/// A declaration of a struct literal, with the place of its value's rule.
#[derive(Drop)]
pub struct Field<'a> {
    pub label: &'a str,
    pub mark: FieldMark,
    pub value: usize,
}

/// What follows the fixed elements of a list: nothing, anything, or instances of the rule at a place.
#[derive(Drop)]
pub enum Ending {
    Closed,
    Any,
    Each(usize),
}
