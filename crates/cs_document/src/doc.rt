// Documents as a type.
use std::collections::BTreeMap;

/// A document: a value of JSON whose numbers are signed integers of 64 bits (RFC 8259, section 3).
/// A map has its keys in byte order.
#[derive(Drop)]
pub enum Doc {
    Null,
    Bool(bool),
    Int(i64),
    Text(String),
    List(Vec<Doc>),
    Object(BTreeMap<String, Doc>),
}
