// From a document to the schema document that it is, and back. The schemas themselves are those of `cs_profile`.
#![tactic(auto)]

mod atoms;
mod names;
mod parts;
mod places;
mod read;
mod texts;
mod write;

pub use cs_profile::{SchemaDoc, SchemaFault, Vocabulary, one_meaning};
pub use read::read_schema;
pub use write::to_doc;
