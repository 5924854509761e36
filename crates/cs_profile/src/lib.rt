// Schemas of the profile, as types, definitions and laws: what a schema asks of a document, and which documents are schemas.
#![tactic(auto)]

mod fault;
mod keyword;
mod laws;
mod references;
mod schema;
mod schema_doc;

pub use fault::SchemaFault;
pub use keyword::{Form, Keyword, Vocabulary};
pub use laws::one_meaning;
pub use schema::{JsonKind, KeywordValue, Keywords, Schema};
pub use schema_doc::SchemaDoc;
