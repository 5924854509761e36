// The texts of documents, as `serde_json` reads and writes them: compact, on lines, or with nothing hidden in them. The documents
// themselves are those of `cs_document`, and the lists of their values those of `cs_flat`.
#![tactic(auto)]

mod document;
mod listing;
mod numbers;
mod read;
mod shown;
mod write;

pub use cs_document::{Doc, DocFault};
pub use cs_flat::{Flat, Item, flatten};
pub use document::{Document, read_document};
pub use json::Scratch;
pub use listing::read_flat;
pub use read::read_doc;
pub use shown::{is_read_as, shown_text};
pub use write::{write_doc, write_pretty};
