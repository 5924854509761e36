// Descriptions and defaults put into the document of an exported schema, and taken out; and the law that they change nothing of what it
// validates.
#![tactic(auto)]

mod bare;
mod depths;
mod describe;
mod note;
mod notes;

pub use bare::without_defaults;
pub use describe::{described, with_defaults};
pub use notes::Notes;
