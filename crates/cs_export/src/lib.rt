// Schemas as they are asked for: of a root or of all definitions, with the comments of the sources as descriptions, as components
// of OpenAPI, and indented.
#![tactic(auto)]

mod components;
mod exports;
mod layout;
mod shaped;
mod written;

pub use cs_tool::Profile;
pub use exports::{export_all, export_all_in, export_root, export_root_in};
pub use layout::Layout;
pub use written::{write_all, write_all_in, write_root, write_root_in};
