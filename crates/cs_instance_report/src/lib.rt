// Why a document is no instance of a definition, in words, with the places in the sources.
#![tactic(auto)]

mod chosen;
mod definitions;
mod written;

pub use definitions::report_instance;
pub use written::Written;
