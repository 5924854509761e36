// Files without selectors: which stand in them, what they ask for, and the definitions that they are made.
#![tactic(auto)]

mod added;
mod fault;
mod files;
mod given;
mod having;
mod lack;
mod laws;
mod reached;
mod replaced;
mod uses;

pub use cs_grammar::File;
pub use fault::SelectorFault;
pub use files::without_selectors;
pub use having::have_selectors;
pub use laws::{
    files_without_selectors_stay, unselected_files_can_be_written,
    unselected_files_have_no_selectors, written_files_have_no_selectors,
};
