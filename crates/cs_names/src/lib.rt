// Files without names: what each scope declares, by which definitions names are lifted, what the files stand for, and which names are at fault.
#![tactic(auto)]

mod fault;
mod files;
mod flaws;
mod having;
mod held;
mod inside;
mod joined;
mod joins;
mod laws;
mod lift;
mod lifting;
mod nested;
mod resolved;
mod scopes;
mod taken;
mod texts;
mod together;
mod values;

pub use cs_grammar::File;
pub use fault::NameFault;
pub use files::without_names;
pub use having::have_names;
pub use laws::{files_without_names_stay, named_files_can_be_written, written_files_have_no_names};
pub use taken::TakenNames;
