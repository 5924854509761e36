// Files without conditions: what a literal says of a field that is asked for, which conditions are at fault, and what the files stand for.
#![tactic(auto)]

mod asked;
mod choice;
mod chosen;
mod declares;
mod defaults;
mod fault;
mod files;
mod flaws;
mod having;
mod kinds;
mod known;
mod laws;
mod plain;
mod values;

pub use asked::Said;
pub use cs_grammar::File;
pub use fault::ConditionFault;
pub use files::without_conditions;
pub use having::have_conditions;
pub use kinds::Kinds;
pub use laws::{
    chosen_files_can_be_written, chosen_files_have_no_conditions, default_files_have_no_conditions,
    files_without_conditions_stay,
};
