// Files without the marks of defaults: where these may stand, which fields may be missing for them, and what the files stand for.
#![tactic(auto)]

mod absent;
mod fault;
mod files;
mod laws;
mod leading;
mod marks;
mod unmarked;

pub use cs_grammar::File;
pub use fault::DefaultFault;
pub use files::without_marks;
pub use laws::{
    default_files_stay, unmarked_files_are_no_higher, unmarked_files_are_no_smaller,
    unmarked_files_can_be_written, unmarked_files_have_default_forms,
};
