// The source that the files of a package are printed as: one file, laid out in one way.
#![tactic(auto)]

mod atom;
mod expression;
mod file;
mod written;

pub use cs_grammar::{Definition, Expr, Field, FieldMark, File, ListEnd, Relation};
pub use file::source_of;
pub use written::{printed_sources_are_read, spelled_files_are_namable, spelled_files_are_written};
