// The source of the default profile that sources of a profile stand for, and what such sources mean; and schemas in a profile.
#![tactic(auto)]

mod laws;
mod schema;
mod source;

pub use cs_syntax::Profile;
pub use cs_tool::{agree_in, export_in, vet_in, vocabulary_of};
pub use laws::{
    asked_fields_are_read_directly, conditions_are_read_directly, defaults_are_read_directly,
    embeddings_are_read_directly, literals_are_read_directly, meant_law,
    plain_operands_are_read_directly, unions_are_read_directly, wide_law,
};
pub use schema::{schema_stands_for_in, validate_in};
pub use source::{widen, widen_in};
