// The shape of a source: its tokens, also those of a text that can't be cut, the brackets that they are in, the parts of expressions, and
// where definitions are declared. All of it is found by tokens alone, so it is there whatever the source spells.
#![tactic(auto)]

mod near;
mod source;
mod tokens;

pub use cs_grammar::Profile;
pub use cs_place::Made;
pub use near::{Near, Part};
pub use source::{
    Bracket, Declared, Inside, MOST_AROUND, Separator, Source, declared_in, sources_of,
};
pub use tokens::{begins_value, end_of, ends_value, follows_label, is_mark, separates};
