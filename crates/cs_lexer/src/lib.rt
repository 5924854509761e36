// From a source to its tokens, and what the texts of tokens stand for.
#![tactic(auto)]

mod attribute;
mod bytes;
mod characters;
mod cut;
mod line;
mod mark;
mod numeral;
mod piece;
mod text;

pub use characters::unescape;
pub use cut::{lex, lex_in, one_cut, wide_cuts_the_default};
pub use numeral::integer_value;
pub use text::text_parts;
