// Whether documents of one edition of a definition are documents of another one.
#![tactic(auto)]

mod comparison;
mod documents;
mod refusal;
mod written;

pub use comparison::{Comparison, compare};
pub use documents::write_lines;
pub use refusal::{CompareRefusal, Side};
pub use written::{Told, write_both, write_comparison};
