// What refusals mean, and what to do about them: in words, with the place and the line of the source.
#![tactic(auto)]

mod advice;
mod lines;
mod packages;
mod told;

pub use cs_grammar::Profile;
pub use lines::{explained, put_finding, put_offset, put_quoted, why_refused, write_refusal_json};
pub use packages::Names;
pub use told::About;
