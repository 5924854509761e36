// Why a document isn't valid against a schema.
#![tactic(auto)]

mod book;
mod cause;
mod causes;
mod explaining;
mod graph;
mod laws;
mod naming;
mod nearness;
mod required;
mod wanting;

pub use cause::{KeyedCause, ValidCause};
pub use explaining::{Explanation, Want, Wanted, explain_validity, wanted_by};
pub use laws::reasons_hold;
