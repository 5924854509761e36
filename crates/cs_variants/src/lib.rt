// Packages in which something is put at a place, and the places to put it.
#![tactic(auto)]

mod copies;
mod places;
mod variants;
mod walks;

pub use places::{Place, Sampled};
pub use variants::Where;
pub use walks::{Walk, walk_of};
