// Why a table refuses a pair of an item and a rule.
#![tactic(auto)]

mod cause;
mod choosing;
mod costs;
mod explain;
mod followed;
mod listing;
mod marks;
mod reach;
mod reasons;
mod telling;
mod ties;

pub use cause::{Cause, Chooses, Explains};
pub use explain::{explain_all, explain_closest};
pub use reasons::{Link, Reason, Reasons, Up};
pub use telling::Telling;
