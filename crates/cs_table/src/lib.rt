// Tables of verdicts, filled from below: each by the verdicts before it.
#![tactic(auto)]

mod fault;
mod filling;
mod judging;
mod verdicts;

pub use fault::TableFault;
pub use filling::{fill, refill};
pub use judging::{Judge, Row};
pub use verdicts::Verdicts;
