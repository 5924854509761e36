// The commands that are asked something, over named files and the standard streams: all but `export`.
#![tactic(auto)]

mod comparing;
mod judging;
mod questions;

pub use comparing::compare;
pub use judging::judge;
pub use questions::{check, explain, list, write_samples, write_widened};
