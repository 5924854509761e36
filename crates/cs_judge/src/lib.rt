// Judging documents one after another by the same rules, over readers and writers, and telling why they are invalid.
#![tactic(auto)]

mod answers;
mod lines;
mod text_judge;
mod verdict;

pub use answers::{LinesOutcome, run_document, write_document, write_unread};
pub use cs_instance_report::Written;
pub use lines::run_lines;
pub use text_judge::{Prepared, TextJudge, Why, prepare};
