// Documents of a definition, and documents that just fail.
#![tactic(auto)]

mod asking;
mod sampling;

pub use cs_question::QuestionFault;
pub use cs_variants::Sampled;
pub use sampling::{SampleTexts, samples};
