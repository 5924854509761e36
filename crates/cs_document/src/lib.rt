// Documents: the values of JSON whose numbers are signed integers of 64 bits.
#![tactic(auto)]

mod copy;
mod doc;
mod equal;
mod fault;
mod order;
mod size;

pub use doc::Doc;
pub use fault::DocFault;
pub use size::text_length;
