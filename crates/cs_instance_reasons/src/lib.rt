// Why a document is no instance of a definition.
#![tactic(auto)]

mod cause;
mod causes;
mod explaining;
mod graph;
mod laws;
mod near;

pub use cause::InstanceCause;
pub use explaining::{Want, Wanted, explain_instance, wanted_by};
pub use laws::reasons_hold;
