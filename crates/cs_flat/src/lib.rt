// Documents as lists of their values, for judges that go from a value's parts to the value.
#![tactic(auto)]

mod builder;
mod comparing;
mod entries;
mod flat;
mod flattening;
mod names;
mod packed;
mod set;

pub use builder::Builder;
pub use entries::{next_under, number_under};
pub use flat::{Flat, Item};
pub use flattening::flatten;
pub use names::Names;
pub use set::DocSet;
