// Plain values in the places of their names, what expressions refer to, and the bodies of definitions: what the passes that lift definitions share.
#![tactic(auto)]

mod bodies;
mod copies;
mod files;
mod kinds;
mod laws;
mod placed;
mod plain;
mod references;
mod standing;

pub use bodies::{Bodies, Body};
pub use copies::copy_conditions;
pub use files::in_places;
pub use laws::{nothing_in_places_stays, what_is_in_places_can_be_written};
pub use references::references_in;
