// From files to a package: the bodies of each definition, with their names resolved.
#![tactic(auto)]

mod fault;
mod kinds;
mod narrowing;
mod offsets;
mod opening;
mod package_name;
mod plain;
mod refinement;
mod resolving;
mod shapes;
mod size;

// The types of the package that `resolve` answers, for callers of this crate alone.
pub use cs_package::{FieldMark, Kind, Package, Part, Relation, Shape, ShapeEnd};
pub use fault::ResolveFault;
pub use offsets::offsets_law;
pub use opening::opening_law;
pub use refinement::refinement_law;
pub use resolving::{resolve, resolve_written};
