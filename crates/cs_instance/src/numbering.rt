// The rules of what a root reaches, or of a whole package, with their numbers.
mod definitions;
mod expressions;
mod inner;
mod rooted;
mod waiting;
mod whole;

pub(crate) use rooted::numbering_of;
pub(crate) use whole::numbering_of_all;
