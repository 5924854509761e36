// What `check` tells: all faults of sources, or of a schema, in one run, and the definitions that have no instance; in lines for people and
// for problem matchers.
#![tactic(auto)]

mod findings;
mod mends;
mod schema;
mod sources;
mod warnings;

pub use findings::{Checked, Findings, schema_findings, source_findings, wide_schema_findings};
pub use schema::check_schema;
pub use sources::check;
pub use warnings::{Warning, warned};

/// The most faults that are told.
const MOST_FAULTS: usize = 50;
