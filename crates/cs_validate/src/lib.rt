// Whether a document is valid against a schema.
#![tactic(auto)]

mod by_kind;
mod fault;
mod judge;
mod judging;
mod marks;
mod numbered;
mod numbering;
mod rules;
mod steps;
mod values;

pub use fault::ValidateFault;
pub use judge::ValidJudge;
pub use judging::{is_valid, valid_judge, valid_table, valid_verdict};
pub use numbered::{SchemaRules, schema_rules};
pub use rules::{Conjunction, Rule};
pub use steps::{behind, other_holds};
pub use values::{has_kind, is_at_least_long, is_at_most_long, is_equal, is_listed};
