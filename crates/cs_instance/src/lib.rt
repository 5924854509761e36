// Whether a document is an instance of a definition.
#![tactic(auto)]

mod atoms;
mod by_kind;
mod fault;
mod fields;
mod judge;
mod judging;
mod laws;
mod marks;
mod numbered;
mod numbering;
mod rules;
mod steps;

pub use atoms::holds_simply;
pub use fault::InstanceFault;
pub use fields::{Fields, is_for_every_key};
pub use judge::InstanceJudge;
pub use judging::{instance_judge, instance_table, instance_verdict, is_instance};
pub use laws::one_meaning;
pub use numbered::{
    NumberedPackage, NumberedRoot, RootRules, numbered_package, numbered_root, root_rules,
};
pub use rules::{Ending, Field, Rule};
pub use steps::may_be_absent;
