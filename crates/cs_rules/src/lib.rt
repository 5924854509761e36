// The judge of a document's values by numbered rules, whatever these ask.
#![tactic(auto)]

mod book;
mod by_kind;
mod classes;
mod judge;
mod known;
mod lengths;
mod marks;
mod numberer;
mod rows;
mod rule;

pub use book::{Numbering, Rulebook, RulebookJudge};
pub use by_kind::ByKind;
pub use judge::RuleJudge;
pub use known::Known;
pub use marks::Marks;
pub use numberer::Numberer;
pub use rule::Asks;
