// Why a document isn't valid against a schema document, in words, with the places in the schema.
#![tactic(auto)]

mod basic;
mod schemas;

pub use schemas::report_validity;
