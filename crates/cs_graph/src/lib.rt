// Graphs of numbers: how high each number is, or a cycle.
#![tactic(auto)]

mod cycle;
mod fault;
mod walk;

pub use fault::GraphFault;
pub use walk::heights;
