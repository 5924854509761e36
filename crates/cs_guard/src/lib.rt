// Packages whose recursion is guarded, and what is reachable in a package.
#![tactic(auto)]

mod chain;
mod fault;
mod guarded;
mod reaching;
mod references;

pub use fault::GuardFault;
pub use guarded::{Guarded, guard};
pub use reaching::{reachable, referred};
