//! Whether an order of memory accesses is one that a machine may write for an executable.
#![tactic(auto)]

mod checking;
pub mod laws;
mod lines;
mod needed;
mod places;
mod replay;
mod runs;
mod values;
mod verdict;
mod walk;

pub use checking::check;
pub use verdict::{Accepted, Part, Rejected};
