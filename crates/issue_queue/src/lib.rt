//! The instructions that wait for operands and units, and those that units have.
#![tactic(auto)]

mod needs;
mod queue;
mod table;
mod units;
mod words;

pub use queue::IssueQueue;
pub use rsim_base::Unit;
