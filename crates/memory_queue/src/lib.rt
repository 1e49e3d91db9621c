//! The accesses of a core that are in flight.
#![tactic(auto)]

pub mod laws;
mod queue;
mod queued;
mod rows;

pub use queue::MemoryQueue;
pub use queued::Queued;
