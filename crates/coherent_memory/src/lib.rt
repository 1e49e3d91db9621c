//! The homes of lines and the nodes that have copies of them, joined by any carrier of messages: every line stays coherent.
#![tactic(auto)]

mod fabric;
mod homes;
pub mod laws;
mod memory;
mod nodes;

pub use fabric::Fabric;
pub use memory::CoherentMemory;
