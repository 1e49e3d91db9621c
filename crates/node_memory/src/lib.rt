//! The memory of a node: its caches and its misses, what it wishes, and what it answers to the messages of homes.
#![tactic(auto)]

mod coming;
pub mod laws;
mod lines;
mod node;
mod outbox;
mod table;
mod value;
mod wish_list;
mod word;

pub use node::NodeMemory;
