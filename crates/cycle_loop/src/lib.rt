//! Processors that make one step at a time over a store of lines that they share, and the order of their accesses.
#![tactic(auto)]

mod decoded;
mod lines;
mod machine;
mod processor;
mod turn;
mod turns;

pub use machine::Machine;
