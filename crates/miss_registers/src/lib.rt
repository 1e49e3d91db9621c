//! The miss registers of a node, and the slots for the victims of its second-level cache.
#![tactic(auto)]

pub mod laws;
mod line_table;
mod registers;

pub use registers::MissRegisters;
