//! Register renaming: each write of a register gets a register of its own, and no register is given twice.
#![tactic(auto)]

pub mod laws;
mod map;

pub use map::RenameMap;
