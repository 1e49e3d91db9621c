//! The order of accesses as it comes about: places of accesses, each retired or not.
#![tactic(auto)]

pub mod laws;
mod log;
mod slots;
mod span;
mod waiting;

pub use log::OrderLog;
