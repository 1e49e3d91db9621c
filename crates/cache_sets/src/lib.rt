//! The ways of a cache: which line each holds, which line it is reserved for, and how recently it was used.
#![tactic(auto)]

pub mod laws;
mod sets;
mod slots;

pub use sets::{CacheSets, Reserved};
