//! The two levels of caches of a node: which lines are near, which are held and owned, and the bytes of those.
#![tactic(auto)]

mod bytes;
pub mod laws;
mod levels;
mod tags;

pub use levels::{Evicted, Levels};
