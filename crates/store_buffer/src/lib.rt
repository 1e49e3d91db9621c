//! The stores of a core that are retired and not performed yet.
#![tactic(auto)]

mod buffer;

pub use buffer::{Full, StoreBuffer};
