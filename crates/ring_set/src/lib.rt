//! Sets of the places of a ring of 128, one bit each.
#![tactic(auto)]

pub mod laws;
mod set;

pub use set::{PLACES, Places};
