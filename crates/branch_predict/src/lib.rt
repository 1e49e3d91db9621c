//! Guesses of where the program goes on: directions by the instruction or by two-bit counters, and return addresses by a
//! stack.
#![tactic(auto)]

mod counters;
mod predictor;
mod return_stack;

pub use predictor::{Guess, Predictor, learns};
