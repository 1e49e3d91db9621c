//! The words of a command line: from the words after a program's name to what they ask for.
#![tactic(auto)]

mod command;
mod fault;
mod parse;
mod read;
mod shape;

pub use fault::{BadWords, WordsFault};
pub use read::{CheckWords, Executable, RunWords, read_check, read_run};
