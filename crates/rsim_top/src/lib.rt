//! All that the programs do: from the words of a command line and the outside to an answer.
#![tactic(auto)]

mod checking;
mod command;
mod machine;
mod order_file;
mod program;
mod refusal;
mod report_text;
mod verdict;

pub use checking::check_command;
pub use command::{Reported, run_command};
pub use command_words::WordsFault;
pub use program::program_words;
pub use refusal::{File, Refusal};
pub use verdict::Verdict;
