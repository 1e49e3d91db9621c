//! The homes of lines: what each notes of its lines, and what it answers to the messages of nodes.
#![tactic(auto)]

mod home;
mod line_record;
mod node_set;
mod outgoing;
mod records;
mod share;
mod step;
mod table;
mod waiting;
mod word;

pub use home::Home;
