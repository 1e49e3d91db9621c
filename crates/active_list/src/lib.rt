//! The instructions of an out-of-order core that are in flight, in the order of the program.
#![tactic(auto)]

mod flight;
mod laws;
mod list;

pub use flight::{Flight, Phase};
pub use laws::{numbers_have_no_gaps, youngest_are_behind};
pub use list::ActiveList;
