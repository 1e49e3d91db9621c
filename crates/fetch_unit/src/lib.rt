//! What a core fetches: instructions and the steps of spills and fills, along the path that is guessed.
#![tactic(auto)]

mod fetch;
pub mod laws;
mod pairs;
mod path;
mod windows;

pub use fetch::FetchUnit;
pub use path::Fetched;
