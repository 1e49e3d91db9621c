//! The outside as the simulator meets it: files behind a `Shelf`, and one stream behind a `Sink`.
//! Both count their failures, and may tell what they hold.
#![tactic(auto)]

mod failures;
mod file_shelf;
mod mem_files;
mod mem_shelf;
mod mem_sink;
mod shelf;
mod sink;
mod std_sink;
mod sure_shelf;
mod sure_sink;
pub mod transfers;

pub use file_shelf::FileShelf;
pub use mem_shelf::MemShelf;
pub use mem_sink::MemSink;
pub use shelf::{FetchFault, Shelf, StoreFault};
pub use sink::Sink;
pub use std_sink::StdSink;
pub use sure_shelf::SureShelf;
pub use sure_sink::SureSink;
