//! The text of an order: written access by access, and read.
#![tactic(auto)]

mod certificate;
mod fault;
mod fields;
pub mod laws;
mod lines;
mod reading;
mod writing;

pub use certificate::Certificate;
pub use fault::TextFault;
pub use reading::read;
pub use writing::{begin, entry, finish};
