//! Static SPARC V9 executables, as the memory that they start with.
#![tactic(auto)]

mod fault;
mod header;
mod image;
mod layout;
mod loader;
mod regions;
mod rules;
mod search;
mod segment;
mod shared;
mod span;
mod stacks;
mod table;

pub use fault::ElfFault;
pub use image::Image;
pub use loader::load;
pub use span::Span;
