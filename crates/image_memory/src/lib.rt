//! Memory in which values are stored over the bytes of an image.
#![tactic(auto)]

mod memory;
mod parts;

pub use memory::Memory;
pub use parts::{first_doubleword, part, with_part};
