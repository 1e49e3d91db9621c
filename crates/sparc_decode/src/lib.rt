//! SPARC V9 instruction words: what each of them says, and what it reads and writes.
#![tactic(auto)]

mod arithmetic;
mod branches;
mod decoder;
mod effects;
mod fields;
mod forms;
mod instr;
mod kinds;
pub mod laws;
mod memory;
mod operands;
mod registers;

pub use decoder::decode;
pub use effects::{dest, sources, window_effect};
pub use instr::{Instr, Op, Src2};
pub use kinds::{FormKind, kind, unit_of};
pub use operands::{Dest, Sources, WindowEffect};
