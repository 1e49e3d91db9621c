//! The meaning of SPARC V9 programs, one instruction at a time: a processor's state, and the step from
//! one state to the next.
#![tactic(auto)]

mod accesses;
mod acts;
mod applying;
mod arch;
mod control;
mod execution;
mod fetched;
mod fetching;
mod from_operands;
pub mod laws;
mod registers;
mod start;
mod traps;
mod wants;
mod windows;

pub use acts::{Act, Spoken, Want};
pub use applying::apply;
pub use arch::{Arch, ArchPhase, End};
pub use control::{at_once_to, branched, by_slot_to, straight};
pub use execution::{step, step_at};
pub use fetched::{Computed, Fetched, Operands};
pub use fetching::instr_at;
pub use from_operands::compute;
pub use start::boot;
pub use wants::{peek, peek_at};
pub use windows::{must_fill, must_spill};
