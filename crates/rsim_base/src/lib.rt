//! The values that every layer of the simulator speaks of: nodes, addresses, accesses, registers.
#![tactic(auto)]

pub mod digits;
pub mod laws;
mod limits;
mod memory;
mod processor;
mod refusals;
pub mod texts;

pub use limits::{
    ARCH_REGISTERS, LINE_ROOM, MAX_IN_FLIGHT, MAX_PROCESSORS, MAX_STEPS, STACK_BYTES, STACK_COUNT,
    STACKS_START,
};
pub use memory::{
    Access, Addr, Kind, Line, Model, Node, Size, bytes_within, covers, cut, line_of, overlap,
};
pub use processor::{ArchReg, Pair, PhysReg, Renamed, Unit, Window};
pub use refusals::{NoMemory, NoneFree};
