// The limits of the whole simulator, one name each: code, clauses and definitions read them here.

/// The most steps that all processors of a run may retire together, so also its most cycles and the
/// most lines of its order.
pub const MAX_STEPS: u32 = 8_000_000;

/// The most processors of a machine.
pub const MAX_PROCESSORS: u8 = 16;

/// How many registers a program can name: 8 globals, 128 windowed registers, the condition codes and Y
/// (SPARC V9, 5.1).
pub const ARCH_REGISTERS: u8 = 138;

/// The most instructions that a core has in flight, and so the most entries of each of its queues.
pub const MAX_IN_FLIGHT: u8 = 128;

/// The bytes that the longest cache line has.
pub const LINE_ROOM: usize = 128;

/// The first byte of processor 0's stack; those of the others follow in order.
pub const STACKS_START: u64 = 0x7F00_0000;

/// The bytes of a processor's stack.
pub const STACK_BYTES: u64 = 0x1_0000;

/// How many stacks there are.
pub const STACK_COUNT: u64 = 64;
