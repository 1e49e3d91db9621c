// The 64 stacks beside the regions of an executable: one behind the other, 65,536 bytes each.
ghost use Rattle.std.specs.Prelude.{◌≡◌, ◌<◌, ◌^◌};
ghost use Rattle.elf64_load.specs.Image.{in_one_stack};

use rsim_base::{STACK_BYTES, STACK_COUNT, STACKS_START};

/// Where the last stack ends.
pub const STACKS_END: u64 = STACKS_START + STACK_COUNT * STACK_BYTES;

/// Whether the `count` bytes from `addr` on all lie in one stack.
pub fn in_one_stack(addr: u64, count: u64) -> bool
    requires { count < 2 ^ 16 }
    ensures { result ≡ in_one_stack addr count }
{
    if addr < STACKS_START || addr >= STACKS_END {
        return false;
    }
    let stack = (addr - STACKS_START) / STACK_BYTES;
    addr + count <= STACKS_START + (stack + 1) * STACK_BYTES
}
