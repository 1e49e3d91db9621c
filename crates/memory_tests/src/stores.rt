// Stores of every size, over the bytes of an executable and of a stack.
use elf64_load::load;
use image_memory::Memory;
use rsim_base::{STACKS_START, Size};
use std::test::Fail;

// An executable of one instruction, 91D02010 at 0x100000.
const EXIT: &[u8] =
    b"\x7FELF\x02\x02\x01\0\0\0\0\0\0\0\0\0\0\x02\0+\0\0\0\x01\0\0\0\0\0\x10\0\0\0\0\0\0\0\0\0@\0\0\0\0\0\0\0\0\0\0\0\0\0@\08\0\x01\0\0\0\0\0\0\0\0\0\x01\0\0\0\x05\0\0\0\0\0\0\0x\0\0\0\0\0\x10\0\0\0\0\0\0\0\x10\0\0\0\0\0\0\0\0\0\x04\0\0\0\0\0\0\0\x04\0\0\0\0\0\0\0\x04\x91\xD0 \x10";

// Where the first stack begins.
const STACK: u64 = STACKS_START;

#[test]
fn what_was_stored_last_stands(rt: HostRuntime) -> Result<(), Fail> {
    let alloc = rt.alloc();
    let image = load(alloc, EXIT)?;
    let mut memory = Memory::new(alloc);
    assert!(rt; memory.read(&image, 0x10_0000, Size::B4) == 0x91D0_2010);
    assert!(rt; memory.byte(&image, 0x10_0001) == 0xD0);
    for &(at, size, value) in &[
        (STACK, Size::B8, 0x0102_0304_0506_0708),
        (STACK + 4, Size::B4, 0xFFFF_0000_A1A2_A3A4),
        (STACK + 2, Size::B2, 0xB1B2),
        (STACK + 7, Size::B1, 0xC1),
    ] {
        memory.write(&image, at, size, value)?;
    }
    assert!(rt; memory.read(&image, STACK, Size::B8) == 0x0102_B1B2_A1A2_A3C1);
    assert!(rt; memory.read(&image, STACK + 6, Size::B2) == 0xA3C1);
    assert!(rt; memory.byte(&image, STACK + 3) == 0xB2);
    assert!(rt; memory.read(&image, STACK + 8, Size::B8) == 0);
    Ok(())
}
