// Executables of instruction words, as the ELF standard has them.
use std::alloc::{AllocError, Global};

// Up to e_phoff: ELF64, big-endian, SPARC V9, entered at 0x100000.
const START: &[u8] =
    b"\x7FELF\x02\x02\x01\0\0\0\0\0\0\0\0\0\0\x02\0\x2B\0\0\0\x01\0\0\0\0\0\x10\0\0";

// From e_phoff on: two program headers of 56 bytes behind this one.
const REST: &[u8] = b"\0\0\0\0\0\0\0\x40\0\0\0\0\0\0\0\0\0\0\0\0\0\x40\0\x38\0\x02\0\0\0\0\0\0";

// A loaded segment that may be read and run, and one that may be read and written.
const TEXT: u64 = 0x1_0000_0005;

const DATA: u64 = 0x1_0000_0006;

// Where the bytes of the text stand in the file.
const TEXT_OFFSET: u64 = 176;

/// The file of an executable with these words, in hexadecimal, at 0x100000, and 4,096 zero bytes at 0x200000.
pub fn executable(alloc: Global, words: &str) -> anyhow::Result<Vec<u8>> {
    let code = code(alloc, words)?;
    let size = code.len() as u64;
    let mut file = Vec::new(alloc);
    file.extend_from_slice(START)?;
    file.extend_from_slice(REST)?;
    add_numbers(
        &mut file,
        &[TEXT, TEXT_OFFSET, 0x10_0000, 0x10_0000, size, size, 8],
    )?;
    add_numbers(
        &mut file,
        &[DATA, TEXT_OFFSET, 0x20_0000, 0x20_0000, 0, 4096, 8],
    )?;
    file.extend_from_slice(&code)?;
    Ok(file)
}

// The fields of a program header.
fn add_numbers(file: &mut Vec<u8>, numbers: &[u64]) -> Result<(), AllocError> {
    for number in numbers {
        file.extend_from_slice(&number.to_be_bytes())?;
    }
    Ok(())
}

// The bytes of instruction words.
fn code(alloc: Global, words: &str) -> anyhow::Result<Vec<u8>> {
    let mut code = Vec::new(alloc);
    for word in words.split(' ') {
        code.extend_from_slice(&u32::from_str_radix(word, 16)?.to_be_bytes())?;
    }
    Ok(code)
}
