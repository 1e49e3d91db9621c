// Executables for SPARC V9, ELF64 and big-endian, put together from 32-bit words in hexadecimal.
use anyhow::Result;
use std::alloc::Global;

// The headers of an executable of one segment, up to its sizes: the segment may be read and run, has its
// bytes at 120 of the file, and begins at 0x100000, the entry.
const HEADERS: &str =
    "7F454C46 02020100 00000000 00000000 0002002B 00000001 00000000 00100000 00000000 00000040 00000000 00000000 00000000 00400038 00010000 00000000 00000001 00000005 00000000 00000078 00000000 00100000 00000000 00100000";

// The header of an executable with four program headers behind it.
const HEADER: &str =
    "7F454C46 02020100 00000000 00000000 0002002B 00000001 00000000 00100000 00000000 00000040 00000000 00000000 00000000 00400038 00040000 00000000";

// Where the bytes of the segments begin: behind the four program headers.
const TEXT_OFFSET: u64 = 288;

/// An executable of one segment: these words at 0x100000, to be read and run.
pub fn executable(alloc: Global, code: &str) -> Result<Vec<u8>> {
    let size = size(code);
    let mut file = Vec::new(alloc);
    push_words(&mut file, HEADERS)?;
    push_numbers(&mut file, &[size, size, 8])?;
    push_words(&mut file, code)?;
    Ok(file)
}

/// An executable laid out as a linker does: these words at 0x100000, to be read and run; those of `data` at
/// 0x200000, with zeros behind them up to 4,096 bytes, to be read and written; a note, and the header that says
/// what a stack may be used for.
pub fn linked(alloc: Global, code: &str, data: &str) -> Result<Vec<u8>> {
    let text = size(code);
    let behind = TEXT_OFFSET.wrapping_add(text);
    let mut file = Vec::new(alloc);
    push_words(&mut file, HEADER)?;
    push_words(&mut file, "00000001 00000005")?;
    push_numbers(
        &mut file,
        &[TEXT_OFFSET, 0x10_0000, 0x10_0000, text, text, 8],
    )?;
    push_words(&mut file, "00000001 00000006")?;
    push_numbers(
        &mut file,
        &[behind, 0x20_0000, 0x20_0000, size(data), 4096, 8],
    )?;
    push_words(&mut file, "00000004 00000004")?;
    push_numbers(&mut file, &[behind, 0, 0, 0, 0, 8])?;
    push_words(&mut file, "6474E551 00000006")?;
    push_numbers(&mut file, &[0, 0, 0, 0, 0, 8])?;
    push_words(&mut file, code)?;
    push_words(&mut file, data)?;
    Ok(file)
}

// How many bytes these words take.
fn size(words: &str) -> u64 {
    (words.split_whitespace().count() as u64).wrapping_mul(4)
}

fn push_words(file: &mut Vec<u8>, words: &str) -> Result<()> {
    for word in words.split_whitespace() {
        let word = u32::from_str_radix(word, 16)?;
        file.extend_from_slice(&word.to_be_bytes())?;
    }
    Ok(())
}

fn push_numbers(file: &mut Vec<u8>, numbers: &[u64]) -> Result<()> {
    for number in numbers {
        file.extend_from_slice(&number.to_be_bytes())?;
    }
    Ok(())
}
