// The header of an ELF64 file, and its table of program headers (System V ABI, chapters 4 and 5).
ghost use Rattle.std.specs.Prelude.{◌≡◌, ◌+◌, ◌*◌, ◌≤◌, IfOk, drop, length, take, vec_len};
ghost use Rattle.std.specs.Result.{result_err};
ghost use Rattle.elf64_load.specs.Elf as Elf;
ghost use Rattle.elf64_load.specs.Elf.{entry_of, table_start, header_count, headers};
ghost use Rattle.elf64_load.specs.Faults.{faults, first_some};

use crate::fault::ElfFault;
use crate::header::{HEADER_BYTES, ProgramHeader};
use byteorder::{BigEndian, ByteOrder};
use std::alloc::{AllocError, Global};

// How many bytes the file's header has.
const FILE_HEADER_BYTES: usize = 64;

/// Whether the file begins as a big-endian ELF64 executable for SPARC V9.
///
/// # Errors
/// The first fault of its identification, its machine and its type.
pub fn check_kind(file: &[u8]) -> Result<(), ElfFault>
    ensures { result_err result ≡ first_some (take 5 (faults file.now)) }
{
    if file.len() < FILE_HEADER_BYTES {
        return Err(ElfFault::Truncated(file.len() as u64));
    }
    if BigEndian::read_u32(file) != 0x7F45_4C46 {
        return Err(ElfFault::NotElf);
    }
    if file[4] != 2 || file[5] != 2 {
        return Err(ElfFault::NotBig64);
    }
    if BigEndian::read_u16(&file[18..]) != 43 {
        return Err(ElfFault::NotSparcV9);
    }
    if BigEndian::read_u16(&file[16..]) != 2 {
        return Err(ElfFault::NotExec);
    }
    Ok(())
}

/// Whether the file has a table of program headers, each of 56 bytes.
///
/// # Errors
/// The first fault of the table's count, its headers' size and its end.
pub fn check_table(file: &[u8]) -> Result<(), ElfFault>
    requires { 64 ≤ length file.now }
    ensures { result_err result ≡ first_some (take 3 (drop 5 (faults file.now))) }
{
    if header_count(file) == 0 {
        return Err(ElfFault::NoText);
    }
    if usize::from(BigEndian::read_u16(&file[54..])) != HEADER_BYTES {
        return Err(ElfFault::BadPhentsize);
    }
    let bytes = HEADER_BYTES * usize::from(header_count(file));
    if u128::from(table_start(file)) + bytes as u128 > file.len() as u128 {
        return Err(ElfFault::Truncated(file.len() as u64));
    }
    Ok(())
}

/// The address of the first instruction.
pub fn entry(file: &[u8]) -> u64
    requires { 64 ≤ length file.now }
    ensures { result ≡ entry_of file.now }
{
    BigEndian::read_u64(&file[24..])
}

/// The program headers, in the table's order.
pub fn read_headers(alloc: Global, file: &[u8]) -> Result<Vec<ProgramHeader>, AllocError>
    requires header { 64 ≤ length file.now }
    requires table { table_start file.now + 56 * header_count file.now ≤ length file.now }
    ensures items { IfOk result (λ table. table.items ≡ headers file.now) }
    ensures count { IfOk result (λ table. vec_len table ≤ 65535) }
{
    let start = table_start(file) as usize;
    let count = usize::from(header_count(file));
    let mut table = Vec::with_capacity(alloc, count)?;
    for i in 0..count {
        table.push(ProgramHeader::read(file, start + HEADER_BYTES * i))?;
    }
    Ok(table)
}

// Where the table begins.
fn table_start(file: &[u8]) -> u64
    requires { 64 ≤ length file.now }
    ensures { result ≡ Elf.table_start file.now }
{
    BigEndian::read_u64(&file[32..])
}

// How many program headers there are.
fn header_count(file: &[u8]) -> u16
    requires { 64 ≤ length file.now }
    ensures { result ≡ Elf.header_count file.now }
{
    BigEndian::read_u16(&file[56..])
}
