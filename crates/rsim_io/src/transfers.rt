//! Bytes from a reader and to a writer, and what a fault leaves.
ghost use Rattle.std.specs.Prelude.{◌≡◌, ◌≢◌, ◌-◌, ◌^◌, ◌<◌, ◌≤◌, [], length, IfOk, IfErr, None};
ghost use Rattle.rsim_io.specs.Files.{Fetches};
ghost use Rattle.rsim_io.specs.Transfers.{ReadsUpTo, ReadsMore, WritesWhole};

use crate::{FetchFault, StoreFault};
use std::io::{Read, Write};

// How many bytes are asked for at once.
const CHUNK: usize = 16384;

/// Reads to the end of the file, or to one byte past the limit.
///
/// # Errors
/// `TooLarge` where the file has more bytes than the limit; `Failed` where a read fails; `Memory`.
pub fn read_up_to<F: Read>(file: &mut F, into: &mut Vec<u8>, limit: u64) -> Result<(), FetchFault>
    requires empty { into.old.items ≡ [] }
    requires limit { limit < 2 ^ 64 - 1 }
    ensures fetched { Fetches None [] limit result into.new.items }
    ensures bytes { ReadsUpTo (F.remaining file.old) limit result into.new.items }
{
    let mut buffer = [0u8; CHUNK];
    while into.len() as u64 <= limit {
        let wanted = CHUNK.min((limit - into.len() as u64) as usize + 1);
        if read_more(file, &mut buffer[..wanted], into)? == 0 {
            return Ok(());
        }
    }
    Err(FetchFault::TooLarge)
}

// Reads once, and puts what came behind the bytes before. Nothing comes only at the end.
fn read_more<F: Read>(
    file: &mut F,
    buffer: &mut [u8],
    into: &mut Vec<u8>,
) -> Result<usize, FetchFault>
    requires { 0 < length buffer.old }
    ensures ok { IfOk result (λ count. ReadsMore (F.remaining file.old) (F.remaining file.new) count into.old.items into.new.items) }
    ensures room { IfOk result (λ count. count ≤ length buffer.old) }
    ensures fault { IfErr result (λ fault. fault ≢ FetchFault.TooLarge) }
{
    let count = file.read(buffer).map_err(|_| FetchFault::Failed)?;
    into.extend_from_slice(&buffer[..count])
        .map_err(|_| FetchFault::Memory)?;
    Ok(count)
}

/// Writes all the bytes.
///
/// # Errors
/// `Failed` where a write fails or takes no byte.
pub fn write_whole<F: Write>(file: &mut F, bytes: &[u8]) -> Result<(), StoreFault>
    ensures fault { result ≢ Err StoreFault.Memory }
    ensures bytes { WritesWhole (F.contents file.old) bytes.now result (F.contents file.new) }
{
    let mut left = bytes;
    while !left.is_empty() {
        match file.write(left) {
            Ok(count) if count > 0 => left = &left[count..],
            _ => return Err(StoreFault::Failed),
        }
    }
    Ok(())
}
