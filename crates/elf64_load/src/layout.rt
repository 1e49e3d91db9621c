// The bytes of all segments, one behind the other.
ghost use Rattle.std.specs.Prelude.{◌≡◌, ◌+◌, ◌++◌, ◌≤◌, IfOk, OnOk, length, sum_by, vec_len};
ghost use Rattle.std.specs.List.{All, flat_map};
ghost use Rattle.elf64_load.specs.Layout.{IsInFile, contents_of, segments_from, size_of};

use crate::header::ProgramHeader;
use crate::segment::Segment;
use std::alloc::{AllocError, Global};

/// The first contents of all segments, `mapped` bytes together, and where those of each are among them.
pub fn lay_out(
    alloc: Global,
    file: &[u8],
    headers: &[ProgramHeader],
    mapped: usize,
) -> Result<(Vec<u8>, Vec<Segment>), AllocError>
    requires bytes { All (IsInFile (length file.now)) headers.now }
    requires mapped { mapped ≡ sum_by size_of headers.now }
    requires small { mapped ≤ 16777216 }
    ensures bytes { IfOk result (λ laid. laid.0.items ≡ flat_map (contents_of file.now) headers.now) }
    ensures segments { IfOk result (λ laid. laid.1.items ≡ segments_from 0 headers.now) }
{
    let mut bytes = Vec::with_capacity(alloc, mapped)?;
    let mut segments = Vec::with_capacity(alloc, headers.len())?;
    for header in headers {
        segments.push(header.segment(bytes.len() as u32))?;
        append_contents(&mut bytes, file, header)?;
    }
    Ok((bytes, segments))
}

// Puts the first contents of a segment at the end of the bytes: those in the file, and zeros behind them.
fn append_contents(
    bytes: &mut Vec<u8>,
    file: &[u8],
    header: &ProgramHeader,
) -> Result<(), AllocError>
    requires file { IsInFile (length file.now) header.now }
    requires small { vec_len bytes.old + size_of header.now ≤ 16777216 }
    ensures { OnOk result (bytes.new.items ≡ bytes.old.items ++ contents_of file.now header.now) }
{
    if !header.is_load() {
        return Ok(());
    }
    let end = bytes.len() + header.memsz as usize;
    let from = header.offset as usize;
    bytes.extend_from_slice(&file[from..from + header.filesz as usize])?;
    bytes.resize(end, 0)
}
