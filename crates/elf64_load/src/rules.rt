// The rules over all program headers of a file.
ghost use Rattle.std.specs.Prelude.{◌≡◌, ◌≤◌, ◌<◌, IfOk, IfSome, [], ◌∷◌, filter, if◌then◌else◌, length, nat_lt, not, option_map, sum_by};
ghost use Rattle.std.specs.List.{list_any, position};
ghost use Rattle.std.specs.Result.{result_err};
ghost use Rattle.elf64_load.specs.Elf.{is_load, is_interp, meets_stacks, has_text};
ghost use Rattle.elf64_load.specs.Faults as Faults;
ghost use Rattle.elf64_load.specs.Faults.{first_some, segments_fault, when};

use crate::fault::ElfFault;
use crate::header::ProgramHeader;

// The most bytes of memory that segments may have together: 16 MiB.
const MAX_MAPPED: u64 = 16_777_216;

/// How many bytes of memory the segments of a file of `size` bytes have together.
///
/// # Errors
/// `Interp`, the first segment's fault, or `TooLarge`.
pub fn mapped_size(headers: &[ProgramHeader], size: u64) -> Result<u64, ElfFault>
    requires { length headers.now ≤ 65535 }
    ensures fault { result_err result ≡ first_some (
        when (list_any is_interp headers.now) ElfFault.Interp
        ∷ segments_fault size 0 headers.now
        ∷ when (nat_lt 16777216 (sum_by (λ h. h.memsz) (filter is_load headers.now))) ElfFault.TooLarge
        ∷ []) }
    ensures size { IfOk result (λ mapped. mapped ≡ sum_by (λ h. h.memsz) (filter is_load headers.now)) }
{
    if have_interp(headers) {
        return Err(ElfFault::Interp);
    }
    if let Some(fault) = segments_fault(headers, size) {
        return Err(fault);
    }
    total_size(headers).ok_or(ElfFault::TooLarge)
}

/// Whether no segment has a byte in a stack.
///
/// # Errors
/// `StackOverlap`, of the first that has one.
pub fn check_stacks(headers: &[ProgramHeader]) -> Result<(), ElfFault>
    requires { length headers.now ≤ 65535 }
    ensures { result_err result ≡ option_map ElfFault.StackOverlap (position meets_stacks headers.now) }
{
    match first_in_stacks(headers) {
        Some(place) => Err(ElfFault::StackOverlap(place as u32)),
        None => Ok(()),
    }
}

/// Whether some segment has instructions.
///
/// # Errors
/// `NoText`.
pub fn check_text(headers: &[ProgramHeader]) -> Result<(), ElfFault>
    ensures { result_err result ≡ when (not (list_any has_text headers.now)) ElfFault.NoText }
{
    if have_text(headers) {
        Ok(())
    } else {
        Err(ElfFault::NoText)
    }
}

// Whether some segment has instructions.
fn have_text(headers: &[ProgramHeader]) -> bool
    ensures { result ≡ list_any has_text headers.now }
{
    headers.iter().any(|header| header.has_text())
}

// The place of the first segment with a byte in a stack.
fn first_in_stacks(headers: &[ProgramHeader]) -> Option<usize>
    ensures first { result ≡ position meets_stacks headers.now }
    ensures within { IfSome result (λ place. place < length headers.now) }
{
    headers.iter().position(|header| header.meets_stacks())
}

// Whether some header asks for a dynamic linker.
fn have_interp(headers: &[ProgramHeader]) -> bool
    ensures { result ≡ list_any is_interp headers.now }
{
    headers.iter().any(|header| header.is_interp())
}

// The first segment's fault.
fn segments_fault(headers: &[ProgramHeader], size: u64) -> Option<ElfFault>
    requires { length headers.now ≤ 65535 }
    ensures { result ≡ Faults.segments_fault size 0 headers.now }
{
    for (i, header) in headers.iter().enumerate() {
        let fault = segment_fault(header, i as u32, size);
        if fault.is_some() {
            return fault;
        }
    }
    None
}

// What is wrong with header `place`, if it is a segment.
fn segment_fault(header: &ProgramHeader, place: u32, size: u64) -> Option<ElfFault>
    ensures { result ≡ (if is_load header.now then Faults.segment_fault size place header.now else None) }
{
    if header.is_load() {
        header.fault(place, size)
    } else {
        None
    }
}

// How many bytes of memory the segments have together, if no more than are taken.
fn total_size(headers: &[ProgramHeader]) -> Option<u64>
    ensures { let total = sum_by (λ h. h.memsz) (filter is_load headers.now) in
        result ≡ (if nat_lt 16777216 total then None else Some total) }
{
    let mut room = MAX_MAPPED;
    for header in headers {
        room = room.checked_sub(header.size())?;
    }
    Some(MAX_MAPPED - room)
}
