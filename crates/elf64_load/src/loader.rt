// From the bytes of a file to its image.
ghost use Rattle.std.specs.Prelude.{◌≡◌, ◌≤◌, None, length, take};
ghost use Rattle.elf64_load.specs.Elf as Elf;
ghost use Rattle.elf64_load.specs.Faults.{Loads, faults, first_some};

use crate::fault::ElfFault;
use crate::header::ProgramHeader;
use crate::image::Image;
use crate::regions::Regions;
use crate::rules::{check_stacks, check_text, mapped_size};
use crate::shared::{check_blocks, spans_in_order};
use crate::table::{check_kind, check_table, entry, read_headers};
use std::alloc::Global;

/// The image of a static executable.
///
/// # Errors
/// The first fault of the file, exactly where it has one; `Memory`.
pub fn load(alloc: Global, file: &[u8]) -> Result<Image, ElfFault>
    ensures { Loads file.now result }
{
    check_kind(file)?;
    check_table(file)?;
    let headers = read_headers(alloc, file).map_err(|_| ElfFault::Memory)?;
    load_segments(alloc, file, &headers)
}

// The image of a file with these program headers.
fn load_segments(alloc: Global, file: &[u8], headers: &[ProgramHeader]) -> Result<Image, ElfFault>
    requires header { 64 ≤ length file.now }
    requires count { length headers.now ≤ 65535 }
    requires headers { headers.now ≡ Elf.headers file.now }
    requires table { first_some (take 8 (faults file.now)) ≡ None }
    ensures { Loads file.now result }
{
    let mapped = mapped_size(headers, file.len() as u64)?;
    check_stacks(headers)?;
    let order = spans_in_order(alloc, headers).map_err(|_| ElfFault::Memory)?;
    check_blocks(headers, &order)?;
    check_text(headers)?;
    let entry = entry(file);
    let regions = Regions::load(alloc, file, headers, order, mapped as usize, entry).map_err(
        |_| ElfFault::Memory,
    )?;
    let image = Image::new(regions, entry);
    if image.fetch(entry).is_none() {
        return Err(ElfFault::BadEntry);
    }
    Ok(image)
}
