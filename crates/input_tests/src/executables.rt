// Loads executables that are written here field by field, as the ELF standard has them.
use elf64_load::{ElfFault, load};
use rsim_base::{Addr, Size};
use std::alloc::{AllocError, Global};
use std::test::Fail;

// The greatest number of 64 bits.
const GREATEST: [u8; 8] = [0xFF; 8];

// What is written over an executable, and where.
type Patch = (usize, &'static [u8]);

// The fields of a program header that are looked at.
#[derive(Clone, Copy)]
struct ProgramHeader {
    kind: u32,
    flags: u32,
    offset: u64,
    vaddr: u64,
    filesz: u64,
    memsz: u64,
}

// A segment of `size` bytes of the file, and of memory.
fn segment(flags: u32, offset: u64, vaddr: u64, size: u64) -> ProgramHeader {
    ProgramHeader {
        kind: 1,
        flags,
        offset,
        vaddr,
        filesz: size,
        memsz: size,
    }
}

// An executable: its header, these program headers, and what follows them.
fn executable(
    alloc: Global,
    entry: u64,
    headers: &[ProgramHeader],
    rest: &[u8],
) -> Result<Vec<u8>, AllocError> {
    let mut file = Vec::new(alloc);
    // e_ident, e_type, e_machine and e_version
    file.extend_from_slice(b"\x7FELF\x02\x02\x01\0\0\0\0\0\0\0\0\0\0\x02\0\x2B\0\0\0\x01")?;
    file.extend_from_slice(&entry.to_be_bytes())?;
    // e_phoff, e_shoff, e_flags, e_ehsize and e_phentsize
    file.extend_from_slice(&64u64.to_be_bytes())?;
    file.extend_from_slice(&[0, 0, 0, 0, 0, 0, 0, 0, 0, 0, 0, 0, 0, 64, 0, 56])?;
    let count = headers.len().min(65_535) as u16;
    file.extend_from_slice(&count.to_be_bytes())?;
    file.extend_from_slice(&[0; 6])?;
    for header in headers {
        append_header(&mut file, header)?;
    }
    file.extend_from_slice(rest)?;
    Ok(file)
}

fn append_header(file: &mut Vec<u8>, header: &ProgramHeader) -> Result<(), AllocError> {
    file.extend_from_slice(&header.kind.to_be_bytes())?;
    file.extend_from_slice(&header.flags.to_be_bytes())?;
    file.extend_from_slice(&header.offset.to_be_bytes())?;
    file.extend_from_slice(&header.vaddr.to_be_bytes())?;
    file.extend_from_slice(&[0; 8])?;
    file.extend_from_slice(&header.filesz.to_be_bytes())?;
    file.extend_from_slice(&header.memsz.to_be_bytes())?;
    file.extend_from_slice(&[0; 8])
}

// An executable of 200 bytes: text of four words at 0x100000, and data at 0x100080.
fn small(alloc: Global) -> Result<Vec<u8>, AllocError> {
    let headers = [
        segment(5, 176, 0x10_0000, 16),
        segment(6, 192, 0x10_0080, 8),
    ];
    executable(alloc, 0x10_0000, &headers, &[1; 24])
}

// That executable with some bytes written over.
fn patched(alloc: Global, patches: &[Patch]) -> Result<Vec<u8>, AllocError> {
    let mut file = small(alloc)?;
    for (at, bytes) in patches {
        put(&mut file, *at, bytes);
    }
    Ok(file)
}

fn put(file: &mut [u8], at: usize, bytes: &[u8]) {
    for (place, byte) in file.iter_mut().skip(at).zip(bytes) {
        *place = *byte;
    }
}

fn fault_of(alloc: Global, file: &[u8]) -> Option<ElfFault> {
    load(alloc, file).err()
}

#[test]
fn a_fault_is_told(rt: HostRuntime) -> Result<(), Fail> {
    let cases: [(&[Patch], Option<ElfFault>); 18] = [
        (&[], None),
        (&[(0, &[0x7E])], Some(ElfFault::NotElf)),
        (&[(4, &[1])], Some(ElfFault::NotBig64)),
        (&[(5, &[1])], Some(ElfFault::NotBig64)),
        (&[(19, &[2])], Some(ElfFault::NotSparcV9)),
        (&[(17, &[3])], Some(ElfFault::NotExec)),
        (&[(55, &[64])], Some(ElfFault::BadPhentsize)),
        (
            &[(32, &GREATEST), (57, &[1])],
            Some(ElfFault::Truncated(200)),
        ),
        (&[(56, &[0xFF, 0xFF])], Some(ElfFault::Truncated(200))),
        (&[(123, &[3])], Some(ElfFault::Interp)),
        (
            &[(72, &GREATEST), (103, &[2])],
            Some(ElfFault::SegmentPastEnd(0)),
        ),
        (
            &[(79, &[168]), (103, &[32])],
            Some(ElfFault::SegmentShort(0)),
        ),
        (
            &[
                (80, &[0xFF, 0xFF, 0xFF, 0xFF, 0xFF, 0xFF, 0xFF, 0xF8]),
                (103, &[0]),
            ],
            Some(ElfFault::SegmentWraps(0)),
        ),
        (
            &[(80, &[0; 8]), (103, &[0]), (104, &[0x80])],
            Some(ElfFault::TooLarge),
        ),
        (
            &[(84, &[0x7E, 0xFF, 0xFF, 0xF0]), (111, &[32])],
            Some(ElfFault::StackOverlap(0)),
        ),
        (&[(143, &[0x40])], Some(ElfFault::SharedBlock(0, 1))),
        (&[(71, &[7])], Some(ElfFault::NoText)),
        (&[(31, &[2])], Some(ElfFault::BadEntry)),
    ];
    for &(patches, fault) in &cases {
        let file = patched(rt.alloc(), patches)?;
        assert!(rt; fault_of(rt.alloc(), &file) == fault, "{patches:?}");
    }
    Ok(())
}

#[test]
fn of_two_faults_the_first_is_told(rt: HostRuntime) -> Result<(), Fail> {
    let cases: [(&[Patch], ElfFault); 16] = [
        (&[(0, &[0x7E]), (4, &[1])], ElfFault::NotElf),
        (&[(4, &[1]), (19, &[2])], ElfFault::NotBig64),
        (&[(19, &[2]), (17, &[3])], ElfFault::NotSparcV9),
        (&[(17, &[3]), (57, &[0])], ElfFault::NotExec),
        (&[(57, &[0]), (55, &[64])], ElfFault::NoText),
        (&[(55, &[64]), (56, &[1])], ElfFault::BadPhentsize),
        (&[(56, &[1]), (67, &[3])], ElfFault::Truncated(200)),
        (&[(123, &[3]), (72, &GREATEST)], ElfFault::Interp),
        (
            &[(72, &GREATEST), (103, &[32])],
            ElfFault::SegmentPastEnd(0),
        ),
        (
            &[(79, &[168]), (103, &[32]), (80, &GREATEST)],
            ElfFault::SegmentShort(0),
        ),
        (
            &[(80, &GREATEST), (128, &GREATEST)],
            ElfFault::SegmentWraps(0),
        ),
        (
            &[(128, &GREATEST), (104, &[0x80])],
            ElfFault::SegmentPastEnd(1),
        ),
        (
            &[(104, &[0x40]), (84, &[0x7F, 0, 0, 0])],
            ElfFault::TooLarge,
        ),
        (
            &[(84, &[0x7F, 0, 0, 0]), (140, &[0x7F, 0, 0, 8])],
            ElfFault::StackOverlap(0),
        ),
        (&[(143, &[0x40]), (71, &[7])], ElfFault::SharedBlock(0, 1)),
        (&[(71, &[7]), (31, &[2])], ElfFault::NoText),
    ];
    for &(patches, fault) in &cases {
        let file = patched(rt.alloc(), patches)?;
        assert!(rt; fault_of(rt.alloc(), &file) == Some(fault), "{patches:?}");
    }
    Ok(())
}

#[test]
fn a_file_ends_behind_its_table(rt: HostRuntime) -> Result<(), Fail> {
    let table = [segment(5, 0, 0x10_0000, 64)];
    let file = executable(rt.alloc(), 0x10_0000, &table, &[])?;
    let cases = [
        (120, None),
        (119, Some(ElfFault::Truncated(119))),
        (64, Some(ElfFault::Truncated(64))),
        (63, Some(ElfFault::Truncated(63))),
        (0, Some(ElfFault::Truncated(0))),
    ];
    for &(size, fault) in &cases {
        let part = &file[..file.len().min(size)];
        assert!(rt; fault_of(rt.alloc(), part) == fault, "{size} bytes");
    }
    let none = executable(rt.alloc(), 0, &[], &[])?;
    assert!(rt; fault_of(rt.alloc(), &none) == Some(ElfFault::NoText));
    Ok(())
}

// As the GNU linker lays it out: the text has the file's headers too, and there are headers of other kinds.
fn linked(alloc: Global) -> Result<Vec<u8>, AllocError> {
    let note = ProgramHeader {
        kind: 4,
        ..segment(4, 0x128, 0x10_0128, 4)
    };
    let stack = ProgramHeader {
        kind: 0x6474_E551,
        ..segment(7, 0, 0, 0)
    };
    let data = ProgramHeader {
        memsz: 24,
        ..segment(6, 0x12C, 0x20_012C, 8)
    };
    let headers = [segment(5, 0, 0x10_0000, 0x12C), data, note, stack];
    // two words of text, a note, and eight bytes of data
    let rest = b"\x90\x10\x20\x2A\x91\xD0\x20\x12note\x0A\x0B\x0C\x0D\x0E\x0F\x10\x11";
    executable(alloc, 0x10_0120, &headers, rest)
}

#[test]
fn what_the_linker_makes_is_loaded(rt: HostRuntime) -> Result<(), Fail> {
    let image = load(rt.alloc(), &linked(rt.alloc())?)?;
    assert!(rt; image.entry() == 0x10_0120);
    let words = [
        (0x10_0000, Some(0x7F45_4C46)),
        (0x10_0120, Some(0x9010_202A)),
        (0x10_0124, Some(0x91D0_2012)),
        (0x10_0122, None),
        (0x10_012C, None),
        (0x0F_FFFC, None),
        (0x20_012C, None),
        (0x7F00_0000, None),
    ];
    for &(pc, word) in &words {
        assert!(rt; image.fetch(pc) == word, "at {pc:x}");
    }
    let bytes = [
        (0x10_0123, 0x2A),
        (0x20_012B, 0),
        (0x20_012C, 0x0A),
        (0x20_0133, 0x11),
        (0x20_0134, 0),
        (0x20_0143, 0),
        (0x20_0144, 0),
        (0x7F00_0000, 0),
    ];
    for &(a, byte) in &bytes {
        assert!(rt; image.byte(Addr(a)) == byte, "at {a:x}");
    }
    let rights = [
        (0x10_0124, Size::B8, true, false),
        (0x10_0125, Size::B8, false, false),
        (0x20_012B, Size::B1, false, false),
        (0x20_012C, Size::B4, true, true),
        (0x20_013C, Size::B8, true, true),
        (0x20_0143, Size::B1, true, true),
        (0x20_0143, Size::B2, false, false),
        (0x7EFF_FFFF, Size::B1, false, false),
        (0x7F00_0000, Size::B8, true, true),
        (0x7F00_FFFC, Size::B8, false, false),
        (0x7F3F_FFF8, Size::B8, true, true),
        (0x7F40_0000, Size::B1, false, false),
    ];
    for &(a, size, read, write) in &rights {
        assert!(rt; image.may_read(Addr(a), size) == read, "reads {a:x}");
        assert!(rt; image.may_write(Addr(a), size) == write, "writes {a:x}");
    }
    Ok(())
}

#[test]
fn segments_may_fall_and_end_memory(rt: HostRuntime) -> Result<(), Fail> {
    // the last 16 bytes of memory, one that may be run and written, one of no bytes, and text below them
    let headers = [
        segment(5, 288, 0xFFFF_FFFF_FFFF_FFF0, 16),
        segment(7, 304, 0x3000, 4),
        segment(5, 0, 0x2010, 0),
        segment(5, 308, 0x2000, 4),
    ];
    let rest = b"0123456789abcdefWXYZtext";
    let image = load(rt.alloc(), &executable(rt.alloc(), 0x2000, &headers, rest)?)?;
    let cases = [
        (0x2000, Some(0x7465_7874), 0x74),
        (0x2004, None, 0),
        (0x2010, None, 0),
        (0x3000, None, 0x57),
        (0x3003, None, 0x5A),
        (0xFFFF_FFFF_FFFF_FFF0, Some(0x3031_3233), 0x30),
        (0xFFFF_FFFF_FFFF_FFFC, Some(0x6364_6566), 0x63),
        (0xFFFF_FFFF_FFFF_FFEC, None, 0),
        (0, None, 0),
    ];
    for &(a, word, byte) in &cases {
        assert!(rt; image.fetch(a) == word, "at {a:x}");
        assert!(rt; image.byte(Addr(a)) == byte, "at {a:x}");
    }
    Ok(())
}

#[test]
fn the_least_pair_that_shares_a_block_is_told(rt: HostRuntime) -> Result<(), Fail> {
    // Where each of four segments of 16 bytes begins, and the pair.
    let cases = [
        ([0x1000, 0x2000, 0x3000, 0x4000], None),
        (
            [0x1000, 0x2000, 0x1070, 0x2000],
            Some(ElfFault::SharedBlock(0, 2)),
        ),
        (
            [0x4000, 0x3000, 0x2000, 0x3010],
            Some(ElfFault::SharedBlock(1, 3)),
        ),
        (
            [0x4000, 0x3000, 0x2078, 0x2080],
            Some(ElfFault::SharedBlock(2, 3)),
        ),
        ([0x4000, 0x3000, 0x2070, 0x2080], None),
        (
            [0x4010, 0x3000, 0x4000, 0x4020],
            Some(ElfFault::SharedBlock(0, 2)),
        ),
    ];
    for &(starts, fault) in &cases {
        let [first, second, third, fourth] = starts;
        let headers = [
            segment(5, 0, first, 16),
            segment(5, 0, second, 16),
            segment(5, 0, third, 16),
            segment(5, 0, fourth, 16),
        ];
        let file = executable(rt.alloc(), first, &headers, &[])?;
        assert!(rt; fault_of(rt.alloc(), &file) == fault, "{starts:?}");
    }
    Ok(())
}

#[test]
fn spans_go_by_address(rt: HostRuntime) -> Result<(), Fail> {
    let image = load(rt.alloc(), &small(rt.alloc())?)?;
    let spans = image.spans();
    assert!(rt; spans.len() == 2);
    assert!(rt; (spans[0].first, spans[0].len) == (0x10_0000, 16));
    assert!(rt; (spans[1].first, spans[1].len) == (0x10_0080, 8));
    Ok(())
}
