// Two processors that run one program over a flat store: what they make is worked by hand.
ghost use Rattle.std.specs.Prelude.{◌≡◌, false, IfOk};

use cycle_loop::Machine;
use elf64_load::load;
use machine_config::read;
use memory_contracts::FlatStore;
use rsim_base::{Access, Addr, Kind, MAX_STEPS, Node, Size};
use sparc_meaning::End;
use std::alloc::{AllocError, Global};
use std::process::Abort;
use std::test::Fail;

// The headers of an executable, up to the sizes of its one segment: ELF64, big-endian, SPARC V9; the
// segment may be read and run, has its bytes at 120 of the file, and begins at 0x100000, the entry.
const HEADERS: [u8; 96] = [
    0x7F, b'E', b'L', b'F', 2, 2, 1, 0, 0, 0, 0, 0, 0, 0, 0, 0, // class, data, version
    0, 2, 0, 43, 0, 0, 0, 1, // an executable for SPARC V9
    0, 0, 0, 0, 0, 0x10, 0, 0, // e_entry
    0, 0, 0, 0, 0, 0, 0, 64, // e_phoff
    0, 0, 0, 0, 0, 0, 0, 0, 0, 0, 0, 0, // no sections, no flags
    0, 64, 0, 56, 0, 1, 0, 0, 0, 0, 0, 0, // one program header of 56 bytes
    0, 0, 0, 1, 0, 0, 0, 5, // PT_LOAD, read and run
    0, 0, 0, 0, 0, 0, 0, 120, // p_offset
    0, 0, 0, 0, 0, 0x10, 0, 0, // p_vaddr
    0, 0, 0, 0, 0, 0x10, 0, 0, // p_paddr
];

// Each processor stores 1 to a word of its own, and puts what it loads from the other's. The words are in the first
// stack, at its start and 64 bytes behind.
const STORE_BUFFERING: [u32; 8] = [
    0x031F_C000, // sethi %hi(0x7F000000), %g1
    0x852A_2006, // sll %o0, 6, %g2
    0x8610_2001, // or %g0, 1, %g3
    0xC670_4002, // stx %g3, [%g1 + %g2]
    0x8418_A040, // xor %g2, 64, %g2
    0xD058_4002, // ldx [%g1 + %g2], %o0
    0x91D0_2012, // ta 18: put %o0
    0x91D0_2010, // ta 16: exit with %o0
];

const WORD: u64 = 0x7F00_0000;

fn executable(alloc: Global, words: &[u32]) -> Result<Vec<u8>, AllocError> {
    let size = (words.len() as u64).wrapping_mul(4).to_be_bytes();
    let mut file = Vec::from_slice(alloc, &HEADERS)?;
    for &part in &[size, size, 8u64.to_be_bytes()] {
        file.extend_from_slice(&part)?;
    }
    for word in words {
        file.extend_from_slice(&word.to_be_bytes())?;
    }
    Ok(file)
}

fn made(alloc: Global) -> Result<Machine<FlatStore>, Fail>
    ensures { IfOk result (λ m. m.closed ≡ false) }
{
    let image = load(alloc, &executable(alloc, &STORE_BUFFERING)?)?;
    let config = read(alloc, b"processors 2\nmesh_width 2\nline 64\n")?;
    let store = FlatStore::make(alloc, &image, &config)?;
    let machine = Machine::make(alloc, image, config, store)?;
    Ok(machine)
}

// So many cycles.
fn run(rt: &impl Abort, machine: &mut Machine<FlatStore>, count: u8) -> Result<(), Fail>
    requires { machine.old.closed ≡ false }
    ensures { machine.new.closed ≡ false }
{
    for _ in 0..count {
        assert!(rt; machine.cycles() < MAX_STEPS);
        machine.cycle()?;
    }
    Ok(())
}

fn both_retired(rt: &impl Abort, machine: &Machine<FlatStore>, steps: u32) {
    assert!(rt; machine.processors() == 2);
    assert!(rt; machine.retired(Node(0)) == steps);
    assert!(rt; machine.retired(Node(1)) == steps);
}

fn access(p: u8, index: u32, kind: Kind, addr: u64, loaded: u64, stored: u64) -> Access {
    Access {
        node: Node(p),
        kind,
        size: Size::B8,
        index,
        addr: Addr(addr),
        loaded,
        stored,
    }
}

#[test]
fn processors_wait_for_their_lines(rt: HostRuntime) -> Result<(), Fail> {
    let mut machine = made(rt.alloc())?;
    both_retired(&rt, &machine, 0);
    run(&rt, &mut machine, 3)?;
    both_retired(&rt, &machine, 3);
    // Each asks for the line that it stores to, and has it after the next tick.
    run(&rt, &mut machine, 1)?;
    both_retired(&rt, &machine, 3);
    assert!(rt; machine.take_final() == None);
    run(&rt, &mut machine, 1)?;
    both_retired(&rt, &machine, 4);
    assert!(rt; machine.take_final() == Some(access(0, 0, Kind::Store, WORD, 0, 1)));
    assert!(rt; machine.cycles() == 5);
    assert!(rt; !machine.done());
    Ok(())
}

#[test]
fn both_load_what_the_other_has_stored(rt: HostRuntime) -> Result<(), Fail> {
    let mut machine = made(rt.alloc())?;
    run(&rt, &mut machine, 9)?;
    assert!(rt; !machine.done());
    run(&rt, &mut machine, 1)?;
    assert!(rt; machine.done());
    both_retired(&rt, &machine, 8);
    assert!(rt; machine.processors() == 2);
    for &p in &[Node(0), Node(1)] {
        assert!(rt; p.0 < 2);
        assert!(rt; machine.end(p) == End::Exit(1));
        assert!(rt; machine.output(p) == b"1\n".as_slice());
    }
    assert!(rt; machine.unperformed() == 0);
    machine.close();
    assert!(rt; machine.take_final() == Some(access(0, 0, Kind::Store, WORD, 0, 1)));
    assert!(rt; machine.take_final() == Some(access(1, 0, Kind::Store, WORD + 64, 0, 1)));
    assert!(rt; machine.take_final() == Some(access(0, 1, Kind::Load, WORD + 64, 1, 0)));
    assert!(rt; machine.take_final() == Some(access(1, 1, Kind::Load, WORD, 1, 0)));
    assert!(rt; machine.take_final() == None);
    Ok(())
}
