//! The registers of a core against plain lists, and each call at its edges.

ghost use Rattle.std.specs.Prelude.{◌≡◌, ◌+◌, ◌<◌, ◌≤◌, All, length, vec_len};

use rename::{RenameMap, laws};
use rsim_base::{ARCH_REGISTERS, ArchReg, PhysReg, Renamed};
use sparc_meaning::{Arch, ArchPhase, End};
use std::alloc::{AllocError, Global};
use std::mem;
use std::test::Fail;

const EXTRA: u16 = 3;

const ALL: u16 = 141;

// A state with something else in every register: 0x100 + n in global n, 0x200 + n in windowed register n.
fn state() -> Arch {
    let mut windowed = [0; 128];
    for (register, value) in windowed.iter_mut().zip(0x200..) {
        *register = value;
    }
    Arch {
        globals: [0x100, 0x101, 0x102, 0x103, 0x104, 0x105, 0x106, 0x107],
        windowed,
        cc: 0xA5,
        y: 0x7777,
        pc: 0,
        npc: 4,
        cwp: 0,
        cansave: 6,
        canrestore: 0,
        phase: ArchPhase::Run,
        end: End::Running,
    }
}

// What register p holds at first.
fn first_value(p: u16) -> Option<u64> {
    match p {
        0..8 => Some(0x100 + u64::from(p)),
        8..136 => Some(0x200 + u64::from(p) - 8),
        136 => Some(0xA5),
        137 => Some(0x7777),
        _ => None,
    }
}

// The registers of a core of which some are taken, the oldest take first.
#[derive(Drop)]
struct Core {
    map: RenameMap,
    taken: Vec<Renamed>,
    ghost count: { length map.values ≡ 141 },
    ghost room: { length map.free + vec_len taken ≤ 3 },
    ghost within: { All (λ t. (t.reg.0 < 138) × (t.new.0 < 141) × (t.old.0 < 141)) taken.items },
}

impl Core {
    fn make(alloc: Global) -> Result<Core, Fail> {
        Ok(Core {
            map: RenameMap::make(alloc, EXTRA, &state())?,
            taken: Vec::new(alloc),
        })
    }

    fn lookup(&self, r: u8) -> Option<u16> {
        (r < ARCH_REGISTERS).then(|| self.map.lookup(ArchReg(r)).0)
    }

    fn value(&self, p: u16) -> Option<u64> {
        if p < ALL {
            self.map.value(PhysReg(p))
        } else {
            None
        }
    }

    fn write(&mut self, p: u16, value: u64) {
        if p < ALL {
            self.map.write(PhysReg(p), value);
        }
    }

    // The new and the old register.
    fn take(&mut self, r: u8) -> Result<Option<(u16, u16)>, AllocError> {
        if r >= ARCH_REGISTERS {
            return Ok(None);
        }
        let Ok(taken) = self.map.take(ArchReg(r)) else {
            return Ok(None);
        };
        self.taken.push(taken)?;
        Ok(Some((taken.new.0, taken.old.0)))
    }

    // The oldest take retires.
    fn retire(&mut self) -> bool {
        if self.taken.is_empty() {
            return false;
        }
        let oldest = self.taken.remove(0);
        self.map.release(oldest.old);
        true
    }

    // The youngest take is undone.
    fn undo(&mut self) -> bool {
        let Some(youngest) = self.taken.pop() else {
            return false;
        };
        self.map.back_to(youngest);
        true
    }
}

// The same in plain lists.
#[derive(Drop)]
struct Plain {
    current: Vec<u16>,
    free: Vec<u16>,
    values: Vec<Option<u64>>,
    taken: Vec<(u8, u16, u16)>,
}

impl Plain {
    fn make(alloc: Global) -> Result<Plain, AllocError> {
        Ok(Plain {
            current: (0..138u16).collect(alloc)?,
            free: [138, 139, 140].to_vec(alloc)?,
            values: (0..ALL).map(first_value).collect(alloc)?,
            taken: Vec::new(alloc),
        })
    }

    fn write(&mut self, p: u16, value: Option<u64>) {
        if let Some(place) = self.values.get_mut(usize::from(p)) {
            *place = value;
        }
    }

    // The register that held r before.
    fn hold(&mut self, r: u8, p: u16) -> Option<u16> {
        let place = self.current.get_mut(usize::from(r))?;
        Some(mem::replace(place, p))
    }

    fn take(&mut self, r: u8) -> Result<Option<(u16, u16)>, AllocError> {
        if self.free.is_empty() {
            return Ok(None);
        }
        let new = self.free.remove(0);
        let old = self.hold(r, new).unwrap_or(new);
        self.write(new, None);
        self.taken.push((r, new, old))?;
        Ok(Some((new, old)))
    }

    fn retire(&mut self) -> Result<bool, AllocError> {
        if self.taken.is_empty() {
            return Ok(false);
        }
        let (_, _, old) = self.taken.remove(0);
        self.free.push(old)?;
        Ok(true)
    }

    fn undo(&mut self) -> Result<bool, AllocError> {
        let Some((r, new, old)) = self.taken.pop() else {
            return Ok(false);
        };
        self.hold(r, old);
        self.free.push(new)?;
        Ok(true)
    }
}

// Whether both show the same registers.
fn agree(core: &Core, plain: &Plain) -> bool {
    (0..ARCH_REGISTERS).all(|r| core.lookup(r) == plain.current.get(usize::from(r)).copied())
        && (0..ALL).all(|p| Some(core.value(p)) == plain.values.get(usize::from(p)).copied())
}

// Call number `call` on both, with one answer.
fn answers_agree(
    core: &mut Core,
    plain: &mut Plain,
    call: u64,
    at: u64,
) -> Result<bool, AllocError> {
    const REGS: [u8; 5] = [0, 7, 8, 136, 137];
    let r = REGS[(at % 5) as usize];
    Ok(match call {
        0..4 => core.take(r)? == plain.take(r)?,
        4 | 5 => core.retire() == plain.retire()?,
        6 => core.undo() == plain.undo()?,
        _ => {
            let p = (133 + at % 8) as u16;
            core.write(p, at);
            plain.write(p, Some(at));
            true
        }
    })
}

// After make each architectural register is held by the register of its number, and holds its part of the state.
#[test]
fn the_first_registers_hold_the_state(rt: HostRuntime) -> Result<(), Fail> {
    let core = Core::make(rt.alloc())?;
    for r in 0..ARCH_REGISTERS {
        let p = u16::from(r);
        assert!(rt;
            core.lookup(r) == Some(p) && core.value(p) == first_value(p),
            "register {r}"
        );
    }
    for p in u16::from(ARCH_REGISTERS)..ALL {
        assert!(rt; core.value(p).is_none(), "register {p}");
    }
    Ok(())
}

// Three registers are free at first, and the fourth take is refused and changes nothing. A register is free again behind
// those that are, where the oldest take retires or the youngest is undone.
#[test]
fn registers_come_round(rt: HostRuntime) -> Result<(), Fail> {
    laws::operands_name_their_writers();
    laws::holders_keep_their_values();
    laws::operands_in_flight_are_named();
    let mut core = Core::make(rt.alloc())?;
    assert!(rt; core.map.free_count() == 3);
    for &(r, taken) in &[
        (5, Some((138, 5))),
        (5, Some((139, 138))),
        (137, Some((140, 137))),
        (5, None),
    ] {
        assert!(rt; core.take(r)? == taken, "register {r}");
    }
    assert!(rt; core.lookup(5) == Some(139) && core.map.free_count() == 0);
    core.write(139, 9);
    assert!(rt; core.retire() && core.map.free_count() == 1);
    assert!(rt; core.undo());
    assert!(rt; core.lookup(137) == Some(137));
    assert!(rt; core.take(6)? == Some((5, 6)));
    assert!(rt; core.value(5).is_none() && core.value(139) == Some(9));
    assert!(rt; core.undo());
    assert!(rt; core.lookup(6) == Some(6));
    assert!(rt; core.undo());
    assert!(rt; !core.undo() && !core.retire());
    assert!(rt; core.lookup(5) == Some(138));
    Ok(())
}

// With no register beyond the first nothing can be taken; most of all, 65,536 registers, can be had.
#[test]
fn none_and_most_are_free(rt: HostRuntime) -> Result<(), Fail> {
    let mut map = RenameMap::make(rt.alloc(), 0, &state())?;
    assert!(rt; map.take(ArchReg(0)).is_err());
    assert!(rt; map.lookup(ArchReg(0)) == PhysReg(0));
    let mut map = RenameMap::make(rt.alloc(), 65_398, &state())?;
    assert!(rt; map.free_count() == 65_398);
    let mut last = None;
    for _ in 0..65_398u16 {
        last = map.take(ArchReg(1)).ok();
    }
    let youngest = Renamed {
        reg: ArchReg(1),
        new: PhysReg(65_535),
        old: PhysReg(65_534),
    };
    assert!(rt; last == Some(youngest));
    assert!(rt; map.take(ArchReg(1)).is_err());
    Ok(())
}

#[test]
fn a_script_answers_as_lists_do(rt: HostRuntime) -> Result<(), Fail> {
    let mut core = Core::make(rt.alloc())?;
    let mut plain = Plain::make(rt.alloc())?;
    assert!(rt; agree(&core, &plain));
    for step in 0..400u64 {
        let mixed = (9 * step + 1) % 97;
        let same = answers_agree(&mut core, &mut plain, mixed % 8, step / 3)?;
        assert!(rt; same && agree(&core, &plain), "step {step}");
    }
    Ok(())
}
