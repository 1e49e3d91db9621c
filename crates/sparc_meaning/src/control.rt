//! The next pair of pc and npc, and what ends a processor (SPARC V9, 6.3 and section 7).

ghost use Rattle.std.specs.Prelude.{◌≡◌, ◌<◌};
ghost use Rattle.sparc_meaning.specs.Stepped as spec;

use crate::acts::{Act, Spoken};
use crate::arch::{Arch, End, O0};
use crate::traps::TRAP_INSTRUCTION;
use rsim_base::Pair;

/// To a target at once, as at an entry.
pub fn at_once_to(target: u64) -> Pair
    ensures { result ≡ spec.at_once_to target }
{
    Pair {
        pc: target,
        npc: target.wrapping_add(4),
    }
}

/// To the next instruction.
pub fn straight(pair: Pair) -> Pair
    ensures { result ≡ spec.straight pair }
{
    at_once_to(pair.npc)
}

/// To the delay slot, and then the target.
pub fn by_slot_to(target: u64, pair: Pair) -> Pair
    ensures { result ≡ spec.by_slot_to target pair }
{
    Pair {
        pc: pair.npc,
        npc: target,
    }
}

/// Where a branch leads. `always` says that it has no condition.
pub fn branched(always: bool, goes: bool, annul: bool, target: u64, pair: Pair) -> Pair
    ensures { result ≡ spec.branched always goes annul target pair }
{
    match (goes, annul) {
        (true, true) if always => at_once_to(target),
        (true, _) => by_slot_to(target, pair),
        (false, true) => Pair {
            pc: pair.npc.wrapping_add(4),
            npc: pair.npc.wrapping_add(8),
        },
        (false, false) => straight(pair),
    }
}

impl Arch {
    ghost use Rattle.sparc_meaning.specs.Stepped.{pair_of, at, next, then_to, service, trapped};

    /// The pair of the instruction that the processor is at.
    pub(crate) fn pair(&self) -> Pair
        ensures { result ≡ pair_of self.now }
    {
        Pair {
            pc: self.pc,
            npc: self.npc,
        }
    }

    /// To this pair.
    pub(crate) fn go_to(&mut self, pair: Pair)
        ensures { self.new ≡ at pair self.old }
    {
        self.pc = pair.pc;
        self.npc = pair.npc;
    }

    /// To the next instruction, with this done beside.
    pub(crate) fn go_on(&mut self, act: Act) -> Act
        ensures state { self.new ≡ next self.old }
        ensures act { result ≡ act }
    {
        self.go_to(straight(self.pair()));
        act
    }

    /// To the delay slot, and then the target.
    pub(crate) fn then_to(&mut self, target: u64)
        ensures { self.new ≡ then_to target self.old }
    {
        self.go_to(by_slot_to(target, self.pair()));
    }

    /// Ends the processor, and changes nothing else.
    pub(crate) fn stop(&mut self, end: End) -> Act
        ensures state { self.new ≡ record self.old { end = end } }
        ensures act { result ≡ Act.End }
    {
        self.end = end;
        Act::End
    }

    /// Ends the processor by a trap at its pc.
    pub(crate) fn trap(&mut self, number: u16) -> Act
        ensures { record { state = self.new; act = result } ≡ trapped number self.old }
    {
        self.stop(End::Trapped(number, self.pc))
    }

    /// A trap instruction of this number: a service, or a trap that ends the processor.
    pub(crate) fn serve(&mut self, number: u16) -> Act
        requires window { self.old.cwp < 8 }
        requires number { number < 128 }
        ensures { record { state = self.new; act = result } ≡ service number self.old }
    {
        let argument = self.register(O0);
        match number {
            16 => self.stop(End::Exit(argument)),
            17 => self.go_on(Act::Out(Spoken::Byte((argument % 256) as u8))),
            18 => self.go_on(Act::Out(Spoken::Number(argument))),
            _ => self.trap(TRAP_INSTRUCTION + number),
        }
    }
}
