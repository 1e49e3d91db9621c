//! The registers that a step reads and writes, by their numbers.

ghost use Rattle.std.specs.Prelude.{◌≡◌, ◌<◌, All, IfSome, option_map};
ghost use Rattle.rsim_base.specs.Limits.{arch_registers};
ghost use Rattle.rsim_base.specs.declared.processor.ArchReg.{ArchReg as RegisterNumber};
ghost use Rattle.sparc_meaning.specs.Fetched.{IsFetched};
ghost use Rattle.sparc_meaning.specs.Registers as spec;

use crate::arch::place;
use crate::fetched::Fetched;
use rsim_base::ArchReg;

// The condition codes.
const CODES: ArchReg = ArchReg(136);

// Y.
const Y: ArchReg = ArchReg(137);

// A register of a window.
fn number(window: u8, r: u8) -> ArchReg
    requires window { window < 8 }
    requires register { r < 32 }
    ensures value { result.0 ≡ spec.number window r }
    ensures below { result.0 < arch_registers }
{
    if r < 8 {
        ArchReg(r)
    } else {
        ArchReg(8 + place(window, r) as u8)
    }
}

// A register of a window, if one is named.
fn number_of(named: Option<u8>, window: u8) -> Option<ArchReg>
    requires window { window < 8 }
    requires register { IfSome named (λ r. r < 32) }
    ensures value { option_map (λ (n : RegisterNumber). n.0) result ≡ option_map (spec.number window) named }
    ensures below { IfSome result (λ n. n.0 < arch_registers) }
{
    match named {
        Some(r) => Some(number(window, r)),
        None => None,
    }
}

// A register, if it is named.
fn number_if(named: bool, r: ArchReg) -> Option<ArchReg>
    requires { r.0 < arch_registers }
    ensures value { option_map (λ (n : RegisterNumber). n.0) result ≡ spec.number_if named r.0 }
    ensures below { IfSome result (λ n. n.0 < arch_registers) }
{
    if named { Some(r) } else { None }
}

impl Fetched {
    /// The registers that it reads: the first register, that of operand 2, the one that is stored or kept or a service's
    /// argument, the condition codes and Y. Register 0 is read too, and is 0.
    #[tactic(auto, unfolding(crate::specs::Registers::reads))]
    pub fn sources(&self) -> [Option<ArchReg>; 5]
        requires fetched { IsFetched self.now }
        ensures value { spec.numbers_of result ≡ spec.reads self.now }
        ensures below { All (λ n. IfSome n (λ r. r.0 < arch_registers)) result }
    {
        let named = self.named_sources();
        let window = self.read_in();
        [
            number_of(named.a, window),
            number_of(named.b, window),
            number_of(named.c, window),
            number_if(named.cc, CODES),
            number_if(named.y, Y),
        ]
    }

    /// The registers that it writes: that of its result, the condition codes and Y. Register 0 is never written.
    #[tactic(auto, unfolding(crate::specs::Registers::destinations))]
    pub fn dests(&self) -> [Option<ArchReg>; 3]
        requires fetched { IsFetched self.now }
        ensures value { spec.numbers_of result ≡ spec.destinations self.now }
        ensures below { All (λ n. IfSome n (λ r. r.0 < arch_registers)) result }
    {
        let named = self.named_dest();
        [
            number_of(named.reg, self.written_in()),
            number_if(named.cc, CODES),
            number_if(named.y, Y),
        ]
    }
}
