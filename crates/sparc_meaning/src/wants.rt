//! What the next step reads from memory.

ghost use Rattle.std.specs.Prelude.{◌≡◌, ◌<◌, ◌≤◌, ℕ, true, false};
ghost use Rattle.sparc_decode.specs.Ranges.{IsInRange};
ghost use Rattle.sparc_meaning.specs.Arch.{IsSound, is_running};
ghost use Rattle.sparc_meaning.specs.Acts.{IsAlignedWant, reads};
ghost use Rattle.sparc_meaning.specs.Step.{step, instr_at as spec_instr_at};
ghost use Rattle.sparc_meaning.specs.Wants.{load_at, atomic_at};

use crate::acts::Want;
use crate::arch::{Arch, ArchPhase};
use crate::fetching::instr_at;
use elf64_load::Image;
use rsim_base::{Addr, Size};
use sparc_decode::{FormKind, Instr, kind};

/// The access by which the next step reads memory, if it makes one; a step that traps or only stores
/// makes none.
pub fn peek(arch: &Arch, image: &Image) -> Want
    requires sound { IsSound arch.now }
    ensures ended { is_running arch.now.end ≡ false → result ≡ Want.Ended }
    ensures wants { is_running arch.now.end ≡ true → (value : ℕ) → result ≡ reads (step image.now arch.now value).act }
    ensures aligned { IsAlignedWant result }
{
    let i = instr_at(image, arch.pc);
    peek_at(arch, &i, image)
}

/// As `peek`, where `i` is the instruction at pc.
pub fn peek_at(arch: &Arch, i: &Instr, image: &Image) -> Want
    requires sound { IsSound arch.now }
    requires fetched { i.now ≡ spec_instr_at image.now arch.now.pc }
    requires registers { IsInRange i.now }
    ensures ended { is_running arch.now.end ≡ false → result ≡ Want.Ended }
    ensures wants { is_running arch.now.end ≡ true → (value : ℕ) → result ≡ reads (step image.now arch.now value).act }
    ensures aligned { IsAlignedWant result }
{
    if arch.end.is_running() {
        arch.wants(i, image)
    } else {
        Want::Ended
    }
}

// A load, where its address may be read.
fn load(n: Size, addr: u64, image: &Image) -> Want
    ensures value { result ≡ load_at n addr image.now }
    ensures aligned { IsAlignedWant result }
{
    if addr % n.count() == 0 && image.may_read(Addr(addr), n) {
        Want::Load(Addr(addr), n)
    } else {
        Want::None
    }
}

// An atomic, where its address may be read and written.
fn atomic(n: Size, addr: u64, image: &Image) -> Want
    ensures value { result ≡ atomic_at n addr image.now }
    ensures aligned { IsAlignedWant result }
{
    if addr % n.count() == 0 && image.may_read(Addr(addr), n) && image.may_write(Addr(addr), n) {
        Want::Atomic(Addr(addr), n)
    } else {
        Want::None
    }
}

impl Arch {
    ghost use Rattle.sparc_meaning.specs.Wants.{wanted, by_fill, by_instr, by_kind};
    ghost use Rattle.sparc_decode.specs.Kinds.{kind as kind_of};

    // What a step reads, by what the processor is at.
    #[tactic(auto, unfolding(crate::specs::Wants::wanted))]
    fn wants(&self, i: &Instr, image: &Image) -> Want
        requires sound { IsSound self.now }
        requires fetched { i.now ≡ spec_instr_at image.now self.now.pc }
        requires registers { IsInRange i.now }
        ensures value { result ≡ wanted image.now self.now }
        ensures aligned { IsAlignedWant result }
    {
        match self.phase {
            ArchPhase::Run => self.instr_wants(i, image),
            ArchPhase::Spill(_) => Want::None,
            ArchPhase::Fill(k) => self.fill_wants(k, image),
        }
    }

    // What step `k` of a fill reads.
    fn fill_wants(&self, k: u8, image: &Image) -> Want
        requires sound { IsSound self.now }
        ensures value { result ≡ by_fill k image.now self.now }
        ensures aligned { IsAlignedWant result }
    {
        load(Size::B8, self.fill_slot(k), image)
    }

    // What an instruction reads, or the first step of the fill that it needs.
    fn instr_wants(&self, i: &Instr, image: &Image) -> Want
        requires sound { IsSound self.now }
        requires registers { IsInRange i.now }
        ensures value { result ≡ by_instr i.now image.now self.now }
        ensures aligned { IsAlignedWant result }
    {
        if self.spills_first(i) {
            Want::None
        } else if self.fills_first(i) {
            self.fill_wants(0, image)
        } else {
            self.kind_wants(i, image)
        }
    }

    // What an instruction reads itself.
    #[tactic(auto, unfolding(crate::specs::Wants::by_kind))]
    fn kind_wants(&self, i: &Instr, image: &Image) -> Want
        requires sound { IsSound self.now }
        requires registers { IsInRange i.now }
        ensures value { result ≡ by_kind (kind_of i.now.op) image.now i.now self.now }
        ensures aligned { IsAlignedWant result }
    {
        match kind(i.op) {
            FormKind::Loads(n) => load(n, self.total(i), image),
            FormKind::LoadsAndStoresByte => atomic(Size::B1, self.total(i), image),
            FormKind::Swaps => atomic(Size::B4, self.total(i), image),
            FormKind::ComparesAndSwaps(n) => atomic(n, self.first(i), image),
            _ => Want::None,
        }
    }
}
