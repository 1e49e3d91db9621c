//! What a processor runs next, what that reads, and what it does to the state once it is computed.

ghost use Rattle.std.specs.Prelude.{◌≡◌, ◌<◌, ◌≤◌, IfSome, IsTrue};
ghost use Rattle.sparc_decode.specs.Effects.{window_effect_of};
ghost use Rattle.sparc_decode.specs.Kinds.{kind as kind_of};
ghost use Rattle.sparc_meaning.specs.Applied as spec;
ghost use Rattle.sparc_meaning.specs.Arch.{IsSound};
ghost use Rattle.sparc_meaning.specs.Fetched as part;
ghost use Rattle.sparc_meaning.specs.Fetched.{IsFetched};

use crate::acts::{Act, Spoken};
use crate::arch::{Arch, ArchPhase, L0, O6, below};
use crate::fetched::{Computed, Fetched, Operands};
use crate::fetching::instr_at;
use crate::windows::{oldest, one_less_kept, one_more_kept, window_above, window_below};
use elf64_load::Image;
use rsim_base::{Addr, Size, Window};
use sparc_alu::{cas_result, load_extend};
use sparc_decode::{
    Dest, FormKind, Instr, Sources, WindowEffect, dest, kind, sources, window_effect,
};

// The last step of a spill or fill.
const LAST: u8 = 15;

/// Does to the state what a step does that has computed this, with the value that it has loaded, and says what it does
/// beside. A step that ends the processor changes `end` alone.
pub fn apply(arch: &mut Arch, f: &Fetched, x: &Operands, c: &Computed, loaded: u64) -> Act
    requires fetched { IsFetched f.now }
    ensures { record { state = arch.new; act = result } ≡ spec.applied f.now x.now c.now loaded arch.old }
{
    if !c.end.is_running() {
        return arch.stop(c.end);
    }
    arch.advance_by(f, c, loaded);
    f.act(x, c, loaded)
}

// What is put into the output, if anything.
fn spoken(out: Option<Spoken>) -> Act
    ensures { result ≡ spec.spoken out }
{
    match out {
        Some(words) => Act::Out(words),
        None => Act::Nothing,
    }
}

impl Arch {
    // The part of an instruction that the processor runs next.
    fn part_of(&self, i: &Instr) -> ArchPhase
        ensures { result ≡ part.part_of self.now.phase i.now.op self.now }
    {
        match self.phase {
            ArchPhase::Run if self.spills_first(i) => ArchPhase::Spill(0),
            ArchPhase::Run if self.fills_first(i) => ArchPhase::Fill(0),
            phase => phase,
        }
    }

    // The value of a register that is read, and 0 of none.
    fn value_at(&self, register: Option<u8>, window: u8) -> u64
        requires window { window < 8 }
        requires register { IfSome register (λ r. r < 32) }
        ensures { result ≡ part.value_at register window self.now }
    {
        match register {
            Some(r) => self.register_of(window, r),
            None => 0,
        }
    }

    // Writes the destinations, and goes to the next pair in the windows after the step.
    fn advance_by(&mut self, f: &Fetched, c: &Computed, loaded: u64)
        requires fetched { IsFetched f.now }
        ensures { self.new ≡ spec.advanced f.now c.now loaded self.old }
    {
        let named = f.named_dest();
        if let Some(r) = named.reg {
            self.set_register_of(f.written_in(), r, f.result(c, loaded));
        }
        if named.cc {
            self.cc = c.cc;
        }
        if named.y {
            self.y = c.y;
        }
        self.go_to(c.next);
        self.set_window(f.windows_after());
        self.phase = f.phase_after();
    }
}

impl Operands {
    /// The values of what a step reads, in a state.
    pub fn of(f: &Fetched, arch: &Arch) -> Operands
        requires fetched { IsFetched f.now }
        ensures { result ≡ part.operands f.now arch.now }
    {
        let named = f.named_sources();
        let window = f.read_in();
        Operands {
            a: arch.value_at(named.a, window),
            b: arch.value_at(named.b, window),
            c: arch.value_at(named.c, window),
            cc: if named.cc { arch.cc } else { 0 },
            y: if named.y { arch.y } else { 0 },
        }
    }
}

impl Fetched {
    /// What the next step of a processor runs.
    pub fn next_of(arch: &Arch, image: &Image) -> Fetched
        requires sound { IsSound arch.now }
        ensures value { result ≡ part.next_of image.now arch.now }
        ensures fetched { IsFetched result }
    {
        let instr = instr_at(image, arch.pc);
        Fetched {
            pair: arch.pair(),
            window: arch.window(),
            part: arch.part_of(&instr),
            instr,
        }
    }

    /// What it reads.
    pub(crate) fn named_sources(&self) -> Sources
        requires fetched { IsFetched self.now }
        ensures value { result ≡ part.sources_by self.now.part self.now.instr }
        ensures first { IfSome result.a (λ r. r < 32) }
        ensures second { IfSome result.b (λ r. r < 32) }
        ensures third { IfSome result.c (λ r. r < 32) }
    {
        match self.part {
            ArchPhase::Run => sources(&self.instr),
            ArchPhase::Spill(k) => Sources {
                a: Some(O6),
                b: None,
                c: Some(L0 + k),
                cc: false,
                y: false,
            },
            ArchPhase::Fill(_) => Sources {
                a: Some(O6),
                b: None,
                c: None,
                cc: false,
                y: false,
            },
        }
    }

    /// The window whose registers it reads.
    pub(crate) fn read_in(&self) -> u8
        requires fetched { IsFetched self.now }
        ensures value { result ≡ part.read_in self.now.part self.now.window }
        ensures window { result < 8 }
    {
        match self.part {
            ArchPhase::Run => self.window.cwp,
            ArchPhase::Spill(_) => oldest(self.window),
            ArchPhase::Fill(_) => below(self.window.cwp),
        }
    }

    /// What it writes.
    pub(crate) fn named_dest(&self) -> Dest
        requires fetched { IsFetched self.now }
        ensures value { result ≡ part.dest_by self.now.part self.now.instr }
        ensures register { IfSome result.reg (λ r. r < 32) }
    {
        match self.part {
            ArchPhase::Run => dest(&self.instr),
            ArchPhase::Spill(_) => Dest {
                reg: None,
                cc: false,
                y: false,
            },
            ArchPhase::Fill(k) => Dest {
                reg: Some(L0 + k),
                cc: false,
                y: false,
            },
        }
    }

    /// The windows after it.
    pub fn windows_after(&self) -> Window
        requires fetched { IsFetched self.now }
        ensures value { result ≡ part.windows_by self.now.part self.now.instr self.now.window }
        ensures window { result.cwp < 8 }
    {
        match self.part {
            ArchPhase::Run => self.moved(),
            ArchPhase::Spill(LAST) => one_less_kept(self.window),
            ArchPhase::Fill(LAST) => one_more_kept(self.window),
            ArchPhase::Spill(_) | ArchPhase::Fill(_) => self.window,
        }
    }

    // The windows that the instruction goes to.
    fn moved(&self) -> Window
        requires fetched { IsFetched self.now }
        requires runs { self.now.part ≡ ArchPhase.Run }
        ensures value { result ≡ part.moved (window_effect_of self.now.instr) self.now.window }
        ensures window { result.cwp < 8 }
    {
        match window_effect(&self.instr) {
            WindowEffect::Same | WindowEffect::Flush => self.window,
            WindowEffect::Save => window_above(self.window),
            WindowEffect::Restore => window_below(self.window),
        }
    }

    /// The window whose register it writes.
    pub(crate) fn written_in(&self) -> u8
        requires fetched { IsFetched self.now }
        ensures value { result ≡ part.written_in self.now.part self.now.instr self.now.window }
        ensures window { result < 8 }
    {
        match self.part {
            ArchPhase::Run => self.windows_after().cwp,
            ArchPhase::Spill(_) => oldest(self.window),
            ArchPhase::Fill(_) => below(self.window.cwp),
        }
    }

    // The phase after it.
    fn phase_after(&self) -> ArchPhase
        requires fetched { IsFetched self.now }
        ensures { result ≡ part.phase_after self.now.part }
    {
        match self.part {
            ArchPhase::Run | ArchPhase::Spill(LAST) | ArchPhase::Fill(LAST) => ArchPhase::Run,
            ArchPhase::Spill(k) => ArchPhase::Spill(k + 1),
            ArchPhase::Fill(k) => ArchPhase::Fill(k + 1),
        }
    }

    // The value that is written.
    fn result(&self, c: &Computed, loaded: u64) -> u64
        ensures { result ≡ spec.result_in self.now.part self.now.instr c.now loaded }
    {
        match self.part {
            ArchPhase::Run => self.instr_result(c, loaded),
            ArchPhase::Spill(_) => c.value,
            ArchPhase::Fill(_) => loaded,
        }
    }

    #[tactic(auto, unfolding(crate::specs::Applied::result_by))]
    fn instr_result(&self, c: &Computed, loaded: u64) -> u64
        ensures { result ≡ spec.result_by (kind_of self.now.instr.op) self.now.instr c.now loaded }
    {
        match kind(self.instr.op) {
            FormKind::Loads(_) | FormKind::LoadsAndStoresByte => load_extend(self.instr.op, loaded),
            FormKind::Swaps | FormKind::ComparesAndSwaps(_) => load_extend(self.instr.op, loaded),
            _ => c.value,
        }
    }

    // What it does beside.
    fn act(&self, x: &Operands, c: &Computed, loaded: u64) -> Act
        ensures { result ≡ spec.act_in self.now.part self.now x.now c.now loaded }
    {
        match self.part {
            ArchPhase::Run => self.instr_act(x, c, loaded),
            ArchPhase::Spill(_) => Act::Store(Addr(c.addr), Size::B8, x.c),
            ArchPhase::Fill(_) => Act::Load(Addr(c.addr), Size::B8, loaded),
        }
    }

    #[tactic(auto, unfolding(crate::specs::Applied::act_by))]
    fn instr_act(&self, x: &Operands, c: &Computed, loaded: u64) -> Act
        ensures { result ≡ spec.act_by (kind_of self.now.instr.op) self.now x.now c.now loaded }
    {
        let addr = Addr(c.addr);
        match kind(self.instr.op) {
            FormKind::Fences => Act::Fence(self.instr.mask),
            FormKind::Loads(n) => Act::Load(addr, n, loaded),
            FormKind::Stores(n) => Act::Store(addr, n, n.low(x.c)),
            FormKind::LoadsAndStoresByte => Act::Atomic(addr, Size::B1, loaded, 0xff),
            FormKind::Swaps => Act::Atomic(addr, Size::B4, loaded, Size::B4.low(x.c)),
            FormKind::ComparesAndSwaps(n) => self.compared(n, x, c, loaded),
            _ => spoken(c.out),
        }
    }

    // A compare-and-swap: the register is stored where memory has the second operand.
    fn compared(&self, n: Size, x: &Operands, c: &Computed, loaded: u64) -> Act
        ensures { result ≡ spec.compared n self.now x.now c.now loaded }
    {
        let stored = cas_result(loaded, self.second(x), n.low(x.c), n);
        Act::Atomic(Addr(c.addr), n, loaded, stored)
    }
}
